//! By which kind bytes are refused, exactly, where a rule leaves no kind open: as structures of
//! `pkix`, as an identifier, and as a record of one's own.
ghost use Rattle.std.specs.Prelude.{◌≡◌, IfErr, IsTrue, MatchResult, None, Some};
ghost use Rattle.examples.specs.Secrets.{secret_fault};
ghost use Rattle.pkix.specs.Records.{asymmetric_key_fault, certificate_fault, private_key_fault};
ghost use Rattle.pkix.specs.Records.{public_key_fault, signature_fault};
ghost use Rattle.sec1_der.specs.Contents.{identifier_fault};
ghost use Rattle.sec1_der.specs.Faults.{HasFault, SaysKinds, element_fault, end_fault};

use crate::documents::stored_secret::StoredSecret;
use pkix::{Certificate, EcdsaSigValue, OneAsymmetricKey, PrivateKeyInfo, SubjectPublicKeyInfo};
use sec1_der::{ObjectIdentifier, Result, from_der};

/// Reads a certificate.
pub fn certificate(bytes: &[u8]) -> Result<Certificate<'_>>
    ensures { let fault = element_fault 0x30 certificate_fault end_fault bytes.now in
        MatchResult result (λ _. fault ≡ None) (λ e. fault ≡ Some (Some e.kind)) }
{
    sec1_der::laws::said_kinds();
    pkix::laws::said_kinds();
    Certificate::from_der(bytes)
}

/// Reads a container of version 0.
pub fn container(bytes: &[u8]) -> Result<PrivateKeyInfo<'_>>
    ensures { let fault = element_fault 0x30 private_key_fault end_fault bytes.now in
        MatchResult result (λ _. fault ≡ None) (λ e. fault ≡ Some (Some e.kind)) }
{
    sec1_der::laws::said_kinds();
    pkix::laws::said_kinds();
    PrivateKeyInfo::from_der(bytes)
}

/// Reads a container of version 1, which may have a public key.
pub fn container_of_both(bytes: &[u8]) -> Result<OneAsymmetricKey<'_>>
    ensures { let fault = element_fault 0x30 asymmetric_key_fault end_fault bytes.now in
        MatchResult result (λ _. fault ≡ None) (λ e. fault ≡ Some (Some e.kind)) }
{
    sec1_der::laws::said_kinds();
    pkix::laws::said_kinds();
    OneAsymmetricKey::from_der(bytes)
}

/// Reads a public key.
pub fn public_key(bytes: &[u8]) -> Result<SubjectPublicKeyInfo<'_>>
    ensures { let fault = element_fault 0x30 public_key_fault end_fault bytes.now in
        MatchResult result (λ _. fault ≡ None) (λ e. fault ≡ Some (Some e.kind)) }
{
    sec1_der::laws::said_kinds();
    pkix::laws::said_kinds();
    SubjectPublicKeyInfo::from_der(bytes)
}

/// Reads a signature.
pub fn signature(bytes: &[u8]) -> Result<EcdsaSigValue<'_>>
    ensures { let fault = element_fault 0x30 signature_fault end_fault bytes.now in
        MatchResult result (λ _. fault ≡ None) (λ e. fault ≡ Some (Some e.kind)) }
{
    sec1_der::laws::said_kinds();
    pkix::laws::said_kinds();
    EcdsaSigValue::from_der(bytes)
}

/// Returns whether two readings of the same bytes agree: both succeed, or both fail by the same
/// kind.
pub fn certificate_twice(bytes: &[u8]) -> bool
    ensures { IsTrue result }
{
    match (certificate(bytes), certificate(bytes)) {
        (Ok(_), Ok(_)) => true,
        (Err(first), Err(second)) => first.kind == second.kind,
        _ => false,
    }
}

/// The rule of an identifier's element leaves no kind open.
#[tactic(auto, using(sec1_der::proofs::KindLaws::kinds_said))]
fn identifier_says()
    ensures { SaysKinds (element_fault 0x06 identifier_fault end_fault) }
{}

/// Reads an identifier.
pub fn identifier(bytes: &[u8]) -> Result<ObjectIdentifier>
    ensures { IfErr result
        (λ e. element_fault 0x06 identifier_fault end_fault bytes.now ≡ Some (Some e.kind)) }
{
    sec1_der::laws::said_kinds();
    identifier_says();
    from_der(bytes)
}

/// The rule of a secret's content leaves no kind open.
#[tactic(auto, using(sec1_der::proofs::KindLaws::kinds_said))]
fn secret_content_says()
    ensures { SaysKinds secret_fault }
{}

/// The rule of a secret's element leaves no kind open.
#[tactic(auto, using(sec1_der::proofs::KindLaws::kinds_said))]
fn secret_says()
    ensures { SaysKinds (element_fault 0x30 secret_fault end_fault) }
{
    secret_content_says();
}

/// Reads a secret.
fn read_secret(bytes: &[u8]) -> Result<StoredSecret<'_>>
    ensures { HasFault result (element_fault 0x30 secret_fault end_fault bytes.now) }
{
    from_der(bytes)
}

/// Reads a secret, which is a record of one's own.
pub fn secret(bytes: &[u8]) -> Result<StoredSecret<'_>>
    ensures { let fault = element_fault 0x30 secret_fault end_fault bytes.now in
        MatchResult result (λ _. fault ≡ None) (λ e. fault ≡ Some (Some e.kind)) }
{
    sec1_der::laws::said_kinds();
    secret_says();
    read_secret(bytes)
}
