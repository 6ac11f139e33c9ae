//! The public key in a certificate (RFC 5280 section 4.1): `sec1_certificate_read_public_key`.
ghost use Rattle.std.specs.Prelude.{◌≡◌, ◌≢◌, IsSomeAnd};
ghost use Rattle.pkix.specs.Records.{certificate_fault};
ghost use Rattle.pkix.specs.declared.certificate.Certificate.{Certificate};
ghost use Rattle.sec1_der.specs.Faults.{element_fault, end_fault};
ghost use Rattle.sec1_c.specs.Certificates.{IsCertificate, info_of, info_place};
ghost use Rattle.sec1_c.specs.Places.{StandsAt};
ghost use Rattle.sec1_c.specs.Statuses.{fault_number};

use crate::fields::fields_len;
use crate::span::Span;
use crate::status::{OK, kind_number};
use pkix::Certificate;
use sec1_der::Record;

/// Stores the place of the SubjectPublicKeyInfo in a certificate, which is all of `bytes`. It is
/// the place of a whole element, from which `sec1_public_key_read` reads an EC public key.
///
/// # Errors
///
/// Returns the number of the first fault from left to right if the bytes aren't a certificate, and
/// leaves `part` unchanged.
#[unsafe(no_mangle)]
#[tactic(auto, using(crate::proofs::StatusLemmas::certificate_kind))]
pub extern "C" fn sec1_certificate_read_public_key(bytes: &[u8], part: &mut Span) -> u32
    ensures found { result ≡ 0 → (certificate : Certificate)
        × IsCertificate certificate bytes.now }
    ensures only { (certificate : Certificate) → IsCertificate certificate bytes.now
        → result ≡ 0 }
    ensures part { (certificate : Certificate) → IsCertificate certificate bytes.now
        → IsSomeAnd (info_of certificate) (λ info. StandsAt bytes.now part.new info) }
    ensures place { (certificate : Certificate) → IsCertificate certificate bytes.now
        → part.new ≡ info_place certificate bytes.now }
    ensures kind { result
        ≡ fault_number (element_fault 0x30 certificate_fault end_fault bytes.now) }
    ensures unchanged { result ≢ 0 → part.new ≡ part.old }
{
    match Certificate::from_der(bytes) {
        Ok(certificate) => {
            *part = public_key_place(bytes, &certificate);
            OK
        }
        Err(error) => kind_number(error.kind),
    }
}

/// Returns the place of the SubjectPublicKeyInfo in the certificate that was read from these bytes.
fn public_key_place(bytes: &[u8], certificate: &Certificate) -> Span
    requires { IsCertificate certificate.now bytes.now }
    ensures { result ≡ info_place certificate.now bytes.now }
{
    let (_, after_tbs) = certificate.to_parts();
    let (_, (_, (info, after_info))) = certificate.tbs_certificate.to_parts();
    let end = bytes.len() - fields_len(&after_tbs) - fields_len(&after_info);
    Span::before(end, Some(fields_len(&info)))
}
