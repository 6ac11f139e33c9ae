//! Where bytes are refused as a key's, a public key's, a container's, a certificate's, a
//! signature's or a tree's: the offset and the kind of the first fault from left to right. There is
//! one exactly when the reader refuses the bytes, and it has the same kind.
ghost use Rattle.std.specs.Prelude.{◌≡◌, length};
ghost use Rattle.pkix.specs.Records as records;
ghost use Rattle.der_view.specs.Containers.{container_fault};
ghost use Rattle.der_view.specs.FaultPlaces.{IsPlaceOf, certificate_place, container_place};
ghost use Rattle.der_view.specs.FaultPlaces.{key_place, place_of, public_key_place};
ghost use Rattle.der_view.specs.FaultPlaces.{signature_place, tree_place};
ghost use Rattle.sec1.specs.KeyFaults as keys;
ghost use Rattle.sec1_der.specs.Faults as trees;
ghost use Rattle.sec1_der.specs.Faults.{element_fault, end_fault};

mod table;
mod walk;

use crate::grammar::Presence;
use sec1_der::{ErrorKind, MAX_DEPTH};
use table::Rule;

/// Why bytes are refused, and where.
#[derive(Clone, Copy, Debug, PartialEq, Eq)]
pub struct Position {
    /// The number of bytes before it.
    pub offset: usize,
    /// The kind of the error by which the bytes are refused.
    pub kind: ErrorKind,
}

/// Returns the first fault of the bytes as a key's, from left to right; `None` if they are a key's.
#[tactic(auto, using(crate::proofs::FaultLemmas::key_refused))]
pub fn key_fault(bytes: &[u8]) -> Option<Position>
    // Where the fault lies is a function of the bytes.
    ensures place { result ≡ key_place bytes.now }
    // There is one exactly when the bytes are refused as a key's, and it has the same kind.
    ensures refusal { IsPlaceOf (keys.key_fault bytes.now) (length bytes.now) result }
{
    fault_of(0x30, Rule::EcPrivateKey, bytes)
}

/// Returns the first fault of the bytes as those of one tree with at most 64 levels, from left to
/// right; `None` if they are.
#[tactic(auto, using(crate::proofs::FaultLemmas::tree_refused))]
pub fn tree_fault(bytes: &[u8]) -> Option<Position>
    ensures place { result ≡ tree_place bytes.now }
    ensures refusal { IsPlaceOf (trees.tree_fault bytes.now) (length bytes.now) result }
{
    fault_of(0x00, Rule::Tree, bytes)
}

/// Returns the first fault of the bytes as an ECDSA signature's (RFC 3279 section 2.2.3), from left
/// to right; `None` if they are a signature's.
#[tactic(auto, using(crate::proofs::FaultLemmas::signature_refused))]
pub fn signature_fault(bytes: &[u8]) -> Option<Position>
    ensures place { result ≡ signature_place bytes.now }
    ensures refusal { IsPlaceOf (element_fault 0x30 records.signature_fault end_fault bytes.now)
        (length bytes.now) result }
{
    fault_of(0x30, Rule::Signature, bytes)
}

/// Returns the first fault of the bytes as a SubjectPublicKeyInfo's (RFC 5280 section 4.1), from
/// left to right; `None` if they are one's. Whether the algorithm is one of EC keys, and the key a
/// point, isn't tested.
#[tactic(auto, using(crate::proofs::FaultLemmas::public_key_refused))]
pub fn public_key_fault(bytes: &[u8]) -> Option<Position>
    ensures place { result ≡ public_key_place bytes.now }
    ensures refusal { IsPlaceOf (element_fault 0x30 records.public_key_fault end_fault bytes.now)
        (length bytes.now) result }
{
    fault_of(0x30, Rule::PublicKeyInfo, bytes)
}

/// Returns the first fault of the bytes as those of a container of version 0 or 1 (RFC 5958 section
/// 2), from left to right; `None` if they are one's. Whether the algorithm is one of EC keys isn't
/// tested.
#[tactic(auto, using(crate::proofs::FaultLemmas::container_refused))]
pub fn container_fault(bytes: &[u8]) -> Option<Position>
    ensures place { result ≡ container_place bytes.now }
    ensures refusal { IsPlaceOf (element_fault 0x30 container_fault end_fault bytes.now)
        (length bytes.now) result }
{
    fault_of(0x30, Rule::Container, bytes)
}

/// Returns the first fault of the bytes as a certificate's (RFC 5280 section 4.1), from left to
/// right; `None` if they are a certificate's.
#[tactic(auto, using(crate::proofs::FaultLemmas::certificate_refused))]
pub fn certificate_fault(bytes: &[u8]) -> Option<Position>
    ensures place { result ≡ certificate_place bytes.now }
    ensures refusal { IsPlaceOf (element_fault 0x30 records.certificate_fault end_fault bytes.now)
        (length bytes.now) result }
{
    fault_of(0x30, Rule::Certificate, bytes)
}

/// Returns the first fault of the bytes as one element with this tag, whose content meets the rule.
fn fault_of(expected: u8, rule: Rule, bytes: &[u8]) -> Option<Position>
    ensures { result ≡ place_of expected rule bytes.now }
{
    let document = [(expected, Presence::Needed, rule)];
    walk::check(MAX_DEPTH, &document, bytes.len(), bytes).err()
}
