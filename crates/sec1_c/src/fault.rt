//! The place at which bytes are refused as a key's, a tree's, a signature's or a certificate's:
//! `sec1_key_read_at`, `sec1_key_fault_at`, `sec1_tree_fault_at`, `sec1_signature_fault_at` and
//! `sec1_certificate_fault_at`.
ghost use Rattle.std.specs.Prelude.{◌≡◌, ◌≢◌, ◌≤◌, length};
ghost use Rattle.der_view.specs.FaultPlaces.{certificate_place};
ghost use Rattle.der_view.specs.FaultPlaces.{key_place, tree_place};
ghost use Rattle.der_view.specs.FaultPlaces.{signature_place};
ghost use Rattle.pkix.specs.Records.{certificate_fault, signature_fault};
ghost use Rattle.sec1.specs.KeyFaults.{key_fault};
ghost use Rattle.sec1.specs.Keys.{Key, IsKeyOf};
ghost use Rattle.sec1_der.specs.Faults.{element_fault, end_fault};
ghost use Rattle.sec1_der.specs.Faults.{tree_fault};
ghost use Rattle.sec1_c.specs.FaultPlaces.{StoresFault};
ghost use Rattle.sec1_c.specs.KeyPlaces.{AreWithin, ArePartsOf, IsKey, key_places};
ghost use Rattle.sec1_c.specs.Statuses.{fault_number};

use crate::key::{KeyParts, sec1_key_read};
use crate::status::{OK, kind_number};
use der_view::faults::{self, Position};

/// Reads a private key as `sec1_key_read` does, and stores the places of its parts; or stores, as
/// `sec1_key_fault_at` does, the offset of the first fault.
///
/// # Errors
///
/// Returns the numbers of `sec1_key_read`, and leaves `parts` unchanged. `fault_offset` is
/// unchanged if the bytes are those of a key.
#[unsafe(no_mangle)]
#[tactic(auto, using(crate::proofs::FaultLemmas::no_key_place))]
pub extern "C" fn sec1_key_read_at(
    bytes: &[u8],
    parts: &mut KeyParts,
    fault_offset: &mut usize,
) -> u32
    ensures found { result ≡ 0 → IsKey bytes.now }
    ensures parts { (key : Key) → IsKeyOf key bytes.now → ArePartsOf key bytes.now parts.new }
    ensures places { (key : Key) → IsKeyOf key bytes.now → parts.new ≡ key_places key bytes.now }
    ensures inside { result ≡ 0 → AreWithin bytes.now parts.new }
    ensures place { StoresFault (key_place bytes.now) result fault_offset.old fault_offset.new }
    ensures kind { result ≡ fault_number (key_fault bytes.now) }
    ensures within { result ≢ 0 → fault_offset.new ≤ length bytes.now }
    ensures unchanged { result ≢ 0 → parts.new ≡ parts.old }
{
    match sec1_key_read(bytes, parts) {
        OK => OK,
        _ => sec1_key_fault_at(bytes, fault_offset),
    }
}

/// Returns what `sec1_key_read` returns, and stores the offset of the first fault from left to
/// right: of the tag byte, of the first byte of the length or of the content that is refused, or of
/// the first byte after the last part. `offset` is unchanged if the bytes are those of a key.
///
/// # Errors
///
/// Returns the numbers of `sec1_key_read`.
#[unsafe(no_mangle)]
pub extern "C" fn sec1_key_fault_at(bytes: &[u8], offset: &mut usize) -> u32
    ensures place { StoresFault (key_place bytes.now) result offset.old offset.new }
    ensures kind { result ≡ fault_number (key_fault bytes.now) }
    ensures within { result ≢ 0 → offset.new ≤ length bytes.now }
{
    tell(faults::key_fault(bytes), offset)
}

/// Returns what `sec1_tree_check` returns, and stores the offset of the first fault from left to
/// right: of the tag byte, of the first byte of the length or of the element that is refused, or of
/// the first byte after the tree. `offset` is unchanged if the bytes are those of a tree.
///
/// # Errors
///
/// Returns the numbers of `sec1_tree_check`.
#[unsafe(no_mangle)]
pub extern "C" fn sec1_tree_fault_at(bytes: &[u8], offset: &mut usize) -> u32
    ensures place { StoresFault (tree_place bytes.now) result offset.old offset.new }
    ensures kind { result ≡ fault_number (tree_fault bytes.now) }
    ensures within { result ≢ 0 → offset.new ≤ length bytes.now }
{
    tell(faults::tree_fault(bytes), offset)
}

/// Returns what `sec1_signature_read` returns, and stores the offset of the first fault from left
/// to right: of the tag byte, of the first byte of the length or of the number that is refused, or
/// of the first byte after a part. `offset` is unchanged if the bytes are those of a signature.
///
/// # Errors
///
/// Returns the numbers of `sec1_signature_read`.
#[unsafe(no_mangle)]
pub extern "C" fn sec1_signature_fault_at(bytes: &[u8], offset: &mut usize) -> u32
    ensures place { StoresFault (signature_place bytes.now) result offset.old offset.new }
    ensures kind { result ≡ fault_number (element_fault 0x30 signature_fault end_fault bytes.now) }
    ensures within { result ≢ 0 → offset.new ≤ length bytes.now }
{
    tell(faults::signature_fault(bytes), offset)
}

/// Returns what `sec1_certificate_read_public_key` returns, and stores the offset of the first
/// fault from left to right: of the tag byte, of the first byte of the length or of the content
/// that is refused, of the first element of a set that isn't in ascending order, or of the first
/// byte after a part. `offset` is unchanged if the bytes are those of a certificate.
///
/// # Errors
///
/// Returns the numbers of `sec1_certificate_read_public_key`.
#[unsafe(no_mangle)]
pub extern "C" fn sec1_certificate_fault_at(bytes: &[u8], offset: &mut usize) -> u32
    ensures place { StoresFault (certificate_place bytes.now) result offset.old offset.new }
    ensures kind { result
        ≡ fault_number (element_fault 0x30 certificate_fault end_fault bytes.now) }
    ensures within { result ≢ 0 → offset.new ≤ length bytes.now }
{
    tell(faults::certificate_fault(bytes), offset)
}

/// Returns the number of a fault's kind and stores its offset; returns 0 if there is none.
pub fn tell(fault: Option<Position>, offset: &mut usize) -> u32
    ensures { StoresFault fault result offset.old offset.new }
{
    match fault {
        Some(fault) => {
            *offset = fault.offset;
            kind_number(fault.kind)
        }
        None => OK,
    }
}
