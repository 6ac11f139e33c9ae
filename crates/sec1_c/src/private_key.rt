//! EC private keys in either form, by themselves (RFC 5915 section 3) or in a container (RFC 5958
//! section 2): `sec1_private_key_read`.
ghost use Rattle.std.specs.Prelude.{◌≡◌, ◌≢◌, ◌⊎◌, ◌↔◌, ◌+◌, ◌^◌, ◌<◌, false, IsTrue, Some, length};
ghost use Rattle.curves.specs.declared.curve.Curve.{Curve};
ghost use Rattle.der_view.specs.Containers.{container_fault};
ghost use Rattle.std.specs.Prelude.{is_none};
ghost use Rattle.pkix.specs.EcKeys.{IsOnCurve, NamesCurve};
ghost use Rattle.pkix.specs.declared.private_key.OneAsymmetricKey.{OneAsymmetricKey};
ghost use Rattle.sec1.specs.KeyFaults.{key_fault};
ghost use Rattle.sec1.specs.Keys.{Key, IsKeyOf};
ghost use Rattle.sec1_der.specs.Faults.{element_fault, end_fault};
ghost use Rattle.sec1_c.specs.Containers.{IsContainer};
ghost use Rattle.sec1_c.specs.KeyPlaces.{AreWithin, ArePartsOf, IsKey, key_places};
ghost use Rattle.sec1_c.specs.PrivateKeys.{AreContainedPartsOf, IsContained, IsKeyIn};
ghost use Rattle.sec1_c.specs.PrivateKeys.{contained_places, has_algorithm, places_after};
ghost use Rattle.sec1_c.specs.PrivateKeys.{tag_fault};
ghost use Rattle.sec1_c.specs.Statuses.{curve_number, fault_number, kind_number};
ghost use Rattle.sec1_c.specs.Statuses.{other_curve_number};

mod fault;

use crate::container::{self, PrivateKeyInfoParts};
use crate::key::{KeyParts, sec1_key_read};
use crate::span::Span;
use crate::status::{OK, curve_number, kind_number, other_curve_number};
use curves::Curve;
use sec1::der::{ErrorKind, IdentifierRef, SliceReader, Tag};

/// Reads an EC private key, which is all of `bytes`, by itself or in its container, and stores the
/// places of its parts. In a container the curve is that of the algorithm, and one of the table;
/// the key has to name the same curve or none.
///
/// Bytes that begin with a SEQUENCE, and in it an INTEGER and the tag of a SEQUENCE, are read as a
/// container, and all others as a key by itself.
///
/// # Errors
///
/// Returns the number of the first fault from left to right if the bytes aren't a key by itself, or
/// aren't a container, or if those in the container aren't a key; that of a curve that isn't in the
/// table if the container's algorithm isn't id-ecPublicKey with one that is; or that of another
/// curve if the key in the container names another. `parts` is unchanged in each case.
#[unsafe(no_mangle)]
#[tactic(auto, using(crate::proofs::PrivateKeyLemmas::forms_apart))]
pub extern "C" fn sec1_private_key_read(bytes: &[u8], parts: &mut KeyParts) -> u32
    ensures found { result ≡ 0 → IsKey bytes.now ⊎ IsContained bytes.now }
    ensures key { (key : Key) → IsKeyOf key bytes.now
        → (result ≡ 0) × (parts.new ≡ key_places key bytes.now) }
    ensures key_parts { (key : Key) → IsKeyOf key bytes.now → ArePartsOf key bytes.now parts.new }
    ensures contained { (container : OneAsymmetricKey) (curve : Curve) (key : Key)
        → IsKeyIn container curve key bytes.now → NamesCurve curve key
        → (result ≡ 0) × (parts.new ≡ contained_places curve container key bytes.now) }
    ensures contained_parts { (container : OneAsymmetricKey) (curve : Curve) (key : Key)
        → IsKeyIn container curve key bytes.now → NamesCurve curve key
        → AreContainedPartsOf curve key bytes.now parts.new }
    ensures no_key { has_algorithm bytes.now ≡ false → result ≡ fault_number (key_fault bytes.now) }
    ensures no_container { (kind : ErrorKind) → IsTrue (has_algorithm bytes.now)
        → element_fault 0x30 container_fault end_fault bytes.now ≡ Some (Some kind)
        → result ≡ kind_number kind }
    ensures no_curve { (container : OneAsymmetricKey) → IsContainer container bytes.now
        → ((curve : Curve) → ¬ IsOnCurve curve container.algorithm) → result ≡ curve_number }
    ensures no_key_inside { (container : OneAsymmetricKey) (curve : Curve) (kind : ErrorKind)
        → IsContainer container bytes.now → IsOnCurve curve container.algorithm
        → key_fault container.private_key ≡ Some (Some kind) → result ≡ kind_number kind }
    ensures other_curve { (container : OneAsymmetricKey) (curve : Curve) (key : Key)
        → IsKeyIn container curve key bytes.now → ¬ NamesCurve curve key
        → result ≡ other_curve_number }
    ensures unchanged { result ≢ 0 → parts.new ≡ parts.old }
{
    if has_algorithm(bytes) {
        read_contained(bytes, parts)
    } else {
        sec1_key_read(bytes, parts)
    }
}

/// Returns `true` if the bytes begin with a SEQUENCE, and in it an INTEGER and the tag of a
/// SEQUENCE.
fn has_algorithm(bytes: &[u8]) -> bool
    ensures { result ≡ has_algorithm bytes.now }
{
    let Ok(mut content) = SliceReader::new(bytes).open(Tag::SEQUENCE) else {
        return false;
    };
    match content.open(Tag::INTEGER) {
        Ok(_) => begins_with_sequence(content.remaining_input()),
        Err(_) => false,
    }
}

/// Returns `true` if the first byte is the tag of a SEQUENCE.
fn begins_with_sequence(bytes: &[u8]) -> bool
    ensures { result ≡ is_none (tag_fault 0x30 bytes.now) }
{
    match bytes.first() {
        Some(first) => *first == 0x30,
        None => false,
    }
}

/// Reads an EC private key in its container, which is all of `bytes`, and stores the places of its
/// parts. Returns 0, or the number of the refusal.
#[tactic(auto, using(crate::proofs::PrivateKeyLemmas::contained))]
fn read_contained(bytes: &[u8], parts: &mut KeyParts) -> u32
    ensures found { result ≡ 0 → IsContained bytes.now }
    ensures contained { (container : OneAsymmetricKey) (curve : Curve) (key : Key)
        → IsKeyIn container curve key bytes.now → NamesCurve curve key
        → (result ≡ 0) × (parts.new ≡ contained_places curve container key bytes.now) }
    ensures no_container { (kind : ErrorKind)
        → element_fault 0x30 container_fault end_fault bytes.now ≡ Some (Some kind)
        → result ≡ kind_number kind }
    ensures no_curve { (container : OneAsymmetricKey) → IsContainer container bytes.now
        → ((curve : Curve) → ¬ IsOnCurve curve container.algorithm) → result ≡ curve_number }
    ensures no_key_inside { (container : OneAsymmetricKey) (curve : Curve) (kind : ErrorKind)
        → IsContainer container bytes.now → IsOnCurve curve container.algorithm
        → key_fault container.private_key ≡ Some (Some kind) → result ≡ kind_number kind }
    ensures other_curve { (container : OneAsymmetricKey) (curve : Curve) (key : Key)
        → IsKeyIn container curve key bytes.now → ¬ NamesCurve curve key
        → result ≡ other_curve_number }
    ensures unchanged { result ≢ 0 → parts.new ≡ parts.old }
{
    let container = match container::read_container(bytes) {
        Ok(container) => container,
        Err(error) => return kind_number(error.kind),
    };
    let Some(curve) = container.algorithm.curve() else {
        return curve_number();
    };
    let inside = container.private_key.bytes;
    let mut inner = KeyParts::absent();
    let status = sec1_key_read(inside, &mut inner);
    if status != OK {
        return status;
    }
    if !names_curve(inside, &inner, curve) {
        return other_curve_number();
    }
    let outer = container::places(bytes, &container, curve);
    *parts = places_in(&outer, &inner);
    OK
}

/// Returns `true` if the key in these bytes, whose parts have these places, names this curve or
/// none.
#[tactic(auto, using(crate::proofs::PrivateKeyLemmas::names))]
fn names_curve(bytes: &[u8], parts: &KeyParts, curve: Curve) -> bool
    requires { AreWithin bytes.now parts.now }
    ensures { (key : Key) → IsKeyOf key bytes.now → ArePartsOf key bytes.now parts.now
        → IsTrue result ↔ NamesCurve curve key }
{
    let Span {
        offset,
        len,
        present,
    } = parts.curve;
    if present == 0 {
        return true;
    }
    match IdentifierRef::from_bytes(&bytes[offset..][..len]) {
        Ok(named) => named.to_identifier() == curve.identifier(),
        Err(_) => false,
    }
}

/// Returns the places of the parts of a key in a container, whose parts have these places. Those of
/// the key have these in its own bytes.
fn places_in(outer: &PrivateKeyInfoParts, inner: &KeyParts) -> KeyParts
    requires private_key { outer.now.key.offset + inner.now.private_key.offset < 2 ^ 64 }
    requires public_key { outer.now.key.offset + inner.now.public_key.offset < 2 ^ 64 }
    ensures { result ≡ places_after outer.now inner.now }
{
    KeyParts {
        private_key: inner.private_key.shifted(outer.key.offset),
        curve: outer.curve,
        public_key: inner.public_key.shifted(outer.key.offset),
    }
}
