//! The place at which bytes are refused as an EC private key's, in either form:
//! `sec1_private_key_fault_at`.
ghost use Rattle.std.specs.Prelude.{◌≡◌, ◌≢◌, ◌≤◌, ◌+◌, false, IsTrue, length, Some};
ghost use Rattle.curves.specs.declared.curve.Curve.{Curve};
ghost use Rattle.der_view.specs.FaultPlaces.{container_place};
ghost use Rattle.der_view.specs.FaultPlaces.{key_place};
ghost use Rattle.der_view.specs.declared.faults.Position.{Position};
ghost use Rattle.pkix.specs.EcKeys.{IsOnCurve, NamesCurve};
ghost use Rattle.pkix.specs.declared.private_key.OneAsymmetricKey.{OneAsymmetricKey};
ghost use Rattle.sec1.specs.Keys.{Key, IsKeyOf};
ghost use Rattle.sec1_c.specs.Containers.{IsContainer, container_algorithm_start};
ghost use Rattle.sec1_c.specs.FaultPlaces.{StoresFault};
ghost use Rattle.sec1_c.specs.PrivateKeys.{IsKeyIn, has_algorithm};
ghost use Rattle.sec1_c.specs.PrivateKeys.{inside_curve_start, inside_start};
ghost use Rattle.sec1_c.specs.Statuses.{curve_number, kind_number, other_curve_number};

use super::{has_algorithm, names_curve};
use crate::container::fault::tell_curve;
use crate::container::{self, read_container};
use crate::fault::{sec1_key_fault_at, tell};
use crate::key::{KeyParts, sec1_key_read};
use crate::status::{OK, kind_number, other_curve_number};
use curves::Curve;
use der_view::faults;
use pkix::OneAsymmetricKey;

/// Returns what `sec1_private_key_read` returns, and stores the offset of the fault. Of bytes that
/// aren't a key by itself or a container, and of a key in one, it is that of the first fault from
/// left to right; of a container that names no curve of the table, that of the tag byte of the
/// algorithm; of a key that names another curve than its container, that of the first byte of the
/// content of the identifier in the key. `offset` is unchanged if `sec1_private_key_read` reads the
/// bytes.
///
/// # Errors
///
/// Returns the numbers of `sec1_private_key_read`.
#[unsafe(no_mangle)]
#[tactic(auto, using(crate::proofs::PrivateKeyLemmas::forms_apart))]
pub extern "C" fn sec1_private_key_fault_at(bytes: &[u8], offset: &mut usize) -> u32
    ensures contained { (container : OneAsymmetricKey) (curve : Curve) (key : Key)
        → IsKeyIn container curve key bytes.now → NamesCurve curve key
        → (result ≡ 0) × (offset.new ≡ offset.old) }
    ensures no_key { has_algorithm bytes.now ≡ false
        → StoresFault (key_place bytes.now) result offset.old offset.new }
    ensures no_container { (fault : Position) → IsTrue (has_algorithm bytes.now)
        → container_place bytes.now ≡ Some fault
        → StoresFault (Some fault) result offset.old offset.new }
    ensures no_curve { (container : OneAsymmetricKey) → IsContainer container bytes.now
        → ((curve : Curve) → ¬ IsOnCurve curve container.algorithm)
        → (result ≡ curve_number) × (offset.new ≡ container_algorithm_start container bytes.now) }
    ensures no_key_inside { (container : OneAsymmetricKey) (curve : Curve) (fault : Position)
        → IsContainer container bytes.now → IsOnCurve curve container.algorithm
        → key_place container.private_key ≡ Some fault
        → (result ≡ kind_number fault.kind)
        × (offset.new ≡ inside_start container bytes.now + fault.offset) }
    ensures other_curve { (container : OneAsymmetricKey) (curve : Curve) (key : Key)
        → IsKeyIn container curve key bytes.now → ¬ NamesCurve curve key
        → (result ≡ other_curve_number)
        × (offset.new ≡ inside_curve_start container key bytes.now) }
    ensures within { result ≢ 0 → offset.new ≤ length bytes.now }
{
    if has_algorithm(bytes) {
        tell_contained(bytes, offset)
    } else {
        sec1_key_fault_at(bytes, offset)
    }
}

/// Returns 0 if the bytes are a container of an EC private key that names no other curve; otherwise
/// the number of the refusal, and stores its offset.
#[tactic(auto, using(crate::proofs::FaultLemmas::no_container_place))]
fn tell_contained(bytes: &[u8], offset: &mut usize) -> u32
    ensures contained { (container : OneAsymmetricKey) (curve : Curve) (key : Key)
        → IsKeyIn container curve key bytes.now → NamesCurve curve key
        → (result ≡ 0) × (offset.new ≡ offset.old) }
    ensures no_container { (fault : Position) → container_place bytes.now ≡ Some fault
        → StoresFault (Some fault) result offset.old offset.new }
    ensures no_curve { (container : OneAsymmetricKey) → IsContainer container bytes.now
        → ((curve : Curve) → ¬ IsOnCurve curve container.algorithm)
        → (result ≡ curve_number) × (offset.new ≡ container_algorithm_start container bytes.now) }
    ensures no_key_inside { (container : OneAsymmetricKey) (curve : Curve) (fault : Position)
        → IsContainer container bytes.now → IsOnCurve curve container.algorithm
        → key_place container.private_key ≡ Some fault
        → (result ≡ kind_number fault.kind)
        × (offset.new ≡ inside_start container bytes.now + fault.offset) }
    ensures other_curve { (container : OneAsymmetricKey) (curve : Curve) (key : Key)
        → IsKeyIn container curve key bytes.now → ¬ NamesCurve curve key
        → (result ≡ other_curve_number)
        × (offset.new ≡ inside_curve_start container key bytes.now) }
    ensures within { result ≢ 0 → offset.new ≤ length bytes.now }
{
    let Ok(container) = read_container(bytes) else {
        return tell(faults::container_fault(bytes), offset);
    };
    match container.algorithm.curve() {
        Some(curve) => tell_key(bytes, &container, curve, offset),
        None => tell_curve(bytes, &container, offset),
    }
}

/// Returns 0 if the bytes in the container are a key that names this curve or none; otherwise the
/// number of the refusal, and stores its offset.
#[tactic(auto, using(crate::proofs::PrivateKeyLemmas::inside, crate::proofs::FaultLemmas::no_key_place))]
fn tell_key(bytes: &[u8], container: &OneAsymmetricKey, curve: Curve, offset: &mut usize) -> u32
    requires container { IsContainer container.now bytes.now }
    requires curve { IsOnCurve curve container.now.algorithm }
    ensures key { (key : Key) → IsKeyOf key container.now.private_key → NamesCurve curve key
        → (result ≡ 0) × (offset.new ≡ offset.old) }
    ensures no_key { (fault : Position) → key_place container.now.private_key ≡ Some fault
        → (result ≡ kind_number fault.kind)
        × (offset.new ≡ inside_start container.now bytes.now + fault.offset) }
    ensures other_curve { (key : Key) → IsKeyOf key container.now.private_key
        → ¬ NamesCurve curve key
        → (result ≡ other_curve_number)
        × (offset.new ≡ inside_curve_start container.now key bytes.now) }
    ensures within { result ≢ 0 → offset.new ≤ length bytes.now }
{
    let start = container::places(bytes, container, curve).key.offset;
    let inside = container.private_key.bytes;
    let mut parts = KeyParts::absent();
    if sec1_key_read(inside, &mut parts) == OK {
        if names_curve(inside, &parts, curve) {
            return OK;
        }
        *offset = start + parts.curve.offset;
        return other_curve_number();
    }
    match faults::key_fault(inside) {
        Some(fault) => {
            *offset = start + fault.offset;
            kind_number(fault.kind)
        }
        None => OK,
    }
}
