//! The place at which bytes are refused as a private key's container:
//! `sec1_private_key_info_fault_at`.
ghost use Rattle.std.specs.Prelude.{◌≡◌, ◌≢◌, ◌≤◌, length, Some};
ghost use Rattle.curves.specs.declared.curve.Curve.{Curve};
ghost use Rattle.der_view.specs.FaultPlaces.{container_place};
ghost use Rattle.der_view.specs.declared.faults.Position.{Position};
ghost use Rattle.pkix.specs.EcKeys.{IsOnCurve};
ghost use Rattle.pkix.specs.declared.private_key.OneAsymmetricKey.{OneAsymmetricKey};
ghost use Rattle.sec1_c.specs.Containers.{IsContainer, IsEcContainer, container_algorithm_start};
ghost use Rattle.sec1_c.specs.FaultPlaces.{StoresFault};
ghost use Rattle.sec1_c.specs.Statuses.{curve_number};

use super::read_container;
use crate::fault::tell;
use crate::fields::fields_len;
use crate::status::{OK, curve_number};
use der_view::faults;
use pkix::OneAsymmetricKey;
use sec1_der::Record;

/// Returns what `sec1_private_key_info_read` returns, and stores the offset of the first fault from
/// left to right if the bytes aren't a container of version 0 or 1; otherwise that of the tag byte
/// of the algorithm if it names no curve of the table. `offset` is unchanged if the bytes are a
/// container of an EC private key.
///
/// # Errors
///
/// Returns the numbers of `sec1_private_key_info_read`.
#[unsafe(no_mangle)]
#[tactic(auto, using(crate::proofs::FaultLemmas::no_container_place))]
pub extern "C" fn sec1_private_key_info_fault_at(bytes: &[u8], offset: &mut usize) -> u32
    ensures container { IsEcContainer bytes.now → (result ≡ 0) × (offset.new ≡ offset.old) }
    ensures no_container { (fault : Position) → container_place bytes.now ≡ Some fault
        → StoresFault (Some fault) result offset.old offset.new }
    ensures other_curve { (container : OneAsymmetricKey) → IsContainer container bytes.now
        → ((curve : Curve) → ¬ IsOnCurve curve container.algorithm)
        → (result ≡ curve_number) × (offset.new ≡ container_algorithm_start container bytes.now) }
    ensures within { result ≢ 0 → offset.new ≤ length bytes.now }
{
    match read_container(bytes) {
        Ok(container) => tell_curve(bytes, &container, offset),
        Err(_) => tell(faults::container_fault(bytes), offset),
    }
}

/// Returns 0 if the container that was read from these bytes names a curve of the table; otherwise
/// the number of the refusal, and stores the offset of the algorithm.
pub fn tell_curve(bytes: &[u8], container: &OneAsymmetricKey, offset: &mut usize) -> u32
    requires { IsContainer container.now bytes.now }
    ensures curve { (curve : Curve) → IsOnCurve curve container.now.algorithm
        → (result ≡ 0) × (offset.new ≡ offset.old) }
    ensures other_curve { ((curve : Curve) → ¬ IsOnCurve curve container.now.algorithm)
        → (result ≡ curve_number)
        × (offset.new ≡ container_algorithm_start container.now bytes.now) }
    ensures within { result ≢ 0 → offset.new ≤ length bytes.now }
{
    if container.algorithm.curve().is_some() {
        return OK;
    }
    let (_, ((algorithm, key), after_key)) = container.to_parts();
    let key_end = bytes.len() - fields_len(&after_key);
    *offset = key_end - fields_len(&key) - fields_len(&algorithm);
    curve_number()
}
