//! The place at which bytes are refused as a public key's with its algorithm:
//! `sec1_public_key_fault_at`.
ghost use Rattle.std.specs.Prelude.{◌≡◌, ◌≢◌, ◌≤◌, length, Some};
ghost use Rattle.curves.specs.Curves.{field_len};
ghost use Rattle.curves.specs.declared.curve.Curve.{Curve};
ghost use Rattle.der_view.specs.FaultPlaces.{public_key_place};
ghost use Rattle.der_view.specs.declared.faults.Position.{Position};
ghost use Rattle.pkix.specs.EcKeys.{HasPoint, IsOnCurve};
ghost use Rattle.pkix.specs.declared.public_key.SubjectPublicKeyInfo.{SubjectPublicKeyInfo};
ghost use Rattle.sec1.specs.Points.{Point};
ghost use Rattle.sec1_c.specs.FaultPlaces.{StoresFault};
ghost use Rattle.sec1_c.specs.PublicKeys.{IsEcKey, IsEcKeyInfo, IsInfo, algorithm_start, key_start};
ghost use Rattle.sec1_c.specs.Statuses.{curve_number, error_number};

use crate::fault::tell;
use crate::fields::fields_len;
use crate::point::encoded::status_of;
use crate::status::{OK, curve_number, error_number};
use der_view::faults;
use pkix::SubjectPublicKeyInfo;
use sec1::Error;
use sec1_der::Record;

/// Returns what `sec1_public_key_read` returns, and stores the offset of the first fault from left
/// to right if the bytes aren't a SubjectPublicKeyInfo; otherwise that of the tag byte of the
/// algorithm if it names no curve of the table, or of the BIT STRING if the key isn't a point.
/// `offset` is unchanged if the bytes are those of an EC public key.
///
/// # Errors
///
/// Returns the numbers of `sec1_public_key_read`.
#[unsafe(no_mangle)]
#[tactic(auto, using(crate::proofs::FaultLemmas::no_public_key_place))]
pub extern "C" fn sec1_public_key_fault_at(bytes: &[u8], offset: &mut usize) -> u32
    ensures key { IsEcKeyInfo bytes.now → (result ≡ 0) × (offset.new ≡ offset.old) }
    ensures no_info { (fault : Position) → public_key_place bytes.now ≡ Some fault
        → StoresFault (Some fault) result offset.old offset.new }
    ensures other_curve { (info : SubjectPublicKeyInfo) → IsInfo info bytes.now
        → ((curve : Curve) → ¬ IsOnCurve curve info.algorithm)
        → (result ≡ curve_number) × (offset.new ≡ algorithm_start info bytes.now) }
    ensures no_point { (info : SubjectPublicKeyInfo) (curve : Curve) → IsInfo info bytes.now
        → IsOnCurve curve info.algorithm
        → ((point : Point) → ¬ HasPoint (field_len curve) info point)
        → (result ≡ error_number Error.PointEncoding)
        × (offset.new ≡ key_start info bytes.now) }
    ensures within { result ≢ 0 → offset.new ≤ length bytes.now }
{
    match SubjectPublicKeyInfo::from_der(bytes) {
        Ok(info) => tell_key(bytes, &info, offset),
        Err(_) => tell(faults::public_key_fault(bytes), offset),
    }
}

/// Returns 0 if the SubjectPublicKeyInfo that was read from these bytes is one of an EC public key;
/// otherwise the number of the refusal, and stores the offset of the algorithm or of the key.
fn tell_key(bytes: &[u8], info: &SubjectPublicKeyInfo, offset: &mut usize) -> u32
    requires { IsInfo info.now bytes.now }
    ensures key { (curve : Curve) (point : Point) → IsEcKey curve point info.now
        → (result ≡ 0) × (offset.new ≡ offset.old) }
    ensures other_curve { ((curve : Curve) → ¬ IsOnCurve curve info.now.algorithm)
        → (result ≡ curve_number) × (offset.new ≡ algorithm_start info.now bytes.now) }
    ensures no_point { (curve : Curve) → IsOnCurve curve info.now.algorithm
        → ((point : Point) → ¬ HasPoint (field_len curve) info.now point)
        → (result ≡ error_number Error.PointEncoding)
        × (offset.new ≡ key_start info.now bytes.now) }
    ensures within { result ≢ 0 → offset.new ≤ length bytes.now }
{
    let (algorithm, key) = info.to_parts();
    let key_start = bytes.len() - fields_len(&key);
    let Some(curve) = info.algorithm.curve() else {
        *offset = key_start - fields_len(&algorithm);
        return curve_number();
    };
    let status = match info.public_key.as_bytes() {
        Some(point) => status_of(point, curve.field_len()),
        None => error_number(&Error::PointEncoding),
    };
    if status != OK {
        *offset = key_start;
    }
    status
}
