//! EC private keys in their containers, PKCS #8 (RFC 5958 section 2): `sec1_private_key_info_read`.
ghost use Rattle.std.specs.Prelude.{◌≡◌, ◌≢◌, Ok, Some, IfOk};
ghost use Rattle.curves.specs.declared.curve.Curve.{Curve};
ghost use Rattle.der_view.specs.Containers.{container_fault};
ghost use Rattle.pkix.specs.EcKeys.{IsOnCurve};
ghost use Rattle.pkix.specs.declared.private_key.OneAsymmetricKey.{OneAsymmetricKey};
ghost use Rattle.sec1_der.specs.Faults.{HasFault, element_fault, end_fault};
ghost use Rattle.sec1_c.specs.Containers.{AreContainerPartsOf, IsContainer, IsEcContainer};
ghost use Rattle.sec1_c.specs.Containers.{container_places, of_version_zero};
ghost use Rattle.sec1_c.specs.Statuses.{curve_number, kind_number};

pub mod fault;
mod write;

use crate::fields::fields_len;
use crate::span::Span;
use crate::status::{OK, curve_number, kind_number};
use curves::Curve;
use pkix::{OneAsymmetricKey, PrivateKeyInfo};
use sec1_der::{ErrorKind, Record, Result};

/// The places of an EC private key's parts in its container.
#[repr(C)]
#[derive(Clone, Copy)]
pub struct PrivateKeyInfoParts {
    /// The content of the curve's object identifier, 5 to 9 bytes.
    pub curve: Span,

    /// The content of the OCTET STRING, which is the private key.
    pub key: Span,
}

/// Reads an EC private key from its container, which is all of `bytes`, and stores the places of
/// its parts. The container is a PrivateKeyInfo of version 0 or a OneAsymmetricKey of version 1,
/// and the curve is one of the table. The private key itself is read by `sec1_key_read`.
///
/// # Errors
///
/// Returns the number of the first fault from left to right if the bytes aren't a container of
/// their version, or if that is neither 0 nor 1; or that of a curve that isn't in the table if the
/// algorithm isn't id-ecPublicKey with one that is. `parts` is unchanged in both cases.
#[unsafe(no_mangle)]
pub extern "C" fn sec1_private_key_info_read(bytes: &[u8], parts: &mut PrivateKeyInfoParts) -> u32
    ensures found { result ≡ 0 → IsEcContainer bytes.now }
    ensures only { (container : OneAsymmetricKey) (curve : Curve)
        → IsContainer container bytes.now → IsOnCurve curve container.algorithm → result ≡ 0 }
    ensures parts { (container : OneAsymmetricKey) (curve : Curve)
        → IsContainer container bytes.now → IsOnCurve curve container.algorithm
        → AreContainerPartsOf curve container bytes.now parts.new }
    ensures places { (container : OneAsymmetricKey) (curve : Curve)
        → IsContainer container bytes.now → IsOnCurve curve container.algorithm
        → parts.new ≡ container_places curve container bytes.now }
    ensures no_container { (kind : ErrorKind)
        → element_fault 0x30 container_fault end_fault bytes.now ≡ Some (Some kind)
        → result ≡ kind_number kind }
    ensures other_curve { (container : OneAsymmetricKey) → IsContainer container bytes.now
        → ((curve : Curve) → ¬ IsOnCurve curve container.algorithm) → result ≡ curve_number }
    ensures unchanged { result ≢ 0 → parts.new ≡ parts.old }
{
    let container = match read_container(bytes) {
        Ok(container) => container,
        Err(error) => return kind_number(error.kind),
    };
    let Some(curve) = container.algorithm.curve() else {
        return curve_number();
    };
    *parts = places(bytes, &container, curve);
    OK
}

/// Reads a container of version 0 or 1. One of version 0 has no public key.
///
/// # Errors
///
/// The first fault from left to right of the version that the bytes have; Value if they have any
/// other version.
#[inline(always)]
pub fn read_container(bytes: &[u8]) -> Result<OneAsymmetricKey<'_>>
    ensures found { IfOk result (λ container. IsContainer container bytes.now) }
    ensures only { (container : OneAsymmetricKey) → IsContainer container bytes.now
        → result ≡ Ok container }
    ensures kind { HasFault result (element_fault 0x30 container_fault end_fault bytes.now) }
{
    match PrivateKeyInfo::from_der(bytes) {
        Ok(info) => Ok(of_version_zero(info)),
        Err(error) => match error.kind {
            // The version comes first, and any but 0 is refused as Value.
            ErrorKind::Value => OneAsymmetricKey::from_der(bytes),
            _ => Err(error),
        },
    }
}

/// Returns the container that a PrivateKeyInfo is.
#[inline(always)]
fn of_version_zero(info: PrivateKeyInfo<'_>) -> OneAsymmetricKey<'_>
    ensures { result ≡ of_version_zero info.entry }
{
    let PrivateKeyInfo {
        algorithm,
        private_key,
        attributes,
    } = info;
    OneAsymmetricKey {
        algorithm,
        private_key,
        attributes,
        public_key: None,
    }
}

/// Returns the places of the parts of the private key whose container was read from these bytes.
#[inline(always)]
pub fn places(bytes: &[u8], container: &OneAsymmetricKey, curve: Curve) -> PrivateKeyInfoParts
    requires container { IsContainer container.now bytes.now }
    requires curve { IsOnCurve curve container.now.algorithm }
    ensures { result ≡ container_places curve container.now bytes.now }
{
    let (_, ((_, key), after_key)) = container.to_parts();
    let key_end = bytes.len() - fields_len(&after_key);
    PrivateKeyInfoParts {
        curve: Span::before(key_end - fields_len(&key), Some(curve.content().len())),
        key: Span::before(key_end, Some(container.private_key.bytes.len())),
    }
}
