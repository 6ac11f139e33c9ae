//! A map from public keys to private keys. A lookup compares points, whatever is in their buffers
//! after the encoding.
ghost use Rattle.std.specs.Prelude.{◌≡◌, ◌≢◌, Some, OnOk, OnErr, IfErr, IsOkAnd};
ghost use Rattle.std.specs.Option.{option_map};
ghost use Rattle.sec1.specs.EncodedPoints.{point_of};
ghost use Rattle.sec1.specs.Points.{Point};
ghost use Rattle.sec1.specs.declared.point.EncodedPoint.{EncodedPoint};
ghost use Rattle.curves.specs.declared.curve.Curve.TheVariants.{Secp256r1};
ghost use Rattle.examples.specs.KeyReading.{IsPublicKeyOf};
ghost use Rattle.examples.specs.KeyStores.{kept};
ghost use Rattle.pkix.specs.EcKeys.{HasPoint, IsOnCurve};
ghost use Rattle.pkix.specs.declared.public_key.SubjectPublicKeyInfo.{SubjectPublicKeyInfo};

use crate::callers::reading::read_public_key;
use sec1::der::{ErrorKind, Result, SecretDocument};
use sec1::point::EncodedPoint32;
use std::collections::BTreeMap;

/// Documents of private keys, by their public keys on the curve P-256.
pub type KeyStore = BTreeMap<EncodedPoint32, SecretDocument>;

/// Keeps a document for a point, in place of an earlier one.
///
/// # Errors
///
/// Memory if the allocation of an entry fails. The store is unchanged then.
pub fn keep(store: &mut KeyStore, point: EncodedPoint32, document: SecretDocument) -> Result<()>
    // The document is found by any value of the point, and those of other points are unchanged.
    ensures same { (again : EncodedPoint 32 65) → point_of again ≡ point_of point
        → OnOk result (kept store.new (point_of again) ≡ Some document) }
    ensures others { (other : EncodedPoint 32 65) → point_of other ≢ point_of point
        → kept store.new (point_of other) ≡ kept store.old (point_of other) }
    ensures refused { OnErr result (store.new.entries ≡ store.old.entries) }
    ensures kind { IfErr result (λ e. e.kind ≡ ErrorKind.Memory) }
{
    store.insert(point, document)?;
    Ok(())
}

/// Borrows the document of a point.
pub fn find<'s>(store: &'s KeyStore, point: &EncodedPoint32) -> Option<&'s SecretDocument>
    ensures value { option_map (λ document. document.now) result
        ≡ kept store.now (point_of point.now) }
    ensures any_value { (again : EncodedPoint 32 65) → point_of again ≡ point_of point.now
        → option_map (λ document. document.now) result ≡ kept store.now (point_of again) }
{
    store.get(point)
}

/// Borrows the document of a certificate's public key, given the DER encoding of its
/// SubjectPublicKeyInfo (RFC 5280 section 4.1).
///
/// # Errors
///
/// Those of [`read_public_key`].
pub fn find_by_public_key<'s>(
    store: &'s KeyStore,
    bytes: &[u8],
) -> sec1::Result<Option<&'s SecretDocument>>
    ensures { (info : SubjectPublicKeyInfo) (point : Point) → IsPublicKeyOf info bytes.now
        → IsOnCurve Secp256r1 info.algorithm → HasPoint 32 info point
        → IsOkAnd result
        (λ found. option_map (λ document. document.now) found ≡ kept store.now point) }
{
    let point = read_public_key(bytes)?;
    Ok(find(store, &point))
}
