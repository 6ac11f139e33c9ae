ghost use Rattle.sec1.specs.Keys.{IsKeyOf, Key};
ghost use Rattle.sec1.specs.Points.{IsPoint, Point, compressed_point, encoding};
ghost use Rattle.std.specs.Box.{boxed_slice_items};
ghost use Rattle.std.specs.Prelude.{◌≡◌, MatchResult, Some};

use sec1::point::EncodedPoint32;
use sec1::{EcPrivateKey, Error, Result};
use std::alloc::Global;
use std::boxed::BoxedSlice;

/// Returns the public key of a key on a field of 256 bits, in its compressed form.
pub fn compressed_public_key(alloc: Global, bytes: &[u8]) -> Result<BoxedSlice<u8>>
    ensures { (key : Key) (p : Point) → IsKeyOf key bytes.now → IsPoint 32 p
        → key.public_key ≡ Some (encoding 32 p)
        → MatchResult result (λ point. boxed_slice_items point ≡ encoding 32 (compressed_point p))
        (λ e. e ≡ Error.Memory) }
{
    let key = EcPrivateKey::try_from(bytes)?;
    let Some(public_key) = key.public_key else {
        return Err(Error::Crypto);
    };
    let point = EncodedPoint32::from_bytes(public_key)?;
    point.compress().to_bytes(alloc)
}
