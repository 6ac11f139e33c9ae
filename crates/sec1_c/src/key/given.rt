//! The key that a caller describes by its parts.
ghost use Rattle.std.specs.Prelude.{◌≡◌, List, ℕ, Option, Some, IfSome, IsSome};
ghost use Rattle.std.specs.Option.{option_map};
ghost use Rattle.sec1.specs.Keys.{Key};
ghost use Rattle.sec1_c.specs.GivenKeys.{IsCurveOf, IsGiven, public_key_if};

use sec1::BorrowedKey;
use sec1::der::IdentifierRef;

/// Returns the key with these parts; `None` if `curve` isn't empty, and isn't the content of an
/// identifier.
#[inline(always)]
pub fn key_given<'a>(
    private_key: &'a [u8],
    curve: &'a [u8],
    public_key: &'a [u8],
    has_public_key: usize,
) -> Option<BorrowedKey<'a>>
    ensures found { IfSome result
        (λ key. IsGiven key private_key.now curve.now public_key.now has_public_key) }
    ensures only { (key : Key) → IsGiven key private_key.now curve.now public_key.now has_public_key
        → result ≡ Some key }
    ensures some { (parameters : Option (List ℕ)) → IsCurveOf curve.now parameters → IsSome result }
{
    let curve = curve_given(curve)?;
    Some(BorrowedKey {
        private_key,
        curve,
        public_key: public_key_given(public_key, has_public_key),
    })
}

/// Returns the parameters with this content, none if it is empty; `None` if it isn't the content of
/// an identifier.
#[inline(always)]
fn curve_given(content: &[u8]) -> Option<Option<IdentifierRef<'_>>>
    ensures found { IfSome result (λ parameters. IsCurveOf content.now parameters) }
    ensures only { (parameters : Option (List ℕ)) → IsCurveOf content.now parameters
        → result ≡ Some parameters }
{
    if content.is_empty() {
        return Some(None);
    }
    match IdentifierRef::from_bytes(content) {
        Ok(identifier) => Some(Some(identifier)),
        Err(_) => None,
    }
}

/// Borrows the bytes of the public key, if `has_public_key` isn't 0.
#[inline(always)]
fn public_key_given(bytes: &[u8], has_public_key: usize) -> Option<&[u8]>
    ensures { option_map (λ bytes. bytes.now) result ≡ public_key_if has_public_key bytes.now }
{
    if has_public_key == 0 {
        None
    } else {
        Some(bytes)
    }
}
