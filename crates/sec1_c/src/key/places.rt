//! The places of a key's parts: each is found from the end of the bytes, by the lengths of the
//! fields after it.
ghost use Rattle.std.specs.Prelude.{◌≡◌, ◌≤◌, ◌∷◌, length, IfSome};
ghost use Rattle.std.specs.Option.{option_map};
ghost use Rattle.sec1.specs.Der.{element, max_length};
ghost use Rattle.sec1.specs.Keys.{IsKeyOf};
ghost use Rattle.sec1_c.specs.KeyPlaces.{content_len, key_places, parameters_bytes};
ghost use Rattle.sec1_c.specs.KeyPlaces.{public_key_bytes};
ghost use Rattle.sec1_c.specs.Places.{span_before};

use super::KeyParts;
use crate::span::Span;
use sec1::der::{ExplicitBits, IdentifierRef};
use sec1::{BorrowedKey, der};

/// The most bytes of a public key around which both headers of the field `[1]` have two bytes each.
const MAX_SHORT_KEY: usize = 124;

/// An optional field: the place of its part, and its length in bytes.
#[derive(Clone, Copy)]
struct Field {
    part: Span,
    len: usize,
}

/// Returns the places of the key's parts in its bytes.
#[inline(always)]
pub fn places(bytes: &[u8], key: &BorrowedKey) -> KeyParts
    requires { IsKeyOf key.now bytes.now }
    ensures { result ≡ key_places key.now bytes.now }
{
    let end = bytes.len();
    let public_key = public_key_field(end, key.public_key);
    let end = end - public_key.len;
    let curve = curve_field(end, &key.curve);
    let end = end - curve.len;
    KeyParts {
        private_key: Span::before(end, Some(key.private_key.len())),
        curve: curve.part,
        public_key: public_key.part,
    }
}

/// Returns the field `[0]` that ends at `end`. Its two headers have two bytes each.
#[tactic(auto, using(crate::proofs::FieldLemmas::parameters_counted))]
fn curve_field(end: usize, curve: &Option<IdentifierRef>) -> Field
    requires { length (parameters_bytes curve.now) ≤ end }
    ensures part { result.part ≡ span_before end (option_map content_len curve.now) }
    ensures len { result.len ≡ length (parameters_bytes curve.now) }
{
    match curve {
        Some(curve) => {
            let len = curve.as_bytes().len();
            Field {
                part: Span::before(end, Some(len)),
                len: len + 4,
            }
        }
        None => Field {
            part: Span::before(end, None),
            len: 0,
        },
    }
}

/// Returns the field `[1]` that ends at `end`. Around a short key its two headers have two bytes
/// each, and the bit string begins with one byte more.
#[tactic(auto, using(crate::proofs::FieldLemmas::public_key_counted))]
fn public_key_field(end: usize, public_key: Option<&[u8]>) -> Field
    requires fits { IfSome (option_map (λ bytes. bytes.now) public_key) (λ bytes.
        length (element 0x03 (0 ∷ bytes)) ≤ max_length) }
    requires room { IfSome (option_map (λ bytes. bytes.now) public_key) (λ bytes.
        length bytes ≤ end) }
    ensures part { result.part ≡ span_before end
        (option_map (λ bytes. length bytes) (option_map (λ bytes. bytes.now) public_key.entry)) }
    ensures len { result.len
        ≡ length (public_key_bytes (option_map (λ bytes. bytes.now) public_key.entry)) }
{
    let Some(bytes) = public_key else {
        return Field {
            part: Span::before(end, None),
            len: 0,
        };
    };
    let part = Span::before(end, Some(bytes.len()));
    if bytes.len() <= MAX_SHORT_KEY {
        let len = bytes.len() + 5;
        return Field { part, len };
    }
    match der::encoded_len(&ExplicitBits { bytes }) {
        Ok(len) => Field { part, len },
        Err(_) => unreachable!(),
    }
}
