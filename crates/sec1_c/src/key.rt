//! Private keys (RFC 5915 section 3): `sec1_key_read`, `sec1_key_len` and `sec1_key_write`.
ghost use Rattle.std.specs.Prelude.{◌≡◌, ◌≢◌, List, ℕ, length};
ghost use Rattle.sec1.specs.KeyFaults.{key_fault};
ghost use Rattle.sec1.specs.Keys.{Key, IsKeyOf};
ghost use Rattle.sec1_der.specs.Elements.{IsProperPrefix};
ghost use Rattle.sec1_c.specs.GivenKeys.{IsGiven, IsNoCurve, IsTooLong};
ghost use Rattle.sec1_c.specs.KeyPlaces.{AreWithin, ArePartsOf, GiveAgain, IsKey, key_places};
ghost use Rattle.sec1_c.specs.Outputs.{StoresLength, Writes, WritesNothing};
ghost use Rattle.sec1_c.specs.Statuses.{IsReadingNumber, fault_number, kind_number};

pub mod given;
pub mod places;

use crate::span::Span;
use crate::status::{OK, error_number, kind_number};
use given::key_given;
use places::places;
use sec1::BorrowedKey;
use sec1::der::ErrorKind;

/// The places of a private key's parts in its bytes.
#[repr(C)]
#[derive(Clone, Copy)]
pub struct KeyParts {
    /// The bytes of the private key. Always present.
    pub private_key: Span,

    /// The content of the curve's object identifier, 1 to 39 bytes.
    pub curve: Span,

    /// The bytes of the public key, which may be none.
    pub public_key: Span,
}

impl KeyParts {
    /// Returns the places of parts of which each is absent.
    pub fn absent() -> KeyParts {
        KeyParts {
            private_key: Span::absent(),
            curve: Span::absent(),
            public_key: Span::absent(),
        }
    }
}

/// Reads a private key from its DER encoding, which is all of `bytes`, and stores the places of its
/// parts.
///
/// # Errors
///
/// Returns the number of the first fault from left to right, and leaves `parts` unchanged:
/// Truncated if the bytes, or the element around a part, end too early; Tag if another tag is
/// expected; Length if a length isn't in the form of DER; Value if a content isn't valid for its
/// tag; TrailingData if bytes follow the last part.
#[unsafe(no_mangle)]
#[tactic(auto, using(crate::proofs::PlaceLemmas::parts_placed))]
pub extern "C" fn sec1_key_read(bytes: &[u8], parts: &mut KeyParts) -> u32
    ensures found { result ≡ 0 → IsKey bytes.now }
    ensures only { (key : Key) → IsKeyOf key bytes.now → result ≡ 0 }
    ensures parts { (key : Key) → IsKeyOf key bytes.now → ArePartsOf key bytes.now parts.new }
    ensures places { (key : Key) → IsKeyOf key bytes.now → parts.new ≡ key_places key bytes.now }
    ensures within { result ≡ 0 → AreWithin bytes.now parts.new }
    ensures again { (key : Key) → IsKeyOf key bytes.now → GiveAgain key bytes.now parts.new }
    ensures kinds { result ≢ 0 → IsReadingNumber result }
    ensures kind { result ≡ fault_number (key_fault bytes.now) }
    ensures unchanged { result ≢ 0 → parts.new ≡ parts.old }
    ensures short { (key : Key) (whole : List ℕ) → IsKeyOf key whole
        → IsProperPrefix bytes.now whole → result ≡ kind_number ErrorKind.Truncated }
    ensures long { (key : Key) (whole : List ℕ) → IsKeyOf key whole
        → IsProperPrefix whole bytes.now → result ≡ kind_number ErrorKind.TrailingData }
{
    match BorrowedKey::try_from(bytes) {
        Ok(key) => {
            *parts = places(bytes, &key);
            OK
        }
        Err(e) => error_number(&e),
    }
}

/// Stores the length in bytes of the DER encoding of the private key with these parts. An empty
/// `curve` names none; any other is the content of an object identifier. There is no public key if
/// `has_public_key` is 0.
///
/// # Errors
///
/// Returns the number of Value if `curve` isn't the content of an identifier, or of Overlength if
/// the private key, the public key or the whole key is longer than an element can be. `len` is
/// unchanged in both cases.
#[unsafe(no_mangle)]
pub extern "C" fn sec1_key_len(
    private_key: &[u8],
    curve: &[u8],
    public_key: &[u8],
    has_public_key: usize,
    len: &mut usize,
) -> u32
    ensures key { (key : Key) (bytes : List ℕ)
        → IsGiven key private_key.now curve.now public_key.now has_public_key → IsKeyOf key bytes
        → StoresLength bytes result len.new }
    ensures no_curve { IsNoCurve curve.now
        → (result ≡ kind_number ErrorKind.Value) × (len.new ≡ len.old) }
    ensures overlength { IsTooLong private_key.now curve.now public_key.now has_public_key
        → (result ≡ kind_number ErrorKind.Overlength) × (len.new ≡ len.old) }
{
    let Some(key) = key_given(private_key, curve, public_key, has_public_key) else {
        return kind_number(ErrorKind::Value);
    };
    store_len(&key, len)
}

/// Stores the length in bytes of the key's DER encoding. Returns the number of Overlength if it has
/// none.
fn store_len(key: &BorrowedKey, len: &mut usize) -> u32
    ensures number { (bytes : List ℕ) → IsKeyOf key.now bytes → result ≡ 0 }
    ensures len { (bytes : List ℕ) → IsKeyOf key.now bytes → len.new ≡ length bytes }
    ensures overlength { ((bytes : List ℕ) → ¬ IsKeyOf key.now bytes)
        → (result ≡ kind_number ErrorKind.Overlength) × (len.new ≡ len.old) }
{
    match key.encoded_len() {
        Ok(found) => {
            *len = found;
            OK
        }
        Err(e) => error_number(&e),
    }
}

/// Writes the DER encoding of the private key with these parts at the beginning of `out`, and
/// stores its length. The parts are those of `sec1_key_len`. The rest of `out` is unchanged.
///
/// # Errors
///
/// Returns the number of Buffer if `out` is too short, and stores the length; otherwise those of
/// `sec1_key_len`, and leaves `len` unchanged. `out` is unchanged in each case.
#[unsafe(no_mangle)]
pub extern "C" fn sec1_key_write(
    private_key: &[u8],
    curve: &[u8],
    public_key: &[u8],
    has_public_key: usize,
    out: &mut [u8],
    len: &mut usize,
) -> u32
    ensures key { (key : Key) (bytes : List ℕ)
        → IsGiven key private_key.now curve.now public_key.now has_public_key → IsKeyOf key bytes
        → Writes bytes out.old out.new result len.new }
    ensures no_curve { IsNoCurve curve.now
        → WritesNothing (kind_number ErrorKind.Value) out.old out.new result len.old len.new }
    ensures overlength { IsTooLong private_key.now curve.now public_key.now has_public_key
        → WritesNothing (kind_number ErrorKind.Overlength) out.old out.new result len.old len.new }
{
    let Some(key) = key_given(private_key, curve, public_key, has_public_key) else {
        return kind_number(ErrorKind::Value);
    };
    write_key(&key, out, len)
}

/// Writes the key's DER encoding at the beginning of `out`, and stores its length. Returns the
/// number of Buffer if `out` is too short, and that of Overlength if the key has no encoding.
fn write_key(key: &BorrowedKey, out: &mut [u8], len: &mut usize) -> u32
    ensures key { (bytes : List ℕ) → IsKeyOf key.now bytes
        → Writes bytes out.old out.new result len.new }
    ensures overlength { ((bytes : List ℕ) → ¬ IsKeyOf key.now bytes)
        → WritesNothing (kind_number ErrorKind.Overlength) out.old out.new result len.old len.new }
{
    match key.encode_to_slice(out) {
        Ok(written) => {
            *len = written;
            OK
        }
        // A key that only lacks room has a length.
        Err(e) => match key.encoded_len() {
            Ok(found) => {
                *len = found;
                error_number(&e)
            }
            Err(_) => error_number(&e),
        },
    }
}
