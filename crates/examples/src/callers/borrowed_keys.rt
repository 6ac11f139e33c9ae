//! Keys that are looked at and written again without a copy of any part.
ghost use Rattle.std.specs.Prelude.{◌≡◌, ◌≤◌, ◌↔◌, ◌++◌, Ok, Some, None, IfOk, IfNone, IsTrue};
ghost use Rattle.std.specs.Prelude.{List, ℕ, drop, length};
ghost use Rattle.std.specs.Option.{option_map};
ghost use Rattle.sec1.specs.KeyFaults.{key_fault};
ghost use Rattle.sec1.specs.Keys.{IsKeyOf, Key};

use sec1::der::{ErrorKind, IdentifierRef};
use sec1::{BorrowedKey, EcPrivateKey, Error, Result};

/// Reads a key, and writes it again at the beginning of a buffer. Returns the number of its bytes,
/// which are those that were read.
pub fn copy_key(bytes: &[u8], buffer: &mut [u8]) -> Result<usize>
    ensures same { IfOk result (λ n. (n ≡ length bytes.now)
        × (buffer.new ≡ bytes.now ++ drop n buffer.old)) }
    ensures key { (key : Key) → IsKeyOf key bytes.now → length bytes.now ≤ length buffer.old
        → result ≡ Ok (length bytes.now) }
{
    let key = BorrowedKey::try_from(bytes)?;
    key.encode_to_slice(buffer)
}

/// Returns the length of the DER encoding of the key with these parts.
pub fn length_of_key<'a>(
    private_key: &'a [u8],
    curve: IdentifierRef<'a>,
    public_key: &'a [u8],
) -> Result<usize>
    ensures { (bytes : List ℕ)
        → IsKeyOf (record {
          private_key = private_key.now;
          parameters = Some curve.entry;
          public_key = Some public_key.now;
        }) bytes → result ≡ Ok (length bytes) }
{
    let key = BorrowedKey {
        private_key,
        curve: Some(curve),
        public_key: Some(public_key),
    };
    key.encoded_len()
}

/// Returns `true` if the bytes are a key's: the same that an `EcPrivateKey` is read from.
pub fn is_read_as_either(bytes: &[u8]) -> bool
    ensures { IsTrue result ↔ ((key : Key) × IsKeyOf key bytes.now) }
{
    match EcPrivateKey::try_from(bytes) {
        Ok(_) => BorrowedKey::try_from(bytes).is_ok(),
        Err(_) => false,
    }
}

/// Returns the reason why the bytes aren't a key's; `None` if they are.
pub fn refusal_of_key(bytes: &[u8]) -> Option<ErrorKind>
    ensures found { IfNone result ((key : Key) × IsKeyOf key bytes.now) }
    ensures only { (key : Key) → IsKeyOf key bytes.now → result ≡ None }
    ensures kind { option_map (λ kind. Some kind) result ≡ key_fault bytes.now }
{
    match BorrowedKey::try_from(bytes) {
        Ok(_) => None,
        Err(Error::Asn1(e)) => Some(e.kind),
        Err(_) => unreachable!(),
    }
}
