ghost use Rattle.der_types.specs.Integers.{unsigned_content};
ghost use Rattle.sec1_der.specs.Elements.{element_of};
ghost use Rattle.std.specs.Prelude.{◌≡◌, ◌<◌, ◌^◌, ℕ, IfOk, IsOkAnd, Some, SomeIff};

use der_types::Unsigned;
use sec1_der::{Result, read_der};

/// Reads an INTEGER that isn't negative, and returns it if it is below 2^64.
///
/// # Errors
///
/// Those of [`read_der`], if the number is negative too.
pub fn number(bytes: &[u8]) -> Result<Option<u64>>
    ensures only { (n : ℕ) → element_of 0x02 (Some (unsigned_content n)) ≡ Some bytes.now
        → IsOkAnd result (λ found. SomeIff found (n < 2 ^ 64) n) }
{
    let number: Unsigned = read_der(bytes)?;
    Ok(number.to_u64())
}
