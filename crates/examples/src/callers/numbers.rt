//! Numbers of a SEQUENCE OF INTEGER and of a SET OF INTEGER, none of which is negative.
ghost use Rattle.std.specs.Prelude.{◌≡◌, ◌<◌, ◌^◌, ◌∷◌, ℕ, List, [], Some, None, SomeIff, sum};
ghost use Rattle.std.specs.Prelude.{IfOk, IfSome, IfNone, IsOkAnd};
ghost use Rattle.sec1.specs.Der.{element_of, HasFault, element_fault, end_fault};
ghost use Rattle.examples.specs.Numbers.{numbers_content, numbers_fault};
ghost use Rattle.examples.specs.Numbers.{ascending_content, ascending_fault};

use der_types::{Elements, SequenceOf, SetOf, Unsigned};
use sec1::der::{Result, read_der};

/// Returns the sum of the numbers, or `None` if it is 2^64 or above.
fn sum_of<'a>(mut elements: Elements<'a, Unsigned<'a>>) -> Option<u64>
    requires { numbers_fault elements ≡ None }
    ensures found { IfSome result (λ total. (numbers : List ℕ)
        × (numbers_content numbers ≡ Some elements.entry) × (sum numbers ≡ total)) }
    ensures only { (numbers : List ℕ) → numbers_content numbers ≡ Some elements.entry
        → SomeIff result (sum numbers < 2 ^ 64) (sum numbers) }
{
    let mut total = 0u64;
    while let Some(number) = elements.next() {
        total = total.checked_add(number.to_u64()?)?;
    }
    Some(total)
}

/// Returns the first number of a SEQUENCE OF INTEGER and the elements after it, or `None` if it is
/// empty.
///
/// # Errors
///
/// Those of [`read_der`], if a number is negative too.
pub fn first_of_sequence<'a>(
    bytes: &'a [u8],
) -> Result<Option<(Unsigned<'a>, Elements<'a, Unsigned<'a>>)>>
    // Whatever numbers are after it, with it they are the numbers of the sequence.
    ensures found { IfOk result (λ found. IfSome found (λ first. (others : List ℕ)
        → numbers_content others ≡ Some first.1
        → element_of 0x30 (numbers_content (first.0 ∷ others)) ≡ Some bytes.now)) }
    ensures rest { IfOk result (λ found. IfSome found (λ first. numbers_fault first.1 ≡ None)) }
    ensures none { IfOk result (λ found. IfNone found
        (element_of 0x30 (Some []) ≡ Some bytes.now)) }
    ensures kind { HasFault result (element_fault 0x30 numbers_fault end_fault bytes.now) }
{
    let numbers: SequenceOf<Unsigned> = read_der(bytes)?;
    let mut elements = numbers.elements();
    match elements.next() {
        Some(first) => Ok(Some((first, elements))),
        None => Ok(None),
    }
}

/// Returns the sum of the numbers of a SEQUENCE OF INTEGER, or `None` if it is 2^64 or above.
///
/// # Errors
///
/// Those of [`read_der`], if a number is negative too.
pub fn sum_of_sequence(bytes: &[u8]) -> Result<Option<u64>>
    ensures found { IfOk result (λ found. IfSome found (λ total. (numbers : List ℕ)
        × (element_of 0x30 (numbers_content numbers) ≡ Some bytes.now) × (sum numbers ≡ total))) }
    ensures only { (numbers : List ℕ) → element_of 0x30 (numbers_content numbers) ≡ Some bytes.now
        → IsOkAnd result (λ found. SomeIff found (sum numbers < 2 ^ 64) (sum numbers)) }
    ensures kind { HasFault result (element_fault 0x30 numbers_fault end_fault bytes.now) }
{
    let sequence: SequenceOf<Unsigned> = read_der(bytes)?;
    Ok(sum_of(sequence.elements()))
}

/// Returns the sum of the numbers of a SET OF INTEGER, or `None` if it is 2^64 or above.
///
/// # Errors
///
/// Those of [`read_der`], if a number is negative or the elements aren't in ascending order too.
pub fn sum_of_set(bytes: &[u8]) -> Result<Option<u64>>
    ensures found { IfOk result (λ found. IfSome found (λ total. (numbers : List ℕ)
        × (element_of 0x31 (numbers_content numbers) ≡ Some bytes.now) × (sum numbers ≡ total))) }
    ensures only { (numbers : List ℕ) → element_of 0x31 (ascending_content numbers) ≡ Some bytes.now
        → IsOkAnd result (λ found. SomeIff found (sum numbers < 2 ^ 64) (sum numbers)) }
    ensures kind { HasFault result (element_fault 0x31 ascending_fault end_fault bytes.now) }
{
    let set: SetOf<Unsigned> = read_der(bytes)?;
    Ok(sum_of(set.elements()))
}
