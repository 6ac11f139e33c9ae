//! The names of object identifiers.
ghost use Rattle.std.specs.Prelude.{◌≡◌, ◌<◌, ◌≤◌, ◌^◌, drop, length, option_map, take};
ghost use Rattle.sec1_der.specs.Elements.{number_of};
ghost use Rattle.der_view.specs.Names.{name_by, name_in, names_of, word};

mod table;

use table::{NAMES, ROWS};

/// Returns the name of the identifier with this content, in the standard that defines it, without
/// `id-`; of a curve that of FIPS 186-4, or else of SEC 2, ANSI X9.62 or RFC 5639. `None` if it has
/// no name here.
#[tactic(auto, unfolding(crate::specs::Names::name_by))]
pub fn name_of(content: &[u8]) -> Option<&'static [u8]>
    ensures { option_map (λ name. name.now) result ≡ name_by content.now }
{
    name_in(&ROWS, &NAMES, content)
}

/// Returns the name of the identifier with this content, where the names in the row of all but its
/// last byte are by that byte.
#[tactic(auto, using(std::proofs::lemmas::Bool::Decides::nat_tests), unfolding(crate::specs::Names::name_in))]
fn name_in<'a>(rows: &[(u128, usize)], names: &'a [u8], content: &[u8]) -> Option<&'a [u8]>
    ensures { option_map (λ name. name.now) result ≡ name_in rows.now names.now content.now }
{
    if content.is_empty() || content.len() > 12 {
        return None;
    }
    let (front, last) = split(content, content.len() - 1);
    let (number, end) = magnitude(front);
    match word(
        names_of(rows, names, 128 * end + number),
        usize::from(last[0]),
    ) {
        Some(name) if !name.is_empty() => Some(name),
        _ => None,
    }
}

/// Returns the names in the row with this number; none if there is no such row.
#[tactic(auto, unfolding(crate::specs::Names::names_of))]
fn names_of<'a>(rows: &[(u128, usize)], names: &'a [u8], number: u128) -> &'a [u8]
    ensures { result.now ≡ names_of rows.now names.now number }
{
    let mut left = names;
    for row in rows {
        let (names, others) = split(left, row.1);
        if row.0 == number {
            return names;
        }
        left = others;
    }
    &[]
}

/// Returns the word of this number: a comma is after each.
fn word(words: &[u8], number: usize) -> Option<&[u8]>
    ensures { option_map (λ word. word.now) result ≡ word words.now number }
{
    words.split(|byte| *byte == b',').nth(number)
}

/// Returns the number whose digits in base 256 are these, and 256 to the power of their number.
#[tactic(auto, using(der_types::proofs::UnsignedLemmas::digit_steps))]
pub(crate) fn magnitude(digits: &[u8]) -> (u128, u128)
    requires { length digits.now ≤ 12 }
    ensures number { result.0 ≡ number_of digits.now }
    ensures end { result.1 ≡ 256 ^ length digits.now }
    ensures below { result.0 < result.1 }
    ensures most { result.1 ≤ 2 ^ 96 }
{
    let mut number: u128 = 0;
    let mut end: u128 = 1;
    for digit in digits {
        number = number * 256 + u128::from(*digit);
        end *= 256;
    }
    (number, end)
}

/// Returns as many of the bytes, or all if there are fewer, and those after them.
#[tactic(auto, using(std::proofs::lemmas::List::take_min))]
pub(crate) fn split(bytes: &[u8], count: usize) -> (&[u8], &[u8])
    ensures front { result.0.now ≡ take count bytes.now }
    ensures rest { result.1.now ≡ drop count bytes.now }
{
    bytes.split_at(count.min(bytes.len()))
}
