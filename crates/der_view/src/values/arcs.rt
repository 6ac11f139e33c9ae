//! The arcs of an identifier.
ghost use Rattle.std.specs.Prelude.{◌≡◌, ◌∷◌, [], MatchOption, true};
ghost use Rattle.sec1_der.specs.Identifiers.{numbers_after};
ghost use Rattle.der_view.specs.Arcs.{arcs_by, are_u128};

use der_types::kind::{Kind, ObjectIdentifier};

/// The arcs of an OBJECT IDENTIFIER (X.690 section 8.19), from the next one on. Each is below
/// 2^128, as those that are made of a UUID are (X.667 section 7).
#[derive(Clone, Copy)]
pub struct Arcs<'a> {
    /// How many of the first two arcs were returned.
    begun: u8,
    /// The subidentifiers of the arcs that are left. The first two arcs share one.
    left: &'a [u8],
    ghost fit: { are_u128 0 left.now ≡ true },
}

impl<'a> Arcs<'a> {
    ghost use Rattle.std.specs.Prelude.{option_map};
    ghost use Rattle.der_view.specs.Values.{arcs_view};

    /// Returns the arcs of the identifier with this content; `None` if it is no identifier's, or a
    /// subidentifier isn't below 2^128.
    pub fn new(content: &'a [u8]) -> Option<Arcs<'a>>
        ensures { option_map arcs_view result ≡ arcs_by content.now }
    {
        if !ObjectIdentifier::test(content) || !are_u128(content) {
            return None;
        }
        Some(Arcs {
            begun: 0,
            left: content,
        })
    }
}

impl Iterator for Arcs<'_> {
    ghost use Rattle.std.specs.Iterator.{YieldsFirst, item_count};
    ghost use Rattle.der_view.specs.Values.{arcs_view};

    type Item = u128;

    ghost next_gives = { YieldsFirst arcs_view };

    ghost remaining = { item_count arcs_view };

    fn next(&mut self) -> Option<u128> {
        let (number, rest) = split_subidentifier(self.left)?;
        // X.690 section 8.19.4
        let first = (number / 40).min(2);
        if self.begun == 0 {
            self.begun = 1;
            return Some(first);
        }
        self.left = rest;
        if self.begun == 1 {
            self.begun = 2;
            return Some(number - 40 * first);
        }
        Some(number)
    }
}

/// Returns `true` if each subidentifier in these bytes is below 2^128.
#[tactic(auto, using(std::proofs::lemmas::Bool::Decides::nat_tests))]
fn are_u128(bytes: &[u8]) -> bool
    ensures { result ≡ are_u128 0 bytes.now }
{
    let mut high: u128 = 0;
    for byte in bytes {
        let digit = u128::from(*byte % 128);
        if high >= 1 << 121 {
            return false;
        }
        high = if *byte < 128 { 0 } else { high * 128 + digit };
    }
    true
}

/// Returns the first subidentifier (X.690 section 8.19.2) and the bytes after it. `None` if none
/// ends in these bytes.
fn split_subidentifier(bytes: &[u8]) -> Option<(u128, &[u8])>
    requires { are_u128 0 bytes.now ≡ true }
    ensures { MatchOption result (numbers_after 0 bytes.now ≡ [])
        (λ split. (numbers_after 0 bytes.now ≡ split.0 ∷ numbers_after 0 split.1.now)
        × (are_u128 0 split.1.now ≡ true)) }
{
    let mut number = 0;
    let mut rest = bytes;
    while let Some((byte, after)) = rest.split_first() {
        number = number * 128 + u128::from(*byte % 128);
        if *byte < 128 {
            return Some((number, after));
        }
        rest = after;
    }
    None
}
