//! The arcs of an identifier, as numbers.
ghost use Rattle.std.specs.Prelude.{◌≡◌, ◌∷◌, ℕ, List, [], MatchOption};
ghost use Rattle.std.specs.Iterator.{YieldsFirst, item_count};
ghost use Rattle.sec1_der.specs.Identifiers.{arcs_of, arcs_of_numbers, numbers_after};
ghost use Rattle.sec1_der.specs.Identifiers.{SubidentifiersFit};

use std::marker::Model;

/// The arcs of an identifier, from the first to the last. A contract sees those that are left.
#[derive(Drop)]
pub struct Arcs<'a> {
    /// The first arc, until it was returned.
    first: Option<u32>,
    /// The second arc, until it was returned.
    second: Option<u32>,
    /// The subidentifiers of the arcs after these that are left.
    further: &'a [u8],
}

impl<'a> Model for Arcs<'a> {
    ghost use Rattle.std.specs.Prelude.{◌++◌, ℕ, List, option_to_list};
    ghost use Rattle.sec1_der.specs.Identifiers.{numbers_after};
    ghost use Rattle.sec1_der.specs.Identifiers.{SubidentifiersFit};

    ghost Value = { List ℕ };

    ghost view = { λ arcs. option_to_list arcs.first
        ++ (option_to_list arcs.second ++ numbers_after 0 arcs.further.now) };

    ghost invariant = { λ arcs. SubidentifiersFit 0 arcs.further.now };
}

impl<'a> Arcs<'a> {
    /// Returns the arcs of the identifier with this content.
    pub(crate) fn of_content(content: &'a [u8]) -> Arcs<'a>
        requires { SubidentifiersFit 0 content.now }
        ensures { result ≡ arcs_of content.now }
    {
        match split_subidentifier(content) {
            Some((number, further)) => {
                let (first, second) = first_arcs(number);
                Arcs {
                    first: Some(first),
                    second: Some(second),
                    further,
                }
            }
            None => Arcs {
                first: None,
                second: None,
                further: &[],
            },
        }
    }
}

impl Iterator for Arcs<'_> {
    type Item = u32;

    ghost next_gives = { YieldsFirst (λ left. left) };

    ghost remaining = { item_count (λ left. left) };

    #[inline(always)]
    fn next(&mut self) -> Option<u32> {
        if let Some(arc) = self.first.take() {
            return Some(arc);
        }
        if let Some(arc) = self.second.take() {
            return Some(arc);
        }
        let (arc, rest) = split_subidentifier(self.further)?;
        self.further = rest;
        Some(arc)
    }
}

/// Returns the first subidentifier (X.690 section 8.19.2) and the bytes after it. `None` if none
/// ends in these bytes.
#[inline(always)]
fn split_subidentifier(bytes: &[u8]) -> Option<(u32, &[u8])>
    requires { SubidentifiersFit 0 bytes.now }
    ensures { MatchOption result (numbers_after 0 bytes.now ≡ [])
        (λ split. (numbers_after 0 bytes.now ≡ split.0 ∷ numbers_after 0 split.1.now)
        × SubidentifiersFit 0 split.1.now) }
{
    let mut number = 0;
    let mut rest = bytes;
    while let Some((byte, after)) = rest.split_first() {
        number = number * 128 + u32::from(*byte % 128);
        if *byte < 128 {
            return Some((number, after));
        }
        rest = after;
    }
    None
}

/// Returns the two arcs in the first subidentifier (X.690 section 8.19.4).
fn first_arcs(number: u32) -> (u32, u32)
    ensures { (further : List ℕ) → arcs_of_numbers (number ∷ further)
        ≡ result.0 ∷ result.1 ∷ further }
{
    if number < 40 {
        (0, number)
    } else if number < 80 {
        (1, number - 40)
    } else {
        (2, number - 80)
    }
}
