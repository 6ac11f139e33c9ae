//! The dotted text of an identifier, in memory of a fixed size.
ghost use Rattle.std.specs.Prelude.{◌≡◌, ◌≤◌, ◌+◌, ◌∷◌, ◌++◌, [], length};
ghost use Rattle.std.specs.Fmt.{decimal};
ghost use Rattle.sec1_der.specs.Identifiers.{dotted};
ghost use Rattle.sec1_der.specs.Identifiers.{max_text_length};

use super::arcs::Arcs;
use super::{MAX_IDENTIFIER, ObjectIdentifier};
use arrayvec::ArrayString;
use itoa::Buffer;

/// The greatest length of the dotted text of an identifier in bytes, and one more, for the byte 0
/// that ends a text in C: 158. A byte of the content takes at most four, for three digits and a
/// full stop, and the first arc takes one.
pub const MAX_IDENTIFIER_TEXT: usize = 4 * MAX_IDENTIFIER + 2;

/// The dotted text of an identifier, at most 157 bytes. There is room for one more, as the byte 0
/// that ends a text in C.
pub type IdentifierText = ArrayString<MAX_IDENTIFIER_TEXT>;

impl ObjectIdentifier {
    /// Returns the dotted text: the arcs in decimal digits, joined by full stops.
    // Not inlined, so that the text is written where the caller wants it.
    #[inline(never)]
    #[tactic(auto, using(crate::proofs::TextLemmas::text_of_content))]
    pub fn to_text(&self) -> IdentifierText
        ensures text { result.bytes ≡ dotted self.now }
        ensures room { length result.bytes ≤ max_text_length }
    {
        let mut text = IdentifierText::new();
        push_arcs(&mut text, Arcs::of_content(self.as_bytes()));
        text
    }
}

/// Appends these arcs in decimal digits, joined by full stops, to an empty text.
#[inline(always)]
#[tactic(auto, using(crate::proofs::TextLemmas::text_substrings))]
fn push_arcs(text: &mut IdentifierText, mut arcs: Arcs)
    requires empty { text.old.bytes ≡ [] }
    requires room { length (dotted arcs) ≤ max_text_length }
    ensures { text.new.bytes ≡ dotted arcs.entry }
{
    let Some(first) = arcs.next() else {
        return;
    };
    push_number(text, first);
    // The second stands before the loop, which needs no test for it then.
    let Some(second) = arcs.next() else {
        return;
    };
    push_arc(text, second);
    for arc in arcs {
        push_arc(text, arc);
    }
}

/// Appends a full stop and the number in decimal digits.
fn push_arc(text: &mut IdentifierText, arc: u32)
    requires { length text.old.bytes + (1 + length (decimal arc)) ≤ max_text_length }
    ensures { text.new.bytes ≡ text.old.bytes ++ 46 ∷ decimal arc }
{
    text.push_str(".");
    push_number(text, arc);
}

/// Appends the number in decimal digits.
fn push_number(text: &mut IdentifierText, number: u32)
    requires { length text.old.bytes + length (decimal number) ≤ max_text_length }
    ensures { text.new.bytes ≡ text.old.bytes ++ decimal number }
{
    text.push_str(Buffer::new().format(number));
}
