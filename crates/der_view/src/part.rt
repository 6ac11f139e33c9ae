//! A part of an input.
ghost use Rattle.std.specs.Prelude.{◌≡◌, IfSome, drop, length, take};

use crate::form::draw_rows;
use crate::grammar::Component;
use crate::names::split;
use crate::plan::plan_of;
use crate::walk::{Element, Place, Rows};

/// Borrows the element that begins after so many bytes, as far as it is there, if it has a row in
/// their picture: what is inside a content that isn't drawn may be private bytes. Of an indefinite
/// length it is all that comes.
pub(crate) fn drawn_element(bytes: &[u8], offset: usize) -> Option<&[u8]>
    ensures { IfSome result
        (λ part. part.now ≡ take (length part.now) (drop offset bytes.now)) }
{
    let mut row = RowAt { offset, len: None };
    draw_rows(&mut row, plan_of(bytes), bytes, false);
    let len = row.len?;
    Some(split(split(bytes, offset).1, len).0)
}

/// Looks for the row of an element after so many bytes.
#[derive(Drop)]
struct RowAt {
    /// The number of bytes.
    offset: usize,
    /// The number of bytes of the element, if there is one.
    len: Option<usize>,
}

impl Rows for RowAt {
    ghost tells = { λ _ _ _. Unit {0} };

    fn element(&mut self, place: Place, element: &Element) {
        if place.offset == self.offset {
            let header = element.header;
            let len = header.content_len.unwrap_or(usize::MAX);
            self.len = Some(header.len.saturating_add(len));
        }
    }

    fn end_of_contents(&mut self, _place: Place) {}

    fn not_drawn(&mut self, _place: Place, _expected: &[Component], _len: usize, _content: &[u8]) {}

    ghost nothing = { λ _. tt };

    ghost joined = { λ _ _ _ _ _ _ _. tt };
}
