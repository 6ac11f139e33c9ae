//! Memory of a caller that is filled from its beginning: with the text of a picture, or with what
//! its lines are of.
ghost use Rattle.std.specs.Prelude.{◌≡◌, ◌≤◌, [], length, take};
ghost use Rattle.der_view.specs.Printing.{lines_text};
ghost use Rattle.sec1_c.specs.Pictures.{AreStored, Fills, Grows, listed};
ghost use Rattle.sec1_c.specs.PictureLaws.{Fills-both, Fills-flat, Fills-none, Grows-both};
ghost use Rattle.sec1_c.specs.PictureLaws.{Grows-none};

use der_view::{CONTENT, Output, PictureLine};
use std::convert::Infallible;

/// Copies items behind so many that a slice was given, as many as fit. Returns the number of all,
/// at most `usize::MAX`.
fn fill<T: Copy>(slice: &mut [T], count: usize, items: &[T]) -> usize
    ensures { Fills slice.old count slice.new result items.now }
{
    let start = count.min(slice.len());
    let fitting = items.len().min(slice.len() - start);
    slice[start..start + fitting].copy_from_slice(&items[..fitting]);
    count.saturating_add(items.len())
}

/// A slice that is filled from its beginning, as far as that goes, and the number of items that it
/// was given.
#[derive(Drop)]
pub(super) struct Filling<'a, T: Copy> {
    slice: &'a mut [T],
    count: usize,
}

impl<'a, T: Copy> Filling<'a, T> {
    /// Returns a slice that was given no items.
    pub fn new(slice: &'a mut [T]) -> Filling<'a, T>
        ensures same_reference { result.slice.ghost_name ≡ slice.entry.ghost_name }
        ensures stored { AreStored slice.old result.slice.now result.count [] }
    {
        Filling { slice, count: 0 }
    }

    /// Returns the number of items that it was given; at most `usize::MAX`.
    pub fn count(&self) -> usize
        ensures { result ≡ self.now.count }
    {
        self.count
    }

    /// Borrows the items that it was given, if they fit.
    pub fn items(&self) -> &[T]
        ensures { result.now ≡ take self.now.count self.now.slice.now }
    {
        &self.slice[..self.count.min(self.slice.len())]
    }
}

impl Output for Filling<'_, u8> {
    type Error = Infallible;

    ghost appends = { λ a b lines.
        Fills a.slice.now a.count b.slice.now b.count (lines_text lines) };

    ghost nothing = { λ a. Fills-none a.slice.now a.count };

    ghost joined = { λ a b c first second. Fills-flat _ first second };

    ghost takes = { λ a b bytes. Fills a.slice.now a.count b.slice.now b.count bytes };

    ghost taken = { λ a b c first second. Fills-both first second };

    fn line(&mut self, _of: PictureLine, text: &[u8]) -> Result<(), Infallible> {
        self.count = fill(self.slice, self.count, text);
        self.count = fill(self.slice, self.count, b"\n");
        Ok(())
    }

    fn push(&mut self, bytes: &[u8]) -> Result<(), Infallible> {
        self.count = fill(self.slice, self.count, bytes);
        Ok(())
    }
}

impl Output for Filling<'_, PictureLine> {
    type Error = Infallible;

    ghost appends = { λ a b lines. Grows a b (listed lines) };

    ghost nothing = { λ a. Grows-none a };

    ghost joined = { λ a b c first second. Grows-both a b c first second };

    // no line is of JSON
    ghost takes = { λ a b bytes. Grows a b [] };

    ghost taken = { λ a b c first second. Grows-both a b c [] [] };

    fn line(&mut self, of: PictureLine, _text: &[u8]) -> Result<(), Infallible> {
        if of.kind != CONTENT {
            self.count = fill(self.slice, self.count, &[of]);
        }
        Ok(())
    }

    fn push(&mut self, _bytes: &[u8]) -> Result<(), Infallible> {
        Ok(())
    }
}
