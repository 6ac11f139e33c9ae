ghost use Rattle.std.specs.Prelude.{◌≡◌, ◌≤◌, ◌+◌, ◌++◌, length, take, drop};
ghost use Rattle.sec1_der.specs.Elements.{max_length, header};

use crate::copies::copy;
use crate::header::LONG_FORM;
use crate::length::check_room;
use crate::{ErrorKind, Header, Length, Result, Tag};

mod values;

/// A writer that fills a slice from its end, so that a content is written before its header.
///
/// On an error nothing is written. The bytes of the slice in front of what was written are never
/// changed.
#[derive(Drop)]
pub struct BackWriter<'b> {
    buffer: &'b mut [u8],
    start: usize,
    ghost in_range: { start ≤ length buffer.now },
}

impl<'b> BackWriter<'b> {
    ghost use Rattle.std.specs.Prelude.{◌-◌, [], Some, None, nat_le, if◌then◌else◌};
    ghost use Rattle.sec1_der.specs.Writers.{back_state, Prepends, HasPrepended};
    ghost use Rattle.sec1_der.specs.Writers.{Writes};

    /// Creates a writer at the end of a slice.
    pub fn new(buffer: &'b mut [u8]) -> BackWriter<'b>
        ensures { back_state result ≡ record {
          written = [];
          room = buffer.old;
          slice = buffer.entry.ghost_name;
        } }
    {
        let start = buffer.len();
        BackWriter { buffer, start }
    }

    /// Returns the number of bytes written.
    pub fn written(&self) -> usize
        ensures { result ≡ length (back_state self.now).written }
    {
        self.buffer.len() - self.start
    }

    /// Returns the number of bytes of the slice in front of what was written.
    pub fn remaining(&self) -> usize
        ensures { result ≡ length (back_state self.now).room }
    {
        self.start
    }

    /// Prepends bytes to what was written.
    ///
    /// # Errors
    ///
    /// Buffer if the slice has less room.
    pub fn write(&mut self, bytes: &[u8]) -> Result<()>
        ensures { Writes back_state Prepends (Some bytes.now) self.old self.new result }
    {
        check_room(bytes.len(), self.start)?;
        self.prepend(bytes);
        Ok(())
    }

    /// Prepends bytes, for which there is room.
    pub fn prepend(&mut self, bytes: &[u8])
        requires { length bytes.now ≤ length (back_state self.old).room }
        ensures { HasPrepended (Some bytes.now) self.old self.new }
    {
        let start = self.start - bytes.len();
        copy(bytes, &mut self.buffer[start..self.start]);
        self.start = start;
    }

    /// Prepends a header for everything written since [`written`](BackWriter::written) returned
    /// `since`.
    ///
    /// # Errors
    ///
    /// Overlength if that is more than 268,435,455 bytes; then Buffer if there is no room for the
    /// header.
    pub fn header(&mut self, tag: Tag, since: usize) -> Result<()>
        requires { since ≤ length (back_state self.old).written }
        ensures { let n = length (back_state self.old).written - since in
            Writes back_state Prepends (if nat_le n max_length then Some (header tag n) else None)
            self.old self.new result }
    {
        let length = Length::new(self.written() - since)?;
        check_room(Header { tag, length }.encoded_len(), self.start)?;
        self.prepend_header(tag, length.get());
        Ok(())
    }

    /// Prepends the header of a content of `n` bytes, for which there is room.
    #[tactic(auto, using(crate::proofs::LengthLaws::len_1))]
    pub(crate) fn prepend_header(&mut self, tag: Tag, n: usize)
        requires within { n ≤ max_length }
        requires room { length (header tag n) ≤ length (back_state self.old).room }
        ensures { HasPrepended (Some (header tag n)) self.old self.new }
    {
        if n < LONG_FORM {
            return self.prepend(&[tag.byte(), n as u8]);
        }
        self.start = prepend_long_header(self.buffer, self.start, tag, n);
    }
}

/// Writes a header with a length in the long form in front of `end`, and returns where it begins.
///
/// Out of line, over the parts of a writer and not over the writer, which can then stay in
/// registers.
#[inline(never)]
fn prepend_long_header(buffer: &mut [u8], end: usize, tag: Tag, n: usize) -> usize
    requires within { n ≤ max_length }
    requires range { end ≤ length buffer.old }
    requires room { length (header tag n) ≤ end }
    ensures start { result + length (header tag n) ≡ end }
    ensures bytes { buffer.new
        ≡ take result buffer.old ++ header tag n ++ drop end buffer.old }
{
    let length = Length::of_number(n as u32);
    let (octets, count) = Header { tag, length }.octets();
    let start = end - count;
    copy(&octets[..count], &mut buffer[start..end]);
    start
}
