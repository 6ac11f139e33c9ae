ghost use Rattle.std.specs.Prelude.{◌≤◌, length};

use crate::copies::copy;
use crate::length::check_room;
use crate::{ErrorKind, Result};

mod values;

/// A writer that fills a slice from its beginning.
///
/// On an error nothing is written. Bytes after the written part are never changed.
#[derive(Drop)]
pub struct SliceWriter<'b> {
    pub(crate) buffer: &'b mut [u8],
    pub(crate) position: usize,
    ghost in_range: { position ≤ length buffer.now },
}

impl<'b> SliceWriter<'b> {
    ghost use Rattle.std.specs.Prelude.{◌≡◌, [], ◌∷◌, Some};
    ghost use Rattle.sec1_der.specs.Writers.{slice_state, Appends};
    ghost use Rattle.sec1_der.specs.Writers.{Writes};

    /// Creates a writer at the beginning of a slice.
    pub fn new(buffer: &'b mut [u8]) -> SliceWriter<'b>
        ensures { slice_state result ≡ record {
          written = [];
          room = buffer.old;
          slice = buffer.entry.ghost_name;
        } }
    {
        SliceWriter {
            buffer,
            position: 0,
        }
    }

    /// Returns the number of bytes written.
    pub fn written(&self) -> usize
        ensures { result ≡ length (slice_state self.now).written }
    {
        self.position
    }

    /// Returns the number of bytes of the slice after the written part.
    pub fn remaining(&self) -> usize
        ensures { result ≡ length (slice_state self.now).room }
    {
        self.buffer.len() - self.position
    }

    /// Appends one byte.
    ///
    /// # Errors
    ///
    /// Buffer if the slice is full.
    pub fn write_byte(&mut self, byte: u8) -> Result<()>
        ensures { Writes slice_state Appends (Some (byte ∷ [])) self.old self.new result }
    {
        self.write(&[byte])
    }

    /// Appends bytes.
    ///
    /// # Errors
    ///
    /// Buffer if the slice has less room.
    #[tactic(auto, using(std::proofs::lemmas::Slice::overwrites))]
    pub fn write(&mut self, bytes: &[u8]) -> Result<()>
        ensures { Writes slice_state Appends (Some bytes.now) self.old self.new result }
    {
        check_room(bytes.len(), self.remaining())?;
        let end = self.position + bytes.len();
        copy(bytes, &mut self.buffer[self.position..end]);
        self.position = end;
        Ok(())
    }
}
