//! Calls of the writer from the front that are generic over values: each fills a part of the slice
//! from its end.
ghost use Rattle.sec1_der.specs.Elements.{within_limit};

use crate::codec::fill;
use crate::length::check_room;
use crate::slice_writer::SliceWriter;
use crate::{BackWriter, EncodeValue, ErrorKind, Result, Tagged, encoded_len};

impl<'b> SliceWriter<'b> {
    ghost use Rattle.sec1_der.specs.Elements.{element_of, within_limit};
    ghost use Rattle.sec1_der.specs.Writers.{slice_state, Appends};
    ghost use Rattle.sec1_der.specs.Writers.{Writes};

    /// Appends the element of a value.
    ///
    /// # Errors
    ///
    /// Those of [`encoded_len`], then Buffer if there is no room for the element.
    #[tactic(auto, using(std::proofs::lemmas::Slice::overwrites))]
    pub fn element<T: EncodeValue + Tagged>(&mut self, value: &T) -> Result<()>
        ensures { Writes slice_state Appends (element_of T.tag_byte (T.content value.now))
            self.old self.new result }
    {
        let count = encoded_len(value)?;
        check_room(count, self.remaining())?;
        let end = self.position + count;
        fill(value, &mut self.buffer[self.position..end]);
        self.position = end;
        Ok(())
    }
}
