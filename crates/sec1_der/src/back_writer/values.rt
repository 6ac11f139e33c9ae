//! Calls of the writer from the end that are generic over values.
use crate::back_writer::BackWriter;
use crate::length::check_room;
use crate::{EncodeValue, ErrorKind, Result, Tagged, encoded_len};

impl<'b> BackWriter<'b> {
    ghost use Rattle.sec1_der.specs.Writers.{back_state, HasRoom, Prepends, HasPrepended};
    ghost use Rattle.sec1_der.specs.Writers.{Writes};
    ghost use Rattle.sec1_der.specs.Elements.{element_of};

    /// Prepends the element of a value: its content, and then the header over it.
    ///
    /// # Errors
    ///
    /// Those of [`encoded_len`], then Buffer if there is no room for the element.
    pub fn element<T: EncodeValue + Tagged>(&mut self, value: &T) -> Result<()>
        ensures { Writes back_state Prepends (element_of T.tag_byte (T.content value.now))
            self.old self.new result }
    {
        check_room(encoded_len(value)?, self.remaining())?;
        self.prepend_element(value);
        Ok(())
    }

    /// Prepends the element of a value, for which there is room.
    #[inline(always)]
    pub fn prepend_element<T: EncodeValue + Tagged>(&mut self, value: &T)
        requires { HasRoom (element_of T.tag_byte (T.content value.now)) self.old }
        ensures { HasPrepended (element_of T.tag_byte (T.content value.now)) self.old self.new }
    {
        let end = self.remaining();
        value.prepend_value(self);
        self.prepend_header(T::fixed_tag(), end - self.remaining());
    }
}
