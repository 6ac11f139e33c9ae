//! Elements prepended one before the other, and headers over what was written since.
ghost use Rattle.std.specs.Prelude.{◌≡◌, ◌≤◌, ◌++◌, length, OnOk};
ghost use Rattle.sec1_der.specs.Writers.{back_state};
ghost use Rattle.sec1_der.specs.Elements.{header};

use sec1_der::{BackWriter, EncodeValue, Result, Tag, Tagged};

/// Prepends two elements and a header over both: a SEQUENCE of the two.
///
/// # Errors
///
/// Overlength if a value has no encoding, or both together are too long for one; Buffer if there is
/// no room. The elements that fitted stay written.
pub fn two_elements<A: EncodeValue + Tagged, B: EncodeValue + Tagged>(
    first: &A,
    second: &B,
    writer: &mut BackWriter,
) -> Result<()>
    ensures { length (back_state writer.old).written ≤ length (back_state writer.new).written }
{
    let since = writer.written();
    writer.element(second)?;
    writer.element(first)?;
    writer.header(Tag::SEQUENCE, since)
}

/// Prepends an element and two headers over it: a SEQUENCE of it, inside of a field [0].
///
/// # Errors
///
/// Overlength if the value has no encoding, or one that is too long; Buffer if there is no room.
/// What fitted stays written.
pub fn two_headers<A: EncodeValue + Tagged>(value: &A, writer: &mut BackWriter) -> Result<()>
    ensures { length (back_state writer.old).written ≤ length (back_state writer.new).written }
{
    let since = writer.written();
    writer.element(value)?;
    writer.header(Tag::SEQUENCE, since)?;
    writer.header(Tag::CONTEXT_0, since)
}

/// Prepends a SEQUENCE of an element if that has an encoding and room, or an empty one.
///
/// # Errors
///
/// Overlength if the element is too long for a SEQUENCE; Buffer if there is no room for the header.
pub fn element_or_not<A: EncodeValue + Tagged>(value: &A, writer: &mut BackWriter) -> Result<()>
    ensures { length (back_state writer.old).written ≤ length (back_state writer.new).written }
{
    let since = writer.written();
    let _ = writer.element(value);
    writer.header(Tag::SEQUENCE, since)
}

/// Prepends an octet string of these bytes. Returns the number of bytes written in all.
///
/// # Errors
///
/// Overlength if the bytes are too many; Buffer if there is no room.
pub fn stamp(bytes: &[u8], writer: &mut BackWriter) -> Result<usize>
    ensures { OnOk result ((back_state writer.new).written
        ≡ header 0x04 (length bytes.now) ++ bytes.now ++ (back_state writer.old).written) }
{
    let since = writer.written();
    writer.write(bytes)?;
    writer.header(Tag::OCTET_STRING, since)?;
    Ok(writer.written())
}
