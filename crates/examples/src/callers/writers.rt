//! What is in a slice after a writer over it was dropped.
ghost use Rattle.std.specs.Prelude.{◌≡◌, ◌+◌, ◌-◌, ◌<◌, ◌≤◌, ◌++◌, ◌∷◌, [], length, take, drop};
ghost use Rattle.std.specs.Prelude.{IsOk, MatchResult};
ghost use Rattle.sec1.specs.Der.{Refuses, header};
ghost use Rattle.sec1_der.specs.Writers.{slice_state};

use sec1::der::{BackWriter, ErrorKind, Header, Result, SliceWriter};

/// Writes one after the other at the beginning of a slice. What follows them is unchanged.
///
/// # Errors
///
/// Buffer if the slice is too short.
pub fn write_both(first: &[u8], second: &[u8], buffer: &mut [u8]) -> Result<()>
    ensures fits { length first.now + length second.now ≤ length buffer.old
        → IsOk result × (buffer.new ≡ first.now ++ second.now
        ++ drop (length second.now) (drop (length first.now) buffer.old)) }
    ensures buffer { length buffer.old < length first.now
        → Refuses result ErrorKind.Buffer × (buffer.new ≡ buffer.old) }
{
    let mut writer = SliceWriter::new(buffer);
    writer.write(first)?;
    writer.write(second)
}

/// Writes one after the other at the end of a slice. What is in front of them is unchanged.
///
/// # Errors
///
/// Buffer if the slice is too short.
pub fn put_both(first: &[u8], second: &[u8], buffer: &mut [u8]) -> Result<()>
    ensures fits { length first.now + length second.now ≤ length buffer.old
        → IsOk result
        × (buffer.new ≡ take (length buffer.old - length second.now - length first.now) buffer.old
        ++ first.now ++ second.now) }
    ensures buffer { length buffer.old < length second.now
        → Refuses result ErrorKind.Buffer × (buffer.new ≡ buffer.old) }
{
    let mut writer = BackWriter::new(buffer);
    writer.write(second)?;
    writer.write(first)
}

/// Writes the byte 7 at the beginning of a slice.
///
/// # Errors
///
/// Buffer if the slice is empty.
pub fn one_byte(buffer: &mut [u8]) -> Result<()>
    ensures { MatchResult result
        (λ _. buffer.new ≡ 7 ∷ drop 1 buffer.old)
        (λ e. (e.kind ≡ ErrorKind.Buffer) × (buffer.old ≡ []) × (buffer.new ≡ buffer.old)) }
{
    SliceWriter::new(buffer).write_byte(7)
}

/// Writes the two bytes of a NULL at the beginning of a slice.
///
/// # Errors
///
/// Buffer if the slice is too short. It is unchanged then.
pub fn two_bytes(buffer: &mut [u8]) -> Result<()>
    ensures { MatchResult result
        (λ _. buffer.new ≡ 5 ∷ 0 ∷ drop 2 buffer.old)
        (λ e. (e.kind ≡ ErrorKind.Buffer) × (length buffer.old < 2)
        × (buffer.new ≡ buffer.old)) }
{
    SliceWriter::new(buffer).write(&[5, 0])
}

/// Writes a header that has room.
///
/// # Errors
///
/// None, as it has room.
pub fn header_with_room(found: &Header, writer: &mut SliceWriter) -> Result<()>
    requires { length (header found.now.tag found.now.length)
        ≤ length (slice_state writer.old).room }
    ensures { IsOk result }
{
    found.encode(writer)
}
