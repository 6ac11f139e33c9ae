//! What is written, by examples with known results.
use crate::helpers::{assert_equal, assert_equal_for, kind_of};
use sec1_der::{BackWriter, ErrorKind, Header, Length, SliceWriter, StdWriter, Tag, Write};

/// Returns how many bytes were written, how many remain, and the kind of the error by which two
/// bytes more are refused.
fn back_state(writer: &mut BackWriter) -> (usize, usize, Option<ErrorKind>) {
    let refused = kind_of(writer.write(&[0x01, 0x02]));
    (writer.written(), writer.remaining(), refused)
}

/// Writes a byte, and the header of an OCTET STRING in front of it.
fn write_backwards(writer: &mut BackWriter) -> sec1_der::Result<()> {
    writer.write(&[0x05])?;
    writer.header(Tag::OCTET_STRING, 0)
}

/// Writes the header of an empty SEQUENCE.
fn write_empty_sequence(room: &mut [u8]) -> sec1_der::Result<()> {
    BackWriter::new(room).header(Tag::SEQUENCE, 0)
}

#[test]
fn writes_from_the_back(rt: HostRuntime) {
    let mut room = [0xAA; 4];
    let mut writer = BackWriter::new(&mut room);
    assert_equal(&rt, &write_backwards(&mut writer), &Ok(()));
    let full = (3, 1, Some(ErrorKind::Buffer));
    assert_equal(&rt, &back_state(&mut writer), &full);
    assert_equal(&rt, &room, &[0xAA, 0x04, 0x01, 0x05]);
    let mut room = [0; 2];
    assert_equal(&rt, &write_empty_sequence(&mut room), &Ok(()));
    assert_equal(&rt, &room, &[0x30, 0x00]);
}

/// X.690 section 8.1.3: lengths and their encodings.
static LENGTHS: [(usize, [u8; 6], usize); 8] = [
    (0, [0x04, 0x00, 0, 0, 0, 0], 2),
    (127, [0x04, 0x7F, 0, 0, 0, 0], 2),
    (128, [0x04, 0x81, 0x80, 0, 0, 0], 3),
    (255, [0x04, 0x81, 0xFF, 0, 0, 0], 3),
    (256, [0x04, 0x82, 0x01, 0x00, 0, 0], 4),
    (65_536, [0x04, 0x83, 0x01, 0x00, 0x00, 0], 5),
    (16_777_216, [0x04, 0x84, 0x01, 0x00, 0x00, 0x00], 6),
    (268_435_455, [0x04, 0x84, 0x0F, 0xFF, 0xFF, 0xFF], 6),
];

/// Writes the header of an OCTET STRING of this many bytes. Returns the length that it is given.
fn write_header(count: usize, room: &mut [u8]) -> sec1_der::Result<usize> {
    let header = Header {
        tag: Tag::OCTET_STRING,
        length: Length::new(count)?,
    };
    header.encode(&mut SliceWriter::new(room))?;
    Ok(header.encoded_len())
}

#[test]
fn writes_headers(rt: HostRuntime) {
    for &(n, octets, count) in LENGTHS.iter() {
        let mut room = [0; 6];
        let length = write_header(n, &mut room);
        assert_equal_for(&rt, &n, &(length, room), &(Ok(count), octets));
    }
}

#[test]
fn writes_no_bytes_without_a_fault(rt: HostRuntime) {
    let mut writer = StdWriter::new(Vec::new(rt.alloc()));
    assert_equal(&rt, &writer.write(&[]), &Ok(0));
    assert_equal(&rt, &writer.has_failed(), &false);
    assert_equal(&rt, &writer.write(&[0xAA]), &Ok(1));
    assert_equal(&rt, &writer.into_inner().as_slice(), &[0xAA].as_slice());
}
