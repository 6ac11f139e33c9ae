//! Bytes in PEM (RFC 7468): `sec1_pem_decode`.
ghost use Rattle.std.specs.Prelude.{◌≡◌, ◌<◌, ◌≤◌, ◌+◌, ◌*◌, ◌-◌, ◌^◌, length, min, IfSome};
ghost use Rattle.std.specs.Prelude.{option_map};
ghost use Rattle.der_view.specs.Blocks.{block_view};
ghost use Rattle.der_view.specs.Encoded.{IsDecoded};
ghost use Rattle.der_view.specs.Sources.{sources_of, text_len};
ghost use Rattle.sec1_c.specs.PemBlocks.{IsPem, block_with, line_with, pem_bytes, whole_bytes};

use crate::status::{OK, kind_number, pem_number};
use der_view::{Block, Flaw, Found, Source, Sources, room_len};
use sec1::der::ErrorKind;

/// Decodes the first block of PEM with this label in a text, writes its bytes at the beginning of
/// `room`, and stores their number. What `room` holds besides isn't said. The number of the block's
/// first line, of which the text's first one has 1, is stored too; 0 if there is no such block.
///
/// # Errors
///
/// Returns the number of no PEM if there is no such block, or it has headers, no last line with the
/// same label, or a body that isn't base64; or the number of Buffer if `room` is shorter than
/// [`room_len`] says, and stores 0 for both numbers.
#[unsafe(no_mangle)]
pub extern "C" fn sec1_pem_decode(
    text: &[u8],
    label: &[u8],
    room: &mut [u8],
    len: &mut usize,
    line: &mut usize,
) -> u32
    ensures exact { min (2 * text_len text.now + 2) (2 ^ 64 - 1) ≤ length room.old
        → IsPem (pem_bytes label.now text.now) room.new result len.new }
    ensures place { min (2 * text_len text.now + 2) (2 ^ 64 - 1) ≤ length room.old
        → line.new ≡ line_with label.now text.now }
    ensures buffer { length room.old < min (2 * text_len text.now + 2) (2 ^ 64 - 1)
        → (result ≡ 7) × (len.new ≡ 0) × (line.new ≡ 0) × (room.new ≡ room.old) }
{
    *len = 0;
    *line = 0;
    if room.len() < room_len(text) {
        return kind_number(ErrorKind::Buffer);
    }
    let Some(block) = block_with(text, label) else {
        return pem_number();
    };
    *line = block.line;
    let (bytes, digits) = room.split_at_mut(room.len() / 2 + 1);
    match decode(&block, digits, bytes) {
        Some(decoded) => {
            *len = decoded;
            OK
        }
        None => pem_number(),
    }
}

/// Returns the first block of PEM with this label in a text; `None` if there is none.
fn block_with<'a>(text: &'a [u8], label: &[u8]) -> Option<Block<'a>>
    ensures block { option_map block_view result ≡ block_with label.now (sources_of text.now) }
    ensures within { IfSome result (λ block. length block.body.now ≤ text_len text.now) }
{
    let mut sources = Sources::new(text);
    while let Some(source) = sources.next_source() {
        if let Source::Pem { block, .. } = source {
            if block.label == label {
                return Some(block);
            }
        }
    }
    None
}

/// Decodes what a whole block without headers encodes into the front of `bytes`, and returns the
/// number of bytes; `None` if it isn't such a block, or encodes nothing. `digits` is memory for its
/// digits.
fn decode(block: &Block, digits: &mut [u8], bytes: &mut [u8]) -> Option<usize>
    requires digits { length block.now.body.now ≤ length digits.old }
    requires bytes { length block.now.body.now + 2 ≤ length bytes.old }
    ensures { IsDecoded (whole_bytes (block_view block.now)) result bytes.new }
{
    if !block.has_end || block.has_headers {
        return None;
    }
    let source = Source::Pem {
        block: *block,
        is_read: false,
    };
    match source.find(digits, bytes) {
        Found::Decoded(_, Flaw::Nothing, len) => Some(len),
        _ => None,
    }
}
