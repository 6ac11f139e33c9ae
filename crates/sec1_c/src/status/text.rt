//! The texts of the numbers that the exported functions return: `sec1_status_to_text`.
ghost use Rattle.std.specs.Prelude.{ℕ, List};
ghost use Rattle.sec1_c.specs.Outputs.{Writes, ended};
ghost use Rattle.sec1_c.specs.StatusTexts.{IsStatusText};

use crate::buffer::write_ended;

/// Writes the text of a number that an exported function returns, followed by a byte 0, at the
/// beginning of `text`, and stores their length in bytes, at most 42. Any other number has the text
/// "unknown status". The rest of `text` is unchanged.
///
/// # Errors
///
/// Returns the number of Buffer if `text` is too short, stores the length, and leaves `text`
/// unchanged.
#[unsafe(no_mangle)]
pub extern "C" fn sec1_status_to_text(status: usize, text: &mut [u8], len: &mut usize) -> u32
    ensures words { (words : List ℕ) × IsStatusText status words
        × Writes (ended words) text.old text.new result len.new }
{
    write_ended(status_text(status), text, len)
}

/// Returns the text of a number that an exported function returns.
fn status_text(status: usize) -> &'static str
    ensures { IsStatusText status result.now }
{
    match status {
        0 => "ok",
        1 => "input ends inside an element",
        2 => "unexpected or unsupported tag",
        3 => "length not in DER form or above the limit",
        4 => "bytes after the value",
        5 => "content not valid for its tag",
        6 => "value longer than 268435455 bytes",
        7 => "output buffer too small",
        8 => "more than 64 nested elements",
        9 => "elliptic curve point encoding error",
        10 => "length of field elements not supported",
        11 => "curve not in the table",
        12 => "key and container name different curves",
        13 => "no whole PEM block with this label",
        _ => "unknown status",
    }
}
