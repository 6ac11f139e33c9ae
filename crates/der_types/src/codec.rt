//! A part that isn't in a record.
ghost use Rattle.std.specs.Prelude.{◌≡◌, ◌≤◌, length, true};
ghost use Rattle.sec1_der.specs.Elements.{max_length};
ghost use Rattle.sec1_der.specs.Readers.{ReadsWhole};
ghost use Rattle.sec1_der.specs.Faults.{end_fault};

use sec1_der::{DecodePart, Result, SliceReader, UniquePart};

/// Reads a part from its whole DER encoding, such as a CHOICE that isn't in a record.
///
/// # Errors
///
/// Those of [`DecodePart::decode_part`], then TrailingData if bytes follow the part.
pub fn read_part<'a, P: DecodePart<'a> + UniquePart + Drop>(input: &'a [u8]) -> Result<P>
    requires { (P.tags.distinct ≡ true) × (length input.now ≤ max_length) }
    ensures { ReadsWhole P.bytes (P.and_then end_fault) input.now result }
{
    P::bytes_injective();
    let mut reader = SliceReader::new(input);
    let part = P::decode_part(&mut reader)?;
    reader.finish()?;
    Ok(part)
}
