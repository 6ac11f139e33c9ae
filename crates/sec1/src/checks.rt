//! States the value of a constant. Nothing calls the function: its contract refuses any other
//! value.
ghost use Rattle.std.specs.Prelude.{◌≡◌};

use crate::EcParameters;
use crate::der::FixedTag;

/// Returns the tag byte of a curve's name, an OBJECT IDENTIFIER (X.690 section 8.19).
pub fn parameters_tag_byte() -> u8
    ensures { result ≡ 0x06 }
{
    EcParameters::TAG.byte()
}
