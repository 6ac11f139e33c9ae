//! The lengths of fields that were read.
ghost use Rattle.std.specs.Prelude.{◌≡◌, IsSome};
ghost use Rattle.sec1_der.specs.Elements.{within_limit};
ghost use Rattle.sec1_c.specs.Fields.{bytes_len};

use sec1_der::EncodePart;

/// Returns the length in bytes of one or more fields in a row, which have an encoding. What their
/// reader examined isn't examined again.
pub fn fields_len<P: EncodePart>(fields: &P) -> usize
    requires { IsSome (within_limit (P.bytes fields.now)) }
    ensures { result ≡ bytes_len (P.bytes fields.now) }
{
    fields.known_part_len()
}
