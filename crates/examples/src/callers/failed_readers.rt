//! What a reader does that refused something before.
ghost use Rattle.std.specs.Prelude.{◌≡◌, true};

use sec1_der::{AnyRef, Header, Length, OctetStringRef, SliceReader, VersionOne};

/// Returns the length of the remaining input before and after seven calls, each of which fails.
pub fn stays_seven(reader: &mut SliceReader, count: Length) -> (usize, usize)
    requires { reader.old.failed ≡ true }
    ensures { result.0 ≡ result.1 }
{
    let before = reader.remaining_len();
    let _ = reader.read_slice(count);
    let _ = reader.read_nested(count);
    let _ = reader.decode::<VersionOne>();
    let _ = AnyRef::decode(reader);
    let _ = Header::decode(reader);
    let _ = reader.context_specific::<OctetStringRef>(0);
    let _ = reader.finish();
    (before, reader.remaining_len())
}
