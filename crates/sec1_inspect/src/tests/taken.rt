//! What the contracts of `run` and `run_der` say of a reader that doesn't know its remaining input,
//! only the bytes that it gave. Nothing calls the functions: they are proved.
ghost use Rattle.std.specs.Prelude.{◌≡◌, [], Some, None, false, IfOk};
ghost use Rattle.sec1_inspect.specs.Report.{IsDerReport, IsReport};
ghost use Rattle.sec1_inspect.specs.Run.{HasStatus};

use crate::{Fault, run, run_der};
use sec1::der::{Read, Write};
use std::alloc::Global;

/// Returns the status of the report on the hexadecimal text that the reader gave.
pub fn status_of_taken_text<R: Read, W: Write>(
    alloc: Global,
    reader: &mut R,
    writer: &mut W,
) -> Result<u8, Fault>
    requires reader { R.failed reader.old ≡ false }
    requires writer { W.failed writer.old ≡ false }
    requires unknown { R.left reader.old ≡ None }
    requires untouched { R.taken reader.old ≡ Some [] }
    ensures { IfOk result (HasStatus IsReport (R.taken reader.new)) }
{
    run(alloc, reader, writer)
}

/// Returns the status of the report on the DER that the reader gave.
pub fn status_of_taken_der<R: Read, W: Write>(
    alloc: Global,
    reader: &mut R,
    writer: &mut W,
) -> Result<u8, Fault>
    requires reader { R.failed reader.old ≡ false }
    requires writer { W.failed writer.old ≡ false }
    requires unknown { R.left reader.old ≡ None }
    requires untouched { R.taken reader.old ≡ Some [] }
    ensures { IfOk result (HasStatus IsDerReport (R.taken reader.new)) }
{
    run_der(alloc, reader, writer)
}
