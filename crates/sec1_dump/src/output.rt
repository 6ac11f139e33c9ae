//! Reads a file, and shows what is in it.
ghost use Rattle.std.specs.Prelude.{◌≡◌, ◌<◌, ◌≤◌, IfErr, IfOk, IfSome, OnOk, length};
ghost use Rattle.std.specs.Prelude.{option_map};
ghost use Rattle.std.specs.Io.KnownBytes.{Appends};
ghost use Rattle.der_view.specs.Sources.{text_len};
ghost use Rattle.sec1_dump.specs.Shown.{IsOfWriting, Shows, limit, status_of, title};
ghost use Rattle.sec1_dump.specs.declared.output.Failure.TheVariants.{Memory, TooLong};

use crate::text::escaped;
use der_view::{Options, room_len};
use std::alloc::{AllocError, Global};
use std::io;
use std::io::{Read as _, Write as _};

/// The greatest length of an input in bytes.
const LIMIT: usize = 16_777_215;

/// Why a file isn't shown to its end.
#[derive(Drop)]
pub(crate) enum Failure {
    /// It couldn't be opened or read.
    Input(io::Error),
    /// It is longer than the limit.
    TooLong,
    /// An allocation failed.
    Memory,
    /// What is shown of it couldn't be written.
    Output(io::Error),
}

impl From<AllocError> for Failure {
    ghost from_gives = { λ _ failure. failure ≡ Memory };

    fn from(_: AllocError) -> Failure {
        Failure::Memory
    }
}

/// How files are shown.
#[derive(Clone, Copy)]
pub(crate) struct Style<'a> {
    /// What of a file is drawn, and how; of no name of a file.
    pub(crate) options: Options<'a>,
    /// Whether the name of each file stands above its pictures.
    pub(crate) named: bool,
}

/// Returns the status for a file: 0 if it has a key, 1 if it has none, 2 if it couldn't be read or
/// shown.
pub(crate) fn status_of(shown: &Result<bool, Failure>) -> u8
    ensures { result ≡ status_of shown.now }
{
    match shown {
        Ok(true) => 0,
        Ok(false) => 1,
        Err(_) => 2,
    }
}

/// Reads a file, and writes and flushes what is shown of it. Returns whether some part of it is a
/// key (RFC 5915 section 3). At most 16,777,216 bytes are read.
///
/// # Errors
///
/// Input if a read failed, TooLong for more than 16,777,215 bytes, Output if a write or the flush
/// failed, Memory if an allocation failed.
pub(crate) fn show<R: io::Read + Drop, W: io::Write>(
    alloc: Global,
    style: Style,
    file: Option<&str>,
    reader: R,
    writer: &mut W,
) -> Result<bool, Failure>
    ensures { IfOk result (λ has_key. IfSome (R.remaining reader) (λ input.
        Shows style.entry (option_map (λ name. name.now) file.entry) input
        (W.contents writer.old) (W.contents writer.new) has_key)) }
{
    let input = read_input(alloc, reader)?;
    let has_key = write_shown(alloc, style, file, input.as_slice(), writer)?;
    Ok(has_key)
}

/// Reads an input that isn't longer than the limit.
///
/// # Errors
///
/// TooLong if it is, Input if a read failed, Memory if an allocation failed.
fn read_input<R: io::Read + Drop>(alloc: Global, reader: R) -> Result<Vec<u8>, Failure>
    ensures short { IfOk result (λ input. length input.items ≤ limit) }
    ensures read { IfOk result (λ input.
        IfSome (R.remaining reader) (λ bytes. input.items ≡ bytes)) }
    ensures long { IfErr result (λ failure. failure ≡ TooLong
        → IfSome (R.remaining reader) (λ bytes. limit < length bytes)) }
{
    let mut input = Vec::new(alloc);
    match reader.take(LIMIT as u64 + 1).read_to_end(&mut input) {
        Ok(_) if input.len() <= LIMIT => Ok(input),
        Ok(_) => Err(Failure::TooLong),
        Err(error) if error.kind() == io::ErrorKind::OutOfMemory => Err(Failure::Memory),
        Err(error) => Err(Failure::Input(error)),
    }
}

/// Writes and flushes what is shown of an input. Returns whether some part of it is a key.
///
/// # Errors
///
/// Output if a write or the flush failed, Memory if an allocation failed.
fn write_shown<W: io::Write>(
    alloc: Global,
    style: Style,
    file: Option<&str>,
    input: &[u8],
    writer: &mut W,
) -> Result<bool, Failure>
    requires { length input.now ≤ limit }
    ensures { IfOk result (λ has_key. Shows style.entry (option_map (λ name. name.now) file.entry)
        input.now (W.contents writer.old) (W.contents writer.new) has_key) }
{
    let mut room = vec![in alloc; 0u8; room_len(input)]?;
    write_title(alloc, writer, style.named && !style.options.json, file)?;
    let options = Options {
        file: file.unwrap_or("").as_bytes(),
        ..style.options
    };
    let shown = der_view::show(writer, input, room.as_mut_slice(), &options);
    let has_key = shown.map_err(Failure::Output)?;
    writer.flush().map_err(Failure::Output)?;
    Ok(has_key)
}

/// Writes the line with the name of a file, if it is to be there.
///
/// # Errors
///
/// Output if a write failed, Memory if an allocation failed.
fn write_title<W: io::Write>(
    alloc: Global,
    writer: &mut W,
    named: bool,
    file: Option<&str>,
) -> Result<(), Failure>
    ensures title { OnOk result (Appends (W.contents writer.old) (W.contents writer.new)
        (title named (option_map (λ name. name.now) file.entry))) }
    ensures kinds { IfErr result IsOfWriting }
{
    match file {
        Some(file) if named => {
            let name = escaped(alloc, file)?;
            write!(writer, "{name}:\n").map_err(Failure::Output)
        }
        _ => Ok(()),
    }
}
