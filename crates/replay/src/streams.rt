//! Keys and documents over readers and writers that fail once and would then continue, that end, or
//! that move pieces of several sizes in turn.

use crate::calls::{Outcome, sum_of};
use crate::keys::{Copied, pattern};
use crate::words::{joined, number, word};
use sec1::der::{Error, SecretDocument, StdReader, StdWriter};
use sec1::{DecodeEcPrivateKey, EcPrivateKey, EncodeEcPrivateKey};
use std::alloc::{AllocError, Global};
use std::io;

/// The kinds of std's errors, by their names.
static KINDS: [(&[u8], io::ErrorKind); 41] = [
    (b"NotFound", io::ErrorKind::NotFound),
    (b"PermissionDenied", io::ErrorKind::PermissionDenied),
    (b"ConnectionRefused", io::ErrorKind::ConnectionRefused),
    (b"ConnectionReset", io::ErrorKind::ConnectionReset),
    (b"HostUnreachable", io::ErrorKind::HostUnreachable),
    (b"NetworkUnreachable", io::ErrorKind::NetworkUnreachable),
    (b"ConnectionAborted", io::ErrorKind::ConnectionAborted),
    (b"NotConnected", io::ErrorKind::NotConnected),
    (b"AddrInUse", io::ErrorKind::AddrInUse),
    (b"AddrNotAvailable", io::ErrorKind::AddrNotAvailable),
    (b"NetworkDown", io::ErrorKind::NetworkDown),
    (b"BrokenPipe", io::ErrorKind::BrokenPipe),
    (b"AlreadyExists", io::ErrorKind::AlreadyExists),
    (b"WouldBlock", io::ErrorKind::WouldBlock),
    (b"NotADirectory", io::ErrorKind::NotADirectory),
    (b"IsADirectory", io::ErrorKind::IsADirectory),
    (b"DirectoryNotEmpty", io::ErrorKind::DirectoryNotEmpty),
    (b"ReadOnlyFilesystem", io::ErrorKind::ReadOnlyFilesystem),
    (b"FilesystemLoop", io::ErrorKind::FilesystemLoop),
    (
        b"StaleNetworkFileHandle",
        io::ErrorKind::StaleNetworkFileHandle,
    ),
    (b"InvalidInput", io::ErrorKind::InvalidInput),
    (b"InvalidData", io::ErrorKind::InvalidData),
    (b"TimedOut", io::ErrorKind::TimedOut),
    (b"WriteZero", io::ErrorKind::WriteZero),
    (b"StorageFull", io::ErrorKind::StorageFull),
    (b"NotSeekable", io::ErrorKind::NotSeekable),
    (b"QuotaExceeded", io::ErrorKind::QuotaExceeded),
    (b"FileTooLarge", io::ErrorKind::FileTooLarge),
    (b"ResourceBusy", io::ErrorKind::ResourceBusy),
    (b"ExecutableFileBusy", io::ErrorKind::ExecutableFileBusy),
    (b"Deadlock", io::ErrorKind::Deadlock),
    (b"CrossesDevices", io::ErrorKind::CrossesDevices),
    (b"TooManyLinks", io::ErrorKind::TooManyLinks),
    (b"InvalidFilename", io::ErrorKind::InvalidFilename),
    (b"ArgumentListTooLong", io::ErrorKind::ArgumentListTooLong),
    (b"Interrupted", io::ErrorKind::Interrupted),
    (b"Unsupported", io::ErrorKind::Unsupported),
    (b"UnexpectedEof", io::ErrorKind::UnexpectedEof),
    (b"OutOfMemory", io::ErrorKind::OutOfMemory),
    (b"InProgress", io::ErrorKind::InProgress),
    (b"Other", io::ErrorKind::Other),
];

/// What a stream does that has moved some bytes.
#[derive(Clone, Copy)]
enum Then {
    /// It goes on.
    Continue,
    /// It moves no more.
    End,
    /// It fails, once.
    Fail(io::ErrorKind),
}

/// Returns what a stream does by this name.
fn then_of(name: &[u8]) -> Then {
    if name == b"End".as_slice() {
        return Then::End;
    }
    for &(text, kind) in KINDS.iter() {
        if text == name {
            return Then::Fail(kind);
        }
    }
    Then::Continue
}

/// The sizes of pieces that are moved in turn.
static SIZES: [usize; 6] = [1, 4_095, 4_096, 7, 1_000, 4_097];

/// What a stream does after how many bytes; at most `step` bytes are moved at once, or, if that is
/// 0, as many as [`SIZES`] has in turn, from the size at `at` on.
#[derive(Clone, Copy)]
struct Break {
    then: Then,
    at: usize,
    step: usize,
}

impl Break {
    /// Returns how many of these bytes the stream moves now, unless it fails.
    fn next(&mut self, moved: usize, wanted: usize) -> io::Result<usize> {
        if self.step == 0 {
            let count = wanted.min(SIZES[self.at % 6]);
            self.at = self.at.wrapping_add(1);
            return Ok(count);
        }
        let count = wanted.min(self.step);
        let before = count.min(self.at.saturating_sub(moved));
        match self.then {
            Then::Fail(kind) if moved == self.at => {
                self.then = Then::Continue;
                Err(io::Error::from(kind))
            }
            Then::Fail(_) if moved < self.at => Ok(before),
            Then::End => Ok(before),
            _ => Ok(count),
        }
    }
}

/// A reader of these bytes.
#[derive(Drop)]
struct Source<'a> {
    rest: &'a [u8],
    moved: usize,
    breaks: Break,
}

impl io::Read for Source<'_> {
    fn read(&mut self, buf: &mut [u8]) -> io::Result<usize> {
        let wanted = buf.len().min(self.rest.len());
        let count = self.breaks.next(self.moved, wanted)?.min(wanted);
        let (front, rest) = self.rest.split_at(count);
        buf[..count].copy_from_slice(front);
        self.rest = rest;
        self.moved = self.moved.saturating_add(count);
        Ok(count)
    }
}

/// A writer into a vector.
#[derive(Drop)]
struct Target {
    taken: Vec<u8>,
    breaks: Break,
}

impl io::Write for Target {
    fn write(&mut self, buf: &[u8]) -> io::Result<usize> {
        let count = self
            .breaks
            .next(self.taken.len(), buf.len())?
            .min(buf.len());
        self.taken.extend_from_slice(&buf[..count])?;
        Ok(count)
    }

    fn flush(&mut self) -> io::Result<()> {
        Ok(())
    }
}

/// Returns the text of what bytes were moved.
pub fn moved(alloc: Global, bytes: &[u8]) -> Result<String, AllocError> {
    match sum_of(bytes) {
        Outcome::Bytes(len, sum) => format!(in alloc; "{len} {sum}"),
        _ => "other".to_string(alloc),
    }
}

/// Returns the name of the error.
pub fn error_name(alloc: Global, error: &sec1::Error) -> Result<String, AllocError> {
    match error {
        sec1::Error::Asn1(error) => kind_name(alloc, error),
        other => format!(in alloc; "{other:?}"),
    }
}

/// Returns the name of the kind of the error.
pub fn kind_name(alloc: Global, error: &Error) -> Result<String, AllocError> {
    format!(in alloc; "{:?}", error.kind)
}

/// Returns `Ok`, or the name of the error.
pub fn end<T: Drop>(alloc: Global, res: sec1::Result<T>) -> Result<String, AllocError> {
    match res {
        Ok(_) => "Ok".to_string(alloc),
        Err(error) => error_name(alloc, &error),
    }
}

/// Returns `Ok`, or the name of the kind of the error.
pub fn der_end<T: Drop>(alloc: Global, res: Result<T, Error>) -> Result<String, AllocError> {
    match res {
        Ok(_) => "Ok".to_string(alloc),
        Err(error) => kind_name(alloc, &error),
    }
}

/// Returns the text of what is read as a document.
fn document_read(alloc: Global, bytes: &[u8], breaks: Break) -> Result<String, AllocError> {
    let mut reader = StdReader::new(Source {
        rest: bytes,
        moved: 0,
        breaks,
    });
    let text = match SecretDocument::read_der_from(alloc, &mut reader) {
        Ok(document) => moved(alloc, document.as_bytes()),
        Err(error) => kind_name(alloc, &error),
    };
    let count = reader.into_inner().moved;
    joined(alloc, " of ", [text, count.to_string(alloc)])
}

/// Returns the text of what is read as a key.
fn key_read(alloc: Global, bytes: &[u8], breaks: Break) -> Result<String, AllocError> {
    let mut reader = StdReader::new(Source {
        rest: bytes,
        moved: 0,
        breaks,
    });
    let text = match Copied::read_sec1_der_from(alloc, &mut reader) {
        Ok(key) => moved(alloc, &key.bytes),
        Err(error) => error_name(alloc, &error),
    };
    let count = reader.into_inner().moved;
    joined(alloc, " of ", [text, count.to_string(alloc)])
}

/// Returns the text of what a document writes.
fn document_written(alloc: Global, bytes: &[u8], breaks: Break) -> Result<String, AllocError> {
    let Ok(document) = SecretDocument::from_der(alloc, bytes) else {
        return "no document".to_string(alloc);
    };
    let mut writer = StdWriter::new(Target {
        taken: Vec::new(alloc),
        breaks,
    });
    let end = der_end(alloc, document.write_der_to(&mut writer));
    joined(alloc, " ", [end, moved(alloc, &writer.into_inner().taken)])
}

/// Returns the text of what a key writes.
fn key_written(alloc: Global, bytes: &[u8], breaks: Break) -> Result<String, AllocError> {
    let key = Copied {
        bytes: Vec::from_slice(alloc, bytes)?,
    };
    let mut writer = StdWriter::new(Target {
        taken: Vec::new(alloc),
        breaks,
    });
    let end = end(alloc, key.write_sec1_der_to(alloc, &mut writer));
    joined(alloc, " ", [end, moved(alloc, &writer.into_inner().taken)])
}

/// Returns what these bytes give as a document and as a key, read and written.
fn found(alloc: Global, bytes: &[u8], breaks: Break) -> Result<String, AllocError> {
    let document = document_read(alloc, bytes, breaks);
    let key = key_read(alloc, bytes, breaks);
    let document_written = document_written(alloc, bytes, breaks);
    let key_written = key_written(alloc, bytes, breaks);
    joined(alloc, ", ", [document, key, document_written, key_written])
}

/// Returns what the streams do that the line names, and the rest of the line.
fn breaks_of(line: &[u8]) -> (Break, &[u8]) {
    let (how, rest) = word(line);
    let (at, rest) = word(rest);
    let (step, rest) = word(rest);
    let breaks = Break {
        then: then_of(how),
        at: number(at),
        step: number(step),
    };
    (breaks, rest)
}

/// Returns the line for a key over such streams.
pub fn answer(alloc: Global, line: &[u8]) -> Result<String, AllocError> {
    let (breaks, private_len) = breaks_of(line);
    let private_key = pattern(alloc, number(private_len))?;
    let key = EcPrivateKey {
        private_key: &private_key,
        parameters: None,
        public_key: None,
    };
    match key.to_der(alloc) {
        Ok(der) => joined(
            alloc,
            ", ",
            ["break".to_string(alloc), found(alloc, &der, breaks)],
        ),
        Err(_) => "not written".to_string(alloc),
    }
}

/// Returns what these bytes are as a key from memory.
fn copied(alloc: Global, bytes: &[u8]) -> Result<String, AllocError> {
    match Copied::from_sec1_der(alloc, bytes) {
        Ok(key) => moved(alloc, &key.bytes),
        Err(error) => error_name(alloc, &error),
    }
}

/// Returns the line for any bytes, from memory and over such streams.
pub fn pieces(alloc: Global, line: &[u8]) -> Result<String, AllocError> {
    let (breaks, digits) = breaks_of(line);
    let Ok(bytes) = hex::decode(alloc, digits) else {
        return "not hexadecimal".to_string(alloc);
    };
    let (copied, found) = (copied(alloc, &bytes), found(alloc, &bytes, breaks));
    joined(alloc, ", ", ["pieces".to_string(alloc), copied, found])
}
