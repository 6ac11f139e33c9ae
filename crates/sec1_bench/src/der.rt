//! Parts of DER: headers, trees, identifiers, and documents from streams.
ghost use Rattle.std.specs.Prelude.{◌<◌, false, length, IfOk, OnOk};

use crate::length_and_last;
use sec1::der::{
    Header, IoFault, ObjectIdentifier, Read, Result, SecretDocument, SliceReader, check_tree,
};
use std::alloc::Global;
use std::str::from_utf8;

/// Returns the header at the beginning of the bytes and the bytes after it, as a call that isn't
/// inlined does.
#[inline(never)]
fn header(bytes: &[u8]) -> Result<(Header, &[u8])>
    ensures { IfOk result (λ x. length x.1.now < length bytes.now) }
{
    let mut reader = SliceReader::new(bytes);
    let header = Header::decode(&mut reader)?;
    Ok((header, reader.remaining_input()))
}

/// Reads a header from a reader in memory, as a call that isn't inlined does.
#[inline(never)]
fn header_of(reader: &mut SliceReader) -> Result<Header>
    ensures { OnOk result (length reader.new.unread < length reader.old.unread) }
{
    Header::decode(reader)
}

/// Returns an identifier, as a call that isn't inlined does.
#[inline(never)]
fn identifier(content: &[u8]) -> Result<ObjectIdentifier> {
    ObjectIdentifier::from_bytes(content)
}

/// Reads headers, one after the other, to the end. Returns the sum of the lengths that they
/// announce.
#[unsafe(no_mangle)]
pub extern "C" fn bench_headers_read(input: &[u8]) -> usize {
    let mut rest = input;
    let mut sum: usize = 0;
    while let Ok((header, after)) = header(rest) {
        sum = sum.wrapping_add(header.length.get());
        rest = after;
    }
    sum
}

/// Reads headers as [`bench_headers_read`] does, by calls that move one reader.
#[unsafe(no_mangle)]
pub extern "C" fn bench_headers_read_by_reader(input: &[u8]) -> usize {
    let mut reader = SliceReader::new(input);
    let mut sum: usize = 0;
    while let Ok(header) = header_of(&mut reader) {
        sum = sum.wrapping_add(header.length.get());
    }
    sum
}

/// Reads headers as [`bench_headers_read`] does, by calls that may be inlined.
#[unsafe(no_mangle)]
pub extern "C" fn bench_headers_read_inline(input: &[u8]) -> usize {
    let mut reader = SliceReader::new(input);
    let mut sum: usize = 0;
    while let Ok(header) = Header::decode(&mut reader) {
        sum = sum.wrapping_add(header.length.get());
    }
    sum
}

/// Checks that the input is one tree. Returns the number of its elements.
#[unsafe(no_mangle)]
pub extern "C" fn bench_tree_check(input: &[u8]) -> usize {
    check_tree(input).unwrap_or(0)
}

/// Reads an identifier's content. Returns its length and last byte, added up.
#[unsafe(no_mangle)]
pub extern "C" fn bench_identifier_read(input: &[u8]) -> usize {
    match identifier(input) {
        Ok(identifier) => length_and_last(identifier.as_bytes()),
        Err(_) => 0,
    }
}

/// Reads an identifier's content as [`bench_identifier_read`] does, by a call that may be inlined.
#[unsafe(no_mangle)]
pub extern "C" fn bench_identifier_read_inline(input: &[u8]) -> usize {
    match ObjectIdentifier::from_bytes(input) {
        Ok(identifier) => length_and_last(identifier.as_bytes()),
        Err(_) => 0,
    }
}

/// Reads an identifier's dotted text. Returns the length of its content and the last byte, added
/// up.
#[unsafe(no_mangle)]
pub extern "C" fn bench_identifier_parse(input: &[u8]) -> usize {
    let Ok(text) = from_utf8(input) else {
        return 0;
    };
    match ObjectIdentifier::new(text) {
        Ok(identifier) => length_and_last(identifier.as_bytes()),
        Err(_) => 0,
    }
}

/// Makes the dotted text of an identifier with this content. Returns its length.
#[unsafe(no_mangle)]
pub extern "C" fn bench_identifier_text(alloc: Global, input: &[u8]) -> usize {
    match ObjectIdentifier::from_bytes(input) {
        Ok(identifier) => match format!(in alloc; "{identifier}") {
            Ok(text) => text.len(),
            Err(_) => 0,
        },
        Err(_) => 0,
    }
}

/// A reader that gives as many of its bytes as are asked for.
#[derive(Drop)]
struct Whole<'a> {
    rest: &'a [u8],
}

impl Read for Whole<'_> {
    ghost failed = { λ _. false };

    fn read(&mut self, buf: &mut [u8]) -> std::result::Result<usize, IoFault> {
        let count = self.rest.len().min(buf.len());
        let (front, rest) = self.rest.split_at(count);
        buf[..count].copy_from_slice(front);
        self.rest = rest;
        Ok(count)
    }

    fn has_failed(&self) -> bool {
        false
    }
}

/// A reader that gives one byte a call.
#[derive(Drop)]
struct Single<'a> {
    rest: &'a [u8],
}

impl Read for Single<'_> {
    ghost failed = { λ _. false };

    fn read(&mut self, buf: &mut [u8]) -> std::result::Result<usize, IoFault> {
        let Some((first, rest)) = self.rest.split_first() else {
            return Ok(0);
        };
        if buf.is_empty() {
            return Ok(0);
        }
        buf[0] = *first;
        self.rest = rest;
        Ok(1)
    }

    fn has_failed(&self) -> bool {
        false
    }
}

/// Reads a document from a reader that gives all that is asked for. Returns its length.
#[unsafe(no_mangle)]
pub extern "C" fn bench_document_read(alloc: Global, input: &[u8]) -> usize {
    match SecretDocument::read_der_from(alloc, &mut Whole { rest: input }) {
        Ok(document) => document.len(),
        Err(_) => 0,
    }
}

/// Reads a document from a reader that gives one byte a call. Returns its length.
#[unsafe(no_mangle)]
pub extern "C" fn bench_document_read_bytes(alloc: Global, input: &[u8]) -> usize {
    match SecretDocument::read_der_from(alloc, &mut Single { rest: input }) {
        Ok(document) => document.len(),
        Err(_) => 0,
    }
}
