ghost use Rattle.std.specs.Prelude.{◌≡◌, ◌++◌, [], ℕ, List, length, nat_le, Some, None};
ghost use Rattle.sec1_der.specs.declared.error.ErrorKind.TheVariants.{Truncated};
ghost use Rattle.std.specs.Prelude.{slice_get, true, false, if◌then◌else◌, IsOk, IfOk};
ghost use Rattle.std.specs.Prelude.{IsOkAnd, MatchResult, OnOk};
ghost use Rattle.sec1_der.specs.Readers.{reader_over, failed_reader, HasRead, Reader, RefusesBy};
ghost use Rattle.sec1_der.specs.Faults.{end_fault, no_fault};

mod values;

use crate::{Error, ErrorKind, Length, Result};
use std::marker::Model;

/// A reader over a slice. A contract sees the remaining input, and whether the reader has failed.
///
/// A reader has failed after its first error: [`peek_tag_byte`](SliceReader::peek_tag_byte) returns
/// `None`, no more bytes are read, and each call that returns a [`Result`] returns Failed.
#[derive(Drop)]
pub struct SliceReader<'a> {
    unread: &'a [u8],
    failed: bool,
}

impl<'a> Model for SliceReader<'a> {
    ghost Value = { Reader };

    ghost view = { λ r. record { unread = r.unread.now; failed = r.failed } };
}

impl<'a> SliceReader<'a> {
    /// Creates a reader at the beginning of a slice.
    pub fn new(bytes: &'a [u8]) -> SliceReader<'a>
        ensures { result ≡ reader_over bytes.now }
    {
        SliceReader {
            unread: bytes,
            failed: false,
        }
    }

    /// Returns the number of bytes of the remaining input.
    pub fn remaining_len(&self) -> usize
        ensures { result ≡ length self.now.unread }
    {
        self.unread.len()
    }

    /// Borrows the remaining input without reading it, even if the reader has failed.
    pub fn remaining_input(&self) -> &'a [u8]
        ensures { result.now ≡ self.now.unread }
    {
        self.unread
    }

    /// Returns `true` if the reader has failed.
    pub fn is_failed(&self) -> bool
        ensures { result ≡ self.now.failed }
    {
        self.failed
    }

    /// Returns the next byte without reading it, if there is one and the reader hasn't failed.
    pub fn peek_tag_byte(&self) -> Option<u8>
        ensures { result ≡ (if self.now.failed then None else slice_get self.now.unread 0) }
    {
        if self.failed {
            None
        } else {
            self.unread.first().copied()
        }
    }

    /// Reads and borrows the next `count` bytes.
    ///
    /// # Errors
    ///
    /// Truncated if there are fewer; Failed if the reader failed before.
    pub fn read_slice(&mut self, count: Length) -> Result<&'a [u8]>
        ensures found { IfOk result (λ bytes. (length bytes.now ≡ count)
            × HasRead bytes.now self.old self.new) }
        ensures only { (bytes rest : List ℕ) → length bytes ≡ count
            → self.old ≡ reader_over (bytes ++ rest)
            → IsOkAnd result (λ found. found.now ≡ bytes) × (self.new ≡ reader_over rest) }
        ensures refused { RefusesBy
            (λ unread. if nat_le count (length unread) then None else Some (Some Truncated))
            result self.old self.new }
    {
        self.check()?;
        let count = count.get();
        if self.unread.len() < count {
            return Err(self.fail(ErrorKind::Truncated));
        }
        let (bytes, rest) = self.unread.split_at(count);
        self.unread = rest;
        Ok(bytes)
    }

    /// Reads the next `count` bytes, and returns a reader over them.
    ///
    /// # Errors
    ///
    /// Truncated if there are fewer; Failed if the reader failed before.
    pub fn read_nested(&mut self, count: Length) -> Result<SliceReader<'a>>
        ensures found { IfOk result (λ nested. (length nested.unread ≡ count)
            × (nested ≡ reader_over nested.unread) × HasRead nested.unread self.old self.new) }
        ensures only { (bytes rest : List ℕ) → length bytes ≡ count
            → self.old ≡ reader_over (bytes ++ rest)
            → (result ≡ Ok (reader_over bytes)) × (self.new ≡ reader_over rest) }
        ensures refused { RefusesBy
            (λ unread. if nat_le count (length unread) then None else Some (Some Truncated))
            result self.old self.new }
    {
        let bytes = self.read_slice(count)?;
        Ok(SliceReader::new(bytes))
    }

    /// Checks that the whole input was read.
    ///
    /// # Errors
    ///
    /// TrailingData if input remains; Failed if the reader failed before.
    pub fn finish(&mut self) -> Result<()>
        ensures found { OnOk result ((self.old ≡ reader_over []) × (self.new ≡ self.old)) }
        ensures only { self.old ≡ reader_over [] → IsOk result }
        ensures refused { RefusesBy end_fault result self.old self.new }
    {
        self.check()?;
        if !self.unread.is_empty() {
            return Err(self.fail(ErrorKind::TrailingData));
        }
        Ok(())
    }

    /// Marks the reader as failed, and returns an error of this kind.
    pub fn fail(&mut self, kind: ErrorKind) -> Error
        ensures { (result.kind ≡ kind) × (self.new ≡ failed_reader self.old) }
    {
        self.failed = true;
        kind.into()
    }

    /// Goes back to this remaining input, marks the reader as failed, and returns an error of this
    /// kind.
    pub(crate) fn fail_at(&mut self, start: &'a [u8], kind: ErrorKind) -> Error
        ensures { (result.kind ≡ kind)
            × (self.new ≡ record { unread = start.now; failed = true }) }
    {
        self.unread = start;
        self.fail(kind)
    }

    /// Checks that the reader hasn't failed.
    ///
    /// # Errors
    ///
    /// Failed if it has.
    pub(crate) fn check(&self) -> Result<()>
        ensures { MatchResult result (λ _. self.now.failed ≡ false)
            (λ e. (e.kind ≡ ErrorKind.Failed) × (self.now.failed ≡ true)) }
    {
        if self.failed {
            return Err(ErrorKind::Failed.into());
        }
        Ok(())
    }

    /// Sets the remaining input.
    pub(crate) fn set_unread(&mut self, rest: &'a [u8])
        ensures { self.new ≡ record self.old { unread = rest.now } }
    {
        self.unread = rest;
    }

    /// Reads and borrows the remaining input, which may be empty. Your own type reads its content
    /// by this call.
    ///
    /// # Errors
    ///
    /// Failed if the reader failed before.
    pub fn read_rest(&mut self) -> Result<&'a [u8]>
        ensures found { IfOk result
            (λ rest. (self.old ≡ reader_over rest.now) × (self.new ≡ reader_over [])) }
        ensures refused { RefusesBy no_fault result self.old self.new }
    {
        self.check()?;
        let (rest, end) = self.unread.split_at(self.unread.len());
        self.unread = end;
        Ok(rest)
    }
}
