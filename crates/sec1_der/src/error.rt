ghost use Rattle.std.specs.Fmt.{WritesStyledOnOk};
ghost use Rattle.std.specs.Prelude.{◌≡◌, [], ◌∷◌, Some, codes};
ghost use Rattle.sec1_der.specs.Errors.{kind_text, struct_text};
ghost use Rattle.sec1_der.specs.Errors.{kind_message};
ghost use Rattle.sec1_der.specs.declared.error.ErrorKind.TheVariants.{Io, Memory};

use crate::IoFault;
use std::alloc::{AllocError, AllocFailed};
use std::fmt;

/// The reason of an [`Error`].
#[derive(Clone, Copy, PartialEq, Eq, thiserror::Error)]
pub enum ErrorKind {
    /// The input, or the surrounding element, ends too early.
    Truncated,
    /// A byte that isn't a valid tag, or isn't the expected one.
    Tag,
    /// A length that isn't in the form of DER, or is above [`Length::MAX`](crate::Length::MAX).
    Length,
    /// Bytes after the end of the value.
    TrailingData,
    /// A content that isn't valid for its tag, a text that isn't an identifier's, or unused bits
    /// that a bit string can't have.
    Value,
    /// A content to write, or a number, above [`Length::MAX`](crate::Length::MAX).
    Overlength,
    /// The slice to write into is too small.
    Buffer,
    /// The reader failed before.
    Failed,
    /// A read, a write or the opening of a file failed.
    Io,
    /// More than 64 nested elements.
    Depth,
    /// An allocation failed.
    Memory,
}

/// Prints the text of the kind, whatever options are set.
impl fmt::Display for ErrorKind {
    ghost output = { λ kind. Some (kind_message kind) };

    ghost styled_output = { λ kind _. Some (kind_message kind) };

    fn fmt<W: fmt::Write>(&self, f: &mut fmt::Formatter<W>) -> fmt::Result {
        f.write_str(match self {
            ErrorKind::Truncated => "input ends inside an element",
            ErrorKind::Tag => "unexpected or unsupported tag",
            ErrorKind::Length => "length not in DER form or above the limit",
            ErrorKind::TrailingData => "bytes after the value",
            ErrorKind::Value => "content not valid for its tag",
            ErrorKind::Overlength => "value longer than 268435455 bytes",
            ErrorKind::Buffer => "output buffer too small",
            ErrorKind::Failed => "reader has already refused",
            ErrorKind::Io => "read or write failed",
            ErrorKind::Depth => "more than 64 nested elements",
            ErrorKind::Memory => "out of memory",
        })
    }
}

/// Prints the name of the kind, whatever options are set.
impl fmt::Debug for ErrorKind {
    ghost debug_output = { λ kind. Some (kind_text kind) };

    fn fmt<W: fmt::Write>(&self, f: &mut fmt::Formatter<W>) -> fmt::Result
        ensures { WritesStyledOnOk W.write_str_gives f.old result (kind_text self.now) f.new }
    {
        f.write_str(match self {
            ErrorKind::Truncated => "Truncated",
            ErrorKind::Tag => "Tag",
            ErrorKind::Length => "Length",
            ErrorKind::TrailingData => "TrailingData",
            ErrorKind::Value => "Value",
            ErrorKind::Overlength => "Overlength",
            ErrorKind::Buffer => "Buffer",
            ErrorKind::Failed => "Failed",
            ErrorKind::Io => "Io",
            ErrorKind::Depth => "Depth",
            ErrorKind::Memory => "Memory",
        })
    }
}

/// The error type of this crate. Its text is that of its kind.
#[derive(PartialEq, Eq, Drop, thiserror::Error)]
pub struct Error {
    /// The reason.
    pub kind: ErrorKind,
}

impl Error {
    /// Returns the reason.
    pub fn kind(&self) -> ErrorKind
        ensures { result ≡ self.now.kind }
    {
        self.kind
    }
}

/// Prints the text of the kind.
impl fmt::Display for Error {
    ghost output = { λ e. Some (kind_message e.kind) };

    ghost styled_output = { λ e _. Some (kind_message e.kind) };

    fn fmt<W: fmt::Write>(&self, f: &mut fmt::Formatter<W>) -> fmt::Result {
        fmt::Display::fmt(&self.kind, f)
    }
}

impl fmt::Debug for Error {
    ghost debug_output = { λ e. struct_text (codes "Error")
        ((codes "kind", Some (kind_text e.kind)) ∷ []) };

    fn fmt<W: fmt::Write>(&self, f: &mut fmt::Formatter<W>) -> fmt::Result {
        let kind = self.kind;
        if f.alternate() {
            return f.debug_struct("Error").field("kind", &kind).finish();
        }
        write!(f, "Error {{ kind: {kind:?} }}")
    }
}

impl From<ErrorKind> for Error {
    ghost from_gives = { λ kind e. e ≡ record { kind = kind } };

    fn from(kind: ErrorKind) -> Error {
        Error { kind }
    }
}

/// A failed read or write becomes Io.
impl From<IoFault> for Error {
    ghost from_gives = { λ _ e. e ≡ record { kind = Io } };

    fn from(_: IoFault) -> Error {
        ErrorKind::Io.into()
    }
}

/// A failed allocation becomes Memory.
impl From<AllocError> for Error {
    ghost from_gives = { λ _ e. e ≡ record { kind = Memory } };

    fn from(_: AllocError) -> Error {
        ErrorKind::Memory.into()
    }
}

/// A failed allocation becomes Memory.
impl<T: Drop> From<AllocFailed<T>> for Error {
    ghost from_gives = { λ _ e. e ≡ record { kind = Memory } };

    fn from(_: AllocFailed<T>) -> Error {
        ErrorKind::Memory.into()
    }
}

/// A [`Result`](std::result::Result) with the [`Error`] of this crate.
pub type Result<T> = std::result::Result<T, Error>;
