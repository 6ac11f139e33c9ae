ghost use Rattle.std.specs.Prelude.{◌≡◌, Some, codes};
ghost use Rattle.std.specs.Fmt.{debug_variant};
ghost use Rattle.sec1.specs.Errors.{error_message, error_of};
ghost use Rattle.sec1.specs.declared.error.Error.TheVariants.{Asn1, Crypto, PointEncoding, Version};
ghost use Rattle.sec1.specs.declared.error.Error.TheVariants.{Memory};

use sec1_der as der;
use std::alloc::{AllocError, AllocFailed};
use std::fmt;

/// The error type of this crate.
#[derive(PartialEq, Eq, Drop, thiserror::Error)]
pub enum Error {
    /// The input isn't a value in DER, or a value can't be encoded in it. If the kind is Io, a read
    /// or write failed or a file couldn't be opened.
    Asn1(der::Error),

    /// For users of the crate: a value isn't valid cryptographically. No call of this crate returns
    /// it.
    Crypto,

    /// The bytes or the text aren't the encoding of a point.
    PointEncoding,

    /// For users of the crate: a version isn't supported. No call of this crate returns it.
    Version,

    /// An allocation failed.
    Memory,
}

/// Prints the text of the error, whatever options are set.
impl fmt::Display for Error {
    ghost output = { λ error. Some (error_message error) };

    ghost styled_output = { λ error _. Some (error_message error) };

    #[tactic(auto, using(crate::proofs::HexLemmas::printed))]
    fn fmt<W: fmt::Write>(&self, f: &mut fmt::Formatter<W>) -> fmt::Result {
        let text = match self {
            Error::Asn1(cause) => {
                f.write_str("SEC1 ASN.1 error: ")?;
                return fmt::Display::fmt(cause, f);
            }
            Error::Crypto => "SEC1 cryptographic error",
            Error::PointEncoding => "elliptic curve point encoding error",
            Error::Version => "SEC1 version error",
            Error::Memory => "out of memory",
        };
        f.write_str(text)
    }
}

impl fmt::Debug for Error {
    ghost debug_output = { λ error. elim error [
      | Asn1 cause ↦ debug_variant (codes "Asn1") (⟦<der::Error as fmt::Debug>⟧.debug_output cause)
      | Crypto ↦ Some (codes "Crypto")
      | PointEncoding ↦ Some (codes "PointEncoding")
      | Version ↦ Some (codes "Version")
      | Memory ↦ Some (codes "Memory")
    ] };

    fn fmt<W: fmt::Write>(&self, f: &mut fmt::Formatter<W>) -> fmt::Result {
        match self {
            Error::Asn1(cause) if f.alternate() => f.debug_tuple("Asn1").field(cause).finish(),
            Error::Asn1(cause) => write!(f, "Asn1({cause:?})"),
            Error::Crypto => f.write_str("Crypto"),
            Error::PointEncoding => f.write_str("PointEncoding"),
            Error::Version => f.write_str("Version"),
            Error::Memory => f.write_str("Memory"),
        }
    }
}

/// A [`Result`](std::result::Result) with the [`Error`] of this crate.
pub type Result<T> = std::result::Result<T, Error>;

/// A failed allocation becomes [`Error::Memory`], and every other error [`Error::Asn1`].
impl From<der::Error> for Error {
    ghost from_gives = { λ cause error. error ≡ error_of cause };

    fn from(cause: der::Error) -> Error {
        match cause.kind {
            der::ErrorKind::Memory => Error::Memory,
            _ => Error::Asn1(cause),
        }
    }
}

/// A failed allocation becomes [`Error::Memory`].
impl From<AllocError> for Error {
    ghost from_gives = { λ _ error. error ≡ Memory };

    fn from(_: AllocError) -> Error {
        Error::Memory
    }
}

/// A failed allocation becomes [`Error::Memory`].
impl<T: Drop> From<AllocFailed<T>> for Error {
    ghost from_gives = { λ _ error. error ≡ Memory };

    fn from(_: AllocFailed<T>) -> Error {
        Error::Memory
    }
}
