//! The numbers that the exported functions return.
ghost use Rattle.std.specs.Prelude.{◌≡◌, Option, Some};
ghost use Rattle.sec1.specs.Errors.{IsAsn1, IsAsn1Where};
ghost use Rattle.sec1_c.specs.Statuses.{curve_number, error_number, fault_number};
ghost use Rattle.sec1_c.specs.Statuses.{field_length_number, kind_number, other_curve_number};
ghost use Rattle.sec1_c.specs.Statuses.{pem_number};

mod text;

use sec1::Error;
use sec1::der::ErrorKind;

/// The number of success.
pub const OK: u32 = 0;

/// Returns the number of a kind of error in DER.
pub fn kind_number(kind: ErrorKind) -> u32
    ensures { result ≡ kind_number kind }
{
    match kind {
        ErrorKind::Truncated => 1,
        ErrorKind::Tag => 2,
        ErrorKind::Length => 3,
        ErrorKind::TrailingData => 4,
        ErrorKind::Value => 5,
        ErrorKind::Overlength => 6,
        ErrorKind::Buffer => 7,
        ErrorKind::Depth => 8,
        ErrorKind::Failed => 14,
        ErrorKind::Io => 15,
        ErrorKind::Memory => 16,
    }
}

/// Returns the number of an error.
pub fn error_number(error: &Error) -> u32
    ensures number { result ≡ error_number error.now }
    ensures kind { (kind : ErrorKind) → IsAsn1 kind error.now → result ≡ kind_number kind }
    ensures fault { (fault : Option (Option ErrorKind))
        → IsAsn1Where (λ kind. fault ≡ Some (Some kind)) error.now → result ≡ fault_number fault }
{
    match error {
        Error::Asn1(cause) => kind_number(cause.kind),
        Error::PointEncoding => 9,
        Error::Memory => 16,
        Error::Crypto => 17,
        Error::Version => 18,
    }
}

/// Returns the number of a field length that isn't supported.
pub fn field_length_number() -> u32
    ensures { result ≡ field_length_number }
{
    10
}

/// Returns the number of a curve that isn't in the table.
pub fn curve_number() -> u32
    ensures { result ≡ curve_number }
{
    11
}

/// Returns the number of a key that names another curve than its container.
pub fn other_curve_number() -> u32
    ensures { result ≡ other_curve_number }
{
    12
}

/// Returns the number of a text without the PEM that is asked for.
pub fn pem_number() -> u32
    ensures { result ≡ pem_number }
{
    13
}
