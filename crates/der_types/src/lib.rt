//! More types of DER (X.690) over `sec1_der`, for the records of certificates and containers.
//!
//! Values: integers, strings, times, identifiers of any length, bit strings, constants, and a type
//! of your own by a tag and a test of contents ([`Kind`]); values under an implicit tag; SEQUENCE
//! OF and SET OF. Parts of a record: CHOICE, DEFAULT, and elements of any tag. Laws of the
//! contents.
#![tactic(auto)]

// Types of values by a tag and a test of the content.
mod integer;
pub mod kind;
mod leaf;
mod object_identifier;
mod string;
mod time;
mod time_kind;

// Types of values of another shape.
mod bits;
mod boolean;
mod constant;
mod implicit;
mod unsigned;

// Elements of one type, one after another.
mod sequence_of;
mod set_of;

// Parts of a record.
mod any;
mod choice;
mod codec;
mod default;
mod optional_part;

// What is only proved.
pub mod laws;

pub use any::Any;
pub use bits::Bits;
pub use boolean::Boolean;
pub use choice::{Alternative, Choice};
pub use codec::read_part;
pub use constant::{Constant, ConstantContent, Null, True};
pub use default::{Defaulted, HasDefault};
pub use implicit::Implicit;
pub use integer::{Enumerated, Integer};
pub use leaf::{Kind, Leaf};
pub use object_identifier::ObjectIdentifierRef;
pub use optional_part::OptionalPart;
pub use sequence_of::{Elements, SequenceOf, check_elements};
pub use set_of::SetOf;
pub use string::{
    BmpString, Ia5String, NumericString, PrintableString, TeletexString, UniversalString,
    Utf8String, VisibleString,
};
pub use time::DateTime;
pub use time_kind::{GeneralizedTime, TimeKind, UtcTime};
pub use unsigned::Unsigned;
