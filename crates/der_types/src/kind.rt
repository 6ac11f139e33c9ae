//! The kinds of [`Leaf`](crate::Leaf), each a tag and a test of contents.

pub use crate::constant::{NullKind as Null, TrueKind as True};
pub use crate::integer::{EnumeratedKind as Enumerated, IntegerKind as Integer};
pub use crate::leaf::Kind;
pub use crate::object_identifier::ObjectIdentifierKind as ObjectIdentifier;
pub use crate::string::{
    BmpStringKind as BmpString, Ia5StringKind as Ia5String, NumericStringKind as NumericString,
    PrintableStringKind as PrintableString, TeletexStringKind as TeletexString,
    UniversalStringKind as UniversalString, Utf8StringKind as Utf8String,
    VisibleStringKind as VisibleString,
};
pub use crate::time_kind::{GeneralizedTimeKind as GeneralizedTime, UtcTimeKind as UtcTime};
