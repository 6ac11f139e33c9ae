//! What is marked below a row.

mod faults;
mod words;

pub(crate) use faults::{content_fault, length_fault, string_fault, tag_fault};
pub(crate) use words::byte_word;

/// A rule of X.690 that isn't kept. Its words stand below.
#[rattlefmt::skip]
#[derive(Clone, Copy)]
pub enum Fault {
    // of a header
    LowTag, PaddedTag, Length, Indefinite, ConstructedString,
    // of a content
    TrueIsFf, BooleanLength, EmptyInteger, NullContent, NoIdentifier, EmptyBitString,
    UnusedAboveSeven, UnusedInEmpty, UnusedNotZero, UtcTime, GeneralizedTime,
}

/// The kind of each fault, that of the header's part or of the content, and its words, in order.
#[rattlefmt::skip]
static FAULTS: [(&str, &str); 16] = [
    ("tag", "tag number below 31 in the high form (X.690 8.1.2.2)"),
    ("tag", "tag number with a needless byte 80 (X.690 8.1.2.4.2)"),
    ("length", "length in more bytes than needed (X.690 10.1)"),
    ("indefinite", "indefinite length (X.690 8.1.3.6); DER has definite ones (10.1)"),
    ("string", "constructed string; DER has primitive ones (X.690 10.2)"),
    ("content", "TRUE is FF (X.690 11.1)"),
    ("content", "BOOLEAN has 1 byte (X.690 8.2.1)"),
    ("content", "INTEGER has a byte or more (X.690 8.3.1)"),
    ("content", "NULL has no content (X.690 8.8.2)"),
    ("content", "no identifier (X.690 8.19.2)"),
    ("content", "BIT STRING has a byte or more (X.690 8.6.2.2)"),
    ("content", "more than 7 unused bits (X.690 8.6.2.2)"),
    ("content", "unused bits in an empty BIT STRING (X.690 8.6.2.3)"),
    ("content", "unused bits that aren't 0 (X.690 11.2.1)"),
    ("content", "not YYMMDDhhmmssZ (X.690 11.8)"),
    ("content", "not YYYYMMDDhhmmss[.f]Z (X.690 11.7)"),
];

/// What is marked below a row.
#[derive(Clone, Copy)]
pub enum Mark {
    /// The input, or the element around it, ends inside the content.
    Missing {
        /// The number of bytes that are missing.
        missing: usize,
        /// The length of the content.
        announced: usize,
    },
    /// A rule of X.690 isn't kept.
    Fault(Fault),
    /// The bytes aren't characters of the type of X.680 with this tag number.
    Characters(u32),
    /// The components that could come there, which the row has, are others.
    Expected,
    /// The bytes are after the end of the root.
    AfterRoot,
}

impl Mark {
    /// Returns the kind of the mark, as JSON has it.
    pub fn kind(self) -> &'static str {
        match self {
            Mark::Missing { .. } => "missing",
            Mark::Fault(fault) => FAULTS[fault as usize].0,
            Mark::Characters(_) => "content",
            Mark::Expected => "expected",
            Mark::AfterRoot => "rest",
        }
    }
}
