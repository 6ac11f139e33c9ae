//! The part of DER (X.690) that EC private keys need. Each value has one encoding, and everything
//! else is refused.
//!
//! Lengths, tags and headers; a reader and two writers over slices; the values that a key is made
//! of; traits by which a type is read from and written as its element, and the calls that are
//! generic over them; records, which are read and written by their parts; documents, which are read
//! from and written to streams and files; a check of whole trees; laws.
#![tactic(auto)]

// What an element consists of, and why bytes are refused.
mod error;
mod header;
mod length;
mod tag;

// Readers and writers over slices.
mod back_writer;
mod copies;
mod reader;
mod slice_writer;

// What a type of values needs, and the calls that are generic over it.
mod codec;
mod value;

// Types of values: elements of any tag, and those that a key has.
mod any;
mod bit_string;
mod component_values;
mod identifier_ref;
mod object_identifier;
mod octet_string;
mod version;

// Records and their parts; values with an explicit tag.
mod context;
mod explicit;
mod optional;
mod part;
mod record;
mod required;

// Whole inputs: trees, and documents over streams and files.
mod document;
mod std_stream;
mod stream;
mod tree;

// What is only proved.
mod checks;
pub mod laws;

pub use any::AnyRef;
pub use back_writer::BackWriter;
pub use bit_string::BitStringRef;
pub use codec::{encode_to_slice, encoded_len, from_der, known_encoded_len, read_der, to_der};
pub use component_values::{Octets, SmallInteger, WholeBits};
pub use context::{
    Context0, Context1, Context2, Context3, Primitive0, Primitive1, Primitive2, Primitive3,
};
pub use document::SecretDocument;
pub use error::{Error, ErrorKind, Result};
pub use explicit::{Containing, Explicit, ExplicitBits, OctetTag};
pub use header::Header;
pub use identifier_ref::IdentifierRef;
pub use length::Length;
pub use object_identifier::{
    Arcs, ID_EC_PUBLIC_KEY, IdentifierText, MAX_IDENTIFIER, MAX_IDENTIFIER_TEXT, ObjectIdentifier,
    SECP256R1,
};
pub use octet_string::OctetStringRef;
pub use optional::Optional;
pub use part::{DecodePart, EncodePart, Part, UniquePart};
pub use reader::SliceReader;
pub use record::{Distinct, Record};
pub use required::{Required, component_len, decode_component};
pub use slice_writer::SliceWriter;
pub use std_stream::{StdReader, StdWriter};
pub use stream::{IoFault, Read, Write};
pub use tag::Tag;
pub use tree::{MAX_DEPTH, check_tree};
pub use value::{
    DecodeValue, EncodeValue, FixedTag, Sequence, Tagged, UniqueContent, ValueContent,
};
pub use version::VersionOne;
