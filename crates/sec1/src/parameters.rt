ghost use Rattle.std.specs.Fmt.{debug_variant};
ghost use Rattle.std.specs.Prelude.{◌≡◌, Some, codes, true};
ghost use Rattle.sec1.specs.Parameters.{curve_of};
ghost use Rattle.sec1_der.specs.Contents.{identifier_fault};
ghost use Rattle.sec1_der.specs.Identifiers.{identifier_content, IsIdentifier};
ghost use Rattle.sec1_der.specs.Values.{tag_of, value_of};

use sec1_der as der;
use sec1_der::{
    AnyRef, BackWriter, DecodeValue, EncodeValue, FixedTag, Length, ObjectIdentifier, SliceReader,
    Tag, Tagged, UniqueContent, ValueContent,
};
use std::fmt;

/// The curve of a key, named by an identifier (RFC 5480 section 2.1.1). Curves given by their
/// parameters, or implicitly, are refused.
#[derive(Clone, Copy, PartialEq, Eq)]
pub enum EcParameters {
    /// The identifier of the curve.
    NamedCurve(ObjectIdentifier),
}

impl EcParameters {
    /// Returns the identifier of the curve, which is always present.
    pub fn named_curve(self) -> Option<ObjectIdentifier>
        ensures { result ≡ Some (curve_of self) }
    {
        match self {
            EcParameters::NamedCurve(identifier) => Some(identifier),
        }
    }
}

impl fmt::Debug for EcParameters {
    ghost debug_output = { λ parameters. debug_variant (codes "NamedCurve")
        (⟦<ObjectIdentifier as fmt::Debug>⟧.debug_output (curve_of parameters)) };

    fn fmt<W: fmt::Write>(&self, f: &mut fmt::Formatter<W>) -> fmt::Result {
        let EcParameters::NamedCurve(identifier) = self;
        if f.alternate() {
            return f.debug_tuple("NamedCurve").field(identifier).finish();
        }
        write!(f, "NamedCurve({identifier:?})")
    }
}

impl From<ObjectIdentifier> for EcParameters {
    ghost from_gives = { λ identifier parameters. curve_of parameters ≡ identifier };

    fn from(identifier: ObjectIdentifier) -> EcParameters {
        EcParameters::NamedCurve(identifier)
    }
}

/// Returns the element of the curve's identifier, whose content is borrowed.
impl<'a> From<&'a EcParameters> for AnyRef<'a> {
    ghost from_gives = { λ parameters any. (tag_of any ≡ 0x06)
        × IsIdentifier (curve_of parameters.now) (value_of any) };

    fn from(parameters: &'a EcParameters) -> AnyRef<'a> {
        match parameters {
            EcParameters::NamedCurve(identifier) => AnyRef::from(identifier),
        }
    }
}

impl Tagged for EcParameters {
    ghost tag_byte = { 0x06 };

    fn fixed_tag() -> Tag {
        Self::TAG
    }
}

impl FixedTag for EcParameters {
    const TAG: Tag = Tag::OBJECT_IDENTIFIER;
}

impl ValueContent for EcParameters {
    ghost content = { λ parameters. identifier_content (curve_of parameters) };

    ghost fault = { identifier_fault };
}

impl<'a> DecodeValue<'a> for EcParameters {
    fn decode_value(reader: &mut SliceReader<'a>) -> der::Result<Self> {
        match ObjectIdentifier::decode_value(reader) {
            Ok(identifier) => Ok(EcParameters::NamedCurve(identifier)),
            Err(e) => Err(e),
        }
    }
}

impl EncodeValue for EcParameters {
    fn value_len(&self) -> der::Result<Length> {
        match self {
            EcParameters::NamedCurve(identifier) => identifier.value_len(),
        }
    }

    fn encode_back(&self, writer: &mut BackWriter) -> der::Result<()> {
        match self {
            EcParameters::NamedCurve(identifier) => identifier.encode_back(writer),
        }
    }
}

impl UniqueContent for EcParameters {
    fn content_injective() {
        ObjectIdentifier::content_injective();
    }
}
