ghost use Rattle.std.specs.Prelude.{◌≡◌, [], ◌∷◌, true, refl, Bool};

use der_types::{Boolean, HasDefault};
use sec1_der::{
    BackWriter, DecodeValue, EncodeValue, Length, Result, SliceReader, Tag, Tagged, UniqueContent,
    ValueContent,
};
use std::marker::Model;

/// A BOOLEAN whose default is TRUE: the component `Defaulted<Enabled>` is `BOOLEAN DEFAULT TRUE`.
#[derive(Clone, Copy, PartialEq, Eq, Debug)]
pub struct Enabled(pub Boolean);

impl Model for Enabled {
    ghost Value = { Bool };

    ghost view = { λ enabled. enabled.0 };

    ghost inverse = { λ value. record { 0 = value } };
}

impl Tagged for Enabled {
    ghost tag_byte = { 0x01 };

    fn fixed_tag() -> Tag {
        Tag::BOOLEAN
    }
}

impl ValueContent for Enabled {
    ghost content = { ⟦<Boolean as ValueContent>⟧.content };

    ghost fault = { ⟦<Boolean as ValueContent>⟧.fault };
}

impl<'a> DecodeValue<'a> for Enabled {
    fn decode_value(reader: &mut SliceReader<'a>) -> Result<Self> {
        Ok(Enabled(Boolean::decode_value(reader)?))
    }
}

impl EncodeValue for Enabled {
    fn value_len(&self) -> Result<Length> {
        self.0.value_len()
    }

    fn encode_back(&self, writer: &mut BackWriter) -> Result<()> {
        self.0.encode_back(writer)
    }
}

impl UniqueContent for Enabled {
    fn content_injective() {
        Boolean::content_injective();
    }
}

impl HasDefault for Enabled {
    ghost default = { true };

    ghost default_content = { 0xFF ∷ [] };

    fn default_value() -> Self {
        Enabled(Boolean(true))
    }

    fn is_default(&self) -> bool {
        self.0.0
    }

    ghost has_content = { refl };
}
