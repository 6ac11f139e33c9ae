//! Tags of the context-specific class (X.690 section 8.1.2.2), as types.

use crate::{Tag, Tagged};

/// The tag `[0]` of a constructed element, as a type.
pub struct Context0;

impl Tagged for Context0 {
    ghost tag_byte = { 0xA0 };

    fn fixed_tag() -> Tag {
        Tag::CONTEXT_0
    }
}

/// The tag `[1]` of a constructed element, as a type.
pub struct Context1;

impl Tagged for Context1 {
    ghost tag_byte = { 0xA1 };

    fn fixed_tag() -> Tag {
        Tag::CONTEXT_1
    }
}

/// The tag `[2]` of a constructed element, as a type.
pub struct Context2;

impl Tagged for Context2 {
    ghost tag_byte = { 0xA2 };

    fn fixed_tag() -> Tag {
        Tag::CONTEXT_2
    }
}

/// The tag `[3]` of a constructed element, as a type.
pub struct Context3;

impl Tagged for Context3 {
    ghost tag_byte = { 0xA3 };

    fn fixed_tag() -> Tag {
        Tag::CONTEXT_3
    }
}

/// The tag `[0]` of a primitive element, as a type.
pub struct Primitive0;

impl Tagged for Primitive0 {
    ghost tag_byte = { 0x80 };

    fn fixed_tag() -> Tag {
        Tag::PRIMITIVE_0
    }
}

/// The tag `[1]` of a primitive element, as a type.
pub struct Primitive1;

impl Tagged for Primitive1 {
    ghost tag_byte = { 0x81 };

    fn fixed_tag() -> Tag {
        Tag::PRIMITIVE_1
    }
}

/// The tag `[2]` of a primitive element, as a type.
pub struct Primitive2;

impl Tagged for Primitive2 {
    ghost tag_byte = { 0x82 };

    fn fixed_tag() -> Tag {
        Tag::PRIMITIVE_2
    }
}

/// The tag `[3]` of a primitive element, as a type.
pub struct Primitive3;

impl Tagged for Primitive3 {
    ghost tag_byte = { 0x83 };

    fn fixed_tag() -> Tag {
        Tag::PRIMITIVE_3
    }
}
