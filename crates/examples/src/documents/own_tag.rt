use sec1::der::{Tag, Tagged};

/// The tag `[30]` of a constructed element, as a type.
pub struct Context30;

impl Tagged for Context30 {
    ghost tag_byte = { 0xBE };

    fn fixed_tag() -> Tag {
        match Tag::from_byte(0xBE) {
            Ok(tag) => tag,
            Err(_) => unreachable!(),
        }
    }
}
