//! The header of an element in BER (X.690 section 8.1).
ghost use Rattle.std.specs.Prelude.{◌≡◌, ◌<◌, ◌≤◌, ◌+◌, ◌*◌, ◌%◌, ◌∷◌, [], length, IfOk};
ghost use Rattle.sec1_der.specs.Elements.{number_of};
ghost use Rattle.der_view.specs.Headers.{header_of, is_type, length_at, number_after, tag_at};
ghost use Rattle.der_view.specs.Headers.{tag_of};

/// Why bytes begin with no header.
#[derive(Clone, Copy)]
pub enum ElementFault {
    /// The tag byte is 00 or 20, which is reserved (X.690 section 8.1.5).
    ReservedTag(u8),
    /// The bytes end inside the tag.
    TagCut,
    /// The tag number is 2^28 or more.
    TagTooLarge,
    /// The bytes end inside the length.
    LengthCut,
    /// The length byte is FF, which is reserved (X.690 section 8.1.3.5).
    ReservedLength,
    /// The length has more than four bytes, as this byte says.
    LongLength(u8),
    /// The length is above 16,777,215.
    LengthTooLarge,
    /// The length of a primitive element is indefinite (X.690 section 8.1.3.2).
    IndefinitePrimitive,
}

/// The class of a tag (X.690 section 8.1.2.2).
#[derive(Clone, Copy)]
pub enum Class {
    /// The types of X.680.
    Universal,
    /// The types of an application.
    Application,
    /// The fields of a type.
    Context,
    /// The types of an organization.
    Private,
}

/// A tag (X.690 section 8.1.2).
#[derive(Clone, Copy)]
pub struct Tag {
    /// The class.
    pub class: Class,
    /// Whether the content is elements.
    pub constructed: bool,
    /// The number, which is below 2^28.
    pub number: u32,
}

impl Tag {
    /// Returns the tag with this first byte and this number.
    pub(crate) fn of(first: u8, number: u32) -> Tag
        ensures { result ≡ tag_of first number }
    {
        Tag {
            class: match first / 0x40 {
                0 => Class::Universal,
                1 => Class::Application,
                2 => Class::Context,
                _ => Class::Private,
            },
            constructed: first / 0x20 % 2 == 1,
            number,
        }
    }

    /// Returns `true` if this is the tag of a type of X.680 with this number.
    pub fn is_universal(self, number: u32) -> bool
        ensures { result ≡ is_type self number }
    {
        matches!(&self.class, Class::Universal) && self.number == number
    }
}

/// The header of an element: its tag and its length.
#[derive(Clone, Copy)]
pub struct Header {
    /// The tag.
    pub tag: Tag,
    /// The number of bytes of the tag.
    pub tag_len: usize,
    /// The number of bytes of the header.
    pub len: usize,
    /// The length of the content in bytes, at most 16,777,215; `None` if it is indefinite (X.690
    /// section 8.1.3.6).
    pub content_len: Option<usize>,
}

impl Header {
    /// Returns the header at the beginning of the bytes.
    ///
    /// # Errors
    ///
    /// What is wrong with the first bytes, if they are no header.
    pub fn read(bytes: &[u8]) -> Result<Header, ElementFault>
        ensures exact { result ≡ header_of bytes.now }
        ensures bounds { IfOk result
            (λ h. (0 < h.tag_len) × (h.tag_len < h.len) × (h.len ≤ length bytes.now)) }
    {
        let (tag, tag_len) = tag_at(bytes)?;
        let (content_len, length_len) = length_at(&bytes[tag_len..])?;
        if content_len.is_none() && !tag.constructed {
            return Err(ElementFault::IndefinitePrimitive);
        }
        Ok(Header {
            tag,
            tag_len,
            len: tag_len + length_len,
            content_len,
        })
    }
}

/// Returns the tag at the beginning of the bytes, and the number of its bytes.
fn tag_at(bytes: &[u8]) -> Result<(Tag, usize), ElementFault>
    ensures exact { result ≡ tag_at bytes.now }
    ensures bounds { IfOk result (λ x. (0 < x.1) × (x.1 ≤ length bytes.now)) }
{
    let [first, rest @ ..] = bytes else {
        return Err(ElementFault::TagCut);
    };
    let first = *first;
    if first == 0x00 || first == 0x20 {
        return Err(ElementFault::ReservedTag(first));
    }
    let low = first % 0x20;
    let (number, len) = if low < 0x1F {
        (low as u32, 0)
    } else {
        high_number(rest)?
    };
    Ok((Tag::of(first, number), len + 1))
}

/// Returns the number of a tag in the high form (X.690 section 8.1.2.4), which these bytes after
/// its first one begin with, and the number of its bytes.
fn high_number(bytes: &[u8]) -> Result<(u32, usize), ElementFault>
    ensures exact { result ≡ number_after 4 0 bytes.now }
    ensures bounds { IfOk result (λ x. x.1 ≤ length bytes.now) }
{
    match bytes {
        [a, ..] if *a < 0x80 => Ok((joined(0, *a), 1)),
        [a, b, ..] if *b < 0x80 => Ok((joined(joined(0, *a), *b), 2)),
        [a, b, c, ..] if *c < 0x80 => Ok((joined(joined(joined(0, *a), *b), *c), 3)),
        [a, b, c, d, ..] if *d < 0x80 => Ok((joined(joined(joined(joined(0, *a), *b), *c), *d), 4)),
        [_, _, _, _, ..] => Err(ElementFault::TagTooLarge),
        _ => Err(ElementFault::TagCut),
    }
}

/// Returns the number with one more digit of seven bits, the low ones of this byte.
fn joined(number: u32, byte: u8) -> u32
    requires { number < 0x200000 }
    ensures { result ≡ number * 0x80 + byte % 0x80 }
{
    number * 0x80 + (byte % 0x80) as u32
}

/// Returns the length at the beginning of the bytes, `None` if it is indefinite, and the number of
/// its bytes (X.690 section 8.1.3).
fn length_at(bytes: &[u8]) -> Result<(Option<usize>, usize), ElementFault>
    ensures exact { result ≡ length_at bytes.now }
    ensures bounds { IfOk result (λ x. (0 < x.1) × (x.1 ≤ length bytes.now)) }
{
    match bytes {
        [] => Err(ElementFault::LengthCut),
        [0xFF, ..] => Err(ElementFault::ReservedLength),
        [0x80, ..] => Ok((None, 1)),
        [0x81, a, ..] => Ok((Some(number(0, 0, *a)), 2)),
        [0x82, a, b, ..] => Ok((Some(number(0, *a, *b)), 3)),
        [0x83, a, b, c, ..] => Ok((Some(number(*a, *b, *c)), 4)),
        [0x84, 0, b, c, d, ..] => Ok((Some(number(*b, *c, *d)), 5)),
        [0x84, _, _, _, _, ..] => Err(ElementFault::LengthTooLarge),
        [first, ..] => {
            if *first < 0x80 {
                Ok((Some(*first as usize), 1))
            } else if *first < 0x85 {
                Err(ElementFault::LengthCut)
            } else {
                Err(ElementFault::LongLength(*first))
            }
        }
    }
}

/// Returns the number of these three digits of eight bits.
fn number(a: u8, b: u8, c: u8) -> usize
    ensures { result ≡ number_of (a ∷ b ∷ c ∷ []) }
{
    (a as usize * 0x100 + b as usize) * 0x100 + c as usize
}
