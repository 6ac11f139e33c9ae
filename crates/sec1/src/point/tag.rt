//! The first byte of a point's encoding.

ghost use Rattle.std.specs.Fmt.{DisplaysStyledOnOk};
ghost use Rattle.std.specs.Prelude.{◌≡◌, ◌≢◌, ◌<◌, ◌^◌, ◌==◌, ◌||◌, if◌then◌else◌, MatchResult};
ghost use Rattle.std.specs.Prelude.{Some, codes, ◌%◌};
ghost use Rattle.sec1.specs.declared.error.Error.TheVariants.{PointEncoding};
ghost use Rattle.sec1.specs.declared.point.tag.Tag.TheVariants as tags;
ghost use Rattle.sec1_der.specs.Elements.{number_of};
ghost use Rattle.sec1.specs.Tags.{byte_of, message_len};

use crate::error::{Error, Result};

/// The first byte of a point's encoding: identity, compressed and uncompressed (SEC1 v2.0 section
/// 2.3.3), compact, which has x alone, and hybrid, which has y and its parity (ANSI X9.62).
#[derive(Clone, Copy, Debug, PartialEq, Eq)]
pub enum Tag {
    /// `00`: the point at infinity.
    Identity = 0,
    /// `02`: x, with an even y.
    CompressedEvenY = 2,
    /// `03`: x, with an odd y.
    CompressedOddY = 3,
    /// `04`: x and y.
    Uncompressed = 4,
    /// `05`: x alone.
    Compact = 5,
    /// `06`: x and y, which is even.
    HybridEvenY = 6,
    /// `07`: x and y, which is odd.
    HybridOddY = 7,
}

impl Tag {
    /// Returns the tag with this byte.
    ///
    /// # Errors
    ///
    /// [`Error::PointEncoding`] if there is no such tag.
    pub fn from_u8(byte: u8) -> Result<Self>
        ensures { MatchResult result (λ tag. byte_of tag ≡ byte)
            (λ e. (e ≡ PointEncoding) × ((tag : Tag) → byte_of tag ≢ byte)) }
    {
        match byte {
            0 => Ok(Tag::Identity),
            2 => Ok(Tag::CompressedEvenY),
            3 => Ok(Tag::CompressedOddY),
            4 => Ok(Tag::Uncompressed),
            5 => Ok(Tag::Compact),
            6 => Ok(Tag::HybridEvenY),
            7 => Ok(Tag::HybridOddY),
            _ => Err(Error::PointEncoding),
        }
    }

    /// Returns `true` for the compact form.
    pub fn is_compact(self) -> bool
        ensures { result ≡ (byte_of self == 5) }
    {
        self == Tag::Compact
    }

    /// Returns `true` for the compressed form.
    pub fn is_compressed(self) -> bool
        ensures { result ≡ (byte_of self == 2 || byte_of self == 3) }
    {
        self == Tag::CompressedEvenY || self == Tag::CompressedOddY
    }

    /// Returns `true` for the hybrid form.
    pub fn is_hybrid(self) -> bool
        ensures { result ≡ (byte_of self == 6 || byte_of self == 7) }
    {
        self == Tag::HybridEvenY || self == Tag::HybridOddY
    }

    /// Returns `true` for the identity.
    pub fn is_identity(self) -> bool
        ensures { result ≡ (byte_of self == 0) }
    {
        self == Tag::Identity
    }

    /// Returns the length in bytes of an encoding with this tag, the tag included, for field
    /// elements of this many bytes.
    ///
    /// Requires that the length fits a `usize`.
    pub const fn message_len(self, field_element_size: usize) -> usize
        requires { message_len self field_element_size < 2 ^ 64 }
        ensures { result ≡ message_len self field_element_size }
    {
        match self {
            Tag::Identity => 1,
            Tag::CompressedEvenY | Tag::CompressedOddY | Tag::Compact => field_element_size + 1,
            Tag::Uncompressed | Tag::HybridEvenY | Tag::HybridOddY => field_element_size * 2 + 1,
        }
    }

    /// Returns the compressed form's tag for the parity of y.
    pub(super) fn compress_y<const N: usize>(y: &[u8; N]) -> Self
        ensures { byte_of result ≡ (if number_of y.now % 2 == 1 then 3 else 2) }
    {
        if is_odd(y) {
            Tag::CompressedOddY
        } else {
            Tag::CompressedEvenY
        }
    }

    /// Returns the hybrid form's tag for the parity of y.
    pub(super) fn hybrid_y<const N: usize>(y: &[u8; N]) -> Self
        ensures { byte_of result ≡ (if number_of y.now % 2 == 1 then 7 else 6) }
    {
        if is_odd(y) {
            Tag::HybridOddY
        } else {
            Tag::HybridEvenY
        }
    }
}

/// Returns `true` if the number in the bytes, the most significant first, is odd. Without bytes it
/// is 0.
#[tactic(auto, using(crate::proofs::DigitLemmas::last_parity))]
fn is_odd<const N: usize>(y: &[u8; N]) -> bool
    ensures { result ≡ (number_of y.now % 2 == 1) }
{
    N != 0 && y[N - 1] % 2 == 1
}

/// Returns a tag as [`Tag::from_u8`] does.
impl TryFrom<u8> for Tag {
    type Error = Error;

    ghost use Rattle.sec1.specs.declared.point.tag.Tag.{Tag};

    ghost try_from_gives = { λ byte result. MatchResult result (λ tag. byte_of tag ≡ byte)
        (λ e. (e ≡ PointEncoding) × ((tag : Tag) → byte_of tag ≢ byte)) };

    fn try_from(byte: u8) -> Result<Self> {
        Self::from_u8(byte)
    }
}

/// Returns the byte of the tag.
impl From<Tag> for u8 {
    ghost from_gives = { λ tag byte. byte ≡ byte_of tag };

    fn from(tag: Tag) -> u8 {
        tag as u8
    }
}
