//! UTCTime and GeneralizedTime, whose contents encode a date and a time of day.
ghost use Rattle.std.specs.Prelude.{◌≡◌, ℕ, List, true, Some, None, if◌then◌else◌};
ghost use Rattle.der_types.specs.Times.{generalized_date_time, is_generalized_time};
ghost use Rattle.der_types.specs.Times.{is_utc_time, utc_date_time};
ghost use Rattle.der_types.specs.declared.time.DateTime.{DateTime};

use crate::time::{generalized_date_time, is_generalized_time, is_utc_time, utc_date_time};
use crate::{DateTime, Kind, Leaf};
use sec1_der::{Tag, Tagged};

/// A kind of times whose contents encode a date and a time of day.
pub trait TimeKind: Kind {
    /// The time that a content encodes.
    ghost time: { List ℕ → DateTime };

    /// Returns the time that a content encodes.
    fn time(bytes: &[u8]) -> DateTime
        requires { Self.passes bytes.now ≡ true }
        ensures { result ≡ time bytes.now };
}

/// The kind of a UTCTime, YYMMDDhhmmssZ (X.690 section 11.8).
pub struct UtcTimeKind;

impl Tagged for UtcTimeKind {
    ghost tag_byte = { 0x17 };

    fn fixed_tag() -> Tag {
        Tag::UTC_TIME
    }
}

impl Kind for UtcTimeKind {
    ghost passes = { is_utc_time };

    fn test(bytes: &[u8]) -> bool {
        is_utc_time(bytes)
    }
}

/// A UTCTime, which borrows its content (X.690 section 11.8).
pub type UtcTime<'a> = Leaf<'a, UtcTimeKind>;

/// Years from 50 on are in the twentieth century (RFC 5280 section 4.1.2.5.1).
impl TimeKind for UtcTimeKind {
    ghost time = { utc_date_time };

    fn time(bytes: &[u8]) -> DateTime {
        utc_date_time(bytes)
    }
}

/// The kind of a GeneralizedTime, YYYYMMDDhhmmssZ, or the same with a fraction of a second (X.690
/// section 11.7).
pub struct GeneralizedTimeKind;

impl Tagged for GeneralizedTimeKind {
    ghost tag_byte = { 0x18 };

    fn fixed_tag() -> Tag {
        Tag::GENERALIZED_TIME
    }
}

impl Kind for GeneralizedTimeKind {
    ghost passes = { is_generalized_time };

    fn test(bytes: &[u8]) -> bool {
        is_generalized_time(bytes)
    }
}

/// A GeneralizedTime, which borrows its content (X.690 section 11.7).
pub type GeneralizedTime<'a> = Leaf<'a, GeneralizedTimeKind>;

/// The fraction of a second is left out.
impl TimeKind for GeneralizedTimeKind {
    ghost time = { generalized_date_time };

    fn time(bytes: &[u8]) -> DateTime {
        generalized_date_time(bytes)
    }
}

impl<'a, K: TimeKind> Leaf<'a, K> {
    /// Returns the time: that of a UTCTime, whose years from 50 on are in the twentieth century
    /// (RFC 5280 section 4.1.2.5.1), or of a GeneralizedTime, without the fraction of a second. It
    /// is `None` only for a content that doesn't pass the test of `K`, which [`Leaf::new`] and
    /// [`read_der`](sec1_der::read_der) refuse.
    pub fn date_time(&self) -> Option<DateTime>
        ensures { result ≡ (if K.passes self.now then Some (K.time self.now) else None) }
    {
        let bytes = self.as_bytes();
        if !K::test(bytes) {
            return None;
        }
        Some(K::time(bytes))
    }
}
