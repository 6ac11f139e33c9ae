//! UTCTime and GeneralizedTime: the tests of their contents, and the times that these encode.
ghost use Rattle.std.specs.Prelude.{◌≡◌, ◌↔◌, ◌+◌, ◌<◌, IsTrue, true, length};
ghost use Rattle.std.specs.Char.{is_ascii_digit};
ghost use Rattle.std.specs.Fmt.{DisplaysOnOk};
ghost use Rattle.std.specs.List.{AllPass, list_all};
ghost use Rattle.der_types.specs.Times.{
  is_leap_year,
  days_in_month,
  is_date_time,
  IsEarlier,
  two_digits,
  date_time_after,
  utc_fields,
  generalized_fields,
  is_fraction,
  ends_time,
  is_utc_time,
  is_generalized_time,
  utc_date_time,
  generalized_date_time,
};

/// A date of the Gregorian calendar and a time of day, to the second.
#[derive(Clone, Copy, Debug, PartialEq, Eq, PartialOrd, Ord)]
pub struct DateTime {
    /// The year: 1950 to 2049 in a UTCTime, 0 to 9999 in a GeneralizedTime.
    pub year: u16,
    /// The month, from 1 to 12.
    pub month: u8,
    /// The day of the month, from 1.
    pub day: u8,
    /// The hour, from 0 to 23.
    pub hour: u8,
    /// The minute, from 0 to 59.
    pub minute: u8,
    /// The second, from 0 to 59.
    pub second: u8,
}

impl DateTime {
    /// Returns `true` if the Gregorian calendar has this day, and a day this hour, minute and
    /// second.
    pub fn is_valid(&self) -> bool
        ensures { result ≡ is_date_time self.now }
    {
        (1..=12).contains(&self.month)
            && (1..=days_in_month(self.year, self.month)).contains(&self.day)
            && self.hour < 24
            && self.minute < 60
            && self.second < 60
    }
}

/// Returns `true` if the first time is earlier. Nothing calls it: its contract says what `<` means.
fn is_earlier(a: DateTime, b: DateTime) -> bool
    ensures { IsTrue result ↔ IsEarlier a b }
{
    a < b
}

/// Returns `true` if the year has a 29 February.
fn is_leap_year(year: u16) -> bool
    ensures { result ≡ is_leap_year year }
{
    year % 4 == 0 && (year % 100 != 0 || year % 400 == 0)
}

/// Returns the number of days of a month, from 1 for January to 12 for December.
fn days_in_month(year: u16, month: u8) -> u8
    ensures { result ≡ days_in_month year month }
{
    match month {
        2 if is_leap_year(year) => 29,
        2 => 28,
        4 | 6 | 9 | 11 => 30,
        _ => 31,
    }
}

/// Returns `true` if each byte is a decimal digit.
fn are_digits(bytes: &[u8]) -> bool
    ensures { result ≡ list_all is_ascii_digit bytes.now }
{
    bytes.iter().all(|byte| byte.is_ascii_digit())
}

/// Returns the number that the two digits from a place on encode.
fn two_digits(digits: &[u8], at: usize) -> u8
    requires within { at + 1 < length digits.now }
    requires digits { AllPass is_ascii_digit digits.now }
    ensures value { result ≡ two_digits digits.now at }
    ensures bound { result < 100 }
{
    10 * (digits[at] - b'0') + (digits[at + 1] - b'0')
}

/// Returns the time in the year whose month, day, hour, minute and second these digits encode, two
/// each.
fn date_time_after(year: u16, digits: &[u8]) -> DateTime
    requires ten { length digits.now ≡ 10 }
    requires digits { AllPass is_ascii_digit digits.now }
    ensures { result ≡ date_time_after year digits.now }
{
    DateTime {
        year,
        month: two_digits(digits, 0),
        day: two_digits(digits, 2),
        hour: two_digits(digits, 4),
        minute: two_digits(digits, 6),
        second: two_digits(digits, 8),
    }
}

/// Returns the time that the digits of a UTCTime encode. Years from 50 on are in the twentieth
/// century.
fn utc_fields(digits: &[u8]) -> DateTime
    requires twelve { length digits.now ≡ 12 }
    requires digits { AllPass is_ascii_digit digits.now }
    ensures { result ≡ utc_fields digits.now }
{
    let year = u16::from(two_digits(digits, 0));
    let century = if year < 50 { 2000 } else { 1900 };
    date_time_after(century + year, &digits[2..])
}

/// Returns the time that the digits of a GeneralizedTime encode.
fn generalized_fields(digits: &[u8]) -> DateTime
    requires fourteen { length digits.now ≡ 14 }
    requires digits { AllPass is_ascii_digit digits.now }
    ensures { result ≡ generalized_fields digits.now }
{
    let year = 100 * u16::from(two_digits(digits, 0)) + u16::from(two_digits(digits, 2));
    date_time_after(year, &digits[4..])
}

/// Returns `true` if the bytes are the digits of a fraction, the last of which isn't 0 (X.690
/// section 11.7.3).
fn is_fraction(digits: &[u8]) -> bool
    ensures { result ≡ is_fraction digits.now }
{
    match digits.last() {
        None => false,
        Some(last) => *last != b'0' && are_digits(digits),
    }
}

/// Returns `true` if the bytes are what may follow the seconds of a GeneralizedTime: Z, or a
/// fraction of a second and Z (X.690 section 11.7).
#[tactic(auto, unfolding(crate::specs::Times::ends_time))]
fn ends_time(bytes: &[u8]) -> bool
    ensures { result ≡ ends_time bytes.now }
{
    match bytes {
        [b'Z'] => true,
        [b'.', digits @ .., b'Z'] => is_fraction(digits),
        _ => false,
    }
}

/// Returns `true` if the bytes are the content of a UTCTime: YYMMDDhhmmssZ (X.690 section 11.8).
pub(crate) fn is_utc_time(bytes: &[u8]) -> bool
    ensures { result ≡ is_utc_time bytes.now }
{
    bytes.len() == 13
        && are_digits(&bytes[..12])
        && bytes[12] == b'Z'
        && utc_fields(&bytes[..12]).is_valid()
}

/// Returns `true` if the bytes are the content of a GeneralizedTime: YYYYMMDDhhmmssZ, or the same
/// with a fraction of a second before the Z (X.690 section 11.7).
pub(crate) fn is_generalized_time(bytes: &[u8]) -> bool
    ensures { result ≡ is_generalized_time bytes.now }
{
    if bytes.len() <= 14 {
        return false;
    }
    let (digits, end) = bytes.split_at(14);
    are_digits(digits) && ends_time(end) && generalized_fields(digits).is_valid()
}

/// Returns the time that the content of a UTCTime encodes. Years from 50 on are in the twentieth
/// century (RFC 5280 section 4.1.2.5.1).
#[tactic(auto, using(crate::proofs::TimeLaws::utc_digits))]
pub(crate) fn utc_date_time(bytes: &[u8]) -> DateTime
    requires { is_utc_time bytes.now ≡ true }
    ensures { result ≡ utc_date_time bytes.now }
{
    utc_fields(&bytes[..12])
}

/// Returns the time that the content of a GeneralizedTime encodes, without the fraction of a
/// second.
#[tactic(auto, using(crate::proofs::TimeLaws::generalized_digits))]
pub(crate) fn generalized_date_time(bytes: &[u8]) -> DateTime
    requires { is_generalized_time bytes.now ≡ true }
    ensures { result ≡ generalized_date_time bytes.now }
{
    generalized_fields(&bytes[..14])
}
