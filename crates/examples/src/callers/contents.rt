//! What the laws of `der_types` give a caller: contents and values determine each other.
ghost use Rattle.std.specs.Prelude.{◌≡◌, ◌≢◌, ◌<◌, ◌≤◌, ℕ, Bool, true, List, ℤ};
ghost use Rattle.std.specs.Int.Digits.{AllBelowBase};
ghost use Rattle.std.specs.Str.{is_utf8};
ghost use Rattle.sec1_der.specs.Identifiers.{arcs_of};
ghost use Rattle.der_types.specs.Contents.{boolean_content};
ghost use Rattle.der_types.specs.Integers.{is_integer, signed_number, unsigned_content};
ghost use Rattle.der_types.specs.ObjectIdentifiers.{is_object_identifier};
ghost use Rattle.der_types.specs.Strings.{is_numeric_string};
ghost use Rattle.der_types.specs.Times.{generalized_date_time, is_generalized_time};
ghost use Rattle.der_types.specs.Times.{is_utc_time, utc_date_time};

use der_types::laws;

/// Numbers that aren't negative have contents of their own.
pub fn other_unsigned()
    ensures { (m n : ℕ) → m ≢ n → unsigned_content m ≢ unsigned_content n }
{
    laws::unsigned_integers();
}

/// Contents of integers that differ encode other numbers.
pub fn other_integers()
    ensures { (xs ys : List ℕ) → AllBelowBase 256 xs → AllBelowBase 256 ys
        → is_integer xs ≡ true → is_integer ys ≡ true
        → xs ≢ ys → signed_number xs ≢ signed_number ys }
{
    laws::signed_integers();
}

/// FALSE and TRUE have contents of their own.
pub fn other_booleans()
    ensures { (x y : Bool) → x ≢ y → boolean_content x ≢ boolean_content y }
{
    laws::booleans();
}

/// Contents of identifiers that differ encode other arcs.
pub fn other_identifiers()
    ensures { (xs ys : List ℕ) → AllBelowBase 256 xs → AllBelowBase 256 ys
        → is_object_identifier xs ≡ true → is_object_identifier ys ≡ true
        → xs ≢ ys → arcs_of xs ≢ arcs_of ys }
{
    laws::object_identifiers();
}

/// The characters of a NumericString are those of a UTF8String.
pub fn numeric_text()
    ensures { (bytes : List ℕ) → is_numeric_string bytes ≡ true → is_utf8 bytes ≡ true }
{
    laws::strings();
}

/// Contents of UTCTimes that differ encode other times.
pub fn other_utc_times()
    ensures { (xs ys : List ℕ) → is_utc_time xs ≡ true → is_utc_time ys ≡ true
        → xs ≢ ys → utc_date_time xs ≢ utc_date_time ys }
{
    laws::utc_times();
}

/// A UTCTime is one of the years 1950 to 2049.
pub fn utc_years()
    ensures first { (bytes : List ℕ) → is_utc_time bytes ≡ true
        → 1950 ≤ (utc_date_time bytes).year }
    ensures last { (bytes : List ℕ) → is_utc_time bytes ≡ true
        → (utc_date_time bytes).year < 2050 }
{
    laws::utc_times();
}

/// A GeneralizedTime is one of the years 0 to 9999.
pub fn generalized_years()
    ensures { (bytes : List ℕ) → is_generalized_time bytes ≡ true
        → (generalized_date_time bytes).year < 10000 }
{
    laws::generalized_times();
}
