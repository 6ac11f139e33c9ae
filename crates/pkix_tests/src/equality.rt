//! What `==`, `!=`, `<`, `cmp` and `clone` say of the values of `der_types`, `pkix` and
//! `der_view::faults`, as a caller meets them.
ghost use Rattle.std.specs.Prelude.{◌≡◌, ◌≢◌, ◌↔◌, IsTrue, IsOkAnd};
ghost use Rattle.der_types.specs.Times.{IsEarlier};

use der_types::{Boolean, Choice, DateTime, Defaulted, Implicit, OptionalPart};
use der_view::faults::Position;
use pkix::{Curve, LaterVersion};
use sec1_der::{Primitive0, Required, VersionOne};
use std::alloc::AllocError;
use std::cmp::Ordering;

/// The result of a clone.
pub type Cloned<T> = std::result::Result<T, AllocError>;

/// Two booleans are equal exactly where they are the same.
pub fn same_boolean(a: &Boolean, b: &Boolean) -> bool
    ensures { IsTrue result ↔ (a.now ≡ b.now) }
{
    a == b
}

/// Two booleans are unequal exactly where they differ.
pub fn other_boolean(a: &Boolean, b: &Boolean) -> bool
    ensures { IsTrue result ↔ (a.now ≢ b.now) }
{
    a != b
}

/// The clone of a boolean is the same, and never fails.
pub fn cloned_boolean(value: &Boolean) -> Cloned<Boolean>
    ensures { IsOkAnd result (λ cloned. cloned ≡ value.now) }
{
    value.clone()
}

/// Two times are equal exactly where they are the same.
pub fn same_date_time(a: &DateTime, b: &DateTime) -> bool
    ensures { IsTrue result ↔ (a.now ≡ b.now) }
{
    a == b
}

/// Two times are unequal exactly where they differ.
pub fn other_date_time(a: &DateTime, b: &DateTime) -> bool
    ensures { IsTrue result ↔ (a.now ≢ b.now) }
{
    a != b
}

/// A time is below another exactly where it is earlier.
pub fn earlier_date_time(a: &DateTime, b: &DateTime) -> bool
    ensures { IsTrue result ↔ IsEarlier a.now b.now }
{
    a < b
}

/// Of two times, the one that is earlier is the lesser, and only a time itself is equal to it.
pub fn compared_date_times(a: &DateTime, b: &DateTime) -> Ordering
    ensures less { (result ≡ Ordering.Less) ↔ IsEarlier a.now b.now }
    ensures equal { (result ≡ Ordering.Equal) ↔ (a.now ≡ b.now) }
    ensures greater { (result ≡ Ordering.Greater) ↔ IsEarlier b.now a.now }
{
    a.cmp(b)
}

/// The clone of a time is the same, and never fails.
pub fn cloned_date_time(value: &DateTime) -> Cloned<DateTime>
    ensures { IsOkAnd result (λ cloned. cloned ≡ value.now) }
{
    value.clone()
}

/// Two components with a default value are equal exactly where they are the same.
pub fn same_defaulted(a: &Defaulted<Boolean>, b: &Defaulted<Boolean>) -> bool
    ensures { IsTrue result ↔ (a.now ≡ b.now) }
{
    a == b
}

/// Two components with a default value are unequal exactly where they differ.
pub fn other_defaulted(a: &Defaulted<Boolean>, b: &Defaulted<Boolean>) -> bool
    ensures { IsTrue result ↔ (a.now ≢ b.now) }
{
    a != b
}

/// The clone of a component with a default value is the same, and never fails.
pub fn cloned_defaulted(value: &Defaulted<Boolean>) -> Cloned<Defaulted<Boolean>>
    ensures { IsOkAnd result (λ cloned. cloned ≡ value.now) }
{
    value.clone()
}

/// Two values with an implicit tag are equal exactly where the values are.
pub fn same_implicit(a: &Implicit<Primitive0, Boolean>, b: &Implicit<Primitive0, Boolean>) -> bool
    ensures { IsTrue result ↔ (a.now ≡ b.now) }
{
    a == b
}

/// Two values with an implicit tag are unequal exactly where the values differ.
pub fn other_implicit(a: &Implicit<Primitive0, Boolean>, b: &Implicit<Primitive0, Boolean>) -> bool
    ensures { IsTrue result ↔ (a.now ≢ b.now) }
{
    a != b
}

/// The clone of a value with an implicit tag is the same, and never fails.
pub fn cloned_implicit(
    value: &Implicit<Primitive0, Boolean>,
) -> Cloned<Implicit<Primitive0, Boolean>>
    ensures { IsOkAnd result (λ cloned. cloned ≡ value.now) }
{
    value.clone()
}

/// Two optional parts are equal exactly where they are the same.
pub fn same_optional_part(
    a: &OptionalPart<Required<Boolean>>,
    b: &OptionalPart<Required<Boolean>>,
) -> bool
    ensures { IsTrue result ↔ (a.now ≡ b.now) }
{
    a == b
}

/// Two optional parts are unequal exactly where they differ.
pub fn other_optional_part(
    a: &OptionalPart<Required<Boolean>>,
    b: &OptionalPart<Required<Boolean>>,
) -> bool
    ensures { IsTrue result ↔ (a.now ≢ b.now) }
{
    a != b
}

/// The clone of an optional part is the same, and never fails.
pub fn cloned_optional_part(
    value: &OptionalPart<Required<Boolean>>,
) -> Cloned<OptionalPart<Required<Boolean>>>
    ensures { IsOkAnd result (λ cloned. cloned ≡ value.now) }
{
    value.clone()
}

/// Two choices are equal exactly where they are the same.
pub fn same_choice(
    a: &Choice<Required<Boolean>, Required<VersionOne>>,
    b: &Choice<Required<Boolean>, Required<VersionOne>>,
) -> bool
    ensures { IsTrue result ↔ (a.now ≡ b.now) }
{
    a == b
}

/// Two choices are unequal exactly where they differ.
pub fn other_choice(
    a: &Choice<Required<Boolean>, Required<VersionOne>>,
    b: &Choice<Required<Boolean>, Required<VersionOne>>,
) -> bool
    ensures { IsTrue result ↔ (a.now ≢ b.now) }
{
    a != b
}

/// The clone of a choice is the same, and never fails.
pub fn cloned_choice(
    value: &Choice<Required<Boolean>, Required<VersionOne>>,
) -> Cloned<Choice<Required<Boolean>, Required<VersionOne>>>
    ensures { IsOkAnd result (λ cloned. cloned ≡ value.now) }
{
    value.clone()
}

/// Two versions are equal exactly where they are the same.
pub fn same_version(a: &LaterVersion, b: &LaterVersion) -> bool
    ensures { IsTrue result ↔ (a.now ≡ b.now) }
{
    a == b
}

/// Two versions are unequal exactly where they differ.
pub fn other_version(a: &LaterVersion, b: &LaterVersion) -> bool
    ensures { IsTrue result ↔ (a.now ≢ b.now) }
{
    a != b
}

/// The clone of a version is the same, and never fails.
pub fn cloned_version(value: &LaterVersion) -> Cloned<LaterVersion>
    ensures { IsOkAnd result (λ cloned. cloned ≡ value.now) }
{
    value.clone()
}

/// Two curves are equal exactly where they are the same.
pub fn same_curve(a: &Curve, b: &Curve) -> bool
    ensures { IsTrue result ↔ (a.now ≡ b.now) }
{
    a == b
}

/// Two curves are unequal exactly where they differ.
pub fn other_curve(a: &Curve, b: &Curve) -> bool
    ensures { IsTrue result ↔ (a.now ≢ b.now) }
{
    a != b
}

/// The clone of a curve is the same, and never fails.
pub fn cloned_curve(value: &Curve) -> Cloned<Curve>
    ensures { IsOkAnd result (λ cloned. cloned ≡ value.now) }
{
    value.clone()
}

/// Two faults are equal exactly where they are the same.
pub fn same_position(a: &Position, b: &Position) -> bool
    ensures { IsTrue result ↔ (a.now ≡ b.now) }
{
    a == b
}

/// Two faults are unequal exactly where they differ.
pub fn other_position(a: &Position, b: &Position) -> bool
    ensures { IsTrue result ↔ (a.now ≢ b.now) }
{
    a != b
}

/// The clone of a fault is the same, and never fails.
pub fn cloned_position(value: &Position) -> Cloned<Position>
    ensures { IsOkAnd result (λ cloned. cloned ≡ value.now) }
{
    value.clone()
}
