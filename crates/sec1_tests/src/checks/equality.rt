//! What `==`, `!=` and `clone` say of the values of `sec1`, as a caller meets them.
ghost use Rattle.std.specs.Prelude.{◌≡◌, ◌≢◌, ◌↔◌, IsTrue, IsOkAnd, [], ◌∷◌, Some};
ghost use Rattle.sec1.specs.Coordinates.{coordinates_bytes};
ghost use Rattle.sec1.specs.EncodedPoints.{point_of};
ghost use Rattle.sec1.specs.Parameters.{curve_of};

use sec1::der::ObjectIdentifier;
use sec1::point::{Coordinates, Tag};
use sec1::{ALGORITHM_OID, EcParameters, EcPrivateKey, EncodedPoint, Error, laws};
use std::alloc::AllocError;

/// The result of a clone.
type Cloned<T> = std::result::Result<T, AllocError>;

/// Returns `true` if two parameters name the same curve.
pub fn same_parameters(a: EcParameters, b: EcParameters) -> bool
    ensures { IsTrue result ↔ (curve_of a ≡ curve_of b) }
{
    a == b
}

/// Returns `true` if two tags of points are the same.
pub fn same_tag(a: Tag, b: Tag) -> bool
    ensures { IsTrue result ↔ (a ≡ b) }
{
    a == b
}

/// Returns `true` if the coordinates have the same variant, flag and bytes.
pub fn same_coordinates<const N: usize>(a: Coordinates<'_, N>, b: Coordinates<'_, N>) -> bool
    ensures { IsTrue result ↔ (coordinates_bytes a.entry ≡ coordinates_bytes b.entry) }
{
    a == b
}

/// Two errors are equal exactly where they are the same.
pub fn same_error(a: &Error, b: &Error) -> bool
    ensures { IsTrue result ↔ (a.now ≡ b.now) }
{
    *a == *b
}

/// Two points are equal exactly where their meanings are.
pub fn same_point<const N: usize, const L: usize>(
    a: &EncodedPoint<N, L>,
    b: &EncodedPoint<N, L>,
) -> bool
    ensures { IsTrue result ↔ (point_of a.now ≡ point_of b.now) }
{
    *a == *b
}

/// Returns `true` if two parameters name different curves.
pub fn other_parameters(a: EcParameters, b: EcParameters) -> bool
    ensures { IsTrue result ↔ (curve_of a ≢ curve_of b) }
{
    a != b
}

/// Returns `true` if two tags of points differ.
pub fn other_tag(a: Tag, b: Tag) -> bool
    ensures { IsTrue result ↔ (a ≢ b) }
{
    a != b
}

/// Returns `true` if the coordinates differ in their variant, flag or bytes.
pub fn other_coordinates<const N: usize>(a: Coordinates<'_, N>, b: Coordinates<'_, N>) -> bool
    ensures { IsTrue result ↔ (coordinates_bytes a.entry ≢ coordinates_bytes b.entry) }
{
    a != b
}

/// Two errors differ exactly where they aren't the same.
pub fn other_error(a: &Error, b: &Error) -> bool
    ensures { IsTrue result ↔ (a.now ≢ b.now) }
{
    *a != *b
}

/// Two points differ exactly where their meanings do.
pub fn other_point<const N: usize, const L: usize>(
    a: &EncodedPoint<N, L>,
    b: &EncodedPoint<N, L>,
) -> bool
    ensures { IsTrue result ↔ (point_of a.now ≢ point_of b.now) }
{
    laws::points_apart();
    *a != *b
}

/// An identifier is compared with the constant by its arcs.
pub fn is_algorithm(identifier: ObjectIdentifier) -> bool
    ensures { IsTrue result ↔ (identifier ≡ 1 ∷ 2 ∷ 840 ∷ 10045 ∷ 2 ∷ 1 ∷ []) }
{
    identifier == ALGORITHM_OID
}

/// The curve of a key is compared by the arcs of its identifier.
pub fn names_curve(key: &EcPrivateKey, curve: ObjectIdentifier) -> bool
    ensures { IsTrue result ↔ (key.now.parameters ≡ Some curve) }
{
    key.parameters == Some(EcParameters::NamedCurve(curve))
}

/// The curve of a key differs from this one, or there is none.
pub fn names_another_curve(key: &EcPrivateKey, curve: ObjectIdentifier) -> bool
    ensures { IsTrue result ↔ (key.now.parameters ≢ Some curve) }
{
    key.parameters != Some(EcParameters::NamedCurve(curve))
}

/// The clone of a key has the same parts, and never fails.
pub fn cloned_key<'a>(key: &EcPrivateKey<'a>) -> Cloned<EcPrivateKey<'a>>
    ensures { IsOkAnd result (λ cloned. cloned ≡ key.now) }
{
    key.clone()
}

/// The clone of parameters is the same, and never fails.
pub fn cloned_parameters(parameters: &EcParameters) -> Cloned<EcParameters>
    ensures { IsOkAnd result (λ cloned. cloned ≡ parameters.now) }
{
    parameters.clone()
}

/// The clone of a tag is the same, and never fails.
pub fn cloned_tag(tag: &Tag) -> Cloned<Tag>
    ensures { IsOkAnd result (λ cloned. cloned ≡ tag.now) }
{
    tag.clone()
}

/// The clone of a point is the same, and never fails.
pub fn cloned_point<const N: usize, const L: usize>(
    point: &EncodedPoint<N, L>,
) -> Cloned<EncodedPoint<N, L>>
    ensures { IsOkAnd result (λ cloned. cloned ≡ point.now) }
{
    point.clone()
}

/// The clone of coordinates is the same, and never fails.
pub fn cloned_coordinates<'a, const N: usize>(
    coordinates: &Coordinates<'a, N>,
) -> Cloned<Coordinates<'a, N>>
    ensures { IsOkAnd result (λ cloned. cloned ≡ coordinates.now) }
{
    coordinates.clone()
}
