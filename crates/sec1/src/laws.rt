//! Laws of keys and of points, for callers to cite: that a value is determined by its bytes, and
//! how points compare. Each law is the contract of a function, which does nothing else.

ghost use Rattle.std.specs.Prelude.{◌≡◌, ◌↔◌, List, ℕ, Some, None, IsTrue};
ghost use Rattle.sec1.specs.EncodedPoints.{point_of};
ghost use Rattle.sec1.specs.Keys.{Key, IsKeyOf};
ghost use Rattle.sec1.specs.PointOrder.{IsOrderOf, point_cmp};
ghost use Rattle.std.specs.Ordering.{is_eq};
ghost use Rattle.sec1.specs.Points.{Fits, IsPoint, Point, encoding};
ghost use Rattle.sec1_der.specs.Elements.{element_of};

use crate::der::ValueContent;
use crate::{EcPrivateKey, EncodedPoint};

/// The bytes of a key's tree are its element, and a key without a tree has no element.
pub fn tree_is_element()
    ensures { (key : Key)
        → let whole = element_of 0x30 (⟦<EcPrivateKey<'static> as ValueContent>⟧.content key) in
        ((bytes : List ℕ) → IsKeyOf key bytes ↔ (whole ≡ Some bytes))
        × (((bytes : List ℕ) → ¬ IsKeyOf key bytes) ↔ (whole ≡ None)) }
{}

/// The meaning of an [`EncodedPoint`] is a point of its size.
pub fn one_point<const N: usize, const L: usize>(point: &EncodedPoint<N, L>)
    ensures { Fits N L × IsPoint N (point_of point.now) }
{
    let _len = point.len();
}

/// Comparing points, also by `<`, `<=`, `max` and `min`, gives Less exactly when the first is below
/// the second, Greater when the second is below the first, and Equal when they are the same.
#[tactic(auto, using(crate::proofs::PointOrderLemmas::orders))]
pub fn points_ordered()
    ensures { (p q : Point) → IsOrderOf p q (point_cmp p q) }
{}

/// Comparing points, also by `!=`, finds them equal exactly when they are the same. Two points of
/// one size with the same encoding are the same.
pub fn points_apart()
    ensures compared { (p q : Point) → IsTrue (is_eq (point_cmp p q)) ↔ (p ≡ q) }
    ensures encoding { (n : ℕ) (p q : Point) → IsPoint n p → IsPoint n q
        → encoding n p ≡ encoding n q → p ≡ q }
{}
