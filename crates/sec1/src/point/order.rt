//! Equality, order and hash of points. The order is by tag, then by coordinates as whole numbers.

ghost use Rattle.std.specs.Prelude.{◌≡◌, ◌↔◌, IsTrue, IsSomeAnd, Some, refl};
ghost use Rattle.std.specs.Cmp.{on_per, on_equiv, on_total, partial_equiv_from_equiv};
ghost use Rattle.std.specs.Cmp.{partial_order_from_agreeing_total};
ghost use Rattle.std.specs.Cmp.Lexicographic.{slice_cmp};
ghost use Rattle.std.specs.Ordering.{nat_cmp, is_eq};
ghost use Rattle.sec1.specs.EncodedPoints.{point_of};
ghost use Rattle.sec1.specs.Points.{encoding, Point};
ghost use Rattle.sec1.specs.PointOrder.{point_cmp, IsOrderOf};
ghost use Rattle.sec1.specs.PointOrderLaws.{point_cmp_total, point_cmp-is_eq};
ghost use Rattle.std.proofs.Common.{ap};
ghost use Rattle.std.proofs.lemmas.Cmp.{eq_by_cmp_equiv};
ghost use Rattle.std.specs.Hash as fed;

use super::EncodedPoint;
use std::cmp::Ordering;
use std::hash::{Hash, Hasher};

impl<const N: usize, const L: usize> PartialEq for EncodedPoint<N, L> {
    ghost eq = { λ p q. is_eq (point_cmp (point_of p) (point_of q)) };

    ghost laws = { on_per (λ p. point_of p)
        (partial_equiv_from_equiv (eq_by_cmp_equiv point_cmp_total)) };

    fn eq(&self, other: &Self) -> bool
        ensures value { result ≡ is_eq (point_cmp (point_of self.now) (point_of other.now)) }
        ensures same { IsTrue result ↔ (point_of self.now ≡ point_of other.now) }
        ensures bytes { IsTrue result
            ↔ (encoding N (point_of self.now) ≡ encoding N (point_of other.now)) }
    {
        self.ct_eq(other)
    }
}

impl<const N: usize, const L: usize> Eq for EncodedPoint<N, L> {
    ghost laws = { on_equiv (λ p. point_of p) (eq_by_cmp_equiv point_cmp_total) };
}

impl<const N: usize, const L: usize> PartialOrd for EncodedPoint<N, L> {
    ghost partial_cmp = { λ p q. Some (point_cmp (point_of p) (point_of q)) };

    ghost laws = { partial_order_from_agreeing_total (λ p q. point_cmp (point_of p) (point_of q))
        (on_total (λ p. point_of p) point_cmp_total) (λ p q. refl) (λ p q. refl) };

    fn partial_cmp(&self, other: &Self) -> Option<Ordering>
        ensures value { result ≡ Some (point_cmp (point_of self.now) (point_of other.now)) }
        ensures order { IsSomeAnd result (IsOrderOf (point_of self.now) (point_of other.now)) }
    {
        Some(self.cmp(other))
    }
}

impl<const N: usize, const L: usize> Ord for EncodedPoint<N, L> {
    ghost cmp = { λ p q. point_cmp (point_of p) (point_of q) };

    ghost total = { on_total (λ p. point_of p) point_cmp_total };

    ghost matches_partial_cmp = { λ p q. refl };

    ghost matches_eq = { λ p q. refl };

    fn cmp(&self, other: &Self) -> Ordering
        ensures value { result ≡ point_cmp (point_of self.now) (point_of other.now) }
        ensures order { IsOrderOf (point_of self.now) (point_of other.now) result }
        ensures bytes { result
            ≡ slice_cmp nat_cmp (encoding N (point_of self.now)) (encoding N (point_of other.now)) }
    {
        // The compiler knows the lengths here, and compares without a loop or a call.
        if self.len == L && other.len == L {
            return words_cmp(&self.bytes, &other.bytes);
        }
        self.as_bytes().cmp(other.as_bytes())
    }
}

/// Compares the bytes, eight at a time, and the rest one by one. Inlined, so that the compiler sees
/// the lengths that the caller knows.
#[inline(always)]
#[tactic(auto, using(crate::proofs::ByteOrderLemmas::word_steps))]
pub(super) fn words_cmp(a: &[u8], b: &[u8]) -> Ordering
    ensures { result ≡ slice_cmp nat_cmp a.now b.now }
{
    let mut rest = a;
    let mut other_rest = b;
    while let Some((word, after)) = rest.split_first_chunk::<8>() {
        let Some((other_word, other_after)) = other_rest.split_first_chunk::<8>() else {
            break;
        };
        let number = u64::from_be_bytes(*word);
        let other_number = u64::from_be_bytes(*other_word);
        if number != other_number {
            return number.cmp(&other_number);
        }
        rest = after;
        other_rest = other_after;
    }
    while let Some((byte, after)) = rest.split_first() {
        let Some((other_byte, other_after)) = other_rest.split_first() else {
            return Ordering::Greater;
        };
        if byte != other_byte {
            return byte.cmp(other_byte);
        }
        rest = after;
        other_rest = other_after;
    }
    if other_rest.is_empty() {
        Ordering::Equal
    } else {
        Ordering::Less
    }
}

impl<const N: usize, const L: usize> Hash for EncodedPoint<N, L> {
    // The same as for the slice of the encoding.
    ghost hash_input = { λ p. fed.slice fed.u8 (encoding N (point_of p)) };

    ghost respects_eq = { λ p q h. ap (λ (r : Point). fed.slice fed.u8 (encoding N r))
        (point_cmp-is_eq (point_of p) (point_of q) h) };

    fn hash<H: Hasher>(&self, state: &mut H) {
        self.as_bytes().hash(state);
    }
}
