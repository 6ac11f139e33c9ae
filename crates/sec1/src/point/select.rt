//! Comparing, selecting and wiping points. No call here promises to run in constant time.

ghost use Rattle.std.specs.Prelude.{◌≡◌, ◌↔◌, if◌then◌else◌, IsTrue};
ghost use Rattle.sec1.specs.EncodedPoints.{point_of, IsWiped};
ghost use Rattle.sec1.specs.Points.{encoding};

use super::EncodedPoint;
use super::order::words_cmp;

impl<const N: usize, const L: usize> EncodedPoint<N, L> {
    /// Returns `true` if the points are the same.
    #[tactic(auto, using(crate::proofs::EncodedPointLemmas::compared_encodings))]
    pub fn ct_eq(&self, other: &Self) -> bool
        ensures same { IsTrue result ↔ (point_of self.now ≡ point_of other.now) }
        ensures bytes { IsTrue result
            ↔ (encoding N (point_of self.now) ≡ encoding N (point_of other.now)) }
    {
        // The compiler knows the lengths here, and compares without a loop or a call.
        if self.len == L && other.len == L {
            return self.is_filled_as(other);
        }
        self.as_bytes() == other.as_bytes()
    }

    /// Returns `true` if all bytes of the buffers are the same.
    fn is_filled_as(&self, other: &Self) -> bool
        ensures { IsTrue result ↔ (self.now.bytes ≡ other.now.bytes) }
    {
        words_cmp(&self.bytes, &other.bytes).is_eq()
    }

    /// Returns this point if the choice is `false`, and the other if it is `true`.
    pub fn ct_select(&self, other: &Self, choice: bool) -> Self
        ensures { result ≡ (if choice then other.now else self.now) }
    {
        let mut bytes = [0; L];
        for i in 0..L {
            bytes[i] = if choice {
                other.bytes[i]
            } else {
                self.bytes[i]
            };
        }
        let len = if choice { other.len } else { self.len };
        EncodedPoint { bytes, len }
    }

    /// Replaces this point by the other if the choice is `true`.
    pub fn ct_assign(&mut self, other: &Self, choice: bool)
        ensures { self.new ≡ (if choice then other.now else self.old) }
    {
        *self = self.ct_select(other, choice);
    }

    /// Returns the first point if the choice is `false`, and the second if it is `true`.
    pub fn conditional_select(a: &Self, b: &Self, choice: bool) -> Self
        ensures { result ≡ (if choice then b.now else a.now) }
    {
        a.ct_select(b, choice)
    }

    /// Turns the point into the identity, and sets each byte of the buffer to `00`.
    pub fn zeroize(&mut self)
        ensures { IsWiped self.new }
    {
        *self = Self::identity();
    }
}
