//! The coordinates of a point, by the form of its encoding.

ghost use Rattle.std.specs.Fmt.{WritesOnOk, comma_space, decimal};
ghost use Rattle.std.specs.Prelude.{◌≡◌, ◌↔◌, ◌-◌, ◌++◌, length, take, bytes_eq, IsTrue};
ghost use Rattle.std.specs.Prelude.{[], if◌then◌else◌, nat_lt};
ghost use Rattle.sec1_der.specs.Errors.{bytes_text};
ghost use Rattle.sec1_der.specs.Elements.{number_of};
ghost use Rattle.sec1.specs.Points.{point_from};
ghost use Rattle.sec1.specs.Tags.{byte_of, message_len, point_tag};
ghost use Rattle.sec1.specs.Coordinates.{arrays_of, first_bytes, coordinates_bytes};
ghost use Rattle.sec1.specs.Coordinates.{coordinates_point};
ghost use Rattle.sec1.specs.DebugTexts.{form_text};
ghost use Rattle.std.specs.List.{All, flat_map};
ghost use Rattle.std.specs.Cmp.Lexicographic.{on_texts_equal};
ghost use Rattle.std.specs.Cmp.{partial_equiv_from_equiv};

use super::Tag;
use std::fmt;

/// The coordinates of a point, by the form of its encoding. Each is borrowed as N bytes, the most
/// significant first.
#[derive(Clone, Copy)]
pub enum Coordinates<'a, const N: usize> {
    /// The point at infinity, which has no coordinates.
    Identity,
    /// x alone.
    Compact {
        /// The bytes of x.
        x: &'a [u8; N],
    },
    /// x, and the parity of y.
    Compressed {
        /// The bytes of x.
        x: &'a [u8; N],
        /// Whether y is odd.
        y_is_odd: bool,
    },
    /// x and y.
    Uncompressed {
        /// The bytes of x.
        x: &'a [u8; N],
        /// The bytes of y.
        y: &'a [u8; N],
    },
    /// x and y; the encoding has the parity of y too.
    Hybrid {
        /// The bytes of x.
        x: &'a [u8; N],
        /// The bytes of y.
        y: &'a [u8; N],
    },
}

impl<'a, const N: usize> Coordinates<'a, N> {
    /// Returns the coordinates with this tag: x, y, both or neither.
    #[tactic(auto, using(crate::proofs::CoordinateLemmas::with_arrays))]
    pub(super) fn with_tag(tag: Tag, x: &'a [u8; N], y: &'a [u8; N]) -> Self
        requires { (length x.now ≡ N) × (length y.now ≡ N) }
        ensures { (coordinates_point result
            ≡ point_from (byte_of tag) (number_of x.now) (number_of y.now))
            × (flat_map (first_bytes N) (arrays_of result)
            ≡ take (message_len tag N - 1) (x.now ++ y.now))
            × All (λ array. length array ≡ N) (arrays_of result) }
    {
        match tag {
            Tag::Identity => Coordinates::Identity,
            Tag::CompressedEvenY => Coordinates::Compressed { x, y_is_odd: false },
            Tag::CompressedOddY => Coordinates::Compressed { x, y_is_odd: true },
            Tag::Uncompressed => Coordinates::Uncompressed { x, y },
            Tag::Compact => Coordinates::Compact { x },
            Tag::HybridEvenY | Tag::HybridOddY => Coordinates::Hybrid { x, y },
        }
    }

    /// Returns the tag of the encoding.
    #[tactic(auto, using(crate::proofs::CoordinateLemmas::coordinate_parity))]
    pub fn tag(&self) -> Tag
        ensures { result ≡ point_tag (coordinates_point self.now) }
    {
        match *self {
            Coordinates::Identity => Tag::Identity,
            Coordinates::Compact { .. } => Tag::Compact,
            Coordinates::Compressed { y_is_odd, .. } => {
                if y_is_odd {
                    Tag::CompressedOddY
                } else {
                    Tag::CompressedEvenY
                }
            }
            Coordinates::Uncompressed { .. } => Tag::Uncompressed,
            Coordinates::Hybrid { y, .. } => {
                if N != 0 && y[N - 1] % 2 == 1 {
                    Tag::HybridOddY
                } else {
                    Tag::HybridEvenY
                }
            }
        }
    }

    /// Returns `true` if the variant, the flag and each byte are the same.
    #[tactic(auto, using(crate::proofs::CoordinateLemmas::compared_coordinates))]
    fn has_bytes_of(self, other: Self) -> bool
        ensures { result
            ≡ bytes_eq (coordinates_bytes self.entry) (coordinates_bytes other.entry) }
    {
        match (self, other) {
            (Coordinates::Identity, Coordinates::Identity) => true,
            (Coordinates::Compact { x }, Coordinates::Compact { x: other_x }) => {
                Coordinate(x).is(Coordinate(other_x))
            }
            (
                Coordinates::Compressed { x, y_is_odd },
                Coordinates::Compressed {
                    x: other_x,
                    y_is_odd: other_y_is_odd,
                },
            ) => y_is_odd == other_y_is_odd && Coordinate(x).is(Coordinate(other_x)),
            (
                Coordinates::Uncompressed { x, y },
                Coordinates::Uncompressed {
                    x: other_x,
                    y: other_y,
                },
            ) => Coordinate(x).is(Coordinate(other_x)) && Coordinate(y).is(Coordinate(other_y)),
            (
                Coordinates::Hybrid { x, y },
                Coordinates::Hybrid {
                    x: other_x,
                    y: other_y,
                },
            ) => Coordinate(x).is(Coordinate(other_x)) && Coordinate(y).is(Coordinate(other_y)),
            _ => false,
        }
    }
}

/// A coordinate as a type of its own: for a bare array, each call would have to know its size.
#[derive(Clone, Copy)]
struct Coordinate<'a, const N: usize>(&'a [u8; N]);

impl<const N: usize> Coordinate<'_, N> {
    /// Prints each byte on a line of its own.
    fn write_lines<W: fmt::Write>(&self, f: &mut fmt::Formatter<W>) -> fmt::Result {
        let mut list = f.debug_list();
        for i in 0..N {
            list.entry(&self.0[i]);
        }
        list.finish()
    }

    /// Returns `true` if the bytes are the same.
    #[tactic(auto, using(crate::proofs::CoordinateLemmas::compared_bytes))]
    fn is(self, other: Self) -> bool
        ensures { result
            ≡ bytes_eq (first_bytes N self.entry.0.now) (first_bytes N other.entry.0.now) }
    {
        for i in 0..N {
            if self.0[i] != other.0[i] {
                return false;
            }
        }
        true
    }
}

/// Prints the bytes as those of an array are printed.
impl<const N: usize> fmt::Debug for Coordinate<'_, N> {
    ghost debug_output = { λ coordinate. bytes_text (first_bytes N coordinate.0.now) };

    fn fmt<W: fmt::Write>(&self, f: &mut fmt::Formatter<W>) -> fmt::Result {
        if f.alternate() {
            return self.write_lines(f);
        }
        f.write_str("[")?;
        for i in 0..N {
            write_item(f, i, self.0[i])?;
        }
        f.write_str("]")
    }
}

/// Prints a byte in decimal, after a comma if it isn't the first.
fn write_item<W: fmt::Write>(f: &mut fmt::Formatter<W>, index: usize, byte: u8) -> fmt::Result
    ensures { WritesOnOk W.write_str_gives f.old result
        ((if nat_lt 0 index then comma_space else []) ++ decimal byte) f.new }
{
    if index > 0 {
        write!(f, ", {byte}")
    } else {
        write!(f, "{byte}")
    }
}

/// Coordinates are equal if the variant, the flag and each byte are the same.
impl<const N: usize> PartialEq for Coordinates<'_, N> {
    ghost eq = { λ c d. bytes_eq (coordinates_bytes c) (coordinates_bytes d) };

    ghost laws = { partial_equiv_from_equiv (on_texts_equal coordinates_bytes) };

    #[tactic(auto, using(crate::proofs::CoordinateLemmas::same_bytes))]
    fn eq(&self, other: &Self) -> bool
        ensures value { result
            ≡ bytes_eq (coordinates_bytes self.now) (coordinates_bytes other.now) }
        ensures same { IsTrue result ↔ (coordinates_bytes self.now ≡ coordinates_bytes other.now) }
    {
        self.has_bytes_of(*other)
    }
}

impl<const N: usize> Eq for Coordinates<'_, N> {
    ghost laws = { on_texts_equal coordinates_bytes };
}

impl<'a, const N: usize> Coordinates<'a, N> {
    /// Prints the coordinates over several lines.
    fn write_lines<W: fmt::Write>(&self, f: &mut fmt::Formatter<W>) -> fmt::Result {
        match *self {
            Coordinates::Identity => f.write_str("Identity"),
            Coordinates::Compact { x } => f
                .debug_struct("Compact")
                .field("x", &Coordinate(x))
                .finish(),
            Coordinates::Compressed { x, y_is_odd } => f
                .debug_struct("Compressed")
                .field("x", &Coordinate(x))
                .field("y_is_odd", &y_is_odd)
                .finish(),
            Coordinates::Uncompressed { x, y } => f
                .debug_struct("Uncompressed")
                .field("x", &Coordinate(x))
                .field("y", &Coordinate(y))
                .finish(),
            Coordinates::Hybrid { x, y } => f
                .debug_struct("Hybrid")
                .field("x", &Coordinate(x))
                .field("y", &Coordinate(y))
                .finish(),
        }
    }
}

impl<const N: usize> fmt::Debug for Coordinates<'_, N> {
    ghost debug_output = { λ c. form_text N (coordinates_point c)
        (flat_map (first_bytes N) (arrays_of c)) };

    fn fmt<W: fmt::Write>(&self, f: &mut fmt::Formatter<W>) -> fmt::Result {
        if f.alternate() {
            return self.write_lines(f);
        }
        match *self {
            Coordinates::Identity => f.write_str("Identity"),
            Coordinates::Compact { x } => write!(f, "Compact {{ x: {:?} }}", Coordinate(x)),
            Coordinates::Compressed { x, y_is_odd } => {
                let x = Coordinate(x);
                write!(f, "Compressed {{ x: {x:?}, y_is_odd: {y_is_odd} }}")
            }
            Coordinates::Uncompressed { x, y } => {
                let (x, y) = (Coordinate(x), Coordinate(y));
                write!(f, "Uncompressed {{ x: {x:?}, y: {y:?} }}")
            }
            Coordinates::Hybrid { x, y } => {
                let (x, y) = (Coordinate(x), Coordinate(y));
                write!(f, "Hybrid {{ x: {x:?}, y: {y:?} }}")
            }
        }
    }
}
