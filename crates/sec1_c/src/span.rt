//! The place of a part in the bytes that it was read from.
ghost use Rattle.std.specs.Prelude.{◌≡◌, ◌≤◌, ◌<◌, ◌+◌, ◌^◌, IfSome};
ghost use Rattle.sec1_c.specs.Places.{span_before, span_from, span_shifted};

/// The place of a part in some bytes. All three numbers are 0 if the part is absent.
#[repr(C)]
#[derive(Clone, Copy)]
pub struct Span {
    /// The index of the part's first byte.
    pub offset: usize,

    /// The number of the part's bytes, which may be 0.
    pub len: usize,

    /// 1 if the part is present, even if it is empty, and 0 if it is absent.
    pub present: usize,
}

impl Span {
    /// Returns the place of this length that ends at `end`, or that of an absent part.
    pub fn before(end: usize, len: Option<usize>) -> Span
        requires { IfSome len (λ len. len ≤ end) }
        ensures { result ≡ span_before end len }
    {
        match len {
            None => Span::absent(),
            Some(len) => Span {
                offset: end - len,
                len,
                present: 1,
            },
        }
    }

    /// Returns the place of this length that begins at `start`, or that of an absent part.
    pub fn from(start: usize, len: Option<usize>) -> Span
        ensures { result ≡ span_from start len }
    {
        match len {
            None => Span::absent(),
            Some(len) => Span {
                offset: start,
                len,
                present: 1,
            },
        }
    }

    /// Returns the place in bytes around those of this one, which begin at `start`.
    pub fn shifted(self, start: usize) -> Span
        requires { start + self.offset < 2 ^ 64 }
        ensures { result ≡ span_shifted start self }
    {
        if self.present == 0 {
            return self;
        }
        Span {
            offset: start + self.offset,
            len: self.len,
            present: self.present,
        }
    }

    /// Returns the place of an absent part.
    pub fn absent() -> Span
        ensures { result ≡ record { offset = 0; len = 0; present = 0 } }
    {
        Span {
            offset: 0,
            len: 0,
            present: 0,
        }
    }
}
