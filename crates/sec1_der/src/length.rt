ghost use Rattle.std.specs.Prelude.{◌≡◌, ◌≤◌, ◌<◌, MatchResult, ℕ, [], ◌∷◌, Some, codes};
ghost use Rattle.std.specs.Fmt.{decimal};
ghost use Rattle.sec1_der.specs.Errors.{struct_text};
ghost use Rattle.sec1_der.specs.Elements.{max_length};

use crate::{ErrorKind, Result};
use std::marker::Model;

/// The number of bytes of a content, from 0 to [`Length::MAX`]. A contract sees the number.
#[derive(Clone, Copy, Debug, PartialEq, Eq)]
pub struct Length {
    // 32 bits, so that a header moves as one word.
    bytes: u32,
}

impl Model for Length {
    ghost Value = { ℕ };

    ghost view = { λ l. l.bytes };

    ghost invariant = { λ l. l.bytes ≤ max_length };

    ghost inverse = { λ n. record { bytes = n } };
}

impl Length {
    /// The greatest length of a content, 2^28 - 1.
    pub const MAX: usize = 268_435_455;

    /// Creates a length.
    ///
    /// # Errors
    ///
    /// Overlength if `n` is above [`Length::MAX`].
    pub fn new(n: usize) -> Result<Length>
        ensures { MatchResult result (λ length. (n ≤ max_length) × (length ≡ n))
            (λ e. (max_length < n) × (e.kind ≡ ErrorKind.Overlength)) }
    {
        if n > Length::MAX {
            return Err(ErrorKind::Overlength.into());
        }
        Ok(Length { bytes: n as u32 })
    }

    /// Returns the length of `n` bytes, at most [`Length::MAX`].
    pub(crate) fn of_number(n: u32) -> Length
        requires { n ≤ max_length }
        ensures { result ≡ n }
    {
        Length { bytes: n }
    }

    /// Returns the number of bytes.
    pub fn get(self) -> usize
        ensures { (result ≡ self) × (result ≤ max_length) }
    {
        self.bytes as usize
    }
}

/// Checks that `count` bytes fit into `room` bytes.
///
/// # Errors
///
/// Buffer if they don't.
pub(crate) fn check_room(count: usize, room: usize) -> Result<()>
    ensures { MatchResult result (λ _. count ≤ room)
        (λ e. (e.kind ≡ ErrorKind.Buffer) × (room < count)) }
{
    if room < count {
        return Err(ErrorKind::Buffer.into());
    }
    Ok(())
}
