//! A line of a picture, in memory of a fixed size.
ghost use Rattle.std.specs.Prelude.{◌≡◌, ◌≤◌, ℕ, List, [], ◌∷◌, ◌++◌, length, map, replicate};
ghost use Rattle.std.specs.Fmt.{decimal};
ghost use Rattle.der_view.specs.Lines.{IsLine, kept, printed, shown};
ghost use Rattle.hex.specs.Hex.{encode_upper};

use crate::names::split;
use arrayvec::ArrayVec;
use itoa::Buffer;
use std::marker::Model;

/// The greatest width of a line in characters.
pub const MAX_WIDTH: usize = 100;

/// The length of what a line keeps of a text: one character more than it shows tells that the text
/// is longer.
const ROOM: usize = MAX_WIDTH + 1;

/// As many spaces as a line keeps.
const SPACES: &[u8; ROOM] = &[b' '; ROOM];

/// The hexadecimal digits.
pub(crate) const DIGITS: &[u8; 16] = b"0123456789ABCDEF";

/// A line of a picture. It keeps as much of the text that is appended to it as tells how the text
/// is shown: whole, or if it is longer than [`MAX_WIDTH`], its first 97 characters and `...`.
#[derive(Drop)]
pub struct Line {
    text: ArrayVec<u8, ROOM>,
}

impl Model for Line {
    ghost Value = { List ℕ };

    ghost view = { λ line. line.text.items };

    ghost invariant = { λ line. length line.text.items ≤ 101 };
}

impl Line {
    /// Creates an empty line.
    pub fn new() -> Line
        ensures { result ≡ [] }
    {
        Line {
            text: ArrayVec::new(),
        }
    }

    /// Returns the number of characters that are kept, which is above [`MAX_WIDTH`] for a text that
    /// is longer.
    pub fn len(&self) -> usize
        ensures value { result ≡ length self.now }
        ensures most { result ≤ 101 }
    {
        self.text.len()
    }

    /// Appends a character, given as its byte.
    pub fn push_byte(&mut self, byte: u8)
        ensures { self.new ≡ kept (self.old ++ byte ∷ []) }
    {
        self.push_bytes(&[byte]);
    }

    /// Appends characters, given as their bytes.
    #[tactic(auto, using(crate::proofs::LineLemmas::kept_by_room))]
    pub fn push_bytes(&mut self, bytes: &[u8])
        ensures { self.new ≡ kept (self.old ++ bytes.now) }
    {
        let room = ROOM - self.text.len();
        let _ = self.text.try_extend_from_slice(split(bytes, room).0);
    }

    /// Appends a text.
    pub fn push_str(&mut self, text: &str)
        ensures { self.new ≡ kept (self.old ++ text.now) }
    {
        self.push_bytes(text.as_bytes());
    }

    /// Appends a number in decimal digits.
    pub fn push_decimal(&mut self, number: usize)
        ensures { self.new ≡ kept (self.old ++ decimal number) }
    {
        self.push_str(Buffer::new().format(number));
    }

    /// Appends a byte in two hexadecimal digits.
    #[tactic(auto, unfolding(hex::specs::Hex::encode_with))]
    pub fn push_hex(&mut self, byte: u8)
        ensures { self.new ≡ kept (self.old ++ encode_upper (byte ∷ [])) }
    {
        let high = DIGITS[usize::from(byte / 16)];
        let low = DIGITS[usize::from(byte % 16)];
        self.push_bytes(&[high, low]);
    }

    /// Appends as many spaces.
    #[tactic(auto, using(crate::proofs::LineLemmas::kept_spaces))]
    pub fn push_spaces(&mut self, count: usize)
        ensures { self.new ≡ kept (self.old ++ replicate count 0x20) }
    {
        self.push_bytes(split(SPACES, count).0);
    }

    /// Returns what is shown of the text: all of it, or if it is longer than [`MAX_WIDTH`], its
    /// first 97 characters and `...`. A character that doesn't print in ASCII is a question mark,
    /// whatever was appended.
    #[tactic(auto, using(crate::proofs::LineLemmas::shows))]
    pub fn finish(&self) -> Line
        ensures text { result ≡ shown self.now }
        ensures line { IsLine result }
    {
        let mut line = Line::new();
        let text = self.as_bytes();
        if text.len() <= MAX_WIDTH {
            line.push_printed(text);
        } else {
            line.push_printed(split(text, MAX_WIDTH - 3).0);
            line.push_str("...");
        }
        line
    }

    /// Appends characters, with a question mark for each that doesn't print.
    #[tactic(auto, using(crate::proofs::LineLemmas::shows))]
    fn push_printed(&mut self, bytes: &[u8])
        ensures { self.new ≡ kept (self.old ++ map printed bytes.now) }
    {
        self.push_str("");
        for byte in bytes {
            self.push_byte(printed(*byte));
        }
    }

    /// Borrows the text that is kept.
    pub fn as_bytes(&self) -> &[u8]
        ensures { result.now ≡ self.now }
    {
        self.text.as_slice()
    }
}

/// Returns a character that prints in ASCII, and a question mark for another one.
fn printed(byte: u8) -> u8
    ensures { result ≡ printed byte }
{
    if byte >= 0x20 && byte <= 0x7E {
        byte
    } else {
        b'?'
    }
}
