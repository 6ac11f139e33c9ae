//! Where a picture is written.
ghost use Rattle.std.specs.Prelude.{◌++◌, ◌≡◌, [], ◌∷◌, List, ℕ, OnOk};
ghost use Rattle.std.specs.Io.KnownBytes.{Appends};
ghost use Rattle.std.proofs.KnownBytes.{Appends-nil, Appends-trans};
ghost use Rattle.der_view.specs.Lines.{IsLine};
ghost use Rattle.der_view.specs.Printing.{Told, line_of, lines_text};
ghost use Rattle.der_view.specs.PrintingLaws.{text_joined};

use std::io;

/// The kind of the line above a part of an input.
pub const HEADING: usize = 0;

/// The kind of the line of a row.
pub const ROW: usize = 1;

/// The kind of the line of a mark below a row.
pub const MARK: usize = 2;

/// The kind of a line on a part of an input.
pub const WORDS: usize = 3;

/// The kind of the line of a command.
pub const COMMAND: usize = 4;

/// The kind of a line with bytes of the content of a row.
pub const CONTENT: usize = 5;

/// What a line of a picture is of. What doesn't apply to its kind is 0.
#[repr(C)]
#[derive(Clone, Copy)]
pub struct PictureLine {
    /// What it is: 0 the heading of a part, 1 a row, 2 a mark below one, 3 what is said of a part,
    /// 4 a command, 5 bytes of the content of a row.
    pub kind: usize,

    /// Of a row the number of bytes before it; of a heading, where what was decoded begins.
    pub offset: usize,

    /// Of a row the number of bytes of its header.
    pub header_len: usize,

    /// Of a row the number of bytes of its content that have no other row; of a heading, how many
    /// bytes were decoded.
    pub content_len: usize,

    /// Of a row the number of elements around it.
    pub depth: usize,

    /// Of a row, the number 1 if its content isn't shown, nor known to be public; otherwise 0.
    pub hidden: usize,
}

impl PictureLine {
    /// Returns a line of this kind that has no numbers.
    pub(crate) fn of(kind: usize) -> PictureLine
        ensures { result ≡ line_of kind }
    {
        PictureLine {
            kind,
            offset: 0,
            header_len: 0,
            content_len: 0,
            depth: 0,
            hidden: 0,
        }
    }
}

/// Where a picture is written: any [`io::Write`], or a writer with an error of its own, perhaps one
/// that can't fail.
pub trait Output {
    /// Why a write failed.
    type Error: Drop;

    // The second is the first after these lines.
    ghost appends: { Self → Self → List Told → Type 0 };

    // The second is the first after these bytes.
    ghost takes: { Self → Self → List ℕ → Type 0 };

    /// Writes a line, which has at most 100 characters of ASCII that print, and its end.
    ///
    /// # Errors
    ///
    /// An error of the writer.
    fn line(&mut self, of: PictureLine, text: &[u8]) -> Result<(), Self::Error>
        requires { IsLine text.now }
        ensures { OnOk result (appends self.old self.new ((of, text.now) ∷ [])) };

    /// Writes these bytes of JSON.
    ///
    /// # Errors
    ///
    /// An error of the writer.
    fn push(&mut self, bytes: &[u8]) -> Result<(), Self::Error>
        ensures { OnOk result (takes self.old self.new bytes.now) };

    ghost nothing: { (a : Self) → appends a a [] };

    ghost joined: { (a b c : Self) (first second : List Told) → appends a b first
        → appends b c second → appends a c (first ++ second) };

    ghost taken: { (a b c : Self) (first second : List ℕ) → takes a b first → takes b c second
        → takes a c (first ++ second) };
}

impl<W: io::Write> Output for W {
    type Error = io::Error;

    ghost appends = { λ a b lines. Appends (W.contents a) (W.contents b) (lines_text lines) };

    ghost nothing = { λ a. Appends-nil (W.contents a) };

    ghost joined = { λ a b c first second one two. text_joined _ _ first second
        (Appends-trans (W.contents a) (W.contents b) (W.contents c) _ _ one two) };

    ghost takes = { λ a b bytes. Appends (W.contents a) (W.contents b) bytes };

    ghost taken = { λ a b c. Appends-trans (W.contents a) (W.contents b) (W.contents c) };

    fn line(&mut self, _of: PictureLine, text: &[u8]) -> io::Result<()> {
        self.write_all(text)?;
        self.write_all(b"\n")
    }

    fn push(&mut self, bytes: &[u8]) -> io::Result<()> {
        self.write_all(bytes)
    }
}
