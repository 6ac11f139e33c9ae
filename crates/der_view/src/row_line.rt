//! The line of a row.
#![tactic(auto, using(crate::proofs::LineLemmas::items))]

ghost use Rattle.std.specs.Prelude.{◌≡◌, ◌++◌, option_map};
ghost use Rattle.der_view.specs.Facts.{row_view};
ghost use Rattle.der_view.specs.Lines.{kept};
ghost use Rattle.der_view.specs.Marks.{bytes_text};
ghost use Rattle.der_view.specs.RowLines.{columns, count_of, hex_words, indent, is_said, label};
ghost use Rattle.der_view.specs.RowLines.{note_by, padded, point_text, row_line, row_value};
ghost use Rattle.der_view.specs.RowLines.{secret_note};
ghost use Rattle.der_view.specs.RowLines.{shown_text};
ghost use Rattle.der_view.specs.Values.{value_view};

use crate::facts::{Kind, Point, RowFacts, Shown};
use crate::line::{Line, MAX_WIDTH};
use crate::values::{Value, value_of};
use itoa::Buffer;

/// The column of a name, after the offset, the header and the length.
const NAME_COLUMN: usize = 29;

/// The greatest number of levels that a row is indented by.
const MAX_INDENT: usize = 16;

/// Returns the line of a row, which is shown whole or cut.
#[tactic(auto, using(crate::proofs::LineLemmas::kept_pieces))]
pub(crate) fn row_line(row: &RowFacts) -> Line
    ensures { result ≡ row_line (row_view row.now) }
{
    let mut line = Line::new();
    line.push_columns(row);
    let column = line.len() + NAME_COLUMN;
    line.push_indent(row.place.depth);
    line.push_label(row);
    let mut note = Line::new();
    note.push_note(row);
    let between = column.saturating_sub(line.len()).max(2);
    if note.len() > 0 && line.len() + between + note.len() <= MAX_WIDTH {
        line.push_spaces(between);
        line.push_bytes(note.as_bytes());
    }
    line
}

impl<'a> RowFacts<'a> {
    /// Returns the value of the row's content; `None` if it isn't shown, or isn't all there.
    pub fn value(&self) -> Option<Value<'a>>
        ensures { option_map value_view result ≡ row_value (row_view self.now) }
    {
        match (self.shown, self.kind) {
            (Shown::Value, Kind::Element(tag)) => Some(value_of(tag, self.value)),
            _ => None,
        }
    }

    /// Returns `true` if a line of the row that is this long says all of its content.
    pub(crate) fn is_said(&self, len: usize) -> bool
        ensures { result ≡ is_said (row_view self.now) len }
    {
        match self.value() {
            None | Some(Value::Count(_) | Value::Bits { .. }) => false,
            Some(_) => len <= MAX_WIDTH,
        }
    }
}

impl Line {
    /// Appends the offset, the header and the length of the content.
    #[tactic(auto, using(crate::proofs::LineLemmas::items), unfolding(crate::specs::RowLines::columns))]
    fn push_columns(&mut self, row: &RowFacts)
        ensures { self.new ≡ kept (self.old ++ columns (row_view row.now)) }
    {
        self.push_padded(4, Buffer::new().format(row.place.offset));
        self.push_header(row.head);
        self.push_byte(b' ');
        let width = 19usize.saturating_sub(row.head.len().saturating_mul(3));
        match row.announced {
            Some(len) => self.push_padded(width, Buffer::new().format(len)),
            None => self.push_padded(width, "?"),
        }
        self.push_spaces(2);
    }

    /// Appends a text after as many spaces as it has fewer characters than this.
    fn push_padded(&mut self, width: usize, text: &str)
        ensures { self.new ≡ kept (self.old ++ padded width text.now) }
    {
        self.push_spaces(width.saturating_sub(text.len()));
        self.push_str(text);
    }

    /// Appends the bytes of a header or a content.
    pub(crate) fn push_header(&mut self, header: &[u8])
        ensures { self.new ≡ kept (self.old ++ hex_words header.now) }
    {
        self.push_str("");
        for byte in header {
            self.push_byte(b' ');
            self.push_hex(*byte);
        }
    }

    /// Appends two spaces for each level, at most 16; deeper ones are counted.
    fn push_indent(&mut self, depth: usize)
        ensures { self.new ≡ kept (self.old ++ indent depth) }
    {
        self.push_spaces(depth.min(MAX_INDENT) * 2);
        if depth > MAX_INDENT {
            self.push_decimal(depth);
            self.push_str(": ");
        }
    }

    /// Appends the type of a row, and its value or the number of its bytes.
    #[tactic(auto, using(crate::proofs::LineLemmas::items), unfolding(crate::specs::RowLines::label))]
    pub fn push_label(&mut self, row: &RowFacts)
        ensures { self.new ≡ kept (self.old ++ label (row_view row.now)) }
    {
        match row.kind {
            Kind::Element(tag) => {
                self.push_type(tag);
                self.push_shown(row);
            }
            Kind::EndOfContents => self.push_str("end-of-contents"),
            Kind::NotDrawn => {
                self.push_bytes_of(row.len);
                self.push_str(" not drawn");
            }
        }
    }

    /// Appends the value of a content, or else what is shown of it: the number of its bytes.
    fn push_shown(&mut self, row: &RowFacts)
        ensures { self.new
            ≡ kept (self.old ++ shown_text (row_value (row_view row.now)) row.now.shown
            (count_of (row_view row.now))) }
    {
        if let Some(value) = row.value() {
            return self.push_value(&value);
        }
        let count = count_of(row);
        match row.shown {
            Shown::Nothing => self.push_str(""),
            Shown::Unused(unused) => {
                self.push_number_of(count, " byte");
                if count > 0 && unused < 8 {
                    self.push_number_of(usize::from(unused), " unused bit");
                }
            }
            _ => self.push_number_of(count, " byte"),
        }
    }

    /// Appends the last column: the form of a point, or the name, and whether the content isn't
    /// shown.
    fn push_note(&mut self, row: &RowFacts)
        ensures { self.new
            ≡ kept (self.old ++ note_by row.now.shown row.now.name row.now.is_secret) }
    {
        match row.shown {
            Shown::Point(point) => self.push_point(point),
            Shown::Unused(_) => self.push_str(""),
            _ => {
                self.push_str(row.name.text());
                self.push_str(secret_note(row.is_secret));
            }
        }
    }

    /// Appends the form and the size of a point.
    pub fn push_point(&mut self, point: Point)
        ensures { self.new ≡ kept (self.old ++ point_text point) }
    {
        match point {
            Point::Infinity => self.push_str("the point at infinity"),
            Point::None => self.push_str("no point"),
            Point::Compressed(len) => self.push_form("compressed, ", len),
            Point::Uncompressed(len) => self.push_form("uncompressed, 2 x ", len),
            Point::Hybrid(len) => self.push_form("hybrid, 2 x ", len),
            Point::Compact(len) => self.push_form("compact, ", len),
        }
    }

    /// Appends a form, and the length of a coordinate.
    fn push_form(&mut self, form: &str, len: usize)
        ensures { self.new ≡ kept (self.old ++ (form.now ++ bytes_text len)) }
    {
        self.push_str(form);
        self.push_bytes_of(len);
    }
}

/// Returns what is said of a private component.
fn secret_note(is_secret: bool) -> &'static str
    ensures { result.now ≡ secret_note is_secret }
{
    if is_secret { ", not shown" } else { "" }
}

/// Returns the number of bytes that is said of the content of an element, or of the bytes of a BIT
/// STRING.
fn count_of(row: &RowFacts) -> usize
    ensures { result ≡ count_of (row_view row.now) }
{
    let len = row.announced.unwrap_or(row.len);
    match row.kind {
        Kind::Element(tag) if tag.is_universal(3) => len.saturating_sub(1),
        _ => len,
    }
}
