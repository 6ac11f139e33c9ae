//! Rows as text.
ghost use Rattle.std.specs.Prelude.{◌≡◌, ◌+◌, ◌++◌, ◌∷◌, ◌/◌, [], List, OnOk, None, codes, false};
ghost use Rattle.std.specs.Prelude.{length, true};
ghost use Rattle.std.specs.List.{All};
ghost use Rattle.std.proofs.Common.{refl, ◌∙◌};
ghost use Rattle.der_view.specs.Facts.{row_view};
ghost use Rattle.der_view.specs.Lines.{IsLine, kept, shown};
ghost use Rattle.der_view.specs.Marks.{mark_words};
ghost use Rattle.der_view.specs.Pictures.{rows_by};
ghost use Rattle.der_view.specs.Printing.{HasWritten, are_plain, as_shown, content_lines};
ghost use Rattle.der_view.specs.Printing.{line_of, line_of_row, mark_lines, rows_lines};
ghost use Rattle.der_view.specs.Printing.{told_line, told_lines, told_of};
ghost use Rattle.der_view.specs.PrintingLaws.{IsPlain, has_written_both};
ghost use Rattle.der_view.specs.RowLines.{hex_words, spaces};
ghost use Rattle.der_view.specs.Rows.{Row};

use crate::facts::RowFacts;
use crate::form::draw_rows;
use crate::grammar::Component;
use crate::json::write_object;
use crate::line::Line;
use crate::marks::Mark;
use crate::names::split;
use crate::output::{CONTENT, MARK, Output, PictureLine, ROW};
use crate::plan::Plan;
use crate::row_line::row_line;
use crate::walk::{Element, Place, Rows};

/// The number of bytes of a content in a line.
const BYTES_IN_LINE: usize = 16;

/// The column of a content.
const CONTENT_COLUMN: usize = 25;

/// What of an input is drawn, and how.
#[derive(Clone, Copy)]
pub struct Options<'a> {
    /// Whether every content is given.
    pub all: bool,
    /// Whether lines of JSON are written, in place of rows.
    pub json: bool,
    /// Of how many levels rows are drawn; 0 for all.
    pub levels: usize,
    /// The number of bytes before the row whose element is drawn alone; 0 for all bytes.
    pub offset: usize,
    /// The name of the file in UTF-8, which JSON has; empty if it has none.
    pub file: &'a [u8],
}

impl<'a> Options<'a> {
    /// Returns those of all of an input in rows, with all contents or without.
    pub fn plain(all: bool) -> Options<'a>
        ensures plain { are_plain result ≡ true }
        ensures all { result.all ≡ all }
    {
        Options {
            all,
            json: false,
            levels: 0,
            offset: 0,
            file: &[],
        }
    }
}

/// Writes the rows of bytes by a plan, as the options ask: `offset` and `file` don't count.
///
/// # Errors
///
/// The first error of the writer.
pub fn write_rows<W: Output>(
    writer: &mut W,
    plan: Plan,
    bytes: &[u8],
    options: &Options,
) -> Result<(), W::Error>
    ensures { are_plain options.now ≡ true → OnOk result (W.appends writer.old writer.new
        (as_shown (told_of plan options.now.all (rows_by plan options.now.all bytes.now)))) }
{
    let style = Style {
        plan,
        all: options.all,
        json: options.json,
        levels: options.levels,
    };
    let mut printer = Printer {
        writer,
        style,
        error: None,
    };
    draw_rows(&mut printer, plan, bytes, options.all);
    printer.finish()
}

/// Each line of rows is printable ASCII of at most 100 characters, whatever the rows are.
pub fn lines_are_short(plan: Plan, all: bool)
    ensures { (rows : List Row) → All IsLine (rows_lines plan all rows) }
{
    let _ = (plan, all);
}

/// Writes a line of this kind that has no numbers, as it is shown, and its end.
///
/// # Errors
///
/// An error of the writer.
#[tactic(auto, unfolding(crate::specs::Printing::told_line))]
pub fn write_line<W: Output>(writer: &mut W, kind: usize, line: &Line) -> Result<(), W::Error>
    ensures { OnOk result
        (W.appends writer.old writer.new (told_line (line_of kind) line.now)) }
{
    writer.line(PictureLine::of(kind), line.finish().as_bytes())
}

/// Writes the line of a row.
#[tactic(auto, unfolding(crate::specs::Printing::told_line))]
fn write_row_line<W: Output>(writer: &mut W, row: &RowFacts, line: &Line) -> Result<(), W::Error>
    ensures { OnOk result (W.appends writer.old writer.new
        (told_line (line_of_row (row_view row.now)) line.now)) }
{
    let of = PictureLine {
        offset: row.place.offset,
        header_len: row.head.len(),
        content_len: row.own_len,
        depth: row.place.depth,
        hidden: usize::from(row.place.hides(row.own_len, row.value)),
        ..PictureLine::of(ROW)
    };
    writer.line(of, line.finish().as_bytes())
}

/// How rows are written.
#[derive(Clone, Copy)]
struct Style {
    /// How the bytes are drawn.
    plan: Plan,
    /// Whether every content is given.
    all: bool,
    /// Whether they are written as JSON.
    json: bool,
    /// Of how many levels they are written; 0 for all.
    levels: usize,
}

/// Writes the lines of rows. It keeps the first error of the writer, and writes nothing after it.
/// Of JSON and of some levels no clause says what is written.
#[derive(Drop)]
struct Printer<'a, W: Output> {
    writer: &'a mut W,
    style: Style,
    error: Option<W::Error>,
}

impl<'a, W: Output> Printer<'a, W> {
    /// Returns whether all was written.
    fn finish(self) -> Result<(), W::Error>
        ensures error { OnOk result (self.entry.error ≡ None) }
        ensures kept { self.exit.0.now ≡ self.entry.writer.now }
    {
        let Printer { error, .. } = self;
        match error {
            Some(error) => Err(error),
            None => Ok(()),
        }
    }

    /// Writes a row, unless a write has failed, or it isn't of the first levels.
    fn tell(&mut self, row: &RowFacts)
        ensures writer { self.new.writer.ghost_name ≡ self.old.writer.ghost_name }
        ensures style { self.new.style ≡ self.old.style }
        ensures text { IsPlain self.old.style → HasWritten W.appends self.old.error
            self.old.writer.now self.new.error self.new.writer.now
            (as_shown (told_lines (row_view row.now))) }
    {
        let levels = self.style.levels;
        if self.error.is_some() || levels > 0 && row.place.depth >= levels {
            return;
        }
        let told = if self.style.json {
            write_object(self.writer, row)
        } else {
            write_row(self.writer, row)
        };
        if let Err(error) = told {
            self.error = Some(error);
        }
    }
}

impl<W: Output> Rows for Printer<'_, W> {
    ghost tells = { λ a b rows. (b.writer.ghost_name ≡ a.writer.ghost_name)
        × (b.style ≡ a.style)
        × (IsPlain a.style → HasWritten W.appends a.error a.writer.now b.error b.writer.now
        (as_shown (told_of a.style.plan a.style.all rows))) };

    #[tactic(auto, using(crate::proofs::LineLemmas::kept_pieces))]
    fn element(&mut self, place: Place, element: &Element) {
        self.tell(&RowFacts::of_element(self.style.plan, self.style.all, place, element));
    }

    #[tactic(auto, using(crate::proofs::LineLemmas::kept_pieces))]
    fn end_of_contents(&mut self, place: Place) {
        self.tell(&RowFacts::of_end(place));
    }

    #[tactic(auto, using(crate::proofs::LineLemmas::kept_pieces))]
    fn not_drawn(&mut self, place: Place, expected: &[Component], len: usize, content: &[u8]) {
        self.tell(&RowFacts::of_not_drawn(self.style.plan, place, expected, len, content));
    }

    ghost nothing = { λ a. (refl, refl, λ _ none. (none, W.nothing a.writer.now)) };

    ghost joined = { λ a b c first second one two. (
      two.0 ∙ one.0,
      two.1 ∙ one.1,
      λ plain. has_written_both W.appends W.joined first second one.1 plain (one.2 plain) two.2,
    ) };
}

/// Writes the lines of a row, unless it is of no bytes, and has no mark: its own, those of its
/// content, if that one doesn't say all of it, and its marks.
#[tactic(auto, unfolding(crate::specs::Printing::told_lines))]
fn write_row<W: Output>(writer: &mut W, row: &RowFacts) -> Result<(), W::Error>
    ensures { OnOk result
        (W.appends writer.old writer.new (as_shown (told_lines (row_view row.now)))) }
{
    if !row.is_told() {
        return Ok(());
    }
    let line = row_line(row);
    write_row_line(writer, row, &line)?;
    if !row.is_said(line.len()) {
        write_content(writer, row.content)?;
    }
    write_marks(writer, &row.marks, row.expected)
}

/// Writes a content in lines of 16 bytes.
fn write_content<W: Output>(writer: &mut W, content: &[u8]) -> Result<(), W::Error>
    ensures { OnOk result (W.appends writer.old writer.new
        (as_shown (content_lines content.now ((length content.now + 15) / 16)))) }
{
    for line in 0..content.len().div_ceil(BYTES_IN_LINE) {
        let bytes = split(split(content, line * BYTES_IN_LINE).1, BYTES_IN_LINE).0;
        write_line(writer, CONTENT, &content_line(bytes))?;
    }
    Ok(())
}

/// Returns the line of these bytes of a content.
#[tactic(auto, using(crate::proofs::LineLemmas::kept_pieces))]
fn content_line(bytes: &[u8]) -> Line
    ensures { result ≡ kept (spaces 25 ++ hex_words bytes.now) }
{
    let mut line = Line::new();
    line.push_spaces(CONTENT_COLUMN);
    line.push_header(bytes);
    line
}

/// Writes the lines of marks of a row in which these components could come.
#[tactic(auto, using(crate::proofs::LineLemmas::kept_pieces))]
fn write_marks<W: Output>(
    writer: &mut W,
    marks: &[Option<Mark>],
    expected: &[Component],
) -> Result<(), W::Error>
    ensures { OnOk result
        (W.appends writer.old writer.new (as_shown (mark_lines marks.now expected.now))) }
{
    let Some((mark, others)) = marks.split_first() else {
        return Ok(());
    };
    if let Some(mark) = mark {
        let mut line = Line::new();
        line.push_str("     ^ ");
        line.push_mark(*mark, expected);
        write_line(writer, MARK, &line)?;
    }
    write_marks(writer, others, expected)
}
