//! The picture of an input: what is printed of it.
ghost use Rattle.std.specs.Prelude.{◌≡◌, ◌++◌, flat_map, map, OnOk, option_map};
ghost use Rattle.der_view.specs.Drawings.{IsKey, end_text, found_text};
ghost use Rattle.der_view.specs.Drawings.{heading_of, is_key_of, known_of, pem_heading};
ghost use Rattle.der_view.specs.Drawings.{reading_of};
ghost use Rattle.der_view.specs.Drawings.{text_heading};
ghost use Rattle.der_view.specs.Lines.{kept};
ghost use Rattle.der_view.specs.Said.{line_if, said_line, said_lines};
ghost use Rattle.der_view.specs.Sources.{source_view};

use crate::faults::key_fault;
use crate::form::draw_rows;
use crate::known::Known;
use crate::line::Line;
use crate::output::{COMMAND, Output, WORDS};
use crate::plan::Plan;
use crate::printer::write_line;
use crate::said::said_of;
use crate::sentences::Reading;
use crate::text::{Encoding, Flaw, Found, Source, armour_of};
use sec1::BorrowedKey;

/// Returns `true` if the bytes are those of a key (RFC 5915 section 3).
#[tactic(auto, unfolding(crate::specs::Drawings::is_key_of))]
pub fn is_key(bytes: &[u8]) -> bool
    ensures value { result ≡ is_key_of bytes.now }
    ensures key { IsKey bytes.now result }
{
    match BorrowedKey::try_from(bytes) {
        Ok(_) => true,
        Err(_) => false,
    }
}

/// Returns `true` if the bytes are those of a key, as [`is_key`] does.
// By the table of faults, so that a library that draws bytes and reads keys has the reader of keys
// in one place, in line.
#[tactic(auto, unfolding(crate::specs::Drawings::is_key_of))]
pub(crate) fn is_read_as_key(bytes: &[u8]) -> bool
    ensures { result ≡ is_key_of bytes.now }
{
    match key_fault(bytes) {
        None => true,
        Some(_) => false,
    }
}

/// Returns what is known of bytes by the rows that this plan draws of them.
#[tactic(auto, unfolding(crate::specs::Drawings::known_of))]
pub(crate) fn known_of(plan: Plan, bytes: &[u8]) -> Known
    ensures { result ≡ known_of plan bytes.now }
{
    let mut known = Known::new(plan);
    draw_rows(&mut known, plan, bytes, false);
    known
}

/// Writes what is said of bytes, which are a key's or not.
#[tactic(auto, unfolding(crate::specs::Said::said_lines))]
pub(crate) fn write_said<W: Output>(
    writer: &mut W,
    is_key: bool,
    reading: Reading,
    file: &'static str,
    known: &Known,
) -> Result<(), W::Error>
    ensures { OnOk result (W.appends writer.old writer.new
        (said_lines is_key reading file.now known.now)) }
{
    write_sentences(writer, &said_of(is_key, reading, file, known), known)
}

/// Writes a line for each of these sentences that isn't empty.
fn write_sentences<W: Output>(
    writer: &mut W,
    sentences: &[&'static str],
    known: &Known,
) -> Result<(), W::Error>
    ensures { OnOk result (W.appends writer.old writer.new
        (flat_map (said_line known.now) (map (λ sentence. sentence.now) sentences.now))) }
{
    let Some((sentence, others)) = sentences.split_first() else {
        return Ok(());
    };
    write_sentence(writer, sentence, known)?;
    write_sentences(writer, others, known)
}

/// Writes the line of a sentence, if it isn't empty.
fn write_sentence<W: Output>(writer: &mut W, sentence: &str, known: &Known) -> Result<(), W::Error>
    ensures { OnOk result (W.appends writer.old writer.new (said_line known.now sentence.now)) }
{
    if sentence.is_empty() {
        return Ok(());
    }
    let mut line = Line::new();
    line.push_sentence(false, sentence.as_bytes(), known);
    let is_command = sentence.as_bytes().starts_with(b"  ");
    let kind = if is_command { COMMAND } else { WORDS };
    write_line(writer, kind, &line)
}

/// Writes a line of this kind with this text, if it isn't empty.
#[tactic(auto, using(crate::proofs::LineLemmas::kept_pieces))]
pub(crate) fn write_text<W: Output>(
    writer: &mut W,
    kind: usize,
    front: &str,
    text: &str,
) -> Result<(), W::Error>
    ensures { OnOk result (W.appends writer.old writer.new (line_if kind front.now text.now)) }
{
    if text.is_empty() {
        return Ok(());
    }
    let mut line = Line::new();
    line.push_str(front);
    line.push_str(text);
    write_line(writer, kind, &line)
}

impl<'a> Source<'a> {
    /// Returns how OpenSSL reads the bytes in the source, of whose text this is wrong.
    pub fn reading(&self, flaw: Flaw) -> Reading
        ensures { result ≡ reading_of (source_view self.now) flaw }
    {
        match (self, flaw) {
            (Source::Der(_), _) => Reading::Der,
            (Source::Pem { is_read: true, .. }, Flaw::Nothing) => Reading::Pem,
            _ => Reading::Nothing,
        }
    }

    /// Returns the line above the picture of the source, if it has one: of which `found` was found.
    pub fn heading(&self, found: &Found) -> Option<Line>
        ensures { result ≡ option_map kept (heading_of (source_view self.now) found.now) }
    {
        match (self, found) {
            (Source::Pem { block, .. }, _) => {
                Some(pem_line(block.line, block.label, found, block.has_end))
            }
            (Source::Text(text), Found::Decoded(encoding, _, _)) => {
                text_line(*text, *encoding, found)
            }
            _ => None,
        }
    }
}

/// Returns the line above a block with this label that begins in this line.
fn pem_line(number: usize, label: &[u8], found: &Found, has_end: bool) -> Line
    ensures { result ≡ kept (pem_heading number label.now found.now has_end) }
{
    let mut line = Line::new();
    line.push_str("PEM at line ");
    line.push_decimal(number);
    line.push_str(", ");
    line.push_bytes(label);
    line.push_str(": ");
    line.push_found(found);
    line.push_str(end_text(has_end));
    line
}

/// Returns what is said of a block with its last line, or with none.
fn end_text(has_end: bool) -> &'static str
    ensures { result.now ≡ end_text has_end }
{
    if has_end { "" } else { ", with no line END" }
}

/// Returns the line above the picture of a text with no block, of which bytes were decoded.
#[tactic(auto, using(crate::proofs::LineLemmas::kept_pieces))]
fn text_line(text: &[u8], encoding: Encoding, found: &Found) -> Option<Line>
    ensures { result ≡ option_map kept (text_heading text.now encoding found.now) }
{
    let front = match encoding {
        Encoding::Pem => {
            let armour = armour_of(text)?;
            return Some(pem_line(armour.line, armour.label, found, armour.has_end));
        }
        Encoding::Hexadecimal => "hexadecimal: ",
        Encoding::Base64 => "base64: ",
    };
    let mut line = Line::new();
    line.push_str(front);
    line.push_found(found);
    Some(line)
}

impl Line {
    /// Appends what the heading of a source says is in it.
    #[tactic(auto, using(crate::proofs::LineLemmas::kept_pieces))]
    fn push_found(&mut self, found: &Found)
        ensures { self.new ≡ kept (self.old ++ found_text found.now) }
    {
        match found {
            Found::Decoded(_, flaw, len) => {
                self.push_bytes_of(*len);
                self.push_str(flaw.words());
            }
            Found::Said(note) => self.push_str(note.reason()),
            Found::Itself => self.push_str(""),
        }
    }
}
