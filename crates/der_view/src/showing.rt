//! Pictures in other forms: as lines of JSON, of one element alone, or of the outermost levels.
ghost use Rattle.std.specs.Prelude.{◌≡◌, ◌≤◌, ◌+◌, ◌*◌, IfOk, OnOk, length, true};
ghost use Rattle.der_view.specs.Drawings.{IsDecoded, bytes_lines, has_key, heading_lines};
ghost use Rattle.der_view.specs.Drawings.{is_key_of, picture_lines, source_key, source_lines};
ghost use Rattle.der_view.specs.Parts.{IsIn, content_of};
ghost use Rattle.der_view.specs.Said.{note_lines};
ghost use Rattle.der_view.specs.Printing.{are_plain};
ghost use Rattle.der_view.specs.Sources.{source_view, text_len};

use crate::characters::Characters;
use crate::drawing::{is_read_as_key, known_of, write_said, write_text};
use crate::json::{Object, write_last, write_said_object};
use crate::line::Line;
use crate::output::{COMMAND, HEADING, Output, PictureLine, WORDS};
use crate::part::drawn_element;
use crate::plan::plan_of;
use crate::printer::{Options, write_line, write_rows};
use crate::sentences::{Reading, Sentence, file_words};
use crate::text::{Encoding, Found, Source, Sources, armour_of};

/// Writes the picture of an input: of DER, or of what its text encodes. Returns whether some part
/// of it is a key (RFC 5915 section 3). With `all` every content is given.
///
/// `room` is memory of [`room_len`](crate::room_len) bytes. What is decoded stands at its beginning
/// then, of one part after the other.
///
/// # Errors
///
/// An error of the writer.
pub fn draw<W: Output>(
    writer: &mut W,
    input: &[u8],
    room: &mut [u8],
    all: bool,
) -> Result<bool, W::Error>
    requires { 2 * text_len input.now + 2 ≤ length room.old }
    ensures drawn { OnOk result (W.appends writer.old writer.new (picture_lines all input.now)) }
    ensures key { IfOk result (λ found. found ≡ has_key input.now) }
    ensures decoded { OnOk result (IsDecoded input.now room.new) }
{
    show(writer, input, room, &Options::plain(all))
}

/// Writes the picture of an input as [`draw`] does, or as the options ask. Returns
/// whether some part of what is drawn is a key (RFC 5915 section 3).
///
/// `room` is memory of [`room_len`](crate::room_len) bytes. What is decoded stands at its beginning
/// then, of one part after the other.
///
/// # Errors
///
/// An error of the writer.
pub fn show<W: Output>(
    writer: &mut W,
    input: &[u8],
    room: &mut [u8],
    options: &Options,
) -> Result<bool, W::Error>
    requires { 2 * text_len input.now + 2 ≤ length room.old }
    // Of JSON, of a part and of some levels no clause says what is written.
    ensures plain { are_plain options.now ≡ true → OnOk result
        (W.appends writer.old writer.new (picture_lines options.now.all input.now)) }
    ensures key { IfOk result (λ found. options.now.offset ≡ 0 → found ≡ has_key input.now) }
    ensures decoded { OnOk result (IsDecoded input.now room.new) }
{
    // By halves: to know how long a text is, each byte of a key would be looked at.
    let (bytes, digits) = room.split_at_mut(room.len().div_ceil(2) + 1);
    let mut sources = Sources::new(input);
    let mut has_key = false;
    let mut used = 0;
    while let Some(source) = sources.next_source() {
        let rest = &mut bytes[used..used + source.text_len() + 2];
        let found = source.find(digits, rest);
        let len = found.decoded_len();
        let is_key = show_source(writer, &source, used, &found, rest, options)?;
        has_key |= is_key;
        used += len;
    }
    Ok(has_key)
}

/// Writes the picture of a source, in which `found` was found. What was decoded is in `memory`, and
/// `before` bytes were before it. Returns whether it is a key's.
fn show_source<W: Output>(
    writer: &mut W,
    source: &Source,
    before: usize,
    found: &Found,
    memory: &[u8],
    options: &Options,
) -> Result<bool, W::Error>
    requires { IsIn memory.now found.now (content_of (source_view source.now)) }
    ensures text { are_plain options.now ≡ true → OnOk result (W.appends writer.old writer.new
        (source_lines options.now.all before (source_view source.now))) }
    ensures key { IfOk result (λ is_key. options.now.offset ≡ 0
        → is_key ≡ source_key (source_view source.now)) }
{
    write_head(writer, source, before, found, options)?;
    match found {
        Found::Decoded(_, flaw, len) => {
            show_bytes(writer, &memory[..*len], source.reading(*flaw), options)
        }
        Found::Said(note) => {
            show_note(writer, *note, options)?;
            Ok(false)
        }
        Found::Itself => match source {
            Source::Der(input) => show_bytes(writer, *input, Reading::Der, options),
            _ => Ok(false),
        },
    }
}

/// Writes what is said of a source that isn't drawn.
fn show_note<W: Output>(writer: &mut W, note: Sentence, options: &Options) -> Result<(), W::Error>
    ensures { are_plain options.now ≡ true
        → OnOk result (W.appends writer.old writer.new (note_lines note)) }
{
    if options.json {
        return write_last(writer, note.words().as_bytes(), note.command());
    }
    write_text(writer, WORDS, "", note.words())?;
    write_text(writer, COMMAND, "  ", note.command())
}

/// Writes what stands above the picture of a source, in which `found` was found.
#[tactic(auto, using(crate::proofs::DrawingLemmas::heading_is, crate::proofs::DrawingLemmas::no_heading))]
fn write_head<W: Output>(
    writer: &mut W,
    source: &Source,
    before: usize,
    found: &Found,
    options: &Options,
) -> Result<(), W::Error>
    ensures { are_plain options.now ≡ true → OnOk result (W.appends writer.old writer.new
        (heading_lines before (source_view source.now) found.now)) }
{
    if options.json {
        return write_first(writer, options.file, source, found);
    }
    match source.heading(found) {
        Some(line) => {
            let of = PictureLine {
                offset: before,
                content_len: found.decoded_len(),
                ..PictureLine::of(HEADING)
            };
            writer.line(of, line.finish().as_bytes())
        }
        None => Ok(()),
    }
}

/// Writes the picture of bytes, or of the element in them that is asked for. Returns whether what
/// is drawn is a key's.
fn show_bytes<W: Output>(
    writer: &mut W,
    bytes: &[u8],
    reading: Reading,
    options: &Options,
) -> Result<bool, W::Error>
    ensures text { are_plain options.now ≡ true → OnOk result
        (W.appends writer.old writer.new (bytes_lines options.now.all reading bytes.now)) }
    ensures key { IfOk result (λ is_key. options.now.offset ≡ 0 → is_key ≡ is_key_of bytes.now) }
{
    if options.offset == 0 {
        return show_part(writer, bytes, reading, options);
    }
    match drawn_element(bytes, options.offset) {
        // No command reads a part of a file.
        Some(part) => show_part(writer, part, Reading::Nothing, options),
        None => {
            let mut line = Line::new();
            line.push_str("No element begins at offset ");
            line.push_decimal(options.offset);
            line.push_str(".");
            if options.json {
                write_last(writer, line.as_bytes(), "")?;
            } else {
                write_line(writer, WORDS, &line)?;
            }
            Ok(false)
        }
    }
}

/// Writes the picture of bytes. Returns whether they are a key's.
#[tactic(auto, unfolding(crate::specs::Drawings::bytes_lines))]
fn show_part<W: Output>(
    writer: &mut W,
    bytes: &[u8],
    reading: Reading,
    options: &Options,
) -> Result<bool, W::Error>
    ensures text { are_plain options.now ≡ true → OnOk result
        (W.appends writer.old writer.new (bytes_lines options.now.all reading bytes.now)) }
    ensures key { IfOk result (λ is_key. is_key ≡ is_key_of bytes.now) }
{
    let plan = plan_of(bytes);
    let is_key = is_read_as_key(bytes);
    let known = known_of(plan, bytes);
    let file = file_words(bytes);
    write_rows(writer, plan, bytes, options)?;
    if options.json {
        write_said_object(writer, is_key, reading, file, &known)?;
        return Ok(is_key);
    }
    write_said(writer, is_key, reading, file, &known)?;
    Ok(is_key)
}

/// Writes the first object of the picture of a source, in which `found` was found.
fn write_first<W: Output>(
    writer: &mut W,
    file: &[u8],
    source: &Source,
    found: &Found,
) -> Result<(), W::Error> {
    let mut object = Object::new(writer);
    let (form, len) = form_of(source, found);
    if let Some(len) = len {
        object.write_number("bytes", len)?;
    }
    if !file.is_empty() {
        let name = Characters::of_string(12, file).unwrap_or(Characters::latin1(file));
        object.write_text("file", name)?;
    }
    object.write_text_if("form", form.as_bytes())?;
    if let Some((line, label)) = block_of(source, found) {
        object.write_text("label", Characters::latin1(label))?;
        object.write_number("line", line)?;
    }
    object.end()
}

/// Returns how an input is encoded, and the number of bytes that were found, if some were.
fn form_of(source: &Source, found: &Found) -> (&'static str, Option<usize>) {
    match (source, found) {
        (Source::Der(input), _) => ("der", Some(input.len())),
        (_, Found::Decoded(Encoding::Pem, _, len)) => ("pem", Some(*len)),
        (_, Found::Decoded(Encoding::Hexadecimal, _, len)) => ("hex", Some(*len)),
        (_, Found::Decoded(Encoding::Base64, _, len)) => ("base64", Some(*len)),
        (Source::Pem { .. }, _) => ("pem", None),
        _ => ("text", None),
    }
}

/// Returns the number of the first line and the label of a block of PEM, or of what is almost one.
fn block_of<'a>(source: &Source<'a>, found: &Found) -> Option<(usize, &'a [u8])> {
    match (source, found) {
        (Source::Pem { block, .. }, _) => Some((block.line, block.label)),
        (Source::Text(text), Found::Decoded(Encoding::Pem, _, _)) => {
            let armour = armour_of(*text)?;
            Some((armour.line, armour.label))
        }
        _ => None,
    }
}
