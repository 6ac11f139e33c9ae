//! Pictures as lines of JSON (RFC 8259), in ASCII: an object without spaces a row, its members in
//! alphabetical order.

use crate::characters::Characters;
use crate::facts::{Kind, RowFacts, Shown};
use crate::known::Known;
use crate::line::{DIGITS, Line};
use crate::marks::Mark;
use crate::output::Output;
use crate::said::said_of;
use crate::sentences::Reading;
use crate::values::{Arcs, Value};
use itoa::Buffer;

/// The names of the classes of tags (X.690 section 8.1.2.2).
static CLASSES: [&[u8]; 4] = [b"universal", b"application", b"context", b"private"];

/// An object that is being written.
#[derive(Drop)]
pub(crate) struct Object<'w, W: Output> {
    /// Where it is written.
    writer: &'w mut W,
    /// What comes before the next member.
    before: u8,
}

impl<'w, W: Output> Object<'w, W> {
    /// Begins an object.
    pub(crate) fn new(writer: &'w mut W) -> Object<'w, W> {
        Object {
            writer,
            before: b'{',
        }
    }

    /// Writes the name of a member, and the beginning of its value.
    fn write_member(&mut self, name: &str, value: &[u8]) -> Result<(), W::Error> {
        self.writer.push(&[self.before, b'"'])?;
        self.before = b',';
        self.writer.push(name.as_bytes())?;
        self.writer.push(b"\":")?;
        self.writer.push(value)
    }

    /// Writes a member that is a number.
    pub(crate) fn write_number(&mut self, name: &str, number: usize) -> Result<(), W::Error> {
        self.write_member(name, Buffer::new().format(number).as_bytes())
    }

    /// Writes a member that is `true` or `false`.
    fn write_flag(&mut self, name: &str, flag: bool) -> Result<(), W::Error> {
        self.write_member(name, if flag { b"true" } else { b"false" })
    }

    /// Writes a member that is a text.
    pub(crate) fn write_text(&mut self, name: &str, text: Characters) -> Result<(), W::Error> {
        self.write_member(name, b"\"")?;
        write_characters(self.writer, text)?;
        self.writer.push(b"\"")
    }

    /// Writes a member that is a text in ASCII, unless it is empty.
    pub(crate) fn write_text_if(&mut self, name: &str, text: &[u8]) -> Result<(), W::Error> {
        if text.is_empty() {
            return Ok(());
        }
        self.write_text(name, Characters::latin1(text))
    }

    /// Writes a member that is a content in hexadecimal, if it isn't empty.
    fn write_content(&mut self, name: &str, content: &[u8]) -> Result<(), W::Error> {
        if content.is_empty() {
            return Ok(());
        }
        self.write_member(name, b"\"")?;
        write_hex(self.writer, DIGITS, content)?;
        self.writer.push(b"\"")
    }

    /// Ends the object and its line.
    pub(crate) fn end(self) -> Result<(), W::Error> {
        self.writer.push(b"}\n")
    }
}

/// Writes the last object of a picture that says this, with this command.
pub(crate) fn write_last<W: Output>(
    writer: &mut W,
    words: &[u8],
    command: &str,
) -> Result<(), W::Error> {
    let mut object = Object::new(writer);
    object.write_text_if("advice", command.as_bytes())?;
    object.write_flag("key", false)?;
    object.write_text_if("words", words)?;
    object.end()
}

/// Writes the last object of the picture of bytes, which are a key's or not, of which so much is
/// known.
pub(crate) fn write_said_object<W: Output>(
    writer: &mut W,
    is_key: bool,
    reading: Reading,
    file: &'static str,
    known: &Known,
) -> Result<(), W::Error> {
    let said = said_of(is_key, reading, file, known);
    let mut object = Object::new(writer);
    object.write_text_if("advice", said[4].as_bytes().trim_ascii_start())?;
    object.write_flag("key", is_key)?;
    if let Some(offset) = known.first_mark {
        object.write_number("mark", offset)?;
    }
    object.write_member("words", b"\"")?;
    object.write_sentence("", said[0], known)?;
    object.write_sentence(" ", said[1], known)?;
    object.write_sentence(" ", said[2], known)?;
    object.write_sentence(" ", said[3], known)?;
    object.writer.push(b"\"")?;
    object.end()
}

/// Writes the object of a row, unless it is of no bytes, and has no mark.
pub(crate) fn write_object<W: Output>(writer: &mut W, row: &RowFacts) -> Result<(), W::Error> {
    if !row.is_told() {
        return Ok(());
    }
    let mut object = Object::new(writer);
    if let Some(announced) = row.announced
        && announced != row.len
    {
        object.write_number("announced", announced)?;
    }
    if let Kind::Element(tag) = row.kind {
        object.write_text_if("class", CLASSES[tag.class as usize])?;
        object.write_flag("constructed", tag.constructed)?;
    }
    object.write_content("content", row.content)?;
    object.write_number("depth", row.place.depth)?;
    object.write_faults(row)?;
    object.write_number("header_len", row.head.len())?;
    if row.announced.is_some() {
        object.write_number("len", row.len)?;
    }
    object.write_text_if("name", row.name.text().as_bytes())?;
    object.write_number("offset", row.place.offset)?;
    object.write_back(row)?;
    object.end()
}

impl<'w, W: Output> Object<'w, W> {
    /// Writes the objects of a row's marks, if it has some.
    fn write_faults(&mut self, row: &RowFacts) -> Result<(), W::Error> {
        let mut has_mark = false;
        for mark in row.marks {
            let Some(mark) = mark else {
                continue;
            };
            if has_mark {
                self.writer.push(b",")?;
            } else {
                self.write_member("faults", b"[")?;
            }
            has_mark = true;
            write_fault(self.writer, mark, row)?;
        }
        if has_mark {
            self.writer.push(b"]")
        } else {
            Ok(())
        }
    }

    /// Writes the members of a row after its offset.
    fn write_back(&mut self, row: &RowFacts) -> Result<(), W::Error> {
        if let Some(Value::Identifier(_, arcs)) = row.value() {
            self.write_arcs("oid", arcs)?;
        }
        let mut name = Line::new();
        match row.kind {
            Kind::Element(tag) => name.push_type(tag),
            Kind::EndOfContents => name.push_str("end-of-contents"),
            Kind::NotDrawn => name.push_str("not drawn"),
        }
        if let Kind::Element(tag) = row.kind
            && row.opened
            && !tag.constructed
        {
            self.write_flag("opened", true)?;
        }
        if row.is_secret {
            self.write_flag("secret", true)?;
        }
        if let Kind::Element(tag) = row.kind {
            self.write_number("tag", tag.number as usize)?;
        }
        self.write_text_if("type", name.as_bytes())?;
        self.write_value(row)
    }

    /// Writes what a row shows of its content, if it is more than a number of bytes.
    fn write_value(&mut self, row: &RowFacts) -> Result<(), W::Error> {
        if let Shown::Point(point) = row.shown {
            let mut line = Line::new();
            line.push_point(point);
            return self.write_text_if("value", line.as_bytes());
        }
        match &row.value() {
            Some(Value::Text(text)) => self.write_text_if("value", text.as_str().as_bytes()),
            Some(Value::Identifier(Some(name), _)) => self.write_text_if("value", *name),
            Some(Value::String(characters)) => self.write_text("value", *characters),
            Some(Value::Time(time, end)) => {
                self.write_member("value", b"\"")?;
                self.writer.push(time)?;
                self.writer.push(*end)?;
                self.writer.push(b"\"")
            }
            _ => Ok(()),
        }
    }

    /// Writes the line of a sentence after this text, if it isn't empty.
    fn write_sentence(
        &mut self,
        before: &str,
        sentence: &str,
        known: &Known,
    ) -> Result<(), W::Error> {
        if sentence.is_empty() {
            return Ok(());
        }
        let mut line = Line::new();
        line.push_sentence(false, sentence.as_bytes(), known);
        let line = line.finish();
        self.writer.push(before.as_bytes())?;
        write_characters(self.writer, Characters::latin1(line.as_bytes()))
    }

    /// Writes a member that is arcs, joined by full stops.
    fn write_arcs(&mut self, name: &str, arcs: Arcs) -> Result<(), W::Error> {
        self.write_member(name, b"\"")?;
        let mut before = b"".as_slice();
        for arc in arcs {
            self.writer.push(before)?;
            self.writer.push(Buffer::new().format(arc).as_bytes())?;
            before = b".".as_slice();
        }
        self.writer.push(b"\"")
    }
}

/// Writes the object of a mark of a row.
fn write_fault<W: Output>(writer: &mut W, mark: Mark, row: &RowFacts) -> Result<(), W::Error> {
    let mut words = Line::new();
    words.push_mark(mark, row.expected);
    let mut object = Object::new(writer);
    object.write_text_if("kind", mark.kind().as_bytes())?;
    object.write_text_if("words", words.as_bytes())?;
    object.writer.push(b"}")
}

/// Writes characters of a text.
fn write_characters<W: Output>(writer: &mut W, characters: Characters) -> Result<(), W::Error> {
    for code in characters {
        write_character(writer, code)?;
    }
    Ok(())
}

/// Writes a character: as itself if it prints in ASCII, `"` and `\` after a `\`, and another one by
/// the escapes of its units of UTF-16 (RFC 8259 section 7).
fn write_character<W: Output>(writer: &mut W, code: u32) -> Result<(), W::Error> {
    if code == 0x22 || code == 0x5C {
        writer.push(&[b'\\', code as u8])
    } else if code >= 0x20 && code <= 0x7E {
        writer.push(&[code as u8])
    } else if code < 0x1_0000 {
        write_unit(writer, code)
    } else {
        let above = code - 0x1_0000;
        write_unit(writer, 0xD800 + above / 0x400 % 0x400)?;
        write_unit(writer, 0xDC00 + above % 0x400)
    }
}

/// Writes the escape of a unit of UTF-16: `\u` and four digits.
fn write_unit<W: Output>(writer: &mut W, unit: u32) -> Result<(), W::Error> {
    writer.push(b"\\u")?;
    let bytes = [(unit / 0x100 % 0x100) as u8, (unit % 0x100) as u8];
    write_hex(writer, b"0123456789abcdef", &bytes)
}

/// Writes bytes by these hexadecimal digits.
fn write_hex<W: Output>(writer: &mut W, digits: &[u8; 16], bytes: &[u8]) -> Result<(), W::Error> {
    for byte in bytes {
        writer.push(&[
            digits[usize::from(byte / 16)],
            digits[usize::from(byte % 16)],
        ])?;
    }
    Ok(())
}
