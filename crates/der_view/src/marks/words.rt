//! The words of marks.
#![tactic(auto, using(crate::proofs::LineLemmas::kept_pieces))]

ghost use Rattle.std.specs.Prelude.{◌≡◌, ◌++◌};
ghost use Rattle.der_view.specs.Lines.{kept};
ghost use Rattle.der_view.specs.Marks.{byte_word, bytes_text, component_text, expected_text};
ghost use Rattle.der_view.specs.Marks.{mark_words, tag_words};

use super::{FAULTS, Mark};
use crate::grammar::{Component, Presence};
use crate::header::Tag;
use crate::line::Line;
use crate::universal::type_word;
use itoa::Buffer;

impl Line {
    /// Appends the words of a mark of a row in which these components could come.
    pub fn push_mark(&mut self, mark: Mark, expected: &[Component])
        ensures { self.new ≡ kept (self.old ++ mark_words mark expected.now) }
    {
        match mark {
            Mark::Missing { missing, announced } => self.push_all(&[
                Buffer::new().format(missing),
                " of ",
                Buffer::new().format(announced),
                byte_word(announced),
                " missing",
            ]),
            Mark::Fault(fault) => self.push_str(FAULTS[fault as usize].1),
            Mark::Characters(number) => {
                self.push_all(&["not the characters of ", type_word(number)]);
            }
            Mark::Expected => {
                self.push_str("expected ");
                self.push_expected(expected);
            }
            Mark::AfterRoot => self.push_str("after the end of the root"),
        }
    }

    /// Appends a number of bytes, as `1 byte` or `9 bytes`.
    pub fn push_bytes_of(&mut self, count: usize)
        ensures { self.new ≡ kept (self.old ++ bytes_text count) }
    {
        self.push_all(&[Buffer::new().format(count), byte_word(count)]);
    }

    /// Appends the components that could come, up to the first that has to.
    fn push_expected(&mut self, components: &[Component])
        ensures { self.new ≡ kept (self.old ++ expected_text components.now) }
    {
        let Some((component, others)) = components.split_first() else {
            return self.push_str("the end");
        };
        self.push_component(component);
        match component.1 {
            Presence::Needed => self.push_str(""),
            _ => {
                self.push_str(", or ");
                self.push_expected(others);
            }
        }
    }

    /// Appends a component: its name and a comma, if it has one, and its tag.
    fn push_component(&mut self, component: &Component)
        ensures { self.new ≡ kept (self.old ++ component_text component.now) }
    {
        let name = component.3.text();
        self.push_all(&[name, if name.is_empty() { "" } else { ", " }]);
        self.push_tag_byte(component.0);
    }

    /// Appends the type with this byte of a tag in a component, and the byte.
    fn push_tag_byte(&mut self, byte: u8)
        ensures { self.new ≡ kept (self.old ++ tag_words byte) }
    {
        match byte {
            0x00 => self.push_str("any element"),
            0x17 => self.push_str("UTCTime (17) or GeneralizedTime (18)"),
            _ => {
                self.push_type(Tag::of(byte, u32::from(byte % 0x20)));
                self.push_str(" (");
                self.push_hex(byte);
                self.push_byte(b')');
            }
        }
    }
}

/// Returns the word for so many bytes.
pub(crate) fn byte_word(count: usize) -> &'static str
    ensures { result.now ≡ byte_word count }
{
    if count == 1 { " byte" } else { " bytes" }
}
