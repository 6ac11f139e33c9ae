//! What is shown of a content, in a line.
#![tactic(auto, using(crate::proofs::LineLemmas::kept_pieces))]

ghost use Rattle.std.specs.Prelude.{◌≡◌, ◌++◌, true};
ghost use Rattle.std.specs.Fmt.{digits};
ghost use Rattle.sec1_der.specs.Identifiers.{dotted};
ghost use Rattle.der_view.specs.Characters.{codes_of, escaped, escaped_all};
ghost use Rattle.der_view.specs.Lines.{kept};
ghost use Rattle.der_view.specs.Values.{arcs_view, number_of_text, value_text, value_view};

use super::{Arcs, Value};
use crate::characters::Characters;
use crate::line::{Line, MAX_WIDTH};
use itoa::Buffer;

impl Line {
    /// Appends what is shown of a content, which follows the name of its type.
    pub fn push_value(&mut self, value: &Value<'_>)
        ensures { self.new ≡ kept (self.old ++ value_text (value_view value.now)) }
    {
        match value {
            Value::Nothing => self.push_str(""),
            Value::Count(count) => self.push_number_of(*count, " byte"),
            Value::Bits { count, unused } => {
                self.push_number_of(*count, " byte");
                if *unused > 0 {
                    self.push_number_of(usize::from(*unused), " unused bit");
                }
            }
            Value::Text(text) => {
                self.push_byte(b' ');
                self.push_str(text.as_str());
            }
            Value::Time(time, end) => {
                self.push_byte(b' ');
                self.push_bytes(time);
                self.push_bytes(*end);
            }
            Value::Identifier(None, arcs) => {
                self.push_byte(b' ');
                self.push_arcs(*arcs);
            }
            Value::Identifier(Some(name), arcs) => {
                self.push_byte(b' ');
                self.push_bytes(*name);
                self.push_str(" (");
                self.push_arcs(*arcs);
                self.push_byte(b')');
            }
            Value::String(characters) => {
                self.push_str(" \"");
                self.push_characters(*characters);
                self.push_byte(b'"');
            }
        }
    }

    /// Appends a number of such things, as `, 1 byte` or `, 9 bytes`.
    pub(crate) fn push_number_of(&mut self, count: usize, thing: &str)
        ensures { self.new ≡ kept (self.old ++ number_of_text count thing.now) }
    {
        self.push_str(", ");
        self.push_decimal(count);
        self.push_str(thing);
        self.push_str(if count == 1 { "" } else { "s" });
    }

    /// Appends the arcs of an identifier, joined by full stops.
    #[tactic(auto, using(crate::proofs::TextLemmas::arcs))]
    pub fn push_arcs(&mut self, arcs: Arcs<'_>)
        ensures { self.new ≡ kept (self.old ++ dotted (arcs_view arcs.entry)) }
    {
        let mut left = arcs;
        let Some(first) = left.next() else {
            return self.push_str("");
        };
        self.push_str(Buffer::new().format(first));
        for arc in left {
            if self.len() > MAX_WIDTH {
                return;
            }
            self.push_byte(b'.');
            self.push_str(Buffer::new().format(arc));
        }
        self.push_str("");
    }

    /// Appends characters; those that don't print in ASCII, `"` and `\` are escaped.
    #[tactic(auto, using(crate::proofs::LineLemmas::until_full))]
    pub fn push_characters(&mut self, characters: Characters<'_>)
        ensures { self.new ≡ kept (self.old ++ escaped_all (codes_of characters.entry)) }
    {
        for character in characters {
            if self.len() > MAX_WIDTH {
                return;
            }
            self.push_character(character);
        }
        self.push_str("");
    }

    /// Appends a character: as itself if it prints in ASCII, `"` and `\` after a `\`, and another
    /// one by its code, as `\u{E4}`.
    #[tactic(auto, using(crate::proofs::TextLemmas::characters))]
    fn push_character(&mut self, character: u32)
        ensures { self.new ≡ kept (self.old ++ escaped character) }
    {
        if character == 0x22 || character == 0x5C {
            self.push_bytes(&[b'\\', character as u8]);
        } else if character >= 0x20 && character <= 0x7E {
            self.push_byte(character as u8);
        } else {
            self.push_str("\\u{");
            self.push_code(character);
            self.push_byte(b'}');
        }
    }

    /// Appends a number in hexadecimal digits, without zeros in front.
    #[tactic(auto, using(crate::proofs::TextLemmas::characters))]
    fn push_code(&mut self, number: u32)
        ensures { self.new ≡ kept (self.old ++ digits 16 true number) }
    {
        if number >= 16 {
            self.push_code(number / 16);
        }
        let digit = (number % 16) as u8;
        self.push_byte(if digit < 10 {
            b'0' + digit
        } else {
            b'A' + (digit - 10)
        });
    }
}
