//! The types of X.680.
ghost use Rattle.std.specs.Prelude.{◌≡◌, ◌++◌};
ghost use Rattle.der_view.specs.Lines.{kept};
ghost use Rattle.der_view.specs.Types.{type_name, type_word};

use crate::header::{Class, Tag};
use crate::line::Line;
use crate::words::text_at;

/// The names of the types by their tag numbers (X.680 section 8.4, table 1).
#[rattlefmt::skip]
static TYPES: [&str; 31] = [
    "", "BOOLEAN", "INTEGER", "BIT STRING", "OCTET STRING", "NULL", "OBJECT IDENTIFIER",
    "ObjectDescriptor", "EXTERNAL", "REAL", "ENUMERATED", "EMBEDDED PDV", "UTF8String",
    "RELATIVE-OID", "TIME", "", "SEQUENCE", "SET", "NumericString", "PrintableString",
    "TeletexString", "VideotexString", "IA5String", "UTCTime", "GeneralizedTime", "GraphicString",
    "VisibleString", "GeneralString", "UniversalString", "CHARACTER STRING", "BMPString",
];

/// What stands before a tag number for its class (X.690 section 8.1.2.2), in the order of
/// [`Class`].
static CLASSES: [&str; 4] = ["UNIVERSAL ", "APPLICATION ", "", "PRIVATE "];

/// Returns the name of the type of X.680 with this tag number; nothing if it has none.
#[tactic(auto, unfolding(crate::specs::Types::type_word))]
pub fn type_word(number: u32) -> &'static str
    ensures { result.now ≡ type_word number }
{
    text_at(&TYPES, number as usize)
}

impl Line {
    /// Appends the name of the type with this tag: that of X.680, or else the class and the number
    /// in brackets.
    #[tactic(auto, using(crate::proofs::LineLemmas::kept_pieces), unfolding(crate::specs::Types::class_name))]
    pub fn push_type(&mut self, tag: Tag)
        ensures { self.new ≡ kept (self.old ++ type_name tag) }
    {
        let name = type_word(tag.number);
        if tag.is_universal(tag.number) && !name.is_empty() {
            self.push_str(name);
        } else {
            self.push_str("[");
            self.push_str(CLASSES[tag.class as usize]);
            self.push_decimal(tag.number as usize);
            self.push_str("]");
        }
    }
}
