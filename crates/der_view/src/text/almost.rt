//! Texts that are almost PEM or base64.
ghost use Rattle.std.specs.Prelude.{◌≡◌, ◌≤◌, ◌+◌, length, IfSome, option_map};
ghost use Rattle.der_view.specs.Almost.{armour_flaw, armour_of, armour_view, begin_armour};
ghost use Rattle.der_view.specs.Almost.{body_flaw, flaw_words, is_end_of, line_after};
ghost use Rattle.der_view.specs.Parts.{IsIn, almost_content, mended_content};
ghost use Rattle.der_view.specs.Encoded.{mended_bytes};

use super::encoded::strip;
use super::pem::{Sought, cut, has, labelled};
use super::{Encoding, Found};
use crate::plan::plan_of;
use crate::sentences::Sentence;
use base64::engine::general_purpose::STANDARD_NO_PAD;

/// What is wrong with a text that is almost PEM or base64.
#[derive(Clone, Copy)]
pub enum Flaw {
    /// Nothing.
    Nothing,
    /// Its ends of lines are written as a backslash and a letter.
    Escaped,
    /// It has digits of base64url (RFC 4648 section 5).
    Url,
    /// It has no line BEGIN.
    NoBegin,
    /// It has no ends of lines.
    OneLine,
    /// Its line BEGIN doesn't begin a line of the text: it is indented or quoted.
    Indented,
    /// Other characters than those of base64 are in it.
    Foreign,
}

/// What is said of such a text.
static FLAWS: [&str; 7] = [
    "",
    ", with \\n for line ends",
    ", in base64url",
    ", with no line BEGIN",
    ", with no line ends",
    ", indented or quoted",
    ", with other characters in it",
];

impl Flaw {
    /// Returns what is said of a text with this flaw.
    pub fn words(self) -> &'static str
        ensures { result.now ≡ flaw_words self }
    {
        FLAWS[self as usize]
    }
}

/// What is between the dashes of PEM that no line begins with, or before those of END.
#[derive(Clone, Copy)]
pub struct Armour<'a> {
    /// The number of the line with BEGIN, or else with END; that of the first line is 1.
    pub line: usize,
    /// The label.
    pub label: &'a [u8],
    /// What is between the dashes.
    pub body: &'a [u8],
    /// Whether BEGIN is there.
    pub has_begin: bool,
    /// Whether END is there, with the same label.
    pub has_end: bool,
}

/// Returns what is in a text that may be almost PEM or base64, or else that this is said.
#[tactic(auto, unfolding(crate::specs::Parts::almost_content))]
pub(super) fn find_almost(text: &[u8], said: Sentence, digits: &mut [u8], bytes: &mut [u8]) -> Found
    requires digits { length text.now ≤ length digits.old }
    requires bytes { length text.now + 2 ≤ length bytes.old }
    ensures { IsIn bytes.new result (almost_content text.now said) }
{
    match armour_of(text) {
        Some(armour) => find_mended(
            armour.body,
            Encoding::Pem,
            armour_flaw(&armour),
            said,
            digits,
            bytes,
        ),
        None => find_mended(text, Encoding::Base64, Flaw::Foreign, said, digits, bytes),
    }
}

/// Returns what is in a body that is almost base64, if one whole element results, or else that this
/// is said. `flaw` is what is wrong with it, if it is neither escaped nor base64url.
#[tactic(auto, unfolding(crate::specs::Encoded::mended_bytes))]
pub(super) fn find_mended(
    body: &[u8],
    encoding: Encoding,
    flaw: Flaw,
    said: Sentence,
    digits: &mut [u8],
    bytes: &mut [u8],
) -> Found
    requires digits { length body.now ≤ length digits.old }
    requires bytes { length body.now + 2 ≤ length bytes.old }
    ensures { IsIn bytes.new result
        (mended_content encoding (body_flaw body.now flaw) said (mended_bytes body.now)) }
{
    let count = strip(body, true, digits);
    match STANDARD_NO_PAD.decode_slice_unchecked(&digits[..count], bytes) {
        Ok(len) if plan_of(&bytes[..len]).is_tree => {
            Found::Decoded(encoding, body_flaw(body, flaw), len)
        }
        _ => Found::Said(said),
    }
}

/// Returns what is wrong with a body that is almost base64, or else this.
#[tactic(auto, unfolding(crate::specs::Almost::body_flaw))]
fn body_flaw(body: &[u8], other: Flaw) -> Flaw
    ensures { result ≡ body_flaw body.now other }
{
    if has(body, Sought::Bytes(b"\\n")) || has(body, Sought::Bytes(b"\\r")) {
        Flaw::Escaped
    } else if body.contains(&b'-') || body.contains(&b'_') {
        Flaw::Url
    } else {
        other
    }
}

/// Returns what is wrong with PEM that no line begins with, if its body is base64.
fn armour_flaw(armour: &Armour) -> Flaw
    ensures { result ≡ armour_flaw (armour_view armour.now) }
{
    if !armour.has_begin {
        Flaw::NoBegin
    } else if armour.body.contains(&b'\n') || armour.body.contains(&b'\r') {
        Flaw::Indented
    } else {
        Flaw::OneLine
    }
}

/// Returns what is between the first BEGIN of a text and the next five dashes, or before its first
/// END; `None` if it has neither, or one without a label.
#[tactic(auto, unfolding(crate::specs::Almost::armour_of))]
pub fn armour_of(text: &[u8]) -> Option<Armour>
    ensures value { option_map armour_view result ≡ armour_of text.now }
    ensures within { IfSome result (λ armour. length armour.body.now ≤ length text.now) }
{
    let (before, begin) = cut(text, true, Sought::Bytes(b"-----BEGIN "));
    if !begin.is_empty() {
        return begin_armour(line_after(before), begin);
    }
    let (body, end) = cut(text, true, Sought::Bytes(b"-----END "));
    let (label, _) = labelled(b"END ", end)?;
    Some(Armour {
        line: line_after(body),
        label,
        body,
        has_begin: false,
        has_end: true,
    })
}

/// Returns what is between a BEGIN, with which the text begins in this line, and the next five
/// dashes.
#[tactic(auto, unfolding(crate::specs::Almost::begin_armour))]
fn begin_armour(line: usize, begin: &[u8]) -> Option<Armour>
    ensures value { option_map armour_view result ≡ begin_armour line begin.now }
    ensures within { IfSome result (λ armour. length armour.body.now ≤ length begin.now) }
{
    let (label, inside) = labelled(b"BEGIN ", begin)?;
    let (body, end) = cut(inside, true, Sought::Bytes(b"-----"));
    Some(Armour {
        line,
        label,
        body,
        has_begin: true,
        has_end: is_end_of(end, label),
    })
}

/// Returns the number of the line that begins last in a text, or after it; that of the first is 1.
fn line_after(text: &[u8]) -> usize
    ensures { result ≡ line_after text.now }
{
    text.iter().filter(|byte| **byte == b'\n').count() + 1
}

/// Returns `true` if a text begins with an END of this label.
fn is_end_of(text: &[u8], label: &[u8]) -> bool
    ensures { result ≡ is_end_of text.now label.now }
{
    match text.strip_prefix(b"-----END ".as_slice()) {
        Some(rest) => cut(rest, true, Sought::Bytes(b"-----")).0 == label,
        None => false,
    }
}
