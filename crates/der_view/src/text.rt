//! What an input is: DER, or a text that encodes some.
ghost use Rattle.std.specs.Prelude.{◌≡◌, ◌<◌, ◌≤◌, ◌+◌, ◌*◌, ◌-◌, ◌^◌, [], ◌∷◌, List, length, min};
ghost use Rattle.std.specs.Prelude.{MatchOption};
ghost use Rattle.std.specs.List.{list_all};
ghost use Rattle.der_view.specs.Blocks.{block_view};
ghost use Rattle.der_view.specs.Parts.{IsIn, base64_content, block_content, content_of};
ghost use Rattle.der_view.specs.Parts.{decoded_len, dump_note, hex_content, is_json, note_of};
ghost use Rattle.der_view.specs.Parts.{openssh_note, putty_note};
ghost use Rattle.der_view.specs.Sources.{SourceView, blocks_or, has_begin, is_der, is_raw_len};
ghost use Rattle.der_view.specs.Sources.{is_text, is_text_byte, source_len, source_view};
ghost use Rattle.der_view.specs.Sources.{sources_left, sources_of, text_len, wide_note};

mod almost;
mod encoded;
mod pem;

use crate::plan::plan_of;
use crate::sentences::Sentence;
pub use almost::{Armour, Flaw, armour_of};
use almost::{find_almost, find_mended};
use der_types::kind::{Kind, Utf8String};
use encoded::{base64_into, hex_into};
pub use pem::Block;
use pem::{Sought, cut, has, next_block, trimmed_start};
use std::marker::Model;

/// How bytes are encoded in an input.
#[derive(Clone, Copy)]
pub enum Encoding {
    /// In PEM (RFC 7468).
    Pem,
    /// In hexadecimal digits.
    Hexadecimal,
    /// In base64 without armour (RFC 4648 section 4).
    Base64,
}

/// A part of an input that one picture is drawn of.
#[derive(Clone, Copy)]
pub enum Source<'a> {
    /// The input, which is no text, or is one whole element.
    Der(&'a [u8]),
    /// A block of PEM.
    Pem {
        /// The block.
        block: Block<'a>,
        /// Whether OpenSSL reads its key: it reads the first one of a file.
        is_read: bool,
    },
    /// The input, a text with no block of PEM.
    Text(&'a [u8]),
    /// The input, a text of two or four bytes a character, of which this is said.
    Wide(Sentence),
}

/// What is in a source.
#[derive(Clone, Copy)]
pub enum Found {
    /// Bytes, as they are in the source.
    Itself,
    /// As many bytes, which were decoded, and what is wrong with their text.
    Decoded(Encoding, Flaw, usize),
    /// No bytes, but this is said.
    Said(Sentence),
}

impl Found {
    /// Returns the number of bytes that were decoded.
    pub fn decoded_len(&self) -> usize
        ensures { result ≡ decoded_len self.now }
    {
        match self {
            Found::Decoded(_, _, len) => *len,
            _ => 0,
        }
    }
}

/// The sources of an input that are still to come, in order. A contract sees them.
#[derive(Drop)]
pub struct Sources<'a> {
    /// The text whose blocks of PEM are still to come.
    rest: &'a [u8],
    /// Whether a line begins with it.
    starts: bool,
    /// The number of lines that begin before it.
    number: usize,
    /// Whether OpenSSL reads the next key.
    reads: bool,
    /// The source that there is if there is no block.
    other: Option<Source<'a>>,
}

impl<'a> Model for Sources<'a> {
    ghost Value = { List SourceView };

    ghost view = { λ sources. sources_left sources.other sources.reads sources.starts
        sources.number sources.rest.now };

    ghost invariant = { λ sources. sources.number + length sources.rest.now < 2 ^ 64 };
}

/// Returns the number of bytes of memory that decoding an input needs: twice the length of one that
/// may have a text, and 2.
pub fn room_len(input: &[u8]) -> usize
    ensures { result ≡ min (2 * text_len input.now + 2) (2 ^ 64 - 1) }
{
    text_len(input).saturating_mul(2).saturating_add(2)
}

/// Returns the length of an input that is a text, or that `-----BEGIN ` is in; 0 for any other.
pub fn text_len(input: &[u8]) -> usize
    ensures { result ≡ text_len input.now }
{
    if is_text(input) || has_begin(input) {
        input.len()
    } else {
        0
    }
}

/// Returns `true` if the input is a text: UTF-8 with no control character but the tab, the line
/// feed and the carriage return, and not empty.
#[tactic(auto, unfolding(crate::specs::Sources::is_text))]
fn is_text(input: &[u8]) -> bool
    ensures { result ≡ is_text input.now }
{
    !input.is_empty() && has_no_controls(input) && Utf8String::test(input)
}

/// Returns `true` if no byte is a control character but the tab, the line feed and the carriage
/// return.
fn has_no_controls(input: &[u8]) -> bool
    ensures { result ≡ list_all is_text_byte input.now }
{
    input.iter().all(|byte| *byte >= 0x20 || matches!(byte, b'\t' | b'\n' | b'\r'))
}

/// Returns `true` if `-----BEGIN ` is in the input, with which a block of PEM begins.
#[tactic(auto, unfolding(crate::specs::Sources::has_begin))]
fn has_begin(input: &[u8]) -> bool
    ensures { result ≡ has_begin input.now }
{
    has(input, Sought::Bytes(b"-----BEGIN "))
}

/// Returns `true` if the input is DER: all of a form of the table, or one whole element and no
/// text.
#[tactic(auto, unfolding(crate::specs::Sources::is_der))]
fn is_der(input: &[u8]) -> bool
    ensures { result ≡ is_der input.now }
{
    let plan = plan_of(input);
    plan.is_whole || (plan.is_tree && !is_text(input))
}

/// Returns what is said of an input that begins as a text of two or four bytes a character does;
/// `None` of any other, and of one as long as a raw private key.
#[tactic(auto, unfolding(crate::specs::Sources::wide_note))]
fn wide_note(input: &[u8]) -> Option<Sentence>
    ensures { result ≡ wide_note input.now }
{
    if is_raw_len(input.len()) {
        return None;
    }
    if input.starts_with(&[0xFF, 0xFE, 0, 0]) || input.starts_with(&[0, 0, 0xFE, 0xFF]) {
        Some(Sentence::Utf32)
    } else if input.starts_with(&[0xFF, 0xFE]) || input.starts_with(&[0xFE, 0xFF]) {
        Some(Sentence::Utf16)
    } else if input.starts_with(b"-\0-\0") || input.starts_with(b"\0-\0-") {
        Some(Sentence::Utf16)
    } else {
        None
    }
}

/// Returns `true` if a raw private key may have so many bytes.
pub(crate) fn is_raw_len(len: usize) -> bool
    ensures { result ≡ is_raw_len len }
{
    matches!(len, 28 | 32 | 48 | 66)
}

impl<'a> Sources<'a> {
    /// Returns the sources of an input, of which there is at least one.
    #[tactic(auto, unfolding(crate::specs::Sources::sources_of))]
    pub fn new(input: &'a [u8]) -> Sources<'a>
        ensures { result ≡ sources_of input.now }
    {
        if is_der(input) {
            return Sources::of(&[], Source::Der(input));
        }
        if is_text(input) {
            let text = input.strip_prefix(b"\xEF\xBB\xBF").unwrap_or(input);
            return Sources::of(text, Source::Text(text));
        }
        match wide_note(input) {
            Some(note) => Sources::of(&[], Source::Wide(note)),
            None if has_begin(input) => Sources::of(input, Source::Der(input)),
            None => Sources::of(&[], Source::Der(input)),
        }
    }

    /// Returns the blocks of PEM in a text, or if it has none, this source.
    fn of(text: &'a [u8], other: Source<'a>) -> Sources<'a>
        ensures { result ≡ blocks_or (source_view other.entry) text.now }
    {
        Sources {
            rest: text,
            starts: true,
            number: 0,
            // OpenSSL reads no lines that end in a carriage return alone.
            reads: text.contains(&b'\n'),
            other: Some(other),
        }
    }

    /// Returns the next source; `None`, changing nothing, after the last one.
    #[tactic(auto, using(crate::proofs::SourceLemmas::or_front))]
    pub fn next_source(&mut self) -> Option<Source<'a>>
        ensures { MatchOption result ((self.old ≡ []) × (self.new ≡ self.old))
            (λ source. self.old ≡ source_view source ∷ self.new) }
    {
        let Some((block, rest)) = next_block(self.rest, self.starts, self.number) else {
            let other = self.other?;
            self.other = None;
            return Some(other);
        };
        let is_read = self.reads & block.is_key_of_openssl();
        self.other = None;
        self.rest = rest;
        self.starts = false;
        self.number = block.line;
        self.reads &= !block.is_of_private_key();
        Some(Source::Pem { block, is_read })
    }
}

impl<'a> Source<'a> {
    /// Returns the number of bytes of text that are decoded of the source.
    pub fn text_len(&self) -> usize
        ensures { result ≡ source_len (source_view self.now) }
    {
        match self {
            Source::Pem { block, .. } => block.body.len(),
            Source::Text(text) => text.len(),
            Source::Der(_) | Source::Wide(_) => 0,
        }
    }

    /// Returns what is in the source. Bytes that are encoded are decoded into the front of `bytes`;
    /// `digits` is memory for their digits.
    #[tactic(auto, unfolding(crate::specs::Parts::text_content))]
    pub fn find(&self, digits: &mut [u8], bytes: &mut [u8]) -> Found
        requires digits { source_len (source_view self.now) ≤ length digits.old }
        requires bytes { source_len (source_view self.now) + 2 ≤ length bytes.old }
        ensures { IsIn bytes.new result (content_of (source_view self.now)) }
    {
        match self {
            Source::Der(_) => Found::Itself,
            Source::Pem { block, is_read } => find_in_block(block, *is_read, digits, bytes),
            Source::Text(text) => match dump_note(*text) {
                Some(note) => Found::Said(note),
                None => find_in_text(*text, digits, bytes),
            },
            Source::Wide(note) => Found::Said(*note),
        }
    }
}

/// Returns what is in a block of PEM, whose bytes are decoded into `bytes`.
#[tactic(auto, unfolding(crate::specs::Parts::block_content))]
fn find_in_block(block: &Block, is_read: bool, digits: &mut [u8], bytes: &mut [u8]) -> Found
    requires digits { length block.now.body.now ≤ length digits.old }
    requires bytes { length block.now.body.now + 2 ≤ length bytes.old }
    ensures { IsIn bytes.new result (block_content (block_view block.now) is_read) }
{
    if block.label.starts_with(b"PGP ") {
        return Found::Said(Sentence::Pgp);
    }
    if block.is_encrypted {
        let is_key = is_read && block.label == b"EC PRIVATE KEY".as_slice();
        return Found::Said(if is_key {
            Sentence::EncryptedEcKey
        } else {
            Sentence::EncryptedBlock
        });
    }
    let body = block.body;
    match base64_into(body, digits, bytes) {
        Some(len) if block.label == b"OPENSSH PRIVATE KEY".as_slice() => {
            Found::Said(openssh_note(body, &bytes[..len]))
        }
        Some(len) => Found::Decoded(Encoding::Pem, Flaw::Nothing, len),
        None => find_mended(
            body,
            Encoding::Pem,
            Flaw::Foreign,
            Sentence::NoBase64,
            digits,
            bytes,
        ),
    }
}

/// Returns what is said of a key in OpenSSH's own form: its body in base64, and its bytes.
#[tactic(auto, unfolding(crate::specs::Parts::openssh_note))]
fn openssh_note(body: &[u8], bytes: &[u8]) -> Sentence
    ensures { result ≡ openssh_note body.now bytes.now }
{
    if has(bytes, Sought::Bytes(b"ssh-ed25519")) {
        Sentence::OpensshEdwards
    } else if body.contains(&b'\r') {
        Sentence::OpensshCarriage
    } else {
        Sentence::Openssh
    }
}

/// Returns what is in a text with no block of PEM, whose bytes are decoded into `bytes`.
#[tactic(auto, unfolding(crate::specs::Parts::hex_content))]
fn find_in_text(text: &[u8], digits: &mut [u8], bytes: &mut [u8]) -> Found
    requires digits { length text.now ≤ length digits.old }
    requires bytes { length text.now + 2 ≤ length bytes.old }
    ensures { IsIn bytes.new result (hex_content text.now) }
{
    match hex_into(text, digits, bytes) {
        Some(len) if len > 0 => Found::Decoded(Encoding::Hexadecimal, Flaw::Nothing, len),
        _ => find_in_base64(text, digits, bytes),
    }
}

/// Returns what is in a text that is no hexadecimal, whose bytes are decoded into `bytes`.
#[tactic(auto, unfolding(crate::specs::Parts::base64_content))]
fn find_in_base64(text: &[u8], digits: &mut [u8], bytes: &mut [u8]) -> Found
    requires digits { length text.now ≤ length digits.old }
    requires bytes { length text.now + 2 ≤ length bytes.old }
    ensures { IsIn bytes.new result (base64_content text.now) }
{
    match base64_into(text, digits, bytes) {
        Some(len) if len > 0 => Found::Decoded(Encoding::Base64, Flaw::Nothing, len),
        _ => find_almost(text, note_of(text), digits, bytes),
    }
}

/// Returns what is said of a text that begins as the output of xxd and its like does.
#[tactic(auto, unfolding(crate::specs::Parts::dump_note))]
fn dump_note(text: &[u8]) -> Option<Sentence>
    ensures { result ≡ dump_note text.now }
{
    if text.starts_with(b"00000000:") {
        Some(Sentence::Xxd)
    } else if text.starts_with(b"0000000")
        || text.starts_with(b"0000 ")
        || text.starts_with(b"0000\t")
    {
        Some(Sentence::Dump)
    } else {
        None
    }
}

/// Returns what is said of a text that encodes nothing.
#[tactic(auto, unfolding(crate::specs::Parts::note_of))]
fn note_of(text: &[u8]) -> Sentence
    ensures { result ≡ note_of text.now }
{
    if text.starts_with(b"PuTTY-User-Key-File-") {
        putty_note(cut(text, false, Sought::Line(b"")).0)
    } else if text.starts_with(b"ssh-")
        || text.starts_with(b"ecdsa-sha2-")
        || text.starts_with(b"sk-")
    {
        Sentence::Ssh
    } else if is_json(text) {
        Sentence::Json
    } else {
        Sentence::Text
    }
}

/// Returns what is said of a key of PuTTY with this first line.
#[tactic(auto, unfolding(crate::specs::Parts::putty_note))]
fn putty_note(line: &[u8]) -> Sentence
    ensures { result ≡ putty_note line.now }
{
    if has(line, Sought::Bytes(b"ssh-ed25519")) || has(line, Sought::Bytes(b"ssh-ed448")) {
        Sentence::PuttyEdwards
    } else {
        Sentence::Putty
    }
}

/// Returns `true` if the text begins as an object of JSON with a member does (RFC 8259 section 4).
fn is_json(text: &[u8]) -> bool
    ensures { result ≡ is_json text.now }
{
    match trimmed_start(text) {
        [b'{', rest @ ..] => trimmed_start(rest).starts_with(b"\""),
        _ => false,
    }
}
