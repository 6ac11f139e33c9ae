//! What is said of bytes, by what is known of them.
ghost use Rattle.std.specs.Prelude.{◌≡◌, ◌++◌, is_some, map};
ghost use Rattle.der_view.specs.Lines.{kept};
ghost use Rattle.der_view.specs.Names.{name_by};
ghost use Rattle.der_view.specs.Said.{advice_of, begun_words, curve_by, first_words};
ghost use Rattle.der_view.specs.Said.{identifier_text, is_ec, is_fit, is_legacy, is_plain_form};
ghost use Rattle.der_view.specs.Said.{is_repaired, key_lens, misfit_words, none_words};
ghost use Rattle.der_view.specs.Said.{piece_text, point_lens, said_of, sentence_text, whole_words};
ghost use Rattle.der_view.specs.Arcs.{arcs_by};

use crate::grammar::Name;
use crate::known::{Known, form_name};
use crate::line::Line;
use crate::names::name_of;
use crate::plan::Plan;
use crate::sentences::{Advice, Reading, byte_at, form_words};
use crate::text::is_raw_len;
use crate::values::Arcs;
use curves::Curve;

/// The content of ecPublicKey (RFC 5480 section 2.1.1).
const EC_PUBLIC_KEY: [u8; 7] = [0x2A, 0x86, 0x48, 0xCE, 0x3D, 0x02, 0x01];

/// The content of SHA-1 (RFC 8017 appendix B.1).
const SHA1: [u8; 5] = [0x2B, 0x0E, 0x03, 0x02, 0x1A];

/// Returns what is said of bytes, which are a key's or not, a sentence a line: what they are; that
/// the length of their private key, or of their point, isn't that of their curve; what a command
/// does, and the command. A line that isn't there is empty. `file` is what is said of how they
/// begin, if they are no DER.
#[tactic(auto, unfolding(crate::specs::Said::said_of))]
pub(crate) fn said_of(
    is_key: bool,
    reading: Reading,
    file: &'static str,
    known: &Known,
) -> [&'static str; 5]
    ensures { map (λ sentence. sentence.now) result ≡ said_of is_key reading file.now known.now }
{
    let advice = advice_of(is_key, known);
    [
        first_words(is_key, reading, file, known),
        misfit_words(key_lens(known), "Its private key has %k, where %n has %o."),
        misfit_words(point_lens(known), "Its point has %p, where %n has %q."),
        advice.words(reading),
        advice.command(reading),
    ]
}

/// Returns a sentence on a length that isn't that of a curve; nothing if it is.
fn misfit_words(lens: (usize, usize), sentence: &'static str) -> &'static str
    ensures { result.now ≡ misfit_words lens sentence.now }
{
    if lens.0 == lens.1 { "" } else { sentence }
}

/// Returns what bytes are.
#[tactic(auto, unfolding(crate::specs::Said::first_words))]
fn first_words(is_key: bool, reading: Reading, file: &'static str, known: &Known) -> &'static str
    ensures { result.now ≡ first_words is_key reading file.now known.now }
{
    match known.plan.form {
        _ if is_key && known.has_curve => "This is an EC private key (RFC 5915)%c.",
        _ if is_key => "This is an EC private key (RFC 5915), with no curve named.",
        None => none_words(reading, file, known.plan),
        Some(form) if known.plan.is_whole && !form.0.3.is(Name::EcPrivateKey) => {
            whole_words(known)
        }
        Some(_) => begun_words(known),
    }
}

/// Returns what bytes of no form are.
#[tactic(auto, unfolding(crate::specs::Said::none_words))]
fn none_words(reading: Reading, file: &'static str, plan: Plan) -> &'static str
    ensures { result.now ≡ none_words reading file.now plan }
{
    match (plan.len, reading) {
        (0, Reading::Der) => "The input is empty.",
        (0, _) => "The block is empty.",
        _ if plan.is_tree => "This is no EC private key (RFC 5915).",
        (len, _) if is_raw_len(len) => "These are %l bytes, as of a raw private key: no DER.",
        _ if !file.is_empty() => file,
        (1, _) => "This is 1 byte: no DER.",
        _ => "These are %l bytes: no DER.",
    }
}

/// Returns what bytes are that are all of a form.
#[tactic(auto, unfolding(crate::specs::Said::whole_words))]
fn whole_words(known: &Known) -> &'static str
    ensures { result.now ≡ whole_words known.now }
{
    let curve = known.curve.as_bytes();
    let is_named = is_named(curve);
    let is_curve = curve_of(curve).is_some();
    match form_name(known.plan.form) {
        Name::NamedCurve if is_named && is_curve => {
            "This names the curve %n: it has no private key."
        }
        Name::NamedCurve if is_named => "This names %n: it has no private key.",
        Name::PrivateKeyInfo if !is_ec(known) => {
            "This is PKCS #8 (RFC 5958) with another key%a. It has no EC key."
        }
        name => form_words(name).1,
    }
}

/// Returns what bytes are that aren't all of their form: for which version, how many of how many
/// are there, or where the first mark is.
#[tactic(auto, unfolding(crate::specs::Said::begun_words))]
fn begun_words(known: &Known) -> &'static str
    ensures { result.now ≡ begun_words known.now }
{
    match known.plan.is_cut {
        _ if known.plan.is_whole && known.version.unwrap_or(1) != 1 => "%b%f: its version is %v.",
        true if known.root_len.is_some() => "%b%f: %l of %r bytes are there.",
        false if known.marked.is_some() => "%b%f: see offset %m.",
        _ => "%b%f.",
    }
}

impl Line {
    /// Appends the rest of a sentence, in which `%` and a letter stand for what is known. It begins
    /// with such a letter or not.
    #[tactic(auto, using(crate::proofs::LineLemmas::kept_pieces))]
    pub(crate) fn push_sentence(&mut self, is_letter: bool, sentence: &[u8], known: &Known)
        ensures { self.new ≡ kept (self.old ++ sentence_text known.now is_letter sentence.now) }
    {
        let Some((byte, rest)) = sentence.split_first() else {
            return self.push_str("");
        };
        self.push_piece(is_letter, *byte, known);
        self.push_sentence(!is_letter & (*byte == b'%'), rest, known);
    }

    /// Appends what a letter stands for, or a character but `%` as it is.
    fn push_piece(&mut self, is_letter: bool, byte: u8, known: &Known)
        ensures { self.new ≡ kept (self.old ++ piece_text known.now is_letter byte) }
    {
        let curve = known.curve.as_bytes();
        let algorithm = known.algorithm.as_bytes();
        match byte {
            b'%' if !is_letter => self.push_str(""),
            _ if !is_letter => self.push_byte(byte),
            b'a' => self.push_identifier(": ", ": ", "", algorithm),
            b'b' if form_name(known.plan.form).is(Name::EcPrivateKey) => self.push_str(
                "This is no ",
            ),
            b'b' => self.push_str("This begins as "),
            b'c' => self.push_identifier(" on ", " on the curve ", " on another curve", curve),
            b'n' => self.push_identifier("", "", "", curve),
            b'f' => self.push_str(form_words(form_name(known.plan.form)).0),
            b'k' => self.push_bytes_of(key_lens(known).0),
            b'p' => self.push_bytes_of(point_lens(known).0),
            b'l' => self.push_decimal(known.plan.len),
            b'm' => self.push_decimal(known.marked.unwrap_or(0)),
            b'o' => self.push_decimal(key_lens(known).1),
            b'q' => self.push_decimal(point_lens(known).1),
            b'r' => self.push_decimal(known.root_len.unwrap_or(0)),
            _ => self.push_decimal(usize::from(known.version.unwrap_or(0))),
        }
    }

    /// Appends the name of an identifier, its dotted text or neither, each after a text of its own.
    #[tactic(auto, using(crate::proofs::LineLemmas::kept_pieces))]
    fn push_identifier(&mut self, named: &str, numbered: &str, other: &str, content: &[u8])
        ensures { self.new ≡ kept (self.old ++ identifier_text named.now numbered.now other.now
            (name_by content.now) (arcs_by content.now)) }
    {
        match (name_of(content), Arcs::new(content)) {
            (Some(name), _) => {
                self.push_str(named);
                self.push_bytes(name);
            }
            (None, Some(arcs)) => {
                self.push_str(numbered);
                self.push_arcs(arcs);
            }
            (None, None) => self.push_str(other),
        }
    }
}

/// Returns `true` if the first algorithm is ecPublicKey.
fn is_ec(known: &Known) -> bool
    ensures { result ≡ is_ec known.now }
{
    known.algorithm.as_bytes() == EC_PUBLIC_KEY.as_slice()
}

/// Returns `true` if the identifier with this content has a name.
fn is_named(content: &[u8]) -> bool
    ensures { result ≡ is_some (name_by content.now) }
{
    name_of(content).is_some()
}

/// Returns the curve with this content of its identifier.
#[tactic(auto, unfolding(crate::specs::Said::curve_by))]
fn curve_of(content: &[u8]) -> Option<Curve>
    ensures { result ≡ curve_by content.now }
{
    Curve::ALL
        .iter()
        .copied()
        .find(|curve| curve.content() == content)
}

/// Returns the length of a private key, and the length that its curve has: of the order, which has
/// a bit more than the field on four curves (SEC 2 version 1.0 section 2.4 and version 2.0 section
/// 2.3.1). Twice 0 where one of them isn't known.
#[tactic(auto, unfolding(crate::specs::Said::key_lens))]
fn key_lens(known: &Known) -> (usize, usize)
    ensures { result ≡ key_lens known.now }
{
    match (curve_of(known.curve.as_bytes()), known.key_len) {
        (Some(Curve::Secp160k1 | Curve::Secp160r1 | Curve::Secp160r2), Some(len)) => (len, 21),
        (Some(Curve::Secp224k1), Some(len)) => (len, 29),
        (Some(curve), Some(len)) => (len, curve.field_len()),
        _ => (0, 0),
    }
}

/// Returns the length of the coordinates of a point, and the length that its curve has (SEC1 v2.0
/// section 2.3.3). Twice 0 where one of them isn't known.
#[tactic(auto, unfolding(crate::specs::Said::point_lens))]
fn point_lens(known: &Known) -> (usize, usize)
    ensures { result ≡ point_lens known.now }
{
    match (curve_of(known.curve.as_bytes()), known.point) {
        (Some(curve), Some((len, _, 0x02 | 0x03))) => (len.saturating_sub(2), curve.field_len()),
        (Some(curve), Some((len, _, form))) if is_plain_form(form) => {
            (len.saturating_sub(2), curve.field_len().saturating_mul(2))
        }
        _ => (0, 0),
    }
}

/// Returns `true` if a point with this form is compressed, uncompressed or hybrid.
fn is_plain_form(form: u8) -> bool
    ensures { result ≡ is_plain_form form }
{
    matches!(form, 0x02 | 0x03 | 0x04 | 0x06 | 0x07)
}

/// Returns the command that helps with bytes, which are a key's or not. Of a key that is read, the
/// only one makes DER of PEM.
#[tactic(auto, unfolding(crate::specs::Said::advice_of))]
fn advice_of(is_key: bool, known: &Known) -> Advice
    ensures { result ≡ advice_of is_key known.now }
{
    let algorithm = known.algorithm.as_bytes();
    let is_named = is_named(known.curve.as_bytes());
    match form_name(known.plan.form) {
        _ if known.is_damaged || !is_fit(known) => Advice::Nothing,
        _ if is_key && is_named => Advice::Pem,
        _ if is_key => Advice::Nothing,
        Name::EncryptedPrivateKeyInfo if is_legacy(algorithm) => Advice::Legacy,
        Name::EncryptedPrivateKeyInfo => Advice::Encrypted,
        // its MAC is of SHA-1
        Name::Pfx if algorithm == SHA1.as_slice() => Advice::LegacyPkcs12,
        Name::Pfx => Advice::Pkcs12,
        _ if !is_repaired(known) => Advice::Nothing,
        _ if known.is_explicit => Advice::Named,
        _ if is_named => Advice::Der,
        _ => Advice::Nothing,
    }
}

/// Returns `true` if the lengths fit the curve, as far as that is known, and the point has no
/// unused bits, and a form that OpenSSL reads.
fn is_fit(known: &Known) -> bool
    ensures { result ≡ is_fit known.now }
{
    let key = key_lens(known);
    let point = point_lens(known);
    let (_, unused, form) = known.point.unwrap_or((0, 0, 0x04));
    key.0 == key.1 && point.0 == point.1 && unused == 0 && is_plain_form(form)
}

/// Returns `true` if OpenSSL makes a key of bytes of their form.
fn is_repaired(known: &Known) -> bool
    ensures { result ≡ is_repaired known.now }
{
    match form_name(known.plan.form) {
        Name::EcPrivateKey => known.version.unwrap_or(0) == 1,
        Name::PrivateKeyInfo => {
            is_ec(known) && !known.has_public && (known.has_inner || known.is_explicit)
        }
        _ => false,
    }
}

/// Returns `true` if this is the content of an encryption as before 2000 (RFC 8018 appendix A.3,
/// RFC 7292 appendix C).
fn is_legacy(content: &[u8]) -> bool
    ensures { result ≡ is_legacy content.now }
{
    (content.starts_with(&[0x2A, 0x86, 0x48, 0x86, 0xF7, 0x0D, 0x01, 0x05])
        && byte_at(content, 8) < 0x0D)
        || (content.starts_with(&[0x2A, 0x86, 0x48, 0x86, 0xF7, 0x0D, 0x01, 0x0C, 0x01])
            && !(byte_at(content, 9) == 3 || byte_at(content, 9) == 4))
}
