//! The report on an input: its lines, and the status that the program ends with.

ghost use Rattle.std.specs.Prelude.{◌≡◌, ◌<◌, ◌^◌, IfOk, MatchOption, string_bytes};
ghost use Rattle.sec1_inspect.specs.Report.{IsDerReport, IsKeyReport, IsNoKeyReport, IsPointText};
ghost use Rattle.sec1_inspect.specs.Report.{IsPublicPointText, IsRefusal, IsReport};
ghost use Rattle.sec1_inspect.specs.Report.{IsReportOnBytes};
ghost use Rattle.sec1_inspect.specs.Report.{IsTreeText, parameters_words, public_key_words};
ghost use Rattle.sec1_inspect.specs.Report.{stripped, tag_words};
ghost use Rattle.sec1.specs.Points.{Fits, IsEncoding};

use hex::{FromHexError, ToHex};
use sec1::point::Tag;
use sec1::{EcParameters, EcPrivateKey, EncodedPoint, der};
use std::alloc::{AllocError, Global};

/// The greatest length of an input in bytes.
pub const LIMIT: usize = 1_048_576;

/// The report on an input, and the status that the program ends with.
#[derive(Drop)]
pub struct Report {
    /// The lines.
    pub text: String,
    /// 0 for a key, 1 for anything else.
    pub status: u8,
}

/// Returns the report on an input in hexadecimal. Fails only if an allocation fails.
pub fn report_on_text(alloc: Global, input: &[u8]) -> Result<Report, AllocError>
    ensures { IfOk result (λ report. IsReport input.now (string_bytes report.text) report.status) }
{
    if input.len() > LIMIT {
        return refusal(alloc, "input too long", "no");
    }
    let digits = without_blanks(alloc, input)?;
    match hex::decode(alloc, digits.as_slice()) {
        Ok(bytes) => report_on_bytes(alloc, &bytes),
        Err(FromHexError::OutOfMemory) => Err(AllocError),
        Err(_) => refusal(alloc, "not hexadecimal", "no"),
    }
}

/// Returns the report on an input in DER. Fails only if an allocation fails.
pub fn report_on_der(alloc: Global, input: &[u8]) -> Result<Report, AllocError>
    ensures { IfOk result
        (λ report. IsDerReport input.now (string_bytes report.text) report.status) }
{
    if input.len() > LIMIT {
        return refusal(alloc, "input too long", "no");
    }
    report_on_bytes(alloc, input)
}

/// Returns the input without its spaces, tabs and ends of lines.
fn without_blanks(alloc: Global, input: &[u8]) -> Result<Vec<u8>, AllocError>
    ensures { IfOk result (λ digits. digits.items ≡ stripped input.now) }
{
    input
        .iter()
        .copied()
        .filter(|byte| !(*byte == b' ' || *byte == b'\t' || *byte == b'\r' || *byte == b'\n'))
        .collect(alloc)
}

/// Returns the report on bytes, which may be a key's.
fn report_on_bytes(alloc: Global, bytes: &[u8]) -> Result<Report, AllocError>
    ensures { IfOk result
        (λ report. IsReportOnBytes bytes.now (string_bytes report.text) report.status) }
{
    match EcPrivateKey::try_from(bytes) {
        Ok(key) => key_report(alloc, &key),
        Err(_) => no_key_report(alloc, bytes),
    }
}

/// Returns the report on bytes that aren't a key's.
fn no_key_report(alloc: Global, bytes: &[u8]) -> Result<Report, AllocError>
    ensures { IfOk result
        (λ report. IsNoKeyReport bytes.now (string_bytes report.text) report.status) }
{
    let tree = tree_text(alloc, bytes)?;
    refusal(alloc, "not an EC private key in DER", tree.as_str())
}

/// Returns the number of elements of the tree with these bytes, or `no`.
fn tree_text(alloc: Global, bytes: &[u8]) -> Result<String, AllocError>
    ensures { IfOk result (λ text. IsTreeText bytes.now (string_bytes text)) }
{
    match der::check_tree(bytes) {
        Ok(count) => format!(in alloc; "{count} elements"),
        Err(_) => "no".to_string(alloc),
    }
}

/// Returns the report on a refused input, with the reason and the words for its tree.
fn refusal(alloc: Global, reason: &str, tree: &str) -> Result<Report, AllocError>
    ensures { IfOk result
        (λ report. IsRefusal reason.now tree.now (string_bytes report.text) report.status) }
{
    let text = format!(in alloc; "refused: {reason}\ntree: {tree}\n")?;
    Ok(Report { text, status: 1 })
}

/// Returns the report on a key.
fn key_report(alloc: Global, key: &EcPrivateKey) -> Result<Report, AllocError>
    ensures { IfOk result (λ report. IsKeyReport key.now (string_bytes report.text) report.status) }
{
    let count = key.private_key.len();
    let parameters = parameters_text(alloc, key)?;
    let public_key = public_key_text(alloc, key)?;
    let point = point_text(alloc, key)?;
    let text = format!(in alloc;
        "private_key: {count} bytes\nparameters: {parameters}\npublic_key: {public_key}\npoint: {point}\n"
    )?;
    Ok(Report { text, status: 0 })
}

/// Returns the dotted text of the curve, or `none`.
fn parameters_text(alloc: Global, key: &EcPrivateKey) -> Result<String, AllocError>
    ensures { IfOk result (λ text. string_bytes text ≡ parameters_words key.now.parameters) }
{
    match key.parameters {
        Some(EcParameters::NamedCurve(curve)) => format!(in alloc; "{curve}"),
        None => "none".to_string(alloc),
    }
}

/// Returns the hexadecimal digits of the public key, `empty` or `none`.
fn public_key_text(alloc: Global, key: &EcPrivateKey) -> Result<String, AllocError>
    ensures { IfOk result (λ text. string_bytes text ≡ public_key_words key.now.public_key) }
{
    match key.public_key {
        Some([]) => "empty".to_string(alloc),
        Some(bytes) => bytes.encode_hex_upper(alloc),
        None => "none".to_string(alloc),
    }
}

/// Returns the words for the point that the public key encodes, at the first size at which it does,
/// or `none`.
fn point_text(alloc: Global, key: &EcPrivateKey) -> Result<String, AllocError>
    ensures { IfOk result (λ text. IsPublicPointText key.now.public_key (string_bytes text)) }
{
    let Some(bytes) = key.public_key else {
        return "none".to_string(alloc);
    };
    if let Some(text) = point_words::<28, 57>(alloc, bytes)? {
        return Ok(text);
    }
    if let Some(text) = point_words::<32, 65>(alloc, bytes)? {
        return Ok(text);
    }
    if let Some(text) = point_words::<48, 97>(alloc, bytes)? {
        return Ok(text);
    }
    if let Some(text) = point_words::<66, 133>(alloc, bytes)? {
        return Ok(text);
    }
    "none".to_string(alloc)
}

/// Returns the words for the point that the bytes encode at field elements of N bytes, if they
/// encode one.
fn point_words<const N: usize, const L: usize>(
    alloc: Global,
    bytes: &[u8],
) -> Result<Option<String>, AllocError>
    requires fits { Fits N L }
    requires size { L < 2 ^ 62 }
    ensures { IfOk result (λ words. MatchOption words (IsEncoding N bytes.now → ⊥) (λ text.
        IsPointText N bytes.now (string_bytes text))) }
{
    match EncodedPoint::<N, L>::from_bytes(bytes) {
        Ok(point) => Ok(Some(tag_text(alloc, point.tag(), N)?)),
        Err(_) => Ok(None),
    }
}

/// Returns the words for a point with this tag, for field elements of this many bytes.
fn tag_text(alloc: Global, tag: Tag, size: usize) -> Result<String, AllocError>
    ensures { IfOk result (λ text. string_bytes text ≡ tag_words size tag) }
{
    match tag {
        Tag::Identity => "identity".to_string(alloc),
        Tag::CompressedEvenY => format!(in alloc; "compressed even {size}"),
        Tag::CompressedOddY => format!(in alloc; "compressed odd {size}"),
        Tag::Uncompressed => format!(in alloc; "uncompressed {size}"),
        Tag::Compact => format!(in alloc; "compact {size}"),
        Tag::HybridEvenY => format!(in alloc; "hybrid even {size}"),
        Tag::HybridOddY => format!(in alloc; "hybrid odd {size}"),
    }
}
