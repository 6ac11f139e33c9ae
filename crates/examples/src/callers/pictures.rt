//! Pictures of any input, by `der_view`: its sources, its text, its rows, and what is a key.
ghost use Rattle.std.specs.Prelude.{◌≡◌, ◌≤◌, ◌+◌, ◌∷◌, [], List, ℕ, Bool, true, false, length};
ghost use Rattle.std.specs.Prelude.{◌++◌, IfOk, IsSomeAnd, OnOk};
ghost use Rattle.std.specs.List.{All};
ghost use Rattle.sec1.specs.Keys.{IsKeyOf, Key};
ghost use Rattle.der_view.specs.Drawings.{has_key, is_key_of, picture_text};
ghost use Rattle.der_view.specs.Headers.{max_content_len};
ghost use Rattle.der_view.specs.Lines.{IsLine, shown};
ghost use Rattle.der_view.specs.Masks.{AreAlike};
ghost use Rattle.der_view.specs.Pictures.{picture, plan_of};
ghost use Rattle.der_view.specs.Printing.{rows_lines, rows_text};
ghost use Rattle.der_view.specs.RowLaws.{AllFollow, AreAt, offset_of, row_len, rows_len};
ghost use Rattle.der_view.specs.Rows.{Row};
ghost use Rattle.der_view.specs.Sources.{Der, has_begin, is_text, source_view};

use der_view::{
    Line, Name, Options, Output, PictureLine, Plan, Secrecy, Source, Sources, draw, is_key, laws,
    lines_are_short, plan_of, room_len, write_rows,
};
use sec1::{EcPrivateKey, Error};
use std::alloc::Global;
use std::io;

/// Returns the first source of an input. A key is its own source.
pub fn first_source(input: &[u8]) -> Option<Source<'_>>
    ensures { (plan_of input.now).is_whole ≡ true
        → IsSomeAnd result (λ source. source_view source ≡ Der input.now) }
{
    laws::keys_are_found(input);
    Sources::new(input).next_source()
}

/// Returns the picture of an input without the contents, and whether some part of it is a key.
///
/// # Errors
///
/// Out of memory.
pub fn picture(alloc: Global, input: &[u8]) -> io::Result<(Vec<u8>, bool)>
    ensures text { IfOk result (λ drawn. drawn.0.items ≡ picture_text false input.now) }
    ensures key { IfOk result (λ drawn. drawn.1 ≡ has_key input.now) }
{
    let mut room = vec![in alloc; 0u8; room_len(input)]?;
    let mut text = Vec::new(alloc);
    let has_key = draw(&mut text, input, room.as_mut_slice(), false)?;
    Ok((text, has_key))
}

/// Returns the picture of an input, drawn twice. It is the same.
///
/// # Errors
///
/// Out of memory.
pub fn drawn_twice(alloc: Global, input: &[u8]) -> io::Result<(Vec<u8>, Vec<u8>)>
    ensures { IfOk result (λ drawn. drawn.0.items ≡ drawn.1.items) }
{
    let (first, _) = picture(alloc, input)?;
    let (second, _) = picture(alloc, input)?;
    Ok((first, second))
}

/// Returns the pictures of two keys, which are the same if the keys differ in the private key
/// alone.
///
/// # Errors
///
/// Out of memory.
pub fn two_keys(alloc: Global, a: &[u8], b: &[u8]) -> io::Result<(Vec<u8>, Vec<u8>)>
    ensures { IfOk result (λ drawn. (k l : Key) → IsKeyOf k a.now → IsKeyOf l b.now
        → k.parameters ≡ l.parameters → k.public_key ≡ l.public_key
        → length k.private_key ≡ length l.private_key → length a.now ≤ max_content_len
        → drawn.0.items ≡ drawn.1.items) }
{
    let (first, _) = picture(alloc, a)?;
    let (second, _) = picture(alloc, b)?;
    laws::keys_are_drawn_alike(a, b);
    Ok((first, second))
}

/// Returns whether the picture of an input that is no text says that it is a key, and whether one
/// is read from it. It says so exactly for what is read.
///
/// # Errors
///
/// Out of memory.
pub fn drawn_and_read(alloc: Global, input: &[u8]) -> io::Result<(bool, bool)>
    ensures { IfOk result (λ found. is_text input.now ≡ false → has_begin input.now ≡ false
        → length input.now ≤ max_content_len → found.0 ≡ found.1) }
{
    laws::keys_are_found(input);
    let (_, has_key) = picture(alloc, input)?;
    Ok((has_key, is_read(input)))
}

/// Returns whether a key is read from the bytes, which `is_key` says too.
#[tactic(auto, unfolding(der_view::specs::Drawings::is_key_of))]
pub fn is_read(bytes: &[u8]) -> bool
    ensures { result ≡ is_key_of bytes.now }
{
    match EcPrivateKey::try_from(bytes) {
        Ok(_) => true,
        Err(Error::Asn1(_)) => false,
        Err(_) => unreachable!(),
    }
}

/// Returns `true` if `is_key` says of the bytes what reading them does, as it always does.
pub fn is_said_as_read(bytes: &[u8]) -> bool
    ensures { result ≡ true }
{
    is_key(bytes) == EcPrivateKey::try_from(bytes).is_ok()
}

/// Returns the plan of the bytes of a key: they are an ECPrivateKey to the last one.
pub fn plan_of_key(bytes: &[u8]) -> Plan
    ensures whole { (key : Key) → IsKeyOf key bytes.now → length bytes.now ≤ max_content_len
        → result.is_whole ≡ true }
    ensures form { (key : Key) → IsKeyOf key bytes.now → length bytes.now ≤ max_content_len
        → IsSomeAnd result.form
        (λ form. (form.0.3 ≡ Name.EcPrivateKey) × (form.1 ≡ Secrecy.Private)) }
{
    laws::keys_are_known();
    plan_of(bytes)
}

/// In the picture of a key each element follows, and all bytes are drawn.
pub fn rows_of_keys()
    ensures { (key : Key) (bytes : List ℕ) → IsKeyOf key bytes → length bytes ≤ max_content_len
        → AllFollow (picture false bytes) }
{
    laws::keys_are_known();
}

/// Each byte of an input is in one row, and the rows are in order.
pub fn whole_picture()
    ensures len { (all : Bool) (input : List ℕ) → rows_len (picture all input) ≡ length input }
    ensures order { (all : Bool) (input : List ℕ) → AreAt 0 (picture all input) }
{
    laws::rows_are_bytes();
}

/// The first row of a picture begins at 0, and the second one where the first ends; and both are
/// within the input.
pub fn first_two_rows()
    ensures { (all : Bool) (input : List ℕ) (first second : Row) (rows : List Row)
        → picture all input ≡ first ∷ (second ∷ rows)
        → (offset_of first ≡ 0) × (offset_of second ≡ row_len first)
        × (row_len first + row_len second ≤ length input) }
{
    laws::rows_are_bytes();
}

/// Writes the rows of an input, without the contents.
///
/// # Errors
///
/// Out of memory.
#[tactic(auto, unfolding(der_view::specs::Pictures::picture))]
pub fn rows(alloc: Global, input: &[u8]) -> io::Result<Vec<u8>>
    ensures { IfOk result (λ text. text.items
        ≡ rows_text (plan_of input.now) false (picture false input.now)) }
{
    let mut text = Vec::new(alloc);
    write_rows(&mut text, plan_of(input), input, &Options::plain(false))?;
    Ok(text)
}

/// Writes the rows of two inputs, which are the same if only bytes that aren't shown differ.
///
/// # Errors
///
/// Out of memory.
pub fn two_rows(alloc: Global, a: &[u8], b: &[u8]) -> io::Result<(Vec<u8>, Vec<u8>)>
    ensures { IfOk result
        (λ drawn. AreAlike a.now b.now → drawn.0.items ≡ drawn.1.items) }
{
    laws::pictures_are_of_masks();
    let first = rows(alloc, a)?;
    let second = rows(alloc, b)?;
    Ok((first, second))
}

/// Each line of the rows of an input prints in ASCII, and has at most 100 characters.
pub fn short_lines(input: &[u8], all: bool)
    ensures { All IsLine (rows_lines (plan_of input.now) all (picture all input.now)) }
{
    lines_are_short(plan_of(input), all);
}

/// Writes bytes in two pieces, to any output. It takes them as one.
///
/// # Errors
///
/// The first error of the writer.
pub fn pushed_twice<W: Output>(writer: &mut W, first: &[u8], second: &[u8]) -> Result<(), W::Error>
    ensures { OnOk result (W.takes writer.old writer.new (first.now ++ second.now)) }
{
    writer.push(first)?;
    writer.push(second)
}

/// Appends bytes to a text.
///
/// # Errors
///
/// Out of memory.
pub fn pushed(text: &mut Vec<u8>, bytes: &[u8]) -> io::Result<()>
    ensures { OnOk result (text.new.items ≡ text.old.items ++ bytes.now) }
{
    Output::push(text, bytes)
}

/// Writes a line, as it is shown, to any output.
///
/// # Errors
///
/// The first error of the writer.
pub fn line_of_words<W: Output>(
    writer: &mut W,
    of: PictureLine,
    line: &Line,
) -> Result<(), W::Error>
    ensures { OnOk result (W.appends writer.old writer.new ((of, shown line.now) ∷ [])) }
{
    writer.line(of, line.finish().as_bytes())
}
