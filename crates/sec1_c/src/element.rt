//! Elements of DER (X.690): `sec1_tree_check`, `sec1_document_len`, `sec1_element_read` and
//! `sec1_element_write`.
ghost use Rattle.std.specs.Prelude.{IsTrue, ◌≡◌, ◌≢◌, ◌≤◌, ◌<◌, ◌+◌, ◌++◌, ℕ, List, length, OkIff};
ghost use Rattle.sec1_der.specs.Elements.{IsElement, IsHeader, IsProperPrefix, is_tag};
ghost use Rattle.sec1_der.specs.Elements.{element, header, max_length};
ghost use Rattle.sec1_der.specs.Errors.{Refuses, header_fault};
ghost use Rattle.sec1_der.specs.Faults.{any_fault, no_fault, tree_fault};
ghost use Rattle.sec1_der.specs.Trees.{Tree, IsTree, IsTreeOf, bytes, depth, max_tree_depth, size};
ghost use Rattle.sec1_c.specs.Documents.{Announces, BeginsWithElement, element_len};
ghost use Rattle.sec1_c.specs.Outputs.{Writes, WritesNothing};
ghost use Rattle.sec1_c.specs.Statuses.{IsTreeNumber, fault_number, kind_number};

use crate::status::{OK, kind_number};
use sec1::der::{self, AnyRef, ErrorKind, Header, Length, SliceReader, SliceWriter, Tag};
use std::cmp::Ordering;

/// Checks that all of `input` is a tree of DER elements of depth at most 64, and stores the number
/// of elements. The content of an element with a constructed tag is elements again, and nothing
/// else.
///
/// # Errors
///
/// Returns the number of the first fault from left to right, and leaves `elements` unchanged: Tag
/// or Length if an element has no header of DER; Truncated if the input ends inside an element, or
/// an element ends after the one around it; Depth if an element at level 64 contains elements;
/// TrailingData if bytes follow the tree.
#[unsafe(no_mangle)]
#[tactic(auto, using(crate::proofs::StatusLemmas::tree_kind))]
pub extern "C" fn sec1_tree_check(input: &[u8], elements: &mut usize) -> u32
    ensures found { result ≡ 0 → (t : Tree) × IsTreeOf t input.now × (depth t ≤ max_tree_depth) }
    ensures only { (t : Tree) → IsTreeOf t input.now → depth t ≤ max_tree_depth
        → (result ≡ 0) × (elements.new ≡ size t) }
    ensures deeper { (t : Tree) → IsTreeOf t input.now → max_tree_depth < depth t
        → result ≡ kind_number ErrorKind.Depth }
    ensures short { (t : Tree) → IsTree t → IsProperPrefix input.now (bytes t)
        → result ≡ kind_number ErrorKind.Truncated }
    ensures long { (t : Tree) → IsTree t → depth t ≤ max_tree_depth
        → IsProperPrefix (bytes t) input.now
        → result ≡ kind_number ErrorKind.TrailingData }
    ensures kinds { result ≢ 0 → IsTreeNumber result }
    ensures kind { result ≡ fault_number (tree_fault input.now) }
    ensures unchanged { result ≢ 0 → elements.new ≡ elements.old }
{
    match der::check_tree(input) {
        Ok(count) => {
            *elements = count;
            OK
        }
        Err(e) => kind_number(e.kind),
    }
}

/// Checks that all of `input` is one element, with any content, and stores the length that its
/// header announces, header and content together, or 0 if the input doesn't begin with a whole
/// header.
///
/// # Errors
///
/// Returns the number of Truncated if the input ends inside the header or the content; of Tag or
/// Length if the input doesn't begin with a header of DER; of TrailingData if bytes follow the
/// element.
#[unsafe(no_mangle)]
pub extern "C" fn sec1_document_len(input: &[u8], len: &mut usize) -> u32
    ensures found { result ≡ 0 → IsElement input.now }
    ensures announced { (tag announced : ℕ) (inside : List ℕ)
        → Announces input.now inside announced tag
        → len.new ≡ element_len tag announced }
    ensures only { (tag announced : ℕ) (inside : List ℕ) → Announces input.now inside announced tag
        → length inside ≡ announced → result ≡ 0 }
    ensures short { (tag announced : ℕ) (inside : List ℕ) → Announces input.now inside announced tag
        → length inside < announced → result ≡ kind_number ErrorKind.Truncated }
    ensures long { (tag announced : ℕ) (inside : List ℕ) → Announces input.now inside announced tag
        → announced < length inside → result ≡ kind_number ErrorKind.TrailingData }
    ensures no_header { ((tag n : ℕ) (rest : List ℕ) → IsHeader tag n
        → input.now ≢ header tag n ++ rest)
        → (result ≡ kind_number (header_fault input.now)) × (len.new ≡ 0) }
{
    let mut reader = SliceReader::new(input);
    match Header::decode(&mut reader) {
        Ok(header) => {
            let announced = header.length.get();
            *len = header.encoded_len() + announced;
            match reader.remaining_len().cmp(&announced) {
                Ordering::Less => kind_number(ErrorKind::Truncated),
                Ordering::Equal => OK,
                Ordering::Greater => kind_number(ErrorKind::TrailingData),
            }
        }
        Err(e) => {
            *len = 0;
            kind_number(e.kind)
        }
    }
}

/// Reads the element at the beginning of `input`, with any content, and stores the lengths of its
/// header and of its content. What follows it isn't read.
///
/// # Errors
///
/// Returns the number of Tag or Length if the input doesn't begin with a header of DER, or of
/// Truncated if it ends inside the header or the content. On an error `header_len` and
/// `content_len` are unchanged.
#[unsafe(no_mangle)]
#[tactic(auto, using(crate::proofs::StatusLemmas::any_kind))]
pub extern "C" fn sec1_element_read(
    input: &[u8],
    header_len: &mut usize,
    content_len: &mut usize,
) -> u32
    ensures found { result ≡ 0 → BeginsWithElement input.now header_len.new content_len.new }
    ensures only { (tag : ℕ) (content rest : List ℕ) → IsHeader tag (length content)
        → input.now ≡ element tag content ++ rest → result ≡ 0 }
    ensures header { (tag : ℕ) (content rest : List ℕ) → IsHeader tag (length content)
        → input.now ≡ element tag content ++ rest
        → header_len.new ≡ length (header tag (length content)) }
    ensures content { (tag : ℕ) (content rest : List ℕ) → IsHeader tag (length content)
        → input.now ≡ element tag content ++ rest → content_len.new ≡ length content }
    ensures kind { result ≡ fault_number (any_fault (λ _. no_fault) no_fault input.now) }
    ensures unchanged { result ≢ 0
        → (header_len.new ≡ header_len.old) × (content_len.new ≡ content_len.old) }
{
    let mut reader = SliceReader::new(input);
    match AnyRef::decode(&mut reader) {
        Ok(element) => {
            let len = element.value().len();
            *header_len = input.len() - reader.remaining_len() - len;
            *content_len = len;
            OK
        }
        Err(error) => kind_number(error.kind),
    }
}

/// Writes the element with this tag byte and this content at the beginning of `out`, and stores its
/// length. The rest of `out` is unchanged.
///
/// # Errors
///
/// Returns the number of Buffer if `out` is too short, and stores the length. Otherwise returns
/// that of Tag if no element has the tag, or of Overlength if the content is longer than
/// 268,435,455 bytes, and leaves `len` unchanged. `out` is unchanged in each case.
#[unsafe(no_mangle)]
pub extern "C" fn sec1_element_write(
    tag: usize,
    content: &[u8],
    out: &mut [u8],
    len: &mut usize,
) -> u32
    ensures element { IsHeader tag (length content.now)
        → Writes (element tag content.now) out.old out.new result len.new }
    ensures no_tag { ¬ IsTrue (is_tag tag)
        → WritesNothing (kind_number ErrorKind.Tag) out.old out.new result len.old len.new }
    ensures overlength { IsTrue (is_tag tag) → max_length < length content.now
        → WritesNothing (kind_number ErrorKind.Overlength) out.old out.new result len.old len.new }
{
    match header_given(tag, content.len()) {
        Ok(header) => write_element(&header, content, out, len),
        Err(error) => kind_number(error.kind),
    }
}

/// Returns the header with this tag byte, of a content of this length.
///
/// # Errors
///
/// Tag if no element has the tag; Overlength if the content is longer than 268,435,455 bytes.
fn header_given(tag: usize, len: usize) -> der::Result<Header>
    ensures header { OkIff result (IsHeader tag len) (record { tag = tag; length = len }) }
    ensures no_tag { ¬ IsTrue (is_tag tag) → Refuses result ErrorKind.Tag }
    ensures overlength { IsTrue (is_tag tag) → max_length < len
        → Refuses result ErrorKind.Overlength }
{
    let Ok(byte) = u8::try_from(tag) else {
        return Err(ErrorKind::Tag.into());
    };
    Ok(Header {
        tag: Tag::from_byte(byte)?,
        length: Length::new(len)?,
    })
}

/// Stores the length of the element with this header and this content, and writes it at the
/// beginning of `out`. Returns the number of Buffer if `out` is too short, which is unchanged then.
fn write_element(header: &Header, content: &[u8], out: &mut [u8], len: &mut usize) -> u32
    requires { header.now.length ≡ length content.now }
    ensures { Writes (element header.now.tag content.now) out.old out.new result len.new }
{
    let both = header.encoded_len() + content.len();
    *len = both;
    if out.len() < both {
        return kind_number(ErrorKind::Buffer);
    }
    let (front, rest) = out.split_at_mut(header.encoded_len());
    rest[..content.len()].copy_from_slice(content);
    write_header(header.tag, header.length, front)
}

/// Writes the header with this tag and this length into all of `front`.
fn write_header(tag: Tag, len: Length, front: &mut [u8]) -> u32
    requires { length front.old ≡ length (header tag len) }
    ensures status { result ≡ 0 }
    ensures header { front.new ≡ header tag len }
{
    let header = Header { tag, length: len };
    match header.encode(&mut SliceWriter::new(front)) {
        Ok(()) => OK,
        Err(error) => kind_number(error.kind),
    }
}
