ghost use Rattle.std.specs.Prelude.{◌≡◌, ℕ, ◌<◌, ◌≤◌, length, take, List, ◌++◌, ◌∷◌};
ghost use Rattle.std.specs.Cmp.{and_equiv, nat_eq_equiv, on_equiv, partial_equiv_from_equiv};
ghost use Rattle.std.specs.Ordering.{eq_of_both, on};
ghost use Rattle.std.specs.Prelude.{nat_eq, ◌↔◌, IsTrue, false, true, [], Some, codes};
ghost use Rattle.std.specs.Prelude.{IfOk, IsOkAnd, IsOk, IsErr, MatchResult, OnErr};
ghost use Rattle.sec1_der.specs.Errors.{struct_text};
ghost use Rattle.sec1_der.specs.Elements.{max_length, length_octets, header, element, IsHeader};
ghost use Rattle.sec1_der.specs.Errors.{length_fault, header_fault, Refuses, IsHeaderFault};
ghost use Rattle.sec1_der.specs.Elements.{number_of};
ghost use Rattle.sec1_der.specs.Readers.{reader_over, failed_reader, HasRead};
ghost use Rattle.sec1_der.specs.Faults.{Fault, any_fault};
ghost use Rattle.sec1_der.specs.Writers.{slice_state, Appends};
ghost use Rattle.sec1_der.specs.Writers.{Writes};

use crate::{ErrorKind, Length, Result, SliceReader, SliceWriter, Tag};

/// The least length in the long form (X.690 section 8.1.3.5).
pub(crate) const LONG_FORM: usize = 0x80;

/// What bytes begin with and the bytes after it, or the kind by which they are refused.
pub(crate) type First<'a, T> = std::result::Result<(T, &'a [u8]), ErrorKind>;

/// The tag and the length of an element (X.690 sections 8.1.2 and 8.1.3).
#[derive(Clone, Copy, Debug)]
pub struct Header {
    /// The tag.
    pub tag: Tag,
    /// The length of the content.
    pub length: Length,
}

impl Header {
    /// Reads a header. The content may be longer than the remaining input.
    ///
    /// # Errors
    ///
    /// Tag if the first byte isn't a valid tag; Length if no length in the form of DER follows it;
    /// Truncated if the input ends inside the header; Failed if the reader failed before. The tag
    /// is checked before the length. On an error the reader has failed.
    pub fn decode(reader: &mut SliceReader) -> Result<Header>
        // What is read is a header, and just its bytes are read.
        ensures found { IfOk result (λ h. IsHeader h.tag h.length
            × HasRead (header h.tag h.length) reader.old reader.new) }
        // If the unread bytes begin with a header, it is read.
        ensures only { (tag n : ℕ) (rest : List ℕ) → IsHeader tag n
            → reader.old ≡ reader_over (header tag n ++ rest)
            → (result ≡ Ok (record { tag = tag; length = n })) × (reader.new ≡ reader_over rest) }
        // If they begin with none, the kind of the error is a function of the bytes.
        ensures kind { reader.old.failed ≡ false → IsErr result
            → Refuses result (header_fault reader.old.unread) }
        ensures failed { reader.old.failed ≡ true → Refuses result ErrorKind.Failed }
        ensures refused { OnErr result (reader.new ≡ failed_reader reader.old) }
    {
        // One way out, so that the result is moved once.
        let found = match reader.check() {
            Ok(()) => header_at(reader.remaining_input()),
            Err(e) => Err(e.kind),
        };
        match found {
            Ok((header, rest)) => {
                reader.set_unread(rest);
                Ok(header)
            }
            Err(kind) => Err(reader.fail(kind)),
        }
    }

    /// Returns the length of the header in bytes, from 2 to 6.
    pub fn encoded_len(&self) -> usize
        ensures { (result ≡ length (header self.now.tag self.now.length)) × (2 ≤ result)
            × (result ≤ 6) }
    {
        self.octets().1
    }

    /// Appends the header.
    ///
    /// # Errors
    ///
    /// Buffer if the slice has no room for it.
    pub fn encode(&self, writer: &mut SliceWriter) -> Result<()>
        ensures { Writes slice_state Appends (Some (header self.now.tag self.now.length))
            writer.old writer.new result }
    {
        let (octets, count) = self.octets();
        writer.write(&octets[..count])
    }

    /// Returns the bytes of the header, followed by zeros, and their number.
    #[tactic(auto, using(crate::proofs::LengthLemmas::length_forms))]
    pub(crate) fn octets(&self) -> ([u8; 6], usize)
        ensures { (take result.1 result.0 ≡ header self.now.tag self.now.length)
            × (result.1 ≡ length (header self.now.tag self.now.length)) × (2 ≤ result.1)
            × (result.1 ≤ 6) }
    {
        let tag = self.tag.byte();
        let n = self.length.get();
        let a = (n / 0x100_0000) as u8;
        let b = (n / 0x1_0000 % 0x100) as u8;
        let c = (n / 0x100 % 0x100) as u8;
        let d = (n % 0x100) as u8;
        match n {
            0..=0x7F => ([tag, d, 0, 0, 0, 0], 2),
            0x80..=0xFF => ([tag, 0x81, d, 0, 0, 0], 3),
            0x100..=0xFFFF => ([tag, 0x82, c, d, 0, 0], 4),
            0x1_0000..=0xFF_FFFF => ([tag, 0x83, b, c, d, 0], 5),
            _ => ([tag, 0x84, a, b, c, d], 6),
        }
    }
}

/// Headers are equal exactly when their tags and their lengths are.
impl PartialEq for Header {
    ghost eq = { eq_of_both (on (λ h. h.tag) nat_eq) (on (λ h. h.length) nat_eq) };

    ghost laws = { partial_equiv_from_equiv (and_equiv (on_equiv (λ h. h.tag) nat_eq_equiv)
        (on_equiv (λ h. h.length) nat_eq_equiv)) };

    fn eq(&self, other: &Self) -> bool
        ensures value { result
            ≡ eq_of_both (on (λ h. h.tag) nat_eq) (on (λ h. h.length) nat_eq) self.now other.now }
        ensures same { IsTrue result ↔ (self.now ≡ other.now) }
    {
        self.tag == other.tag && self.length == other.length
    }
}

impl Eq for Header {
    ghost laws = { and_equiv (on_equiv (λ h. h.tag) nat_eq_equiv)
        (on_equiv (λ h. h.length) nat_eq_equiv) };
}

/// Returns the header at the beginning of the bytes, and the bytes after it, of which there are at
/// least as many as it announces.
#[tactic(auto, using(crate::proofs::HeaderLemmas::header_fronts))]
pub(crate) fn element_at(input: &[u8]) -> First<'_, Header>
    ensures found { MatchResult result
        (λ x. IsHeader x.0.tag x.0.length
        × (input.now ≡ header x.0.tag x.0.length ++ x.1.now) × (x.0.length ≤ length x.1.now))
        (λ kind. IsHeaderFault kind × ((content : ℕ → Fault) (rest : Fault)
        → any_fault content rest input.now ≡ Some (Some kind))) }
    ensures only { (tag : ℕ) (content rest : List ℕ) → IsHeader tag (length content)
        → input.now ≡ element tag content ++ rest
        → IsOkAnd result (λ x. (x.0 ≡ record { tag = tag; length = length content })
        × (x.1.now ≡ content ++ rest)) }
{
    let (header, inside) = match header_at(input) {
        Ok(found) => found,
        Err(kind) => return Err(kind),
    };
    if inside.len() < header.length.get() {
        return Err(ErrorKind::Truncated);
    }
    Ok((header, inside))
}

/// Returns the header at the beginning of the bytes, and the bytes after it.
#[tactic(auto, using(crate::proofs::LengthLemmas::length_front))]
pub(crate) fn header_at(bytes: &[u8]) -> First<'_, Header>
    ensures found { MatchResult result
        (λ x. IsHeader x.0.tag x.0.length × (bytes.now ≡ header x.0.tag x.0.length ++ x.1.now))
        (λ kind. (kind ≡ header_fault bytes.now) × ((content : ℕ → Fault) (rest : Fault)
        → any_fault content rest bytes.now ≡ Some (Some kind))) }
    ensures only { (tag n : ℕ) (rest : List ℕ) → IsHeader tag n → bytes.now ≡ header tag n ++ rest
        → IsOkAnd result (λ x. (x.0 ≡ record { tag = tag; length = n }) × (x.1.now ≡ rest)) }
{
    let [first, second, rest @ ..] = bytes else {
        return Err(short_fault(bytes));
    };
    let Ok(tag) = Tag::from_byte(*first) else {
        return Err(ErrorKind::Tag);
    };
    let (length, rest) = match length_at(*second, rest) {
        Ok(found) => found,
        Err(kind) => return Err(kind),
    };
    Ok((Header { tag, length }, rest))
}

/// Returns the kind by which fewer than two bytes are refused as a header.
fn short_fault(bytes: &[u8]) -> ErrorKind
    requires { length bytes.now < 2 }
    ensures { result ≡ header_fault bytes.now }
{
    match bytes {
        [first, ..] if Tag::from_byte(*first).is_err() => ErrorKind::Tag,
        _ => ErrorKind::Truncated,
    }
}

/// Returns the length that begins with this byte, and the bytes after it.
#[tactic(auto, using(crate::proofs::LengthLemmas::len_shape), unfolding(crate::specs::Elements::length_octets))]
fn length_at(first: u8, rest: &[u8]) -> First<'_, Length>
    ensures found { MatchResult result
        (λ x. (x.0 ≤ max_length) × (first ∷ rest.now ≡ length_octets x.0 ++ x.1.now))
        (λ kind. kind ≡ length_fault (first ∷ rest.now)) }
    ensures only { (n : ℕ) (after : List ℕ) → n ≤ max_length
        → first ∷ rest.now ≡ length_octets n ++ after → IsOk result }
{
    if usize::from(first) < LONG_FORM {
        return Ok((Length::of_number(u32::from(first)), rest));
    }
    // 0 to 3 for the first bytes that are followed by 1 to 4 digits.
    let more = first.wrapping_sub(0x81);
    if more > 3 {
        return Err(ErrorKind::Length);
    }
    let Some((digits, rest)) = rest.split_at_checked(usize::from(more) + 1) else {
        return Err(ErrorKind::Truncated);
    };
    let n = number(digits) as usize;
    if digits[0] == 0 || n < LONG_FORM {
        return Err(ErrorKind::Length);
    }
    match Length::new(n) {
        Ok(length) => Ok((length, rest)),
        Err(_) => Err(ErrorKind::Length),
    }
}

/// Returns the number in at most four bytes, the most significant first.
fn number(digits: &[u8]) -> u32
    requires { length digits.now ≤ 4 }
    ensures { result ≡ number_of digits.now }
{
    let mut n = 0;
    for digit in digits {
        n = n * 256 + u32::from(*digit);
    }
    n
}
