//! Documents that are read from streams and files, and written to them.
ghost use Rattle.std.specs.Prelude.{Some, None, MatchResult};
ghost use Rattle.std.specs.Prelude.{ℕ, List, false, ◌≡◌, ◌<◌, ◌≤◌, ◌↔◌, ◌⊎◌, length, take, IsTrue};
ghost use Rattle.std.specs.Prelude.{IfErr, IfSome};
ghost use Rattle.std.specs.Io.KnownBytes.{Appends};
ghost use Rattle.sec1_der.specs.Elements.{IsElement, IsHeader, header};
ghost use Rattle.sec1_der.specs.Errors.{IsHeaderFault};
ghost use Rattle.sec1_der.specs.Streams.{ReadsStream};
ghost use Rattle.sec1_der.specs.Faults.{document_fault};
ghost use Rattle.sec1_der.specs.Streams.{AppendsPrefix, Ends, ReadsOnto, Takes};
ghost use Rattle.sec1_der.specs.declared.error.ErrorKind.TheVariants.{Io, Memory};

use super::SecretDocument;
use crate::header::header_at;
use crate::{Error, ErrorKind, Header, IoFault, Read, Result, StdReader, StdWriter, Write};
use std::alloc::Global;
use std::fs;
use std::rt::Files;

/// The number of bytes of content for which memory is asked at once at most.
const STEP: usize = 4096;

impl SecretDocument {
    /// Reads the one element that is all of the remaining input. The header is read one byte at a
    /// time, the content at most 4,096 bytes at a time; then one more byte is asked for, to find
    /// the end, and nothing after it. Whatever the header announces, memory is first asked for the
    /// header and at most 4,096 bytes, 4,102 in all; then it grows by at most 4,096 bytes at once,
    /// and only when it is full.
    ///
    /// # Errors
    ///
    /// Tag if the first byte isn't a valid tag; Length at the first byte of the header that can't
    /// be in a length of DER (X.690 sections 8.1.3 and 10.1); Truncated if the input ends inside
    /// the element; TrailingData if any byte follows it; Io if a read failed; Memory if an
    /// allocation failed.
    pub fn read_der_from<R: Read>(alloc: Global, reader: &mut R) -> Result<SecretDocument>
        requires { R.failed reader.old ≡ false }
        // The document is all that was taken, and the input has ended. The kind of a refusal says
        // what was taken, of any input.
        ensures reads { let Taken = Takes R.left R.taken reader.old reader.new in
            let Ended = Ends R.left R.ended reader.new in
            ReadsStream (λ bytes. IsElement bytes × Taken bytes × Ended) Taken Ended
            (R.failed reader.new) result }
        // If the remaining input is exactly one element, it is read, unless a read or an allocation
        // fails.
        ensures only { IfErr result (λ error. ((error.kind ≡ Io) ⊎ (error.kind ≡ Memory))
            ⊎ IfSome (R.left reader.old) (λ left. ¬ (IsElement left))) }
        // Whether it is refused, and by which kind, is a function of what the reader had left, as
        // of a slice.
        ensures kind { MatchResult result
            (λ _. IfSome (R.left reader.old) (λ left. document_fault left ≡ None))
            (λ error. ((error.kind ≡ Io) ⊎ (error.kind ≡ Memory))
            ⊎ IfSome (R.left reader.old) (λ left. document_fault left ≡ Some (Some error.kind))) }
    {
        read_element(alloc, reader)
    }

    /// Reads the one element in a file, as [`SecretDocument::read_der_from`] does.
    ///
    /// # Errors
    ///
    /// Those of [`SecretDocument::read_der_from`], and Io if the file can't be opened.
    ///
    /// # Examples
    ///
    /// ```
    /// let document = SecretDocument::read_der_file(rt, alloc, path)?;
    /// Ok(document.len())
    /// ```
    pub fn read_der_file<F: Files>(rt: &F, alloc: Global, path: &str) -> Result<SecretDocument>
        ensures { IfErr result (λ error. IsHeaderFault error.kind
            ⊎ (error.kind ≡ ErrorKind.TrailingData) ⊎ (error.kind ≡ Io) ⊎ (error.kind ≡ Memory)) }
    {
        match fs::open(rt, path) {
            Ok(file) => SecretDocument::read_der_from(alloc, &mut StdReader::new(file)),
            Err(_) => Err(ErrorKind::Io.into()),
        }
    }

    /// Writes the bytes, in as many writes as needed.
    ///
    /// # Errors
    ///
    /// Io exactly when a write failed, after a prefix of the bytes was written.
    pub fn write_der_to<W: Write>(&self, writer: &mut W) -> Result<()>
        requires { W.failed writer.old ≡ false }
        ensures { MatchResult result
            (λ _. (W.failed writer.new ≡ false)
            × Appends (W.written writer.old) (W.written writer.new) self.now)
            (λ error. IsTrue (W.failed writer.new) × (error.kind ≡ Io)
            × AppendsPrefix (W.written writer.old) (W.written writer.new) self.now) }
    {
        writer.write_all(self.as_bytes())?;
        Ok(())
    }

    /// Writes the bytes to a file, which is created or truncated first.
    ///
    /// # Errors
    ///
    /// Io if the file can't be created, or if a write failed.
    pub fn write_der_file<F: Files>(&self, rt: &F, path: &str) -> Result<()>
        ensures { IfErr result (λ error. error.kind ≡ Io) }
    {
        match fs::create(rt, path) {
            Ok(file) => self.write_der_to(&mut StdWriter::new(file)),
            Err(_) => Err(ErrorKind::Io.into()),
        }
    }
}

/// Reads the one element that is all of the remaining input.
#[tactic(auto, using(crate::proofs::StreamLemmas::element_refusals))]
fn read_element<R: Read>(alloc: Global, reader: &mut R) -> Result<SecretDocument>
    requires { R.failed reader.old ≡ false }
    ensures { let Taken = Takes R.left R.taken reader.old reader.new in
        let Ended = Ends R.left R.ended reader.new in
        ReadsStream (λ bytes. IsElement bytes × Taken bytes × Ended) Taken Ended
        (R.failed reader.new) result }
{
    let header = read_header(reader)?;
    let (octets, count) = header.octets();
    let announced = header.length.get();
    let mut bytes = Vec::with_capacity(alloc, count + announced.min(STEP))?;
    bytes.extend_from_slice(&octets[..count])?;
    read_content(reader, &mut bytes, announced)?;
    if reader.read(&mut [0])? > 0 {
        return Err(ErrorKind::TrailingData.into());
    }
    Ok(SecretDocument { bytes })
}

/// Reads a header, one byte at a time.
fn read_header<R: Read>(reader: &mut R) -> Result<Header>
    requires { R.failed reader.old ≡ false }
    ensures { let Taken = Takes R.left R.taken reader.old reader.new in
        ReadsStream (λ h. IsHeader h.tag h.length × Taken (header h.tag h.length)) Taken
        (Ends R.left R.ended reader.new) (R.failed reader.new) result }
{
    let mut octets = [0; 6];
    let mut count = 0;
    loop {
        match header_at(&octets[..count]) {
            Ok((header, _)) => return Ok(header),
            Err(ErrorKind::Truncated) => {}
            Err(kind) => return Err(kind.into()),
        }
        if reader.read(&mut octets[count..count + 1])? == 0 {
            return Err(ErrorKind::Truncated.into());
        }
        count += 1;
    }
}

/// Appends the next `announced` bytes of the input to the vector, which is given room for at most
/// 4,096 bytes more at once.
pub(crate) fn read_content<R: Read>(
    reader: &mut R,
    bytes: &mut Vec<u8>,
    announced: usize,
) -> Result<()>
    requires { R.failed reader.old ≡ false }
    ensures { let Taken = Takes R.left R.taken reader.old reader.new in
        MatchResult result
        (λ _. (R.failed reader.new ≡ false)
        × ReadsOnto Taken bytes.old.items bytes.new.items announced)
        (λ error. (error.kind ≡ Io ↔ IsTrue (R.failed reader.new))
        × ((front : List ℕ) × Taken front × (length front < announced))
        × (((error.kind ≡ Io) ⊎ (error.kind ≡ Memory))
        ⊎ ((error.kind ≡ ErrorKind.Truncated) × Ends R.left R.ended reader.new))) }
{
    let mut missing = announced;
    while missing > 0 {
        let old_len = bytes.len();
        let step = missing.min(STEP);
        bytes.reserve_exact(step)?;
        bytes.resize(old_len + step, 0)?;
        if fill(reader, &mut bytes[old_len..])? < step {
            return Err(ErrorKind::Truncated.into());
        }
        missing -= step;
    }
    Ok(())
}

/// Reads bytes until the slice is full or the input ends, and returns their number.
///
/// # Errors
///
/// [`IoFault`] exactly when a read failed, after fewer bytes than the slice has.
#[tactic(auto, using(crate::proofs::StreamLemmas::reads_part))]
fn fill<R: Read>(reader: &mut R, buf: &mut [u8]) -> std::result::Result<usize, IoFault>
    requires { R.failed reader.old ≡ false }
    ensures { let Taken = Takes R.left R.taken reader.old reader.new in
        MatchResult result
        (λ n. (R.failed reader.new ≡ false) × (n ≤ length buf.new) × Taken (take n buf.new)
        × (n < length buf.new → Ends R.left R.ended reader.new))
        (λ _. IsTrue (R.failed reader.new)
        × ((front : List ℕ) × Taken front × (length front < length buf.old))) }
{
    let mut count = 0;
    while count < buf.len() {
        let more = reader.read(&mut buf[count..])?;
        if more == 0 {
            break;
        }
        count += more;
    }
    Ok(count)
}
