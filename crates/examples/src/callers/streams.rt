//! What is taken from inputs that never end, or whose bytes nobody knows.
ghost use Rattle.std.specs.Prelude.{◌≡◌, ◌+◌, ◌∷◌, ◌++◌, ℕ, Some, false, IfOk, IfErr, List, []};
ghost use Rattle.std.specs.Prelude.{length, replicate};
ghost use Rattle.sec1.specs.Der.{IsElement, TakenBeforeRefusal, document_fault};

use sec1::der::{ErrorKind, IoFault, Read, Result, SecretDocument};
use std::alloc::Global;

/// An input without end: one byte again and again, which are counted. It fails only where the count
/// would overflow.
#[derive(Drop)]
pub struct Endless {
    /// The byte.
    pub byte: u8,
    /// The number of bytes that were taken.
    pub given: usize,
    /// Whether a read has failed.
    pub is_failed: bool,
}

impl Read for Endless {
    ghost failed = { λ reader. reader.is_failed };

    ghost taken = { λ reader. Some (replicate reader.given reader.byte) };

    ghost ended = { λ _. ⊥ };

    fn read(&mut self, buf: &mut [u8]) -> std::result::Result<usize, IoFault> {
        if self.is_failed {
            return Err(IoFault);
        }
        let Some(given) = self.given.checked_add(buf.len()) else {
            self.is_failed = true;
            return Err(IoFault);
        };
        buf.fill(self.byte);
        self.given = given;
        Ok(buf.len())
    }

    fn has_failed(&self) -> bool {
        self.is_failed
    }
}

/// Reads a document from an input without end. A first byte that is no tag is refused when it alone
/// was taken.
pub fn read_endless(alloc: Global, reader: &mut Endless) -> Result<SecretDocument>
    requires { reader.old.is_failed ≡ false }
    ensures one { IfErr result (λ error. error.kind ≡ ErrorKind.Tag
        → reader.new.given ≡ reader.old.given + 1) }
    ensures never { IfErr result (λ error. ¬ (error.kind ≡ ErrorKind.Truncated)) }
{
    SecretDocument::read_der_from(alloc, reader)
}

/// A reader over another of unknown bytes, which keeps what it gives.
#[derive(Drop)]
pub struct Recorder<R> {
    /// The other reader.
    pub inner: R,
    /// The bytes that were taken.
    pub given: Vec<u8>,
    /// Whether a read, or an allocation before one, has failed.
    pub is_failed: bool,
}

impl<R: Read> Read for Recorder<R> {
    ghost left = { λ reader. R.left reader.inner };

    ghost failed = { λ reader. reader.is_failed };

    ghost taken = { λ reader. Some reader.given.items };

    ghost ended = { λ reader. R.ended reader.inner };

    fn read(&mut self, buf: &mut [u8]) -> std::result::Result<usize, IoFault> {
        if self.is_failed || self.given.reserve(buf.len()).is_err() {
            self.is_failed = true;
            return Err(IoFault);
        }
        match self.inner.read(buf) {
            Ok(count) => {
                if self.given.extend_from_slice(&buf[..count]).is_err() {
                    self.is_failed = true;
                    return Err(IoFault);
                }
                Ok(count)
            }
            Err(_) => {
                self.is_failed = true;
                Err(IoFault)
            }
        }
    }

    fn has_failed(&self) -> bool {
        self.is_failed
    }
}

/// Reads a document from a reader of unknown bytes. What was recorded is the document, or what the
/// kind of the refusal says: one byte that is no tag; nothing after the byte that shows a bad
/// length; one byte after an element; or all that there was of a truncated element.
pub fn read_recorded<R: Read>(alloc: Global, recorder: &mut Recorder<R>) -> Result<SecretDocument>
    requires unfailed { recorder.old.is_failed ≡ false }
    requires fresh { recorder.old.given.items ≡ [] }
    ensures found { IfOk result (λ document. document ≡ recorder.new.given.items) }
    ensures refused { IfErr result
        (λ error. TakenBeforeRefusal error.kind recorder.new.given.items) }
    ensures one { IfErr result
        (λ error. error.kind ≡ ErrorKind.Tag → length recorder.new.given.items ≡ 1) }
    ensures bad_length { IfErr result (λ error. error.kind ≡ ErrorKind.Length
        → (front : List ℕ) × (last : ℕ) × (document_fault front ≡ Some (Some ErrorKind.Truncated))
        × (recorder.new.given.items ≡ front ++ last ∷ [])) }
    ensures rest { IfErr result (λ error. error.kind ≡ ErrorKind.TrailingData
        → (front : List ℕ) × (last : ℕ) × IsElement front
        × (recorder.new.given.items ≡ front ++ last ∷ [])) }
    ensures all { IfErr result (λ error. error.kind ≡ ErrorKind.Truncated
        → R.ended recorder.new.inner
        × (document_fault recorder.new.given.items ≡ Some (Some ErrorKind.Truncated))) }
{
    SecretDocument::read_der_from(alloc, recorder)
}
