//! Byte readers and writers that remember a failure.
ghost use Rattle.std.specs.Prelude.{ℕ, List, Option, None, Bool, false, IsTrue, IsErr, IfOk};
ghost use Rattle.std.specs.Prelude.{MatchResult, Some, codes, ◌≤◌, ◌<◌, ◌≡◌, ◌↔◌, length, take, ⊤};
ghost use Rattle.std.specs.Io.KnownBytes.{Appends, Keeps, ReadConsumes, WriteAppends};
ghost use Rattle.sec1_der.specs.Streams.{AppendsPrefix};

/// The error of a failed read or write.
#[derive(Clone, Copy, Debug, PartialEq, Eq)]
pub struct IoFault;

/// A reader that remembers a failure. Calls that take one require that it hasn't failed.
///
/// Its members `left`, `taken` and `ended` say what is known of the input. Each may be left out.
pub trait Read {
    /// The remaining input, if it is known.
    ghost left: { Self → Option (List ℕ) } = { λ _. None };

    /// The bytes that were taken, if they are known, even if what remains isn't known, or never
    /// ends.
    ghost taken: { Self → Option (List ℕ) } = { λ _. None };

    /// What holds when the input has ended: `⊥` if it never ends.
    ghost ended: { Self → Type 0 } = { λ _. ⊤ };

    /// Whether a read has failed.
    ghost failed: { Self → Bool };

    /// Reads bytes into the beginning of the slice and returns their number: 0 only at the end of
    /// the input or for an empty slice.
    ///
    /// # Errors
    ///
    /// [`IoFault`] exactly when the reader has failed after the call: nothing is read, and it stays
    /// failed.
    fn read(&mut self, buf: &mut [u8]) -> Result<usize, IoFault>
        ensures bound { IfOk result (λ n. n ≤ length buf.new) }
        ensures fault { IsErr result ↔ IsTrue (failed self.new) }
        ensures stays { IsTrue (failed self.old) → IsTrue (failed self.new) }
        ensures bytes { ReadConsumes (left self.old) (left self.new) result buf.new }
        // The bytes that were taken grow by what was read, by nothing if it failed.
        ensures taken { MatchResult result
            (λ n. Appends (taken self.old) (taken self.new) (take n buf.new))
            (λ _. Keeps (taken self.old) (taken self.new)) }
        ensures end { IfOk result (λ n. n ≡ 0 → 0 < length buf.new → ended self.new) };

    /// Returns `true` if a read has failed.
    fn has_failed(&self) -> bool
        ensures { result ≡ failed self.now };
}

/// A writer that remembers a failure. Calls that take one require that it hasn't failed.
pub trait Write {
    /// The bytes written, if they are known.
    ghost written: { Self → Option (List ℕ) } = { λ _. None };

    /// Whether a write has failed.
    ghost failed: { Self → Bool };

    /// Writes bytes from the beginning of the slice and returns their number: 0 only for an empty
    /// slice.
    ///
    /// # Errors
    ///
    /// [`IoFault`] exactly when the writer has failed after the call: nothing is written, and it
    /// stays failed.
    fn write(&mut self, buf: &[u8]) -> Result<usize, IoFault>
        ensures bound { IfOk result (λ n. n ≤ length buf.now) }
        ensures some { IfOk result (λ n. n ≡ 0 → length buf.now ≡ 0) }
        ensures fault { IsErr result ↔ IsTrue (failed self.new) }
        ensures stays { IsTrue (failed self.old) → IsTrue (failed self.new) }
        ensures bytes { WriteAppends (written self.old) (written self.new) result buf.now };

    /// Returns `true` if a write has failed.
    fn has_failed(&self) -> bool
        ensures { result ≡ failed self.now };

    /// Writes all of the bytes, in as many writes as needed.
    ///
    /// # Errors
    ///
    /// [`IoFault`] exactly when a write failed, after a prefix of the bytes was written.
    fn write_all(&mut self, bytes: &[u8]) -> Result<(), IoFault>
        requires { failed self.old ≡ false }
        ensures { MatchResult result
            (λ _. (failed self.new ≡ false)
            × Appends (written self.old) (written self.new) bytes.now)
            (λ _. IsTrue (failed self.new)
            × AppendsPrefix (written self.old) (written self.new) bytes.now) }
    {
        let mut rest = bytes;
        while !rest.is_empty() {
            let count = self.write(rest)?;
            rest = &rest[count..];
        }
        Ok(())
    }
}
