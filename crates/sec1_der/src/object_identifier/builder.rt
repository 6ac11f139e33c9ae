//! Builds an identifier from the arcs of its text.
ghost use Rattle.std.specs.Prelude.{◌≡◌, ℕ, ◌<◌, ◌≤◌, ◌+◌, ◌*◌, ◌^◌, List, [], ◌∷◌, ◌++◌, length};
ghost use Rattle.std.specs.Prelude.{IsTrue, MatchOption, MatchResult, map};
ghost use Rattle.std.specs.Fmt.{decimal};
ghost use Rattle.std.specs.Int.Digits.{digits_of};
ghost use Rattle.sec1_der.specs.Identifiers.{are_arcs, IsIdentifier, content_of};
ghost use Rattle.sec1_der.specs.Identifiers.{max_identifier_length};
ghost use Rattle.sec1_der.specs.Elements.{base128};

use super::MAX_IDENTIFIER;
use crate::{ErrorKind, Result};
use std::marker::Model;

/// An identifier to which arcs are added one by one. A contract sees the arcs.
#[derive(Drop)]
pub(crate) struct Builder {
    arcs: Arcs,
}

/// The arcs that have been added.
#[derive(Drop)]
enum Arcs {
    /// None.
    Empty,
    /// The first, until the second is added, which shares a number with it.
    One(u32),
    /// Two or more, by their content.
    Several(Content),
}

impl Model for Builder {
    ghost use Rattle.std.specs.Prelude.{List, ℕ, [], ◌∷◌, ⊤, ◌≡◌, IsTrue};
    ghost use Rattle.sec1_der.specs.Identifiers.{arcs_of};
    ghost use Rattle.sec1_der.specs.Identifiers.{are_arcs, content_of};
    ghost use Rattle.sec1_der.specs.declared.object_identifier.builder.Arcs.TheVariants.{Empty};
    ghost use Rattle.sec1_der.specs.declared.object_identifier.builder.Arcs.TheVariants.{One};
    ghost use Rattle.sec1_der.specs.declared.object_identifier.builder.Arcs.TheVariants.{Several};

    ghost Value = { List ℕ };

    ghost view = { λ builder. elim builder.arcs as (λ _. List ℕ) [
      | Empty ↦ []
      | One arc ↦ arc ∷ []
      | Several content ↦ arcs_of content
    ] };

    // A content is that of its arcs.
    ghost invariant = { λ builder. elim builder.arcs as (λ _. Type 0) [
      | Empty ↦ ⊤
      | One arc ↦ ⊤
      | Several content ↦
          IsTrue (are_arcs (arcs_of content)) × (content ≡ content_of (arcs_of content))
    ] };
}

impl Builder {
    /// Creates a builder without arcs.
    pub(crate) fn new() -> Builder
        ensures { result ≡ [] }
    {
        Builder { arcs: Arcs::Empty }
    }

    /// Appends an arc.
    ///
    /// # Errors
    ///
    /// Value if no identifier begins with these arcs.
    pub(crate) fn add(self, arc: u32) -> Result<Builder>
        ensures { MatchResult result (λ builder. builder ≡ self ++ arc ∷ [])
            (λ e. (e.kind ≡ ErrorKind.Value) × ((further : List ℕ)
            → IsIdentifier (self ++ arc ∷ further) (content_of (self ++ arc ∷ further)) → ⊥)) }
    {
        match self.arcs {
            Arcs::Empty => Ok(Builder {
                arcs: Arcs::One(arc),
            }),
            Arcs::One(first) => {
                let number = shared_number(first, arc).ok_or(ErrorKind::Value)?;
                Ok(Builder {
                    arcs: Arcs::Several(Content::new().with_number(number)?),
                })
            }
            Arcs::Several(content) => Ok(Builder {
                arcs: Arcs::Several(content.with_number(arc)?),
            }),
        }
    }

    /// Returns the content of the identifier; `None` if it has fewer than two arcs.
    pub(crate) fn content(&self) -> Option<&[u8]>
        ensures { MatchOption result (length self.now < 2)
            (λ content. IsIdentifier self.now content.now) }
    {
        match &self.arcs {
            Arcs::Several(content) => Some(content.as_bytes()),
            Arcs::Empty | Arcs::One(_) => None,
        }
    }
}

/// Returns the first subidentifier, which encodes the first two arcs; `None` if no identifier
/// begins with them (X.690 section 8.19.4).
#[tactic(auto, using(std::proofs::lemmas::Bool::Decides::nat_tests))]
fn shared_number(a: u32, b: u32) -> Option<u32>
    ensures { MatchOption result (¬ IsTrue (are_arcs (a ∷ b ∷ [])))
        (λ n. (n ≡ 40 * a + b) × IsTrue (are_arcs (a ∷ b ∷ []))) }
{
    if a > 2 || a < 2 && b >= 40 {
        return None;
    }
    b.checked_add(40 * a)
}

/// Parses an arc: decimal digits without a sign or a leading zero.
#[tactic(auto, using(crate::proofs::ArcLemmas::arc_digits))]
pub(crate) fn arc(text: &str) -> Option<u32>
    ensures { MatchOption result ((n : ℕ) → n < 2 ^ 32 → text.now ≡ decimal n → ⊥)
        (λ n. (n < 2 ^ 32) × (text.now ≡ decimal n)) }
{
    let bytes = text.as_bytes();
    if bytes.is_empty() {
        return None;
    }
    if bytes[0] == b'+' {
        return None;
    }
    if bytes[0] == b'0' && bytes.len() > 1 {
        return None;
    }
    match text.parse::<u32>() {
        Ok(n) => Some(n),
        Err(_) => None,
    }
}

/// The content of an identifier.
#[derive(Drop)]
struct Content {
    bytes: [u8; MAX_IDENTIFIER],
    len: usize,
}

impl Model for Content {
    ghost use Rattle.std.specs.Prelude.{List, ℕ, ◌≤◌, take};
    ghost use Rattle.sec1_der.specs.Identifiers.{max_identifier_length};

    ghost Value = { List ℕ };

    ghost view = { λ c. take c.len c.bytes };

    ghost invariant = { λ c. c.len ≤ max_identifier_length };
}

impl Content {
    /// Creates an empty content.
    fn new() -> Content
        ensures { result ≡ [] }
    {
        Content {
            bytes: [0; MAX_IDENTIFIER],
            len: 0,
        }
    }

    /// Borrows the bytes.
    fn as_bytes(&self) -> &[u8]
        ensures { (result.now ≡ self.now) × (length result.now ≤ max_identifier_length) }
    {
        &self.bytes[..self.len]
    }

    /// Appends a subidentifier in base 128 (X.690 section 8.19.2).
    ///
    /// # Errors
    ///
    /// Value if it has no room.
    fn with_number(mut self, n: u32) -> Result<Content>
        ensures { MatchResult result (λ content. content ≡ self ++ base128 n)
            (λ e. (e.kind ≡ ErrorKind.Value)
            × (max_identifier_length < length self + length (base128 n))) }
    {
        self.push_marked(n / 128)?;
        self.push((n % 128) as u8)?;
        Ok(self)
    }

    /// Appends the base 128 digits of a number, none for 0, each with bit 80 (hexadecimal) set.
    #[tactic(auto, using(crate::proofs::IdentifierLemmas::marked_steps))]
    fn push_marked(&mut self, n: u32) -> Result<()>
        ensures { let digits = map (λ digit. 0x80 + digit) (digits_of 128 n) in
            MatchResult result (λ _. self.new ≡ self.old ++ digits)
            (λ e. (e.kind ≡ ErrorKind.Value)
            × (max_identifier_length < length self.old + length digits)) }
    {
        if n == 0 {
            return Ok(());
        }
        self.push_marked(n / 128)?;
        self.push((128 + n % 128) as u8)
    }

    /// Appends one byte.
    ///
    /// # Errors
    ///
    /// Value if the content is full.
    fn push(&mut self, byte: u8) -> Result<()>
        ensures { MatchResult result (λ _. self.new ≡ self.old ++ byte ∷ [])
            (λ e. (e.kind ≡ ErrorKind.Value) × (max_identifier_length ≤ length self.old)) }
    {
        if self.len == MAX_IDENTIFIER {
            return Err(ErrorKind::Value.into());
        }
        self.bytes[self.len] = byte;
        self.len += 1;
        Ok(())
    }
}
