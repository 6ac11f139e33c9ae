//! The content of an identifier, in memory of a fixed size.
ghost use Rattle.std.specs.Prelude.{◌≡◌, ℕ, List};
ghost use Rattle.der_view.specs.Identifiers.{identifier_in};

use arrayvec::ArrayVec;
use std::marker::Model;

/// The content of an identifier of at most 12 bytes; empty if there is none.
#[derive(Drop)]
pub(crate) struct Identifier {
    content: ArrayVec<u8, 12>,
}

impl Model for Identifier {
    ghost Value = { List ℕ };

    ghost view = { λ identifier. identifier.content.items };
}

impl Identifier {
    /// Returns the identifier with this content, or none if it is longer.
    pub(crate) fn of(content: &[u8]) -> Identifier
        ensures { result ≡ identifier_in content.now }
    {
        let mut items = ArrayVec::new();
        if content.len() <= 12 {
            let _ = items.try_extend_from_slice(content);
        }
        Identifier { content: items }
    }

    /// Borrows the content.
    pub(crate) fn as_bytes(&self) -> &[u8]
        ensures { result.now ≡ self.now }
    {
        self.content.as_slice()
    }
}
