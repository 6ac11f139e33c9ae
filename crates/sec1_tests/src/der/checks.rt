//! What the definitions of `sec1_der` say at values of the standards. Each is proved from the
//! public definitions. What most constants are, and what the writers leave in a slice, is proved in
//! `sec1_der` itself.
ghost use Rattle.std.specs.Prelude.{◌≡◌, [], ◌∷◌};
ghost use Rattle.sec1_der.specs.Elements.{length_octets};
ghost use Rattle.sec1_der.specs.Identifiers.{content_of};

pub mod equality;

use sec1_der::{FixedTag, IdentifierRef, Tag, Tagged};

/// Lengths where their form changes (X.690 section 8.1.3), and the greatest.
#[tactic(auto, unfolding(sec1_der::specs::Elements::length_octets))]
pub fn example_lengths()
    ensures short { length_octets 127 ≡ 0x7F ∷ [] }
    ensures one_digit { length_octets 128 ≡ 0x81 ∷ 0x80 ∷ [] }
    ensures last_of_one_digit { length_octets 255 ≡ 0x81 ∷ 0xFF ∷ [] }
    ensures two_digits { length_octets 256 ≡ 0x82 ∷ 0x01 ∷ 0x00 ∷ [] }
    ensures last_of_two_digits { length_octets 65535 ≡ 0x82 ∷ 0xFF ∷ 0xFF ∷ [] }
    ensures greatest { length_octets 268435455 ≡ 0x84 ∷ 0x0F ∷ 0xFF ∷ 0xFF ∷ 0xFF ∷ [] }
{}

/// The contents of P-256's identifier (RFC 5480 section 2.1.1.1), of 2.999, whose second arc is
/// above 39 (X.690 section 8.19.4), and of the greatest second arc.
pub fn example_identifiers()
    ensures p_256 { content_of (1 ∷ 2 ∷ 840 ∷ 10045 ∷ 3 ∷ 1 ∷ 7 ∷ [])
        ≡ 0x2A ∷ 0x86 ∷ 0x48 ∷ 0xCE ∷ 0x3D ∷ 0x03 ∷ 0x01 ∷ 0x07 ∷ [] }
    ensures example { content_of (2 ∷ 999 ∷ []) ≡ 0x88 ∷ 0x37 ∷ [] }
    ensures greatest { content_of (2 ∷ 4294967215 ∷ []) ≡ 0x8F ∷ 0xFF ∷ 0xFF ∷ 0xFF ∷ 0x7F ∷ [] }
{}

/// Returns [`FixedTag::TAG`] of [`IdentifierRef`], which is its [`fixed_tag`](Tagged::fixed_tag).
pub fn borrowed_identifier_tag() -> Tag
    ensures { result ≡ ⟦<IdentifierRef<'static> as Tagged>⟧.tag_byte }
{
    IdentifierRef::TAG
}
