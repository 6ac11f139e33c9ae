//! Laws for callers to cite: of trees, of the kinds by which elements are refused, of arcs, and
//! that a value is determined by its bytes. Each law is the contract of a function, which does
//! nothing else.
ghost use Rattle.std.specs.Iterator.{YieldsFirst};
ghost use Rattle.std.specs.Iterator.Runs.{EveryRun, ItemsMapTo};
ghost use Rattle.std.specs.Option.{option_or};
ghost use Rattle.std.specs.Prelude.{◌≡◌, ◌≢◌, ◌↔◌, ◌≤◌, ◌++◌, [], ℕ, Bool, List, length, Some};
ghost use Rattle.std.specs.Prelude.{◌<◌, ◌∷◌, None};
ghost use Rattle.sec1_der.specs.Contents.{bit_string_fault, byte_fault, identifier_fault};
ghost use Rattle.sec1_der.specs.Contents.{value_unless, whole_bits_fault, whole_bits_field_fault};
ghost use Rattle.sec1_der.specs.Elements.{element, header, max_length, IsElement, IsHeader};
ghost use Rattle.sec1_der.specs.Elements.{IsProperPrefix, length_octets};
ghost use Rattle.sec1_der.specs.Errors.{header_fault};
ghost use Rattle.sec1_der.specs.Faults.{Fault, any_fault, element_fault, end_fault, no_fault};
ghost use Rattle.sec1_der.specs.Faults.{document_fault, optional_fault, tree_fault, IsFaultOf};
ghost use Rattle.sec1_der.specs.Faults.{SaysKinds};
ghost use Rattle.sec1_der.specs.declared.error.ErrorKind.{ErrorKind};
ghost use Rattle.sec1_der.specs.Trees.{Tree, Forest, IsTree, IsTreeOf, AreTrees, bytes, joined};
ghost use Rattle.sec1_der.specs.Values.{octets_of, unused_bits_of, bit_bytes_of};
ghost use Rattle.sec1_der.specs.declared.bit_string.BitStringRef.{BitStringRef};
ghost use Rattle.sec1_der.specs.declared.octet_string.OctetStringRef.{OctetStringRef};

use crate::{BitStringRef, DecodeValue, ErrorKind, OctetStringRef, SliceReader, ValueContent};

/// A tree is determined by its bytes, whatever follows them.
#[tactic(auto, using(crate::proofs::TreeLemmas::tree_apart))]
pub fn trees_unique()
    ensures { (t u : Tree) (r s : List ℕ) → IsTree t → IsTree u → bytes t ++ r ≡ bytes u ++ s
        → (t ≡ u) × (r ≡ s) }
{}

/// A sequence of trees is determined by its bytes.
#[tactic(auto, using(crate::proofs::TreeLemmas::forest_apart))]
pub fn forests_unique()
    ensures { (f g : Forest) → AreTrees f → AreTrees g → joined f ≡ joined g → f ≡ g }
{}

/// No tree's bytes are a proper prefix of another's.
#[tactic(auto, using(crate::proofs::TreeLemmas::tree_ends))]
pub fn trees_prefix_free()
    ensures { (t u : Tree) (r : List ℕ) → IsTree t → IsTree u → bytes t ++ r ≡ bytes u → r ≡ [] }
{}

/// The bytes of a tree are one element.
#[tactic(auto, using(crate::proofs::TreeLemmas::tree_is_element))]
pub fn trees_are_elements()
    ensures { (t : Tree) (input : List ℕ) → IsTreeOf t input → IsElement input }
{}

/// An element that ends too early is refused as Truncated, whatever rule its content has to meet
/// and whatever may follow it.
#[tactic(auto, using(crate::proofs::ElementFaultLemmas::cut_elements))]
pub fn cut_elements()
    ensures element { (inside rest : Fault) (tag : ℕ) (content bytes : List ℕ)
        → length content ≤ max_length → IsProperPrefix bytes (element tag content)
        → element_fault tag inside rest bytes ≡ Some (Some ErrorKind.Truncated) }
    ensures any { (inside : ℕ → Fault) (rest : Fault) (tag : ℕ) (content bytes : List ℕ)
        → IsHeader tag (length content) → IsProperPrefix bytes (element tag content)
        → any_fault inside rest bytes ≡ Some (Some ErrorKind.Truncated) }
{}

/// The fault of an element with this tag, and of what follows it, is that of its content, or else
/// of what follows it.
pub fn whole_elements()
    ensures element { (inside after : Fault) (tag : ℕ) (content rest : List ℕ)
        → length content ≤ max_length
        → element_fault tag inside after (element tag content ++ rest)
        ≡ option_or (inside content) (after rest) }
    ensures any { (inside : ℕ → Fault) (after : Fault) (tag : ℕ) (content rest : List ℕ)
        → IsHeader tag (length content)
        → any_fault inside after (element tag content ++ rest)
        ≡ option_or (inside tag content) (after rest) }
{}

/// An element whose content has no fault is refused as TrailingData if bytes follow it, where
/// nothing may.
#[tactic(auto, using(crate::proofs::ElementFaultLemmas::trailing_fault))]
pub fn longer_elements()
    ensures element { (inside : Fault) (tag : ℕ) (content bytes : List ℕ)
        → length content ≤ max_length → inside content ≡ None
        → IsProperPrefix (element tag content) bytes
        → element_fault tag inside end_fault bytes ≡ Some (Some ErrorKind.TrailingData) }
    ensures any { (inside : ℕ → Fault) (tag : ℕ) (content bytes : List ℕ)
        → IsHeader tag (length content) → inside tag content ≡ None
        → IsProperPrefix (element tag content) bytes
        → any_fault inside end_fault bytes ≡ Some (Some ErrorKind.TrailingData) }
    ensures document { (tag : ℕ) (content bytes : List ℕ) → IsHeader tag (length content)
        → IsProperPrefix (element tag content) bytes
        → document_fault bytes ≡ Some (Some ErrorKind.TrailingData) }
{
    whole_elements();
}

/// Where a rule leaves no kind open, an error is of the kind that it says. Such are the rules of
/// this crate's types, of trees and of documents, and that of an element, or of an optional one, if
/// those of its content and of what follows it are.
#[tactic(auto, using(crate::proofs::KindLaws::said_kind, crate::proofs::KindLaws::kinds_said))]
pub fn said_kinds()
    ensures said { (rule : Fault) (bytes : List ℕ) (kind : ErrorKind) → SaysKinds rule
        → IsFaultOf (rule bytes) kind → rule bytes ≡ Some (Some kind) }
    // elements, and what follows them
    ensures element { (tag : ℕ) (content rest : Fault) → SaysKinds content → SaysKinds rest
        → SaysKinds (element_fault tag content rest) }
    ensures optional { (tag : ℕ) (content rest : Fault) → SaysKinds content → SaysKinds rest
        → SaysKinds (optional_fault tag content rest) }
    ensures any { (content : ℕ → Fault) (rest : Fault) → ((tag : ℕ) → SaysKinds (content tag))
        → SaysKinds rest → SaysKinds (any_fault content rest) }
    ensures end { SaysKinds end_fault }
    // contents: any bytes, those that pass a test, and those of this crate's types
    ensures none { SaysKinds no_fault }
    ensures test { (test : List ℕ → Bool) → SaysKinds (λ bytes. value_unless (test bytes)) }
    ensures version { (n : ℕ) → SaysKinds (byte_fault n) }
    ensures bits { SaysKinds bit_string_fault }
    ensures whole_bits { SaysKinds whole_bits_fault }
    ensures whole_bits_field { SaysKinds whole_bits_field_fault }
    ensures identifier { SaysKinds identifier_fault }
    // whole inputs
    ensures tree { SaysKinds tree_fault }
    ensures document { SaysKinds document_fault }
{}

/// A length below 128 is encoded as one byte, itself (X.690 section 8.1.3.4), so that the bytes of
/// short elements can be computed.
#[tactic(auto, unfolding(crate::specs::Elements::length_octets))]
pub fn short_lengths()
    ensures { (n : ℕ) → n < 128 → length_octets n ≡ n ∷ [] }
{}

/// Bytes that begin with no header are refused by the kind of the header's fault, whatever rule a
/// content has to meet and whatever may follow it.
#[tactic(auto, using(crate::proofs::ElementFaultLemmas::any_without_header))]
pub fn bytes_without_header()
    ensures { (inside : ℕ → Fault) (after : Fault) (bytes : List ℕ)
        → ((tag n : ℕ) (rest : List ℕ) → IsHeader tag n → bytes ≢ header tag n ++ rest)
        → any_fault inside after bytes ≡ Some (Some (header_fault bytes)) }
{}

/// Bytes are the content of a value of this type, which can be read, if and only if they meet the
/// rule of the type.
pub fn contents_meet_rule<'a, T: DecodeValue<'a> + Drop>(content: &'a [u8])
    requires { length content.now ≤ max_length }
    ensures { (T.fault content.now ≡ None)
        ↔ ((value : T) × (T.content value ≡ Some content.now)) }
{
    let _value = T::decode_value(&mut SliceReader::new(content));
}

/// Two octet strings with the same content have the same bytes.
pub fn one_octet_string()
    ensures { (a b : OctetStringRef) (bytes : List ℕ)
        → ⟦<OctetStringRef<'static> as ValueContent>⟧.content a ≡ Some bytes
        → ⟦<OctetStringRef<'static> as ValueContent>⟧.content b ≡ Some bytes
        → octets_of a ≡ octets_of b }
{}

/// Two bit strings with the same content have the same bytes, and as many unused bits.
pub fn one_bit_string()
    ensures { (a b : BitStringRef) (bytes : List ℕ)
        → ⟦<BitStringRef<'static> as ValueContent>⟧.content a ≡ Some bytes
        → ⟦<BitStringRef<'static> as ValueContent>⟧.content b ≡ Some bytes
        → (unused_bits_of a ≡ unused_bits_of b) × (bit_bytes_of a ≡ bit_bytes_of b) }
{}

/// Calls of `next` on the arcs of an identifier give those that were left, in order, as `eq` and
/// `collect` need.
pub fn arcs_in_order()
    ensures { EveryRun (YieldsFirst (λ (left : List ℕ). left))
        (λ run. ItemsMapTo run (λ arc. arc) run.from) }
{}
