//! What the laws of `sec1` and `sec1_der` give a caller.
ghost use Rattle.std.specs.Prelude.{◌≡◌, ◌≢◌, ◌⊎◌, ◌≤◌, ◌++◌, ◌∷◌, ℕ, List, length, None, Some};
ghost use Rattle.std.specs.Prelude.{IsSome};
ghost use Rattle.sec1.specs.Der.{bytes, element, element_fault, end_fault, max_length, octets_of};
ghost use Rattle.sec1.specs.Der.{bit_bytes_of, element_of, Fault, Forest, IsTree, Tree};
ghost use Rattle.sec1.specs.Keys.{IsKeyOf, Key};
ghost use Rattle.sec1.specs.Parameters.{curve_of};
ghost use Rattle.sec1_der.specs.Trees.{joined, AreTrees};
ghost use Rattle.sec1_der.specs.declared.bit_string.BitStringRef.{BitStringRef};
ghost use Rattle.sec1_der.specs.declared.octet_string.OctetStringRef.{OctetStringRef};
ghost use Rattle.sec1_der.specs.declared.version.VersionOne.{VersionOne};
ghost use Rattle.sec1.specs.declared.parameters.EcParameters.{EcParameters};

use sec1::der::{
    BitStringRef, EncodeValue, ObjectIdentifier, OctetStringRef, Tagged, UniqueContent,
    ValueContent, VersionOne, laws,
};
use sec1::{EcParameters, EcPrivateKey};

/// A tree with a byte after it is no tree.
pub fn no_longer_tree()
    ensures { (t u : Tree) (byte : ℕ) (rest : List ℕ) → IsTree t → IsTree u
        → bytes t ++ byte ∷ rest ≢ bytes u }
{
    laws::trees_prefix_free();
}

/// Bytes are those of one row of trees at most.
pub fn one_forest()
    ensures { (input : List ℕ) (f g : Forest) → AreTrees f → AreTrees g → joined f ≡ input
        → joined g ≡ input → f ≡ g }
{
    laws::forests_unique();
}

/// Where the content of an element has no fault, the fault is that of the bytes after it.
pub fn fault_after_element()
    ensures { (inside : Fault) (tag : ℕ) (content rest : List ℕ) → length content ≤ max_length
        → inside content ≡ None
        → element_fault tag inside end_fault (element tag content ++ rest) ≡ end_fault rest }
{
    laws::whole_elements();
}

/// Octet strings with other bytes have other contents.
pub fn other_octets()
    ensures { (a b : OctetStringRef) (content : List ℕ) → octets_of a ≢ octets_of b
        → ⟦<OctetStringRef<'static> as ValueContent>⟧.content a ≡ Some content
        → ⟦<OctetStringRef<'static> as ValueContent>⟧.content b ≢ Some content }
{
    laws::one_octet_string();
}

/// Bit strings with other bytes have other contents.
pub fn other_bits()
    ensures { (a b : BitStringRef) (content : List ℕ) → bit_bytes_of a ≢ bit_bytes_of b
        → ⟦<BitStringRef<'static> as ValueContent>⟧.content a ≡ Some content
        → ⟦<BitStringRef<'static> as ValueContent>⟧.content b ≢ Some content }
{
    laws::one_bit_string();
}

/// Parameters that name other curves have other contents.
pub fn other_curve()
    ensures { (a b : EcParameters) (content : List ℕ) → curve_of a ≢ curve_of b
        → ⟦<EcParameters as ValueContent>⟧.content a ≡ Some content
        → ⟦<EcParameters as ValueContent>⟧.content b ≢ Some content }
{
    EcParameters::content_injective();
}

/// Two versions with the same content are the same.
pub fn one_version()
    ensures { (a b : VersionOne) (content : List ℕ)
        → ⟦<VersionOne as ValueContent>⟧.content a ≡ Some content
        → ⟦<VersionOne as ValueContent>⟧.content b ≡ Some content
        → a ≡ b }
{
    VersionOne::content_injective();
}

/// Two identifiers with the same content have the same arcs.
pub fn one_identifier()
    ensures { (a b content : List ℕ)
        → ⟦<ObjectIdentifier as ValueContent>⟧.content a ≡ Some content
        → ⟦<ObjectIdentifier as ValueContent>⟧.content b ≡ Some content
        → a ≡ b }
{
    ObjectIdentifier::content_injective();
}

/// Two keys with the same content have the same parts.
pub fn one_key()
    ensures { (a b : Key) (content : List ℕ)
        → ⟦<EcPrivateKey<'static> as ValueContent>⟧.content a ≡ Some content
        → ⟦<EcPrivateKey<'static> as ValueContent>⟧.content b ≡ Some content
        → a ≡ b }
{
    EcPrivateKey::content_injective();
}

/// A value either has an encoding or has none.
pub fn element_or_none<T: EncodeValue + Tagged>(value: &T)
    ensures { (element_of T.tag_byte (T.content value.now) ≡ None)
        ⊎ IsSome (element_of T.tag_byte (T.content value.now)) }
{
    let _value = value;
}

/// A key either has an encoding or has none.
pub fn bytes_or_none(key: &EcPrivateKey)
    ensures { ((bytes : List ℕ) → ¬ IsKeyOf key.now bytes)
        ⊎ ((bytes : List ℕ) × IsKeyOf key.now bytes) }
{
    let _len = key.encoded_len();
}
