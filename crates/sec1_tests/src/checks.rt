//! What the definitions of `sec1` say at keys and points of the standards, and what its constants
//! are. Each is proved from the public contracts and definitions.
ghost use Rattle.std.specs.Prelude.{◌≡◌, [], ◌∷◌, Some, None, false, length, IsOk};
ghost use Rattle.sec1.specs.Der.{Refuses};
ghost use Rattle.sec1.specs.KeyFaults.{key_fault};
ghost use Rattle.sec1.specs.Keys.{IsKeyOf};
ghost use Rattle.sec1.specs.Points.{compact, compressed, compressed_point, encoding, hybrid};
ghost use Rattle.sec1.specs.Points.{identity};
ghost use Rattle.sec1_tests.specs.Examples.{p_256_bytes, p_256_key, p_256_point};
ghost use Rattle.sec1_tests.specs.Examples.{p_256_base, p_256_base_compressed};

pub mod equality;

use sec1::der::{self, EncodeValue, ErrorKind, FixedTag, Length, ObjectIdentifier, Tag};
use sec1::{ALGORITHM_OID, EcPrivateKey, laws};

/// Returns the identifier of the keys' algorithm, id-ecPublicKey (RFC 5480 section 2.1.1).
pub fn algorithm_identifier() -> ObjectIdentifier
    ensures { result ≡ 1 ∷ 2 ∷ 840 ∷ 10045 ∷ 2 ∷ 1 ∷ [] }
{
    ALGORITHM_OID
}

/// Returns the tag of a key, which is that of a SEQUENCE (RFC 5915 section 3).
pub fn key_tag() -> Tag
    ensures { result ≡ 0x30 }
{
    EcPrivateKey::TAG
}

/// A key on P-256 and its bytes (RFC 5915 section 3).
#[tactic(auto, unfolding(sec1::specs::Der::length_octets))]
pub fn example_key()
    ensures { IsKeyOf p_256_key p_256_bytes }
{
    laws::tree_is_element();
}

/// Returns the length of the content of a key without optional fields. The longest private key that
/// has an encoding has 268,435,446 bytes: they and the nine in front of them are as many as a
/// content may have.
pub fn longest_private_key(key: &EcPrivateKey) -> der::Result<Length>
    requires { (key.now.parameters ≡ None) × (key.now.public_key ≡ None) }
    ensures within { length key.now.private_key ≡ 268435446 → IsOk result }
    ensures beyond { length key.now.private_key ≡ 268435447
        → Refuses result ErrorKind.Overlength }
{
    key.value_len()
}

/// Bytes that are refused as a key, and by which kind (RFC 5915 section 3).
#[tactic(auto, unfolding(sec1::specs::Der::length_octets, sec1::specs::KeyFaults::key_fault))]
pub fn example_refusals()
    ensures no_byte { key_fault [] ≡ Some (Some ErrorKind.Truncated) }
    ensures tag_before_length { key_fault (0x31 ∷ 0x80 ∷ []) ≡ Some (Some ErrorKind.Tag) }
    ensures indefinite_length { key_fault (0x30 ∷ 0x80 ∷ []) ≡ Some (Some ErrorKind.Length) }
    ensures less_than_announced { key_fault
        (0x30 ∷ 0x05 ∷ 0x02 ∷ 0x01 ∷ 0x01 ∷ 0x04 ∷ 0x01 ∷ 0xAA ∷ [])
        ≡ Some (Some ErrorKind.Truncated) }
    ensures another_version { key_fault (0x30 ∷ 0x06 ∷ 0x02 ∷ 0x02 ∷ 0x00 ∷ 0x01 ∷ 0x04 ∷ 0x00 ∷ [])
        ≡ Some (Some ErrorKind.Value) }
    ensures no_private_key { key_fault (0x30 ∷ 0x03 ∷ 0x02 ∷ 0x01 ∷ 0x01 ∷ [])
        ≡ Some (Some ErrorKind.Truncated) }
    ensures identifier { key_fault (0x30 ∷ 0x0C ∷ 0x02 ∷ 0x01 ∷ 0x01 ∷ 0x04 ∷ 0x00 ∷ 0xA0 ∷ 0x05
        ∷ 0x06 ∷ 0x03 ∷ 0x2A ∷ 0x80 ∷ 0x01 ∷ []) ≡ Some (Some ErrorKind.Value) }
    ensures field_twice { key_fault (0x30 ∷ 0x11 ∷ 0x02 ∷ 0x01 ∷ 0x01 ∷ 0x04 ∷ 0x00 ∷ 0xA0
        ∷ 0x04 ∷ 0x06 ∷ 0x02 ∷ 0x2A ∷ 0x03 ∷ 0xA0 ∷ 0x04 ∷ 0x06 ∷ 0x02 ∷ 0x2A ∷ 0x03 ∷ [])
        ≡ Some (Some ErrorKind.TrailingData) }
    ensures unused_bits { key_fault (0x30 ∷ 0x0B ∷ 0x02 ∷ 0x01 ∷ 0x01 ∷ 0x04 ∷ 0x00 ∷ 0xA1
        ∷ 0x04 ∷ 0x03 ∷ 0x02 ∷ 0x01 ∷ 0x00 ∷ []) ≡ Some (Some ErrorKind.Value) }
    ensures end_before_unused_bits { key_fault (0x30 ∷ 0x0D ∷ 0x02 ∷ 0x01 ∷ 0x01 ∷ 0x04 ∷ 0x00
        ∷ 0xA1 ∷ 0x06 ∷ 0x03 ∷ 0x02 ∷ 0x01 ∷ 0x00 ∷ 0x05 ∷ 0x00 ∷ [])
        ≡ Some (Some ErrorKind.TrailingData) }
    ensures bit_string_before_end { key_fault (0x30 ∷ 0x0D ∷ 0x02 ∷ 0x01 ∷ 0x01 ∷ 0x04 ∷ 0x00
        ∷ 0xA1 ∷ 0x06 ∷ 0x03 ∷ 0x02 ∷ 0x01 ∷ 0x01 ∷ 0x05 ∷ 0x00 ∷ [])
        ≡ Some (Some ErrorKind.Value) }
{}

/// Encodings of points (SEC1 v2.0 section 2.3.3): the public key of the key on P-256, the curve's
/// base point compressed (SEC 2 v2.0 section 2.4.2), and each other form at field elements of one
/// byte.
#[tactic(auto, unfolding(sec1::specs::Points::encoding, sec1::specs::Points::fixed_width))]
pub fn example_points()
    ensures public_key { Some (encoding 32 p_256_point) ≡ p_256_key.public_key }
    ensures compressed { encoding 32 (compressed_point p_256_base) ≡ p_256_base_compressed }
    ensures compressed_even { encoding 1 (compressed 1 false) ≡ 2 ∷ 1 ∷ [] }
    ensures identity { encoding 1 identity ≡ 0 ∷ [] }
    ensures compact { encoding 1 (compact 1) ≡ 5 ∷ 1 ∷ [] }
    ensures hybrid_even { encoding 1 (hybrid 1 2) ≡ 6 ∷ 1 ∷ 2 ∷ [] }
    ensures hybrid_odd { encoding 1 (hybrid 1 3) ≡ 7 ∷ 1 ∷ 3 ∷ [] }
{}
