//! The structures that bytes are refused as, which the definitions of `specs/` read too. They are
//! those of the readers: the table of pictures has more, and draws what no reader accepts.
ghost use Rattle.std.specs.Prelude.{◌≡◌, ◌≤◌, length, option_map};
ghost use Rattle.sec1_der.specs.Elements.{max_length};
ghost use Rattle.der_view.specs.Containers.{has_version_one};
ghost use Rattle.der_view.specs.FaultPlaces.{inside_of};

use self::Rule::*;
use crate::grammar::Presence::{self, *};
use sec1_der::{SliceReader, SmallInteger};

/// What a content has to be.
#[rattlefmt::skip]
#[derive(Clone, Copy)]
pub(crate) enum Rule {
    // The components of a structure, which stand below.
    Tree, EcPrivateKey, Curve, Point, Signature, Algorithm, PublicKeyInfo, Container, KeyAttributes,
    KeyAttribute, Certificate, TbsCertificate, Version, Name, RelativeName, NameAttribute, Validity,
    ExtensionsField, Extensions, Extension,
    /// Any bytes.
    Bytes,
    /// The number 0.
    Zero,
    /// The number 1.
    One,
    /// The version of a certificate that isn't of version 1 (RFC 5280 section 4.1.2.1).
    LaterVersion,
    /// An INTEGER (X.690 section 8.3).
    Integer,
    /// An INTEGER that isn't negative.
    Unsigned,
    /// A BOOLEAN that isn't FALSE, the default (X.690 section 11.5).
    True,
    /// A BIT STRING (X.690 section 8.6).
    Bits,
    /// An OBJECT IDENTIFIER (X.690 section 8.19).
    Identifier,
    /// An OBJECT IDENTIFIER that the reader of EC keys takes.
    CurveName,
    /// A UTCTime or a GeneralizedTime, as the tag says.
    Time,
}

/// A component of a structure: its tag, whether it may be absent, and its content. The tag `17`
/// stands for a UTCTime or a GeneralizedTime (RFC 5280 section 4.1.2.5), and `00` for any. One that
/// may come many times is the last.
pub(crate) type Component = (u8, Presence, Rule);

/// The components of each structure, in the order of [`Rule`].
#[rattlefmt::skip]
static STRUCTURES: [&[Component]; 20] = [
    // Elements again, if the tag is constructed (X.690 section 8.1.2.5).
    &[(0x00, Many, Tree)],
    // ECPrivateKey (RFC 5915 section 3).
    &[(0x02, Needed, One), (0x04, Needed, Bytes), (0xA0, Optional, Curve), (0xA1, Optional, Point)],
    // ECParameters of an EC key: the name of a curve (RFC 5480 section 2.1.1).
    &[(0x06, Needed, CurveName)],
    // The public key of an EC key (RFC 5915 section 3): a BIT STRING without unused bits.
    &[(0x03, Needed, Bits)],
    // Ecdsa-Sig-Value (RFC 3279 section 2.2.3).
    &[(0x02, Needed, Unsigned), (0x02, Needed, Unsigned)],
    // AlgorithmIdentifier (RFC 5280 section 4.1.1.2).
    &[(0x06, Needed, Identifier), (0x00, Optional, Bytes)],
    // SubjectPublicKeyInfo (RFC 5280 section 4.1).
    &[(0x30, Needed, Algorithm), (0x03, Needed, Bits)],
    // PrivateKeyInfo (RFC 5208 section 5), which a container is without the version 1.
    &[(0x02, Needed, Zero), (0x30, Needed, Algorithm), (0x04, Needed, Bytes),
        (0xA0, Optional, KeyAttributes)],
    // Attributes (RFC 5958 section 2), in ascending order (X.690 section 11.6).
    &[(0x30, Many, KeyAttribute)],
    // Attribute (RFC 5958 section 2).
    &[(0x06, Needed, Identifier), (0x31, Needed, Bytes)],
    // Certificate (RFC 5280 section 4.1).
    &[(0x30, Needed, TbsCertificate), (0x30, Needed, Algorithm), (0x03, Needed, Bits)],
    // TBSCertificate (RFC 5280 section 4.1).
    &[(0xA0, Optional, Version), (0x02, Needed, Integer), (0x30, Needed, Algorithm),
        (0x30, Needed, Name), (0x30, Needed, Validity), (0x30, Needed, Name),
        (0x30, Needed, PublicKeyInfo), (0x81, Optional, Bits), (0x82, Optional, Bits),
        (0xA3, Optional, ExtensionsField)],
    // A version with an explicit tag.
    &[(0x02, Needed, LaterVersion)],
    // Name (RFC 5280 section 4.1.2.4).
    &[(0x31, Many, RelativeName)],
    // RelativeDistinguishedName (RFC 5280 section 4.1.2.4), in ascending order.
    &[(0x30, Many, NameAttribute)],
    // AttributeTypeAndValue (RFC 5280 section 4.1.2.4).
    &[(0x06, Needed, Identifier), (0x00, Needed, Bytes)],
    // Validity (RFC 5280 section 4.1.2.5).
    &[(0x17, Needed, Time), (0x17, Needed, Time)],
    // Extensions with an explicit tag.
    &[(0x30, Needed, Extensions)],
    // Extensions (RFC 5280 section 4.1.2.9).
    &[(0x30, Many, Extension)],
    // Extension (RFC 5280 section 4.1.2.9).
    &[(0x06, Needed, Identifier), (0x01, Optional, True), (0x04, Needed, Bytes)],
];

/// OneAsymmetricKey (RFC 5958 section 2), which a container is that begins with the version 1.
#[rattlefmt::skip]
const ONE_ASYMMETRIC_KEY: [Component; 5] = [
    (0x02, Needed, One), (0x30, Needed, Algorithm), (0x04, Needed, Bytes),
    (0xA0, Optional, KeyAttributes), (0x81, Optional, Bits),
];

/// Borrows the components that the content of an element with this tag has to be, if they are of a
/// structure.
pub(super) fn inside_of(rule: Rule, tag: u8, content: &[u8]) -> Option<&'static [Component]>
    requires { length content.now ≤ max_length }
    ensures { option_map (λ row. row.now) result ≡ inside_of rule tag content.now }
{
    match rule {
        Tree if tag & 0x20 == 0 => None,
        Container if has_version_one(content) => Some(&ONE_ASYMMETRIC_KEY),
        _ => STRUCTURES.get(rule as usize).copied(),
    }
}

/// Returns `true` if a content begins with the INTEGER 1.
fn has_version_one(content: &[u8]) -> bool
    requires { length content.now ≤ max_length }
    ensures { result ≡ has_version_one content.now }
{
    SliceReader::new(content)
        .decode::<SmallInteger<1>>()
        .is_ok()
}
