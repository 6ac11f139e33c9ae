//! The named elliptic curves over prime fields of SEC 2 (RFC 5480 section 2.1.1.1), of ANSI X9.62
//! (RFC 3279 section 2.3.5) and of RFC 5639: their identifiers, their names and the lengths of
//! their fields.
ghost use Rattle.std.specs.Prelude.{◌≡◌, ◌↔◌, IsTrue, IfSome, Some, option_map};
ghost use Rattle.curves.specs.Curves.{curve_arcs, curve_content, curve_name, curve_alias};
ghost use Rattle.curves.specs.Curves.{x962_name, IsNameOf, field_len};

use sec1_der::{ObjectIdentifier, UniqueContent};

/// A named elliptic curve over a prime field: those of SEC 2 v1.0 and v2.0, among which are the
/// five of RFC 5480 section 2.1.1.1, the further ones of ANSI X9.62, and those of RFC 5639.
#[derive(Clone, Copy, Debug, PartialEq, Eq)]
pub enum Curve {
    /// secp112r1, over a prime of 112 bits (SEC 2 v1.0 section 2.2.1).
    Secp112r1,
    /// secp112r2, over a prime of 112 bits (SEC 2 v1.0 section 2.2.2).
    Secp112r2,
    /// secp128r1, over a prime of 128 bits (SEC 2 v1.0 section 2.3.1).
    Secp128r1,
    /// secp128r2, over a prime of 128 bits (SEC 2 v1.0 section 2.3.2).
    Secp128r2,
    /// secp160k1, over a prime of 160 bits (SEC 2 v1.0 section 2.4.1).
    Secp160k1,
    /// secp160r1, over a prime of 160 bits (SEC 2 v1.0 section 2.4.2).
    Secp160r1,
    /// secp160r2, over a prime of 160 bits (SEC 2 v1.0 section 2.4.3).
    Secp160r2,
    /// secp192k1, over a prime of 192 bits (SEC 2 v2.0 section 2.2.1).
    Secp192k1,
    /// secp192r1, over a prime of 192 bits (SEC 2 v2.0 section 2.2.2).
    Secp192r1,
    /// secp224k1, over a prime of 224 bits (SEC 2 v2.0 section 2.3.1).
    Secp224k1,
    /// secp224r1, over a prime of 224 bits (SEC 2 v2.0 section 2.3.2).
    Secp224r1,
    /// secp256k1, over a prime of 256 bits (SEC 2 v2.0 section 2.4.1).
    Secp256k1,
    /// secp256r1, over a prime of 256 bits (SEC 2 v2.0 section 2.4.2).
    Secp256r1,
    /// secp384r1, over a prime of 384 bits (SEC 2 v2.0 section 2.5.1).
    Secp384r1,
    /// secp521r1, over a prime of 521 bits (SEC 2 v2.0 section 2.6.1).
    Secp521r1,
    /// prime192v2, over a prime of 192 bits (ANSI X9.62, RFC 3279 section 2.3.5).
    Prime192v2,
    /// prime192v3, over a prime of 192 bits (ANSI X9.62, RFC 3279 section 2.3.5).
    Prime192v3,
    /// prime239v1, over a prime of 239 bits (ANSI X9.62, RFC 3279 section 2.3.5).
    Prime239v1,
    /// prime239v2, over a prime of 239 bits (ANSI X9.62, RFC 3279 section 2.3.5).
    Prime239v2,
    /// prime239v3, over a prime of 239 bits (ANSI X9.62, RFC 3279 section 2.3.5).
    Prime239v3,
    /// brainpoolP160r1, over a prime of 160 bits (RFC 5639 section 3.1).
    BrainpoolP160r1,
    /// brainpoolP160t1, over a prime of 160 bits (RFC 5639 section 3.1).
    BrainpoolP160t1,
    /// brainpoolP192r1, over a prime of 192 bits (RFC 5639 section 3.2).
    BrainpoolP192r1,
    /// brainpoolP192t1, over a prime of 192 bits (RFC 5639 section 3.2).
    BrainpoolP192t1,
    /// brainpoolP224r1, over a prime of 224 bits (RFC 5639 section 3.3).
    BrainpoolP224r1,
    /// brainpoolP224t1, over a prime of 224 bits (RFC 5639 section 3.3).
    BrainpoolP224t1,
    /// brainpoolP256r1, over a prime of 256 bits (RFC 5639 section 3.4).
    BrainpoolP256r1,
    /// brainpoolP256t1, over a prime of 256 bits (RFC 5639 section 3.4).
    BrainpoolP256t1,
    /// brainpoolP320r1, over a prime of 320 bits (RFC 5639 section 3.5).
    BrainpoolP320r1,
    /// brainpoolP320t1, over a prime of 320 bits (RFC 5639 section 3.5).
    BrainpoolP320t1,
    /// brainpoolP384r1, over a prime of 384 bits (RFC 5639 section 3.6).
    BrainpoolP384r1,
    /// brainpoolP384t1, over a prime of 384 bits (RFC 5639 section 3.6).
    BrainpoolP384t1,
    /// brainpoolP512r1, over a prime of 512 bits (RFC 5639 section 3.7).
    BrainpoolP512r1,
    /// brainpoolP512t1, over a prime of 512 bits (RFC 5639 section 3.7).
    BrainpoolP512t1,
}

impl Curve {
    /// Each curve of the table, in the order of the variants.
    pub const ALL: [Curve; 34] = [
        Curve::Secp112r1,
        Curve::Secp112r2,
        Curve::Secp128r1,
        Curve::Secp128r2,
        Curve::Secp160k1,
        Curve::Secp160r1,
        Curve::Secp160r2,
        Curve::Secp192k1,
        Curve::Secp192r1,
        Curve::Secp224k1,
        Curve::Secp224r1,
        Curve::Secp256k1,
        Curve::Secp256r1,
        Curve::Secp384r1,
        Curve::Secp521r1,
        Curve::Prime192v2,
        Curve::Prime192v3,
        Curve::Prime239v1,
        Curve::Prime239v2,
        Curve::Prime239v3,
        Curve::BrainpoolP160r1,
        Curve::BrainpoolP160t1,
        Curve::BrainpoolP192r1,
        Curve::BrainpoolP192t1,
        Curve::BrainpoolP224r1,
        Curve::BrainpoolP224t1,
        Curve::BrainpoolP256r1,
        Curve::BrainpoolP256t1,
        Curve::BrainpoolP320r1,
        Curve::BrainpoolP320t1,
        Curve::BrainpoolP384r1,
        Curve::BrainpoolP384t1,
        Curve::BrainpoolP512r1,
        Curve::BrainpoolP512t1,
    ];

    /// Returns the content of the curve's OBJECT IDENTIFIER (X.690 section 8.19).
    pub const fn content(self) -> &'static [u8]
        ensures { result.now ≡ curve_content self }
    {
        match self {
            Curve::Secp112r1 => &[0x2B, 0x81, 0x04, 0x00, 0x06],
            Curve::Secp112r2 => &[0x2B, 0x81, 0x04, 0x00, 0x07],
            Curve::Secp128r1 => &[0x2B, 0x81, 0x04, 0x00, 0x1C],
            Curve::Secp128r2 => &[0x2B, 0x81, 0x04, 0x00, 0x1D],
            Curve::Secp160k1 => &[0x2B, 0x81, 0x04, 0x00, 0x09],
            Curve::Secp160r1 => &[0x2B, 0x81, 0x04, 0x00, 0x08],
            Curve::Secp160r2 => &[0x2B, 0x81, 0x04, 0x00, 0x1E],
            Curve::Secp192k1 => &[0x2B, 0x81, 0x04, 0x00, 0x1F],
            Curve::Secp192r1 => &[0x2A, 0x86, 0x48, 0xCE, 0x3D, 0x03, 0x01, 0x01],
            Curve::Secp224k1 => &[0x2B, 0x81, 0x04, 0x00, 0x20],
            Curve::Secp224r1 => &[0x2B, 0x81, 0x04, 0x00, 0x21],
            Curve::Secp256k1 => &[0x2B, 0x81, 0x04, 0x00, 0x0A],
            Curve::Secp256r1 => &[0x2A, 0x86, 0x48, 0xCE, 0x3D, 0x03, 0x01, 0x07],
            Curve::Secp384r1 => &[0x2B, 0x81, 0x04, 0x00, 0x22],
            Curve::Secp521r1 => &[0x2B, 0x81, 0x04, 0x00, 0x23],
            Curve::Prime192v2 => &[0x2A, 0x86, 0x48, 0xCE, 0x3D, 0x03, 0x01, 0x02],
            Curve::Prime192v3 => &[0x2A, 0x86, 0x48, 0xCE, 0x3D, 0x03, 0x01, 0x03],
            Curve::Prime239v1 => &[0x2A, 0x86, 0x48, 0xCE, 0x3D, 0x03, 0x01, 0x04],
            Curve::Prime239v2 => &[0x2A, 0x86, 0x48, 0xCE, 0x3D, 0x03, 0x01, 0x05],
            Curve::Prime239v3 => &[0x2A, 0x86, 0x48, 0xCE, 0x3D, 0x03, 0x01, 0x06],
            Curve::BrainpoolP160r1 => &[0x2B, 0x24, 0x03, 0x03, 0x02, 0x08, 0x01, 0x01, 0x01],
            Curve::BrainpoolP160t1 => &[0x2B, 0x24, 0x03, 0x03, 0x02, 0x08, 0x01, 0x01, 0x02],
            Curve::BrainpoolP192r1 => &[0x2B, 0x24, 0x03, 0x03, 0x02, 0x08, 0x01, 0x01, 0x03],
            Curve::BrainpoolP192t1 => &[0x2B, 0x24, 0x03, 0x03, 0x02, 0x08, 0x01, 0x01, 0x04],
            Curve::BrainpoolP224r1 => &[0x2B, 0x24, 0x03, 0x03, 0x02, 0x08, 0x01, 0x01, 0x05],
            Curve::BrainpoolP224t1 => &[0x2B, 0x24, 0x03, 0x03, 0x02, 0x08, 0x01, 0x01, 0x06],
            Curve::BrainpoolP256r1 => &[0x2B, 0x24, 0x03, 0x03, 0x02, 0x08, 0x01, 0x01, 0x07],
            Curve::BrainpoolP256t1 => &[0x2B, 0x24, 0x03, 0x03, 0x02, 0x08, 0x01, 0x01, 0x08],
            Curve::BrainpoolP320r1 => &[0x2B, 0x24, 0x03, 0x03, 0x02, 0x08, 0x01, 0x01, 0x09],
            Curve::BrainpoolP320t1 => &[0x2B, 0x24, 0x03, 0x03, 0x02, 0x08, 0x01, 0x01, 0x0A],
            Curve::BrainpoolP384r1 => &[0x2B, 0x24, 0x03, 0x03, 0x02, 0x08, 0x01, 0x01, 0x0B],
            Curve::BrainpoolP384t1 => &[0x2B, 0x24, 0x03, 0x03, 0x02, 0x08, 0x01, 0x01, 0x0C],
            Curve::BrainpoolP512r1 => &[0x2B, 0x24, 0x03, 0x03, 0x02, 0x08, 0x01, 0x01, 0x0D],
            Curve::BrainpoolP512t1 => &[0x2B, 0x24, 0x03, 0x03, 0x02, 0x08, 0x01, 0x01, 0x0E],
        }
    }

    /// Returns the curve's identifier (SEC 2 appendix A.2.1, RFC 5480 section 2.1.1.1, RFC 3279
    /// section 2.3.5, RFC 5639 section 4.1).
    pub fn identifier(self) -> ObjectIdentifier
        ensures { result ≡ curve_arcs self }
    {
        match ObjectIdentifier::from_bytes(self.content()) {
            Ok(identifier) => identifier,
            Err(_) => unreachable!(),
        }
    }

    /// Returns the curve with this content of its OBJECT IDENTIFIER; `None` if the table has none.
    #[tactic(auto, using(crate::proofs::CurveLemmas::one_content))]
    pub fn from_content(content: &[u8]) -> Option<Curve>
        ensures found { IfSome result (λ curve. curve_content curve ≡ content.now) }
        ensures only { (curve : Curve) → curve_content curve ≡ content.now → result ≡ Some curve }
    {
        // The curve of most keys is tried first.
        if content == Curve::Secp256r1.content() {
            return Some(Curve::Secp256r1);
        }
        Curve::ALL
            .iter()
            .copied()
            .find(|curve| curve.content() == content)
    }

    /// Returns the curve with this identifier; `None` if the table has none.
    pub fn from_identifier(identifier: &ObjectIdentifier) -> Option<Curve>
        ensures found { IfSome result (λ curve. curve_arcs curve ≡ identifier.now) }
        ensures only { (curve : Curve) → curve_arcs curve ≡ identifier.now → result ≡ Some curve }
    {
        ObjectIdentifier::content_injective();
        Curve::from_content(identifier.as_bytes())
    }

    /// Returns the curve's name in SEC 2, such as secp256r1, or if it isn't in SEC 2, its name in
    /// ANSI X9.62 or RFC 5639.
    pub const fn name(self) -> &'static str
        ensures { result.now ≡ curve_name self }
    {
        match self {
            Curve::Secp112r1 => "secp112r1",
            Curve::Secp112r2 => "secp112r2",
            Curve::Secp128r1 => "secp128r1",
            Curve::Secp128r2 => "secp128r2",
            Curve::Secp160k1 => "secp160k1",
            Curve::Secp160r1 => "secp160r1",
            Curve::Secp160r2 => "secp160r2",
            Curve::Secp192k1 => "secp192k1",
            Curve::Secp192r1 => "secp192r1",
            Curve::Secp224k1 => "secp224k1",
            Curve::Secp224r1 => "secp224r1",
            Curve::Secp256k1 => "secp256k1",
            Curve::Secp256r1 => "secp256r1",
            Curve::Secp384r1 => "secp384r1",
            Curve::Secp521r1 => "secp521r1",
            Curve::Prime192v2 => "prime192v2",
            Curve::Prime192v3 => "prime192v3",
            Curve::Prime239v1 => "prime239v1",
            Curve::Prime239v2 => "prime239v2",
            Curve::Prime239v3 => "prime239v3",
            Curve::BrainpoolP160r1 => "brainpoolP160r1",
            Curve::BrainpoolP160t1 => "brainpoolP160t1",
            Curve::BrainpoolP192r1 => "brainpoolP192r1",
            Curve::BrainpoolP192t1 => "brainpoolP192t1",
            Curve::BrainpoolP224r1 => "brainpoolP224r1",
            Curve::BrainpoolP224t1 => "brainpoolP224t1",
            Curve::BrainpoolP256r1 => "brainpoolP256r1",
            Curve::BrainpoolP256t1 => "brainpoolP256t1",
            Curve::BrainpoolP320r1 => "brainpoolP320r1",
            Curve::BrainpoolP320t1 => "brainpoolP320t1",
            Curve::BrainpoolP384r1 => "brainpoolP384r1",
            Curve::BrainpoolP384t1 => "brainpoolP384t1",
            Curve::BrainpoolP512r1 => "brainpoolP512r1",
            Curve::BrainpoolP512t1 => "brainpoolP512t1",
        }
    }

    /// Returns the curve's name in FIPS 186-4 appendix D.1.2, such as P-256; `None` if it has none.
    pub const fn alias(self) -> Option<&'static str>
        ensures { option_map (λ text. text.now) result ≡ curve_alias self }
    {
        match self {
            Curve::Secp192r1 => Some("P-192"),
            Curve::Secp224r1 => Some("P-224"),
            Curve::Secp256r1 => Some("P-256"),
            Curve::Secp384r1 => Some("P-384"),
            Curve::Secp521r1 => Some("P-521"),
            _ => None,
        }
    }

    /// Returns the curve's name in ANSI X9.62 (RFC 3279 section 2.3.5), such as prime256v1; `None`
    /// if it has none.
    pub const fn x962_name(self) -> Option<&'static str>
        ensures { option_map (λ text. text.now) result ≡ x962_name self }
    {
        match self {
            Curve::Secp192r1 => Some("prime192v1"),
            Curve::Secp256r1 => Some("prime256v1"),
            Curve::Prime192v2 => Some("prime192v2"),
            Curve::Prime192v3 => Some("prime192v3"),
            Curve::Prime239v1 => Some("prime239v1"),
            Curve::Prime239v2 => Some("prime239v2"),
            Curve::Prime239v3 => Some("prime239v3"),
            _ => None,
        }
    }

    /// Returns `true` if the text is the curve's [`name`](Self::name), [`alias`](Self::alias) or
    /// [`x962_name`](Self::x962_name). The case of letters counts.
    pub fn has_name(self, text: &str) -> bool
        ensures { IsTrue result ↔ IsNameOf text.now self }
    {
        self.name() == text || self.alias() == Some(text) || self.x962_name() == Some(text)
    }

    /// Returns the curve with this name, as [`has_name`](Self::has_name) tests it; `None` if the
    /// table has none.
    ///
    /// # Examples
    ///
    /// ```
    /// let curve = Curve::from_name(name)?;
    /// Some(curve.field_len())
    /// ```
    pub fn from_name(text: &str) -> Option<Curve>
        ensures found { IfSome result (IsNameOf text.now) }
        ensures only { (curve : Curve) → IsNameOf text.now curve → result ≡ Some curve }
    {
        Curve::ALL
            .iter()
            .copied()
            .find(|curve| curve.has_name(text))
    }

    /// Returns the length in bytes of an element of the curve's field (SEC1 v2.0 section 2.3.5).
    pub const fn field_len(self) -> usize
        ensures { result ≡ field_len self }
    {
        match self {
            Curve::Secp112r1 | Curve::Secp112r2 => 14,
            Curve::Secp128r1 | Curve::Secp128r2 => 16,
            Curve::Secp160k1
            | Curve::Secp160r1
            | Curve::Secp160r2
            | Curve::BrainpoolP160r1
            | Curve::BrainpoolP160t1 => 20,
            Curve::Secp192k1
            | Curve::Secp192r1
            | Curve::Prime192v2
            | Curve::Prime192v3
            | Curve::BrainpoolP192r1
            | Curve::BrainpoolP192t1 => 24,
            Curve::Secp224k1 | Curve::Secp224r1 | Curve::BrainpoolP224r1 | Curve::BrainpoolP224t1 =>
                28,
            Curve::Prime239v1 | Curve::Prime239v2 | Curve::Prime239v3 => 30,
            Curve::Secp256k1 | Curve::Secp256r1 | Curve::BrainpoolP256r1 | Curve::BrainpoolP256t1 =>
                32,
            Curve::BrainpoolP320r1 | Curve::BrainpoolP320t1 => 40,
            Curve::Secp384r1 | Curve::BrainpoolP384r1 | Curve::BrainpoolP384t1 => 48,
            Curve::BrainpoolP512r1 | Curve::BrainpoolP512t1 => 64,
            Curve::Secp521r1 => 66,
        }
    }
}
