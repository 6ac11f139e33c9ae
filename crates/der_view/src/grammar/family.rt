//! Identifiers that begin alike.
ghost use Rattle.std.specs.Prelude.{◌≡◌};
ghost use Rattle.der_view.specs.Grammar.{identifiers};

/// Identifiers that begin alike.
#[rattlefmt::skip]
#[derive(Clone, Copy)]
pub enum Family {
    EcPublicKey, Rsa, Dsa, DiffieHellman, DhPublicNumber, Edwards, Cms, Pbes, Pkcs12Pbe, Bag, Field,
    Sha, Sha1, Md, Ocsp, SubjectKey, AuthorityKey,
}

/// The bytes that the contents of each begin with, in the order of [`Family`].
#[rattlefmt::skip]
static IDENTIFIERS: [&[u8]; 17] = [
    // EcPublicKey: 1.2.840.10045.2.1, id-ecPublicKey (RFC 5480 section 2.1.1).
    b"\x2A\x86\x48\xCE\x3D\x02\x01",
    // Rsa: 1.2.840.113549.1.1, PKCS #1 (RFC 8017 appendix C).
    b"\x2A\x86\x48\x86\xF7\x0D\x01\x01",
    // Dsa: 1.2.840.10040.4.1, id-dsa (RFC 3279 section 2.3.2).
    b"\x2A\x86\x48\xCE\x38\x04\x01",
    // DiffieHellman: 1.2.840.113549.1.3.1, dhKeyAgreement (PKCS #3).
    b"\x2A\x86\x48\x86\xF7\x0D\x01\x03\x01",
    // DhPublicNumber: 1.2.840.10046.2.1, dhpublicnumber (RFC 3279 section 2.3.3).
    b"\x2A\x86\x48\xCE\x3E\x02\x01",
    // Edwards: 1.3.101, X25519, X448, Ed25519, Ed448 (RFC 8410 section 3).
    b"\x2B\x65",
    // Cms: 1.2.840.113549.1.7, PKCS #7 (RFC 5652).
    b"\x2A\x86\x48\x86\xF7\x0D\x01\x07",
    // Pbes: 1.2.840.113549.1.5, PBES1, PBES2 (RFC 8018 appendix C).
    b"\x2A\x86\x48\x86\xF7\x0D\x01\x05",
    // Pkcs12Pbe: 1.2.840.113549.1.12.1, pkcs-12PbeIds (RFC 7292 appendix C).
    b"\x2A\x86\x48\x86\xF7\x0D\x01\x0C\x01",
    // Bag: 1.2.840.113549.1.12.10.1, bag types (RFC 7292 section 4.2).
    b"\x2A\x86\x48\x86\xF7\x0D\x01\x0C\x0A\x01",
    // Field: 1.2.840.10045.1, fields of curves (RFC 3279 section 2.3.5).
    b"\x2A\x86\x48\xCE\x3D\x01",
    // Sha: 2.16.840.1.101.3.4.2, SHA-2 and SHA-3 (RFC 8017 appendix B.1).
    b"\x60\x86\x48\x01\x65\x03\x04\x02",
    // Sha1: 1.3.14.3.2.26, SHA-1 (RFC 8017 appendix B.1).
    b"\x2B\x0E\x03\x02\x1A",
    // Md: 1.2.840.113549.2, MD2, MD5 (RFC 8017 appendix B.1).
    b"\x2A\x86\x48\x86\xF7\x0D\x02",
    // Ocsp: 1.3.6.1.5.5.7.48.1, responses of OCSP (RFC 6960 section 4.2.1).
    b"\x2B\x06\x01\x05\x05\x07\x30\x01\x01",
    // SubjectKey: 2.5.29.14, subjectKeyIdentifier (RFC 5280 section 4.2.1.2).
    b"\x55\x1D\x0E",
    // AuthorityKey: 2.5.29.35, authorityKeyIdentifier (RFC 5280 section 4.2.1.1).
    b"\x55\x1D\x23",
];

impl Family {
    /// Borrows the bytes that contents of its identifiers begin with.
    #[tactic(auto, unfolding(crate::specs::Grammar::identifiers))]
    pub fn identifiers(self) -> &'static [u8]
        ensures { result.now ≡ identifiers self }
    {
        IDENTIFIERS[self as usize]
    }
}
