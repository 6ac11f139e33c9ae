//! The structures whose components have names: one table, which the definitions of `specs/` read
//! too.
ghost use Rattle.std.specs.Prelude.{◌≡◌};
ghost use Rattle.der_view.specs.Grammar.{components};

mod family;
mod forms;
mod name;

use Content::*;
use Presence::*;
use Structure::*;
pub use family::Family;
pub(crate) use forms::{FIRST, OTHERS};
pub use forms::{Form, Secrecy};
pub use name::Name;

/// Whether an element may be absent.
#[derive(Clone, Copy)]
pub enum Presence {
    /// It is there once.
    Needed,
    /// It may be absent.
    Optional,
    /// It is there any number of times.
    Many,
}

/// What is shown of a content, and which contents follow the structure.
#[derive(Clone, Copy)]
pub enum Content {
    /// Its length.
    Hidden,
    /// All of it if it has at most so many bytes and is valid, and its length otherwise.
    Shown(u8),
    /// All of it if it is valid. It has at most so many bytes.
    Short(u8),
    /// Its one byte. One of another length doesn't follow.
    Version,
    /// All of it: an identifier of this family, of at most 12 bytes. Another doesn't follow.
    Of(Family),
    /// The form of a point, and before it the number of unused bits unless it is an OCTET STRING.
    Point,
    /// Nothing of its own: it is the components of this structure.
    Inside(Structure),
    /// The same, if it follows this structure to its end, and its length otherwise.
    Whole(Structure),
    /// The same of the bits of a BIT STRING, if none is unused. Their number (X.690 section 8.6.2)
    /// is a byte before them, in the element's own row.
    Bits(Structure),
    /// Any elements if the element is constructed, and its length otherwise. It has no component.
    Free,
}

/// A component of a structure: the byte of its tag, whether it may be absent, its content, and its
/// name. The tag `17` stands for a Time, which is a UTCTime or a GeneralizedTime (RFC 5280 section
/// 4.1.2.5), and `00`, which is no tag, for any.
pub type Component = (u8, Presence, Content, Name);

/// A structure. Its standard and its components stand below.
#[rattlefmt::skip]
#[derive(Clone, Copy)]
pub enum Structure {
    // Private keys.
    EcPrivateKey, CurveName, PublicPoint, EcKeyInfo, RsaKeyInfo, DsaKeyInfo, DhKeyInfo, X942KeyInfo,
    OctetKeyInfo, KeyInfo, EcKey, RsaKey, NumberKey, OctetKey, RsaPrivateKey, DsaPrivateKey,
    KeyPackage,
    // Algorithms, public keys, parameters and signatures.
    Algorithm, EcAlgorithm, RsaAlgorithm, DsaAlgorithm, DhAlgorithm, X942Algorithm,
    EdwardsAlgorithm, PublicKeyInfo, EcPublicKeyInfo, RsaPublicKeyInfo, RsaBits, Signature,
    RsaPublicKey, DhParameter, DomainParameters, DsaParameters, EcParameters, FieldId, Curve,
    // Certificates, requests for them and lists of those that are revoked.
    Certificate, TbsCertificate, VersionField, DistinguishedName, RelativeName, NameAttribute,
    Validity, ExtensionsField, Extensions, Extension, SubjectKeyExtension, SubjectKeyIdentifier,
    AuthorityKeyExtension, AuthorityKeyValue, AuthorityKeyIdentifier, CertificationRequest,
    CertificationRequestInfo, CertificateList, TbsCertList, RevokedCertificates, RevokedCertificate,
    // Containers: PKCS #12, CMS, encrypted keys and digests.
    Pfx, MacData, SafeContents, SafeBag, ContentInfo, PbesKeyInfo, PbeKeyInfo, PbesAlgorithm,
    PbeAlgorithm, DigestInfo, ShaInfo, Sha1Info, MdInfo, ShaAlgorithm, Sha1Algorithm, MdAlgorithm,
    // OCSP and time stamps.
    OcspRequest, TbsRequest, RequestList, Request, CertId, OcspResponse, ResponseBytesField,
    ResponseBytes, TimeStampReq, TimeStampResp, PkiStatusInfo,
    /// Any elements.
    Any,
}

/// Identifiers, and the structure whose components come after one of them.
pub(crate) type Case = (Family, Structure);

/// The component of an element that has none.
pub(crate) const ELEMENT: Component = (0x00, Many, Free, Name::Nothing);

#[rattlefmt::skip]
impl Structure {
    // Private keys.

    /// ECPrivateKey (RFC 5915 section 3).
    const EC_PRIVATE_KEY: [Component; 4] = [(0x02, Needed, Version, Name::Version),
        (0x04, Needed, Hidden, Name::PrivateKey),
        (0xA0, Optional, Inside(CurveName), Name::Parameters),
        (0xA1, Optional, Inside(PublicPoint), Name::PublicKey)];
    /// ECParameters of an EC key: the name of a curve (RFC 5480 section 2.1.1).
    const CURVE_NAME: [Component; 1] = [(0x06, Needed, Shown(12), Name::NamedCurve)];
    /// The public key of an EC key (RFC 5915 section 3).
    const PUBLIC_POINT: [Component; 1] = [(0x03, Needed, Point, Name::Point)];
    /// OneAsymmetricKey (RFC 5958 section 2) with an EC key.
    const EC_KEY_INFO: [Component; 5] = [(0x02, Needed, Version, Name::Version),
        (0x30, Needed, Inside(EcAlgorithm), Name::PrivateKeyAlgorithm),
        (0x04, Needed, Whole(EcKey), Name::PrivateKey), (0xA0, Optional, Hidden, Name::Attributes),
        (0x81, Optional, Point, Name::PublicKey)];
    /// OneAsymmetricKey with an RSA key.
    const RSA_KEY_INFO: [Component; 5] = [(0x02, Needed, Version, Name::Version),
        (0x30, Needed, Inside(RsaAlgorithm), Name::PrivateKeyAlgorithm),
        (0x04, Needed, Whole(RsaKey), Name::PrivateKey), (0xA0, Optional, Hidden, Name::Attributes),
        (0x81, Optional, Hidden, Name::PublicKey)];
    /// OneAsymmetricKey with a DSA key.
    const DSA_KEY_INFO: [Component; 5] = [(0x02, Needed, Version, Name::Version),
        (0x30, Needed, Inside(DsaAlgorithm), Name::PrivateKeyAlgorithm),
        (0x04, Needed, Whole(NumberKey), Name::PrivateKey),
        (0xA0, Optional, Hidden, Name::Attributes), (0x81, Optional, Hidden, Name::PublicKey)];
    /// OneAsymmetricKey with a Diffie-Hellman key.
    const DH_KEY_INFO: [Component; 5] = [(0x02, Needed, Version, Name::Version),
        (0x30, Needed, Inside(DhAlgorithm), Name::PrivateKeyAlgorithm),
        (0x04, Needed, Whole(NumberKey), Name::PrivateKey),
        (0xA0, Optional, Hidden, Name::Attributes), (0x81, Optional, Hidden, Name::PublicKey)];
    /// OneAsymmetricKey with a Diffie-Hellman key (RFC 3279 section 2.3.3).
    const X942_KEY_INFO: [Component; 5] = [(0x02, Needed, Version, Name::Version),
        (0x30, Needed, Inside(X942Algorithm), Name::PrivateKeyAlgorithm),
        (0x04, Needed, Whole(NumberKey), Name::PrivateKey),
        (0xA0, Optional, Hidden, Name::Attributes), (0x81, Optional, Hidden, Name::PublicKey)];
    /// OneAsymmetricKey with a key of RFC 8410.
    const OCTET_KEY_INFO: [Component; 5] = [(0x02, Needed, Version, Name::Version),
        (0x30, Needed, Inside(EdwardsAlgorithm), Name::PrivateKeyAlgorithm),
        (0x04, Needed, Whole(OctetKey), Name::PrivateKey),
        (0xA0, Optional, Hidden, Name::Attributes), (0x81, Optional, Hidden, Name::PublicKey)];
    /// OneAsymmetricKey with any key.
    const KEY_INFO: [Component; 5] = [(0x02, Needed, Version, Name::Version),
        (0x30, Needed, Inside(Algorithm), Name::PrivateKeyAlgorithm),
        (0x04, Needed, Hidden, Name::PrivateKey), (0xA0, Optional, Hidden, Name::Attributes),
        (0x81, Optional, Hidden, Name::PublicKey)];
    /// The privateKey of an EC key in PKCS #8 (RFC 5915 section 3).
    const EC_KEY: [Component; 1] = [(0x30, Needed, Inside(EcPrivateKey), Name::EcPrivateKey)];
    /// The privateKey of an RSA key in PKCS #8 (RFC 8017 appendix A.1.2).
    const RSA_KEY: [Component; 1] = [(0x30, Needed, Inside(RsaPrivateKey), Name::RsaPrivateKey)];
    /// The privateKey of a DSA or Diffie-Hellman key in PKCS #8.
    const NUMBER_KEY: [Component; 1] = [(0x02, Needed, Hidden, Name::TheKey)];
    /// CurvePrivateKey (RFC 8410 section 7).
    const OCTET_KEY: [Component; 1] = [(0x04, Needed, Hidden, Name::TheKey)];
    /// RSAPrivateKey (RFC 8017 appendix A.1.2).
    const RSA_PRIVATE_KEY: [Component; 10] = [(0x02, Needed, Version, Name::Version),
        (0x02, Needed, Hidden, Name::Modulus), (0x02, Needed, Short(8), Name::PublicExponent),
        (0x02, Needed, Hidden, Name::PrivateExponent), (0x02, Needed, Hidden, Name::Prime1),
        (0x02, Needed, Hidden, Name::Prime2), (0x02, Needed, Hidden, Name::Exponent1),
        (0x02, Needed, Hidden, Name::Exponent2), (0x02, Needed, Hidden, Name::Coefficient),
        (0x30, Optional, Hidden, Name::OtherPrimeInfos)];
    /// A DSA key, as OpenSSL writes it.
    const DSA_PRIVATE_KEY: [Component; 6] = [(0x02, Needed, Version, Name::Version),
        (0x02, Needed, Hidden, Name::P), (0x02, Needed, Hidden, Name::Q),
        (0x02, Needed, Hidden, Name::G), (0x02, Needed, Hidden, Name::Y),
        (0x02, Needed, Hidden, Name::X)];
    /// AsymmetricKeyPackage (RFC 5958 section 2).
    const KEY_PACKAGE: [Component; 2] = [(0x30, Needed, Inside(KeyInfo), Name::OneAsymmetricKey),
        (0x30, Many, Inside(KeyInfo), Name::OneAsymmetricKey)];

    // Algorithms, public keys, parameters and signatures.

    /// AlgorithmIdentifier (RFC 5280 section 4.1.1.2).
    const ALGORITHM: [Component; 2] = [(0x06, Needed, Shown(12), Name::Algorithm),
        (0x00, Optional, Shown(12), Name::Parameters)];
    /// AlgorithmIdentifier of an EC key (RFC 5480 section 2.1.1).
    const EC_ALGORITHM: [Component; 2] = [(0x06, Needed, Of(Family::EcPublicKey), Name::Algorithm),
        (0x06, Optional, Shown(12), Name::NamedCurve)];
    /// AlgorithmIdentifier of an RSA key (RFC 8017 appendix A).
    const RSA_ALGORITHM: [Component; 2] = [(0x06, Needed, Of(Family::Rsa), Name::Algorithm),
        (0x00, Optional, Hidden, Name::Parameters)];
    /// AlgorithmIdentifier of a DSA key (RFC 3279 section 2.3.2).
    const DSA_ALGORITHM: [Component; 2] = [(0x06, Needed, Of(Family::Dsa), Name::Algorithm),
        (0x30, Optional, Inside(DsaParameters), Name::Parameters)];
    /// AlgorithmIdentifier of a Diffie-Hellman key (PKCS #3).
    const DH_ALGORITHM: [Component; 2] = [
        (0x06, Needed, Of(Family::DiffieHellman), Name::Algorithm),
        (0x30, Optional, Inside(DhParameter), Name::Parameters)];
    /// AlgorithmIdentifier of a Diffie-Hellman key (RFC 3279 section 2.3.3).
    const X942_ALGORITHM: [Component; 2] = [
        (0x06, Needed, Of(Family::DhPublicNumber), Name::Algorithm),
        (0x30, Optional, Inside(DomainParameters), Name::Parameters)];
    /// AlgorithmIdentifier of RFC 8410 section 3.
    const EDWARDS_ALGORITHM: [Component; 1] = [
        (0x06, Needed, Of(Family::Edwards), Name::Algorithm)];
    /// SubjectPublicKeyInfo (RFC 5280 section 4.1.2.7).
    const PUBLIC_KEY_INFO: [Component; 2] = [(0x30, Needed, Inside(Algorithm), Name::Algorithm),
        (0x03, Needed, Bits(RsaBits), Name::SubjectPublicKey)];
    /// SubjectPublicKeyInfo of an EC key (RFC 5480 section 2).
    const EC_PUBLIC_KEY_INFO: [Component; 2] = [
        (0x30, Needed, Inside(EcAlgorithm), Name::Algorithm),
        (0x03, Needed, Point, Name::SubjectPublicKey)];
    /// SubjectPublicKeyInfo of an RSA key (RFC 3279 section 2.3.1).
    const RSA_PUBLIC_KEY_INFO: [Component; 2] = [
        (0x30, Needed, Inside(RsaAlgorithm), Name::Algorithm),
        (0x03, Needed, Bits(RsaBits), Name::SubjectPublicKey)];
    /// The bits of an RSA key's subjectPublicKey (RFC 3279 section 2.3.1).
    const RSA_BITS: [Component; 1] = [(0x30, Needed, Inside(RsaPublicKey), Name::RsaPublicKey)];
    /// Ecdsa-Sig-Value (RFC 3279 section 2.2.3).
    const SIGNATURE: [Component; 2] = [(0x02, Needed, Hidden, Name::R),
        (0x02, Needed, Hidden, Name::S)];
    /// RSAPublicKey (RFC 8017 appendix A.1.1).
    const RSA_PUBLIC_KEY: [Component; 2] = [(0x02, Needed, Hidden, Name::Modulus),
        (0x02, Needed, Short(8), Name::PublicExponent)];
    /// DHParameter (PKCS #3).
    const DH_PARAMETER: [Component; 3] = [(0x02, Needed, Hidden, Name::Prime),
        (0x02, Needed, Version, Name::Base), (0x02, Optional, Short(8), Name::PrivateValueLength)];
    /// DomainParameters (RFC 3279 section 2.3.3).
    const DOMAIN_PARAMETERS: [Component; 5] = [(0x02, Needed, Hidden, Name::P),
        (0x02, Needed, Hidden, Name::G), (0x02, Needed, Hidden, Name::Q),
        (0x02, Optional, Hidden, Name::J), (0x30, Optional, Hidden, Name::ValidationParms)];
    /// Dss-Parms (RFC 3279 section 2.3.2).
    const DSA_PARAMETERS: [Component; 3] = [(0x02, Needed, Hidden, Name::P),
        (0x02, Needed, Hidden, Name::Q), (0x02, Needed, Hidden, Name::G)];
    /// SpecifiedECDomain, ECParameters (RFC 3279 section 2.3.5).
    const EC_PARAMETERS: [Component; 6] = [(0x02, Needed, Version, Name::Version),
        (0x30, Needed, Inside(FieldId), Name::FieldId), (0x30, Needed, Inside(Curve), Name::Curve),
        (0x04, Needed, Point, Name::Base), (0x02, Needed, Hidden, Name::Order),
        (0x02, Optional, Short(8), Name::Cofactor)];
    /// FieldID (RFC 3279 section 2.3.5).
    const FIELD_ID: [Component; 2] = [(0x06, Needed, Of(Family::Field), Name::FieldType),
        (0x00, Needed, Hidden, Name::Parameters)];
    /// Curve (RFC 3279 section 2.3.5).
    const CURVE: [Component; 3] = [(0x04, Needed, Hidden, Name::A), (0x04, Needed, Hidden, Name::B),
        (0x03, Optional, Hidden, Name::Seed)];

    // Certificates, requests for them and lists of those that are revoked.

    /// Certificate (RFC 5280 section 4.1).
    const CERTIFICATE: [Component; 3] = [
        (0x30, Needed, Inside(TbsCertificate), Name::TbsCertificate),
        (0x30, Needed, Inside(Algorithm), Name::SignatureAlgorithm),
        (0x03, Needed, Hidden, Name::SignatureValue)];
    /// TBSCertificate (RFC 5280 section 4.1).
    const TBS_CERTIFICATE: [Component; 10] = [(0xA0, Optional, Inside(VersionField), Name::Version),
        (0x02, Needed, Shown(20), Name::SerialNumber),
        (0x30, Needed, Inside(Algorithm), Name::Signature),
        (0x30, Needed, Inside(DistinguishedName), Name::Issuer),
        (0x30, Needed, Inside(Validity), Name::Validity),
        (0x30, Needed, Inside(DistinguishedName), Name::Subject),
        (0x30, Needed, Inside(PublicKeyInfo), Name::SubjectPublicKeyInfo),
        (0x81, Optional, Hidden, Name::IssuerUniqueId),
        (0x82, Optional, Hidden, Name::SubjectUniqueId),
        (0xA3, Optional, Inside(ExtensionsField), Name::Extensions)];
    /// A version with an explicit tag.
    const VERSION_FIELD: [Component; 1] = [(0x02, Needed, Version, Name::Version)];
    /// RDNSequence (RFC 5280 section 4.1.2.4).
    const DISTINGUISHED_NAME: [Component; 1] = [
        (0x31, Many, Inside(RelativeName), Name::RelativeDistinguishedName)];
    /// RelativeDistinguishedName (RFC 5280 section 4.1.2.4).
    const RELATIVE_NAME: [Component; 1] = [
        (0x30, Many, Inside(NameAttribute), Name::AttributeTypeAndValue)];
    /// AttributeTypeAndValue (RFC 5280 section 4.1.2.4).
    const NAME_ATTRIBUTE: [Component; 2] = [(0x06, Needed, Shown(12), Name::Type),
        (0x00, Needed, Shown(255), Name::Value)];
    /// Validity (RFC 5280 section 4.1.2.5).
    const VALIDITY: [Component; 2] = [(0x17, Needed, Shown(19), Name::NotBefore),
        (0x17, Needed, Shown(19), Name::NotAfter)];
    /// Extensions with an explicit tag.
    const EXTENSIONS_FIELD: [Component; 1] = [(0x30, Needed, Inside(Extensions), Name::Extensions)];
    /// Extensions (RFC 5280 section 4.1.2.9).
    const EXTENSIONS: [Component; 1] = [(0x30, Many, Inside(Extension), Name::Extension)];
    /// Extension (RFC 5280 section 4.1.2.9).
    const EXTENSION: [Component; 3] = [(0x06, Needed, Shown(12), Name::ExtnId),
        (0x01, Optional, Version, Name::Critical), (0x04, Needed, Hidden, Name::ExtnValue)];
    /// What comes after the extnID of a subjectKeyIdentifier (RFC 5280 section 4.2.1.2).
    const SUBJECT_KEY_EXTENSION: [Component; 2] = [(0x01, Optional, Version, Name::Critical),
        (0x04, Needed, Whole(SubjectKeyIdentifier), Name::ExtnValue)];
    /// SubjectKeyIdentifier (RFC 5280 section 4.2.1.2).
    const SUBJECT_KEY_IDENTIFIER: [Component; 1] = [
        (0x04, Needed, Shown(64), Name::SubjectKeyIdentifier)];
    /// What comes after the extnID of an authorityKeyIdentifier (RFC 5280 section 4.2.1.1).
    const AUTHORITY_KEY_EXTENSION: [Component; 2] = [(0x01, Optional, Version, Name::Critical),
        (0x04, Needed, Whole(AuthorityKeyValue), Name::ExtnValue)];
    /// The extnValue of an authorityKeyIdentifier.
    const AUTHORITY_KEY_VALUE: [Component; 1] = [
        (0x30, Needed, Inside(AuthorityKeyIdentifier), Name::AuthorityKeyIdentifier)];
    /// AuthorityKeyIdentifier (RFC 5280 section 4.2.1.1).
    const AUTHORITY_KEY_IDENTIFIER: [Component; 3] = [
        (0x80, Optional, Shown(64), Name::KeyIdentifier),
        (0xA1, Optional, Hidden, Name::AuthorityCertIssuer),
        (0x82, Optional, Shown(20), Name::AuthorityCertSerialNumber)];
    /// CertificationRequest (RFC 2986 section 4.2).
    const CERTIFICATION_REQUEST: [Component; 3] = [
        (0x30, Needed, Inside(CertificationRequestInfo), Name::CertificationRequestInfo),
        (0x30, Needed, Inside(Algorithm), Name::SignatureAlgorithm),
        (0x03, Needed, Hidden, Name::Signature)];
    /// CertificationRequestInfo (RFC 2986 section 4.1).
    const CERTIFICATION_REQUEST_INFO: [Component; 4] = [(0x02, Needed, Version, Name::Version),
        (0x30, Needed, Inside(DistinguishedName), Name::Subject),
        (0x30, Needed, Inside(PublicKeyInfo), Name::SubjectPkInfo),
        (0xA0, Needed, Hidden, Name::Attributes)];
    /// CertificateList (RFC 5280 section 5.1).
    const CERTIFICATE_LIST: [Component; 3] = [
        (0x30, Needed, Inside(TbsCertList), Name::TbsCertList),
        (0x30, Needed, Inside(Algorithm), Name::SignatureAlgorithm),
        (0x03, Needed, Hidden, Name::SignatureValue)];
    /// TBSCertList (RFC 5280 section 5.1).
    const TBS_CERT_LIST: [Component; 7] = [(0x02, Optional, Version, Name::Version),
        (0x30, Needed, Inside(Algorithm), Name::Signature),
        (0x30, Needed, Inside(DistinguishedName), Name::Issuer),
        (0x17, Needed, Shown(19), Name::ThisUpdate), (0x17, Optional, Shown(19), Name::NextUpdate),
        (0x30, Optional, Inside(RevokedCertificates), Name::RevokedCertificates),
        (0xA0, Optional, Inside(ExtensionsField), Name::CrlExtensions)];
    /// revokedCertificates (RFC 5280 section 5.1).
    const REVOKED_CERTIFICATES: [Component; 1] = [
        (0x30, Many, Inside(RevokedCertificate), Name::RevokedCertificate)];
    /// One of revokedCertificates (RFC 5280 section 5.1).
    const REVOKED_CERTIFICATE: [Component; 3] = [(0x02, Needed, Shown(20), Name::UserCertificate),
        (0x17, Needed, Shown(19), Name::RevocationDate),
        (0x30, Optional, Inside(Extensions), Name::CrlEntryExtensions)];

    // Containers: PKCS #12, CMS, encrypted keys and digests.

    /// PFX (RFC 7292 section 4).
    const PFX: [Component; 3] = [(0x02, Needed, Version, Name::Version),
        (0x30, Needed, Inside(ContentInfo), Name::AuthSafe),
        (0x30, Optional, Inside(MacData), Name::MacData)];
    /// MacData (RFC 7292 section 4).
    const MAC_DATA: [Component; 3] = [(0x30, Needed, Inside(DigestInfo), Name::Mac),
        (0x04, Needed, Hidden, Name::MacSalt), (0x02, Optional, Short(8), Name::Iterations)];
    /// SafeContents (RFC 7292 section 4.2).
    const SAFE_CONTENTS: [Component; 2] = [(0x30, Needed, Inside(SafeBag), Name::SafeBag),
        (0x30, Many, Inside(SafeBag), Name::SafeBag)];
    /// SafeBag (RFC 7292 section 4.2).
    const SAFE_BAG: [Component; 3] = [(0x06, Needed, Of(Family::Bag), Name::BagId),
        (0xA0, Needed, Hidden, Name::BagValue), (0x31, Optional, Hidden, Name::BagAttributes)];
    /// ContentInfo (RFC 5652 section 3).
    const CONTENT_INFO: [Component; 2] = [(0x06, Needed, Of(Family::Cms), Name::ContentType),
        (0xA0, Optional, Hidden, Name::Content)];
    /// EncryptedPrivateKeyInfo (RFC 5958 section 3).
    const PBES_KEY_INFO: [Component; 2] = [
        (0x30, Needed, Inside(PbesAlgorithm), Name::EncryptionAlgorithm),
        (0x04, Needed, Hidden, Name::EncryptedData)];
    /// EncryptedPrivateKeyInfo with an algorithm of PKCS #12.
    const PBE_KEY_INFO: [Component; 2] = [
        (0x30, Needed, Inside(PbeAlgorithm), Name::EncryptionAlgorithm),
        (0x04, Needed, Hidden, Name::EncryptedData)];
    /// AlgorithmIdentifier of RFC 8018 appendix A.
    const PBES_ALGORITHM: [Component; 2] = [(0x06, Needed, Of(Family::Pbes), Name::Algorithm),
        (0x00, Optional, Hidden, Name::Parameters)];
    /// AlgorithmIdentifier of RFC 7292 appendix C.
    const PBE_ALGORITHM: [Component; 2] = [(0x06, Needed, Of(Family::Pkcs12Pbe), Name::Algorithm),
        (0x00, Optional, Hidden, Name::Parameters)];
    /// DigestInfo (RFC 8017 appendix A.2.4) of any digest.
    const DIGEST_INFO: [Component; 2] = [(0x30, Needed, Inside(Algorithm), Name::DigestAlgorithm),
        (0x04, Needed, Hidden, Name::Digest)];
    /// DigestInfo of SHA-2 or SHA-3.
    const SHA_INFO: [Component; 2] = [(0x30, Needed, Inside(ShaAlgorithm), Name::DigestAlgorithm),
        (0x04, Needed, Hidden, Name::Digest)];
    /// DigestInfo of SHA-1.
    const SHA1_INFO: [Component; 2] = [(0x30, Needed, Inside(Sha1Algorithm), Name::DigestAlgorithm),
        (0x04, Needed, Hidden, Name::Digest)];
    /// DigestInfo of MD2 or MD5.
    const MD_INFO: [Component; 2] = [(0x30, Needed, Inside(MdAlgorithm), Name::DigestAlgorithm),
        (0x04, Needed, Hidden, Name::Digest)];
    /// AlgorithmIdentifier of RFC 8017 appendix B.1.
    const SHA_ALGORITHM: [Component; 2] = [(0x06, Needed, Of(Family::Sha), Name::Algorithm),
        (0x00, Optional, Hidden, Name::Parameters)];
    /// AlgorithmIdentifier of RFC 8017 appendix B.1.
    const SHA1_ALGORITHM: [Component; 2] = [(0x06, Needed, Of(Family::Sha1), Name::Algorithm),
        (0x00, Optional, Hidden, Name::Parameters)];
    /// AlgorithmIdentifier of RFC 8017 appendix B.1.
    const MD_ALGORITHM: [Component; 2] = [(0x06, Needed, Of(Family::Md), Name::Algorithm),
        (0x00, Optional, Hidden, Name::Parameters)];

    // OCSP and time stamps.

    /// OCSPRequest (RFC 6960 section 4.1.1).
    const OCSP_REQUEST: [Component; 2] = [(0x30, Needed, Inside(TbsRequest), Name::TbsRequest),
        (0xA0, Optional, Hidden, Name::OptionalSignature)];
    /// TBSRequest (RFC 6960 section 4.1.1).
    const TBS_REQUEST: [Component; 4] = [(0xA0, Optional, Inside(VersionField), Name::Version),
        (0xA1, Optional, Hidden, Name::RequestorName),
        (0x30, Needed, Inside(RequestList), Name::RequestList),
        (0xA2, Optional, Inside(ExtensionsField), Name::RequestExtensions)];
    /// requestList (RFC 6960 section 4.1.1).
    const REQUEST_LIST: [Component; 1] = [(0x30, Many, Inside(Request), Name::Request)];
    /// Request (RFC 6960 section 4.1.1).
    const REQUEST: [Component; 2] = [(0x30, Needed, Inside(CertId), Name::ReqCert),
        (0xA0, Optional, Inside(ExtensionsField), Name::SingleRequestExtensions)];
    /// CertID (RFC 6960 section 4.1.1).
    const CERT_ID: [Component; 4] = [(0x30, Needed, Inside(Algorithm), Name::HashAlgorithm),
        (0x04, Needed, Hidden, Name::IssuerNameHash), (0x04, Needed, Hidden, Name::IssuerKeyHash),
        (0x02, Needed, Shown(20), Name::SerialNumber)];
    /// OCSPResponse (RFC 6960 section 4.2.1).
    const OCSP_RESPONSE: [Component; 2] = [(0x0A, Needed, Version, Name::ResponseStatus),
        (0xA0, Optional, Inside(ResponseBytesField), Name::ResponseBytes)];
    /// ResponseBytes with an explicit tag.
    const RESPONSE_BYTES_FIELD: [Component; 1] = [
        (0x30, Needed, Inside(ResponseBytes), Name::ResponseBytes)];
    /// ResponseBytes (RFC 6960 section 4.2.1).
    const RESPONSE_BYTES: [Component; 2] = [(0x06, Needed, Of(Family::Ocsp), Name::ResponseType),
        (0x04, Needed, Hidden, Name::Response)];
    /// TimeStampReq (RFC 3161 section 2.4.1).
    const TIME_STAMP_REQ: [Component; 6] = [(0x02, Needed, Version, Name::Version),
        (0x30, Needed, Inside(DigestInfo), Name::MessageImprint),
        (0x06, Optional, Shown(12), Name::ReqPolicy), (0x02, Optional, Shown(20), Name::Nonce),
        (0x01, Optional, Version, Name::CertReq),
        (0xA0, Optional, Inside(Extensions), Name::Extensions)];
    /// TimeStampResp (RFC 3161 section 2.4.2).
    const TIME_STAMP_RESP: [Component; 2] = [(0x30, Needed, Inside(PkiStatusInfo), Name::Status),
        (0x30, Optional, Inside(ContentInfo), Name::TimeStampToken)];
    /// PKIStatusInfo (RFC 3161 section 2.4.2).
    const PKI_STATUS_INFO: [Component; 3] = [(0x02, Needed, Version, Name::Status),
        (0x30, Optional, Hidden, Name::StatusString), (0x03, Optional, Hidden, Name::FailInfo)];

    /// Any elements.
    const ANY: [Component; 1] = [ELEMENT];

    /// Borrows its components, in order.
    #[tactic(auto, unfolding(crate::specs::Grammar::components))]
    pub fn components(self) -> &'static [Component]
        ensures { result.now ≡ components self }
    { match self {
        EcPrivateKey => &Self::EC_PRIVATE_KEY, CurveName => &Self::CURVE_NAME,
        PublicPoint => &Self::PUBLIC_POINT, EcKeyInfo => &Self::EC_KEY_INFO,
        RsaKeyInfo => &Self::RSA_KEY_INFO, DsaKeyInfo => &Self::DSA_KEY_INFO,
        DhKeyInfo => &Self::DH_KEY_INFO, X942KeyInfo => &Self::X942_KEY_INFO,
        OctetKeyInfo => &Self::OCTET_KEY_INFO, KeyInfo => &Self::KEY_INFO,
        EcKey => &Self::EC_KEY, RsaKey => &Self::RSA_KEY, NumberKey => &Self::NUMBER_KEY,
        OctetKey => &Self::OCTET_KEY, RsaPrivateKey => &Self::RSA_PRIVATE_KEY,
        DsaPrivateKey => &Self::DSA_PRIVATE_KEY, KeyPackage => &Self::KEY_PACKAGE,
        Algorithm => &Self::ALGORITHM, EcAlgorithm => &Self::EC_ALGORITHM,
        RsaAlgorithm => &Self::RSA_ALGORITHM, DsaAlgorithm => &Self::DSA_ALGORITHM,
        DhAlgorithm => &Self::DH_ALGORITHM, X942Algorithm => &Self::X942_ALGORITHM,
        EdwardsAlgorithm => &Self::EDWARDS_ALGORITHM, PublicKeyInfo => &Self::PUBLIC_KEY_INFO,
        EcPublicKeyInfo => &Self::EC_PUBLIC_KEY_INFO,
        RsaPublicKeyInfo => &Self::RSA_PUBLIC_KEY_INFO, RsaBits => &Self::RSA_BITS,
        Signature => &Self::SIGNATURE, RsaPublicKey => &Self::RSA_PUBLIC_KEY,
        DhParameter => &Self::DH_PARAMETER, DomainParameters => &Self::DOMAIN_PARAMETERS,
        DsaParameters => &Self::DSA_PARAMETERS, EcParameters => &Self::EC_PARAMETERS,
        FieldId => &Self::FIELD_ID, Curve => &Self::CURVE, Certificate => &Self::CERTIFICATE,
        TbsCertificate => &Self::TBS_CERTIFICATE, VersionField => &Self::VERSION_FIELD,
        DistinguishedName => &Self::DISTINGUISHED_NAME, RelativeName => &Self::RELATIVE_NAME,
        NameAttribute => &Self::NAME_ATTRIBUTE, Validity => &Self::VALIDITY,
        ExtensionsField => &Self::EXTENSIONS_FIELD, Extensions => &Self::EXTENSIONS,
        Extension => &Self::EXTENSION, SubjectKeyExtension => &Self::SUBJECT_KEY_EXTENSION,
        SubjectKeyIdentifier => &Self::SUBJECT_KEY_IDENTIFIER,
        AuthorityKeyExtension => &Self::AUTHORITY_KEY_EXTENSION,
        AuthorityKeyValue => &Self::AUTHORITY_KEY_VALUE,
        AuthorityKeyIdentifier => &Self::AUTHORITY_KEY_IDENTIFIER,
        CertificationRequest => &Self::CERTIFICATION_REQUEST,
        CertificationRequestInfo => &Self::CERTIFICATION_REQUEST_INFO,
        CertificateList => &Self::CERTIFICATE_LIST, TbsCertList => &Self::TBS_CERT_LIST,
        RevokedCertificates => &Self::REVOKED_CERTIFICATES,
        RevokedCertificate => &Self::REVOKED_CERTIFICATE, Pfx => &Self::PFX,
        MacData => &Self::MAC_DATA, SafeContents => &Self::SAFE_CONTENTS,
        SafeBag => &Self::SAFE_BAG, ContentInfo => &Self::CONTENT_INFO,
        PbesKeyInfo => &Self::PBES_KEY_INFO, PbeKeyInfo => &Self::PBE_KEY_INFO,
        PbesAlgorithm => &Self::PBES_ALGORITHM, PbeAlgorithm => &Self::PBE_ALGORITHM,
        DigestInfo => &Self::DIGEST_INFO, ShaInfo => &Self::SHA_INFO,
        Sha1Info => &Self::SHA1_INFO, MdInfo => &Self::MD_INFO,
        ShaAlgorithm => &Self::SHA_ALGORITHM, Sha1Algorithm => &Self::SHA1_ALGORITHM,
        MdAlgorithm => &Self::MD_ALGORITHM, OcspRequest => &Self::OCSP_REQUEST,
        TbsRequest => &Self::TBS_REQUEST, RequestList => &Self::REQUEST_LIST,
        Request => &Self::REQUEST, CertId => &Self::CERT_ID,
        OcspResponse => &Self::OCSP_RESPONSE, ResponseBytesField => &Self::RESPONSE_BYTES_FIELD,
        ResponseBytes => &Self::RESPONSE_BYTES, TimeStampReq => &Self::TIME_STAMP_REQ,
        TimeStampResp => &Self::TIME_STAMP_RESP, PkiStatusInfo => &Self::PKI_STATUS_INFO,
        Any => &Self::ANY,
    } }
}
