//! The names of components and forms.
ghost use Rattle.std.specs.Prelude.{◌≡◌};
ghost use Rattle.der_view.specs.Grammar.{cases};

use super::{Case, Family, Structure};

/// The name of a component or of a form in its standard, which spells it with a small first letter
/// where it is a component's.
#[rattlefmt::skip]
#[derive(Clone, Copy)]
pub enum Name {
    /// No name.
    Nothing,
    Version, PrivateKey, Parameters, PublicKey, NamedCurve, Point, PrivateKeyAlgorithm, Attributes,
    Algorithm, EcPrivateKey, RsaPrivateKey, TheKey, Modulus, PublicExponent, PrivateExponent,
    Prime1, Prime2, Exponent1, Exponent2, Coefficient, OtherPrimeInfos, P, Q, G, Y, X, AuthSafe,
    MacData, Mac, MacSalt, Iterations, OneAsymmetricKey, SafeBag, BagId, BagValue, BagAttributes,
    TbsCertificate, SignatureAlgorithm, SignatureValue, SerialNumber, Signature, Issuer, Validity,
    Subject, SubjectPublicKeyInfo, IssuerUniqueId, SubjectUniqueId, Extensions,
    RelativeDistinguishedName, AttributeTypeAndValue, Type, Value, NotBefore, NotAfter,
    SubjectPublicKey, Extension, ExtnId, Critical, ExtnValue, CertificationRequestInfo,
    SubjectPkInfo, TbsCertList, ThisUpdate, NextUpdate, RevokedCertificates, CrlExtensions,
    RevokedCertificate, UserCertificate, RevocationDate, CrlEntryExtensions, R, S, Prime, Base,
    PrivateValueLength, J, ValidationParms, FieldId, Curve, Order, Cofactor, FieldType, A, B, Seed,
    ContentType, Content, EncryptionAlgorithm, EncryptedData, DigestAlgorithm, Digest, TbsRequest,
    OptionalSignature, RequestorName, RequestList, RequestExtensions, Request, ReqCert,
    SingleRequestExtensions, HashAlgorithm, IssuerNameHash, IssuerKeyHash, ResponseStatus,
    ResponseBytes, ResponseType, Response, MessageImprint, ReqPolicy, Nonce, CertReq, Status,
    TimeStampToken, StatusString, FailInfo, PrivateKeyInfo, DsaPrivateKey, Pfx, Certificate,
    CertificationRequest, CertificateList, PublicKeyInfo, DhParameter, RsaPublicKey, DsaParameters,
    DomainParameters, EcParameters, ContentInfo, EncryptedPrivateKeyInfo, DigestInfo, OcspResponse,
    TimeStampReq, TimeStampResp, OcspRequest, AsymmetricKeyPackage, SafeContents, KeyIdentifier,
    SubjectKeyIdentifier, AuthorityKeyIdentifier, AuthorityCertIssuer, AuthorityCertSerialNumber,
}

const EXTENSION: [Case; 2] = [
    (Family::SubjectKey, Structure::SubjectKeyExtension),
    (Family::AuthorityKey, Structure::AuthorityKeyExtension),
];

impl Name {
    /// Borrows what may come after an identifier with this name, if it decides that: the type of an
    /// extension does (RFC 5280 section 4.2).
    #[tactic(auto, unfolding(crate::specs::Grammar::cases))]
    pub(crate) fn cases(self) -> &'static [Case]
        ensures { result.now ≡ cases self }
    {
        match self {
            Name::ExtnId => &EXTENSION,
            _ => &[],
        }
    }
}
