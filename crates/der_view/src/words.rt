//! The words for the names of components and forms.
ghost use Rattle.std.specs.Prelude.{◌≡◌, ◌++◌, [], map, slice_index_or};
ghost use Rattle.std.specs.List.{flat_map};
ghost use Rattle.der_view.specs.Lines.{kept};
ghost use Rattle.der_view.specs.Words.{name_text, same_name};

use crate::grammar::Name;
use crate::line::Line;

/// How the standards spell each name, in the order of [`Name`].
#[rattlefmt::skip]
static NAMES: [&str; 141] = [
    "", "version", "privateKey", "parameters", "publicKey", "namedCurve", "the point",
    "privateKeyAlgorithm", "attributes", "algorithm", "ECPrivateKey", "RSAPrivateKey", "the key",
    "modulus", "publicExponent", "privateExponent", "prime1", "prime2", "exponent1", "exponent2",
    "coefficient", "otherPrimeInfos", "p", "q", "g", "y", "x", "authSafe", "macData", "mac",
    "macSalt", "iterations", "OneAsymmetricKey", "SafeBag", "bagId", "bagValue", "bagAttributes",
    "tbsCertificate", "signatureAlgorithm", "signatureValue", "serialNumber", "signature", "issuer",
    "validity", "subject", "subjectPublicKeyInfo", "issuerUniqueID", "subjectUniqueID",
    "extensions", "RelativeDistinguishedName", "AttributeTypeAndValue", "type", "value",
    "notBefore", "notAfter", "subjectPublicKey", "Extension", "extnID", "critical", "extnValue",
    "certificationRequestInfo", "subjectPKInfo", "tbsCertList", "thisUpdate", "nextUpdate",
    "revokedCertificates", "crlExtensions", "revokedCertificate", "userCertificate",
    "revocationDate", "crlEntryExtensions", "r", "s", "prime", "base", "privateValueLength", "j",
    "validationParms", "fieldID", "curve", "order", "cofactor", "fieldType", "a", "b", "seed",
    "contentType", "content", "encryptionAlgorithm", "encryptedData", "digestAlgorithm", "digest",
    "tbsRequest", "optionalSignature", "requestorName", "requestList", "requestExtensions",
    "Request", "reqCert", "singleRequestExtensions", "hashAlgorithm", "issuerNameHash",
    "issuerKeyHash", "responseStatus", "responseBytes", "responseType", "response",
    "messageImprint", "reqPolicy", "nonce", "certReq", "status", "timeStampToken", "statusString",
    "failInfo", "PrivateKeyInfo", "DSAPrivateKey", "PFX", "Certificate", "CertificationRequest",
    "CertificateList", "SubjectPublicKeyInfo", "DHParameter", "RSAPublicKey", "Dss-Parms",
    "DomainParameters", "ECParameters", "ContentInfo", "EncryptedPrivateKeyInfo", "DigestInfo",
    "OCSPResponse", "TimeStampReq", "TimeStampResp", "OCSPRequest", "AsymmetricKeyPackage",
    "SafeContents", "keyIdentifier", "SubjectKeyIdentifier", "AuthorityKeyIdentifier",
    "authorityCertIssuer", "authorityCertSerialNumber",
];

impl Name {
    /// Returns the name as its standard spells it; nothing for [`Name::Nothing`].
    #[tactic(auto, unfolding(crate::specs::Words::name_text))]
    pub fn text(self) -> &'static str
        ensures { result.now ≡ name_text self }
    {
        NAMES[self as usize]
    }

    /// Returns `true` if this is the other name.
    pub(crate) fn is(self, other: Name) -> bool
        ensures { result ≡ same_name self other }
    {
        self as usize == other as usize
    }
}

/// Returns the text with this number in a table; nothing if there are fewer.
pub(crate) fn text_at(texts: &[&'static str], number: usize) -> &'static str
    ensures { result.now ≡ slice_index_or (map (λ text. text.now) texts.now) number [] }
{
    if number < texts.len() {
        texts[number]
    } else {
        ""
    }
}

impl Line {
    /// Appends texts, one after the other.
    #[tactic(auto, using(crate::proofs::LineLemmas::kept_pieces))]
    pub(crate) fn push_all(&mut self, texts: &[&str])
        ensures { self.new ≡ kept (self.old ++ flat_map (λ text. text.now) texts.now) }
    {
        let Some((text, others)) = texts.split_first() else {
            return self.push_str("");
        };
        self.push_str(text);
        self.push_all(others);
    }
}
