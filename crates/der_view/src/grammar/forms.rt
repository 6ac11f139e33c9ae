//! What the whole of some bytes can be.
use super::Content::{Inside, Short};
use super::Presence::Needed;
use super::Structure::*;
use super::{Component, Name};
use Secrecy::{Closed, Private, Public};

/// What the parts of a form can hold.
#[derive(Clone, Copy)]
pub enum Secrecy {
    /// A private key.
    Private,
    /// Bytes of any kind.
    Closed,
    /// No private key.
    Public,
}

/// What the whole of some bytes can be: its root, and what its parts can hold.
pub type Form = (Component, Secrecy);

/// The first of the forms.
#[rattlefmt::skip]
pub(crate) const FIRST: Form = ((0x30, Needed, Inside(EcPrivateKey), Name::EcPrivateKey), Private);

/// The others. Of two that as many bytes follow the earlier is meant.
#[rattlefmt::skip]
pub(crate) const OTHERS: [Form; 35] = [
    ((0x30, Needed, Inside(EcKeyInfo), Name::PrivateKeyInfo), Private),
    ((0x30, Needed, Inside(RsaKeyInfo), Name::PrivateKeyInfo), Private),
    ((0x30, Needed, Inside(DsaKeyInfo), Name::PrivateKeyInfo), Private),
    ((0x30, Needed, Inside(DhKeyInfo), Name::PrivateKeyInfo), Private),
    ((0x30, Needed, Inside(X942KeyInfo), Name::PrivateKeyInfo), Private),
    ((0x30, Needed, Inside(OctetKeyInfo), Name::PrivateKeyInfo), Private),
    ((0x30, Needed, Inside(KeyInfo), Name::PrivateKeyInfo), Private),
    ((0x30, Needed, Inside(RsaPrivateKey), Name::RsaPrivateKey), Private),
    ((0x30, Needed, Inside(DsaPrivateKey), Name::DsaPrivateKey), Private),
    ((0x30, Needed, Inside(Pfx), Name::Pfx), Private),
    ((0x30, Needed, Inside(Certificate), Name::Certificate), Public),
    ((0x30, Needed, Inside(CertificationRequest), Name::CertificationRequest), Public),
    ((0x30, Needed, Inside(CertificateList), Name::CertificateList), Public),
    ((0x30, Needed, Inside(EcPublicKeyInfo), Name::PublicKeyInfo), Public),
    ((0x30, Needed, Inside(RsaPublicKeyInfo), Name::PublicKeyInfo), Public),
    ((0x30, Needed, Inside(PublicKeyInfo), Name::PublicKeyInfo), Public),
    ((0x30, Needed, Inside(DhParameter), Name::DhParameter), Closed),
    ((0x30, Needed, Inside(RsaPublicKey), Name::RsaPublicKey), Closed),
    ((0x30, Needed, Inside(Signature), Name::Signature), Closed),
    ((0x30, Needed, Inside(DsaParameters), Name::DsaParameters), Closed),
    ((0x30, Needed, Inside(DomainParameters), Name::DomainParameters), Closed),
    ((0x30, Needed, Inside(EcParameters), Name::EcParameters), Public),
    ((0x30, Needed, Inside(ContentInfo), Name::ContentInfo), Closed),
    ((0x30, Needed, Inside(PbesKeyInfo), Name::EncryptedPrivateKeyInfo), Closed),
    ((0x30, Needed, Inside(PbeKeyInfo), Name::EncryptedPrivateKeyInfo), Closed),
    ((0x30, Needed, Inside(ShaInfo), Name::DigestInfo), Closed),
    ((0x30, Needed, Inside(Sha1Info), Name::DigestInfo), Closed),
    ((0x30, Needed, Inside(MdInfo), Name::DigestInfo), Closed),
    ((0x30, Needed, Inside(OcspResponse), Name::OcspResponse), Closed),
    ((0x30, Needed, Inside(TimeStampReq), Name::TimeStampReq), Closed),
    ((0x30, Needed, Inside(TimeStampResp), Name::TimeStampResp), Closed),
    ((0x30, Needed, Inside(OcspRequest), Name::OcspRequest), Closed),
    ((0x30, Needed, Inside(KeyPackage), Name::AsymmetricKeyPackage), Private),
    ((0x30, Needed, Inside(SafeContents), Name::SafeContents), Private),
    ((0x06, Needed, Short(12), Name::NamedCurve), Public),
];
