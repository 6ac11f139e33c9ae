#![tactic(auto)]

mod algorithm;
mod certificate;
mod extension;
mod in_place;
mod keys;
pub mod laws;
mod name;
mod private_key;
mod public_key;
mod signature;
mod tbs_parts;
mod validity;
mod version;

pub use algorithm::AlgorithmIdentifier;
pub use certificate::{Certificate, TbsCertificate};
pub use curves::Curve;
pub use extension::Extension;
pub use name::{AttributeTypeAndValue, Name, RelativeDistinguishedName};
pub use private_key::{Attribute, Attributes, OneAsymmetricKey, PrivateKeyInfo, ValueSet};
pub use public_key::SubjectPublicKeyInfo;
pub use signature::EcdsaSigValue;
pub use validity::{Time, Validity};
pub use version::LaterVersion;
