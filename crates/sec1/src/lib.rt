//! EC private keys in DER (SEC1 v2.0 Appendix C.4, RFC 5915 section 3) and points of elliptic
//! curves over prime fields (SEC1 v2.0 section 2.3.3). Each value has one encoding in bytes, and
//! everything else is refused.
//!
//! Nothing is computed on curves. [`der`] is the layer of DER below.
//!
//! # Examples
//!
//! ```
//! let key = EcPrivateKey::try_from(bytes)?;
//! let Some(public_key) = key.public_key else {
//!     return Ok(None);
//! };
//! let point = EncodedPoint32::from_bytes(public_key)?;
//! Ok(Some(point.compress()))
//! ```
#![tactic(auto)]

mod borrowed_key;
mod checks;
mod error;
mod in_place;
pub mod laws;
mod parameters;
pub mod point;
mod private_key;
mod traits;

pub use borrowed_key::BorrowedKey;
pub use error::{Error, Result};
pub use parameters::EcParameters;
pub use point::{EncodedPoint, EncodedPoint28, EncodedPoint32, EncodedPoint48, EncodedPoint66};
pub use private_key::EcPrivateKey;
pub use sec1_der as der;
use sec1_der::{ID_EC_PUBLIC_KEY, ObjectIdentifier};
pub use traits::{DecodeEcPrivateKey, EncodeEcPrivateKey};

/// The algorithm identifier of elliptic curve keys, id-ecPublicKey, 1.2.840.10045.2.1 (RFC 5480
/// section 2.1.1).
pub const ALGORITHM_OID: ObjectIdentifier = ID_EC_PUBLIC_KEY;
