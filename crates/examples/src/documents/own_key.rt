ghost use Rattle.sec1.specs.Der.{IsReadingFault};
ghost use Rattle.sec1.specs.Errors.{IsAsn1, IsAsn1Where};
ghost use Rattle.sec1.specs.Keys.{IsKeyOf, Key};
ghost use Rattle.sec1_der.specs.declared.error.ErrorKind.TheVariants.{Overlength};
ghost use Rattle.std.specs.Prelude.{◌≡◌, None};

use sec1::der::SecretDocument;
use sec1::{DecodeEcPrivateKey, EcPrivateKey, EncodeEcPrivateKey, Result};
use std::alloc::Global;

/// A private key that owns its bytes, without a curve and without a public key.
#[derive(Drop)]
pub struct OwnKey {
    /// The bytes of the private key.
    pub private_key: Vec<u8>,
}

impl DecodeEcPrivateKey for OwnKey {
    ghost reads = { λ bytes own. (key : Key) × IsKeyOf key bytes
        × (own.private_key.items ≡ key.private_key) };

    ghost refuses = { λ _ error. IsAsn1Where IsReadingFault error };

    fn from_sec1_der(alloc: Global, bytes: &[u8]) -> Result<OwnKey> {
        let key = EcPrivateKey::try_from(bytes)?;
        let private_key = Vec::from_slice(alloc, key.private_key)?;
        Ok(OwnKey { private_key })
    }
}

impl EncodeEcPrivateKey for OwnKey {
    ghost writes = { λ own bytes. IsKeyOf (record {
      private_key = own.private_key.items;
      parameters = None;
      public_key = None;
    }) bytes };

    ghost refuses = { λ _ error. IsAsn1 Overlength error };

    fn to_sec1_der(&self, alloc: Global) -> Result<SecretDocument> {
        let key = EcPrivateKey {
            private_key: &self.private_key,
            parameters: None,
            public_key: None,
        };
        key.document(alloc)
    }
}
