ghost use Rattle.sec1.specs.Der.{IsReadingFault};
ghost use Rattle.sec1.specs.Errors.{IsAsn1Where};
ghost use Rattle.sec1.specs.Keys.{IsKeyOf, Key};
ghost use Rattle.std.specs.Prelude.{◌≡◌, ◌⊎◌, IfErr, IfOk, MatchResult};

use sec1::{EcPrivateKey, Error, Result};
use std::alloc::Global;

/// Reads a key and writes it again: the bytes that were read.
pub fn key_again(alloc: Global, bytes: &[u8]) -> Result<Vec<u8>>
    ensures same { IfOk result (λ der. der.items ≡ bytes.now) }
    ensures kinds { IfErr result (λ e. IsAsn1Where IsReadingFault e ⊎ (e ≡ Error.Memory)) }
    ensures key { (key : Key) → IsKeyOf key bytes.now
        → MatchResult result (λ der. der.items ≡ bytes.now) (λ e. e ≡ Error.Memory) }
{
    let key = EcPrivateKey::try_from(bytes)?;
    key.to_der(alloc)
}
