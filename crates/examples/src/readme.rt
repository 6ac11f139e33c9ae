ghost use Rattle.sec1.specs.Keys.{IsKeyOf, Key};
ghost use Rattle.sec1.specs.Parameters.{curve_of};
ghost use Rattle.std.specs.Prelude.{◌≡◌, IfOk, IsOkAnd, option_map};

use sec1::{EcParameters, EcPrivateKey, Result};

/// Returns the length of the private key in bytes.
pub fn private_key_len(der: &[u8]) -> Result<usize> {
    let key = EcPrivateKey::try_from(der)?;
    Ok(key.private_key.len())
}

/// Returns the curve that the key names, if it names one.
pub fn curve(der: &[u8]) -> Result<Option<EcParameters>>
    ensures found { IfOk result (λ curve. (key : Key) × IsKeyOf key der.now
        × (option_map curve_of curve ≡ key.parameters)) }
    ensures only { (key : Key) → IsKeyOf key der.now
        → IsOkAnd result (λ curve. option_map curve_of curve ≡ key.parameters) }
{
    let key = EcPrivateKey::try_from(der)?;
    Ok(key.parameters)
}
