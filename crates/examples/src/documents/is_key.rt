ghost use Rattle.std.specs.Prelude.{◌≡◌, ◌↔◌, IsTrue};
ghost use Rattle.sec1.specs.Keys.{IsKeyOf, Key};

use sec1::EcPrivateKey;

/// Returns whether the bytes are those of a key: the tree of some key has them.
pub fn is_key(bytes: &[u8]) -> bool
    ensures { IsTrue result ↔ ((key : Key) × IsKeyOf key bytes.now) }
{
    EcPrivateKey::try_from(bytes).is_ok()
}
