//! Private keys in DER that differ in one private number or string: they differ in bytes alone that
//! no picture by `der_view` shows, so that the pictures are the same.
ghost use Rattle.std.specs.Prelude.{◌≡◌, ◌<◌, ◌≤◌, ◌∷◌, ◌++◌, [], List, ℕ, false, length};
ghost use Rattle.sec1_der.specs.Elements.{header};
ghost use Rattle.der_view.specs.Headers.{max_content_len};
ghost use Rattle.der_view.specs.Keys.{AreLevels, AreParts, DifferIn, IsContent, IsCutIn};
ghost use Rattle.der_view.specs.Keys.{container, container_parts, integers, key_bytes, key_in};
ghost use Rattle.der_view.specs.Keys.{sequence};
ghost use Rattle.der_view.specs.Masks.{AreAlike};
ghost use Rattle.der_view.specs.Pictures.{picture, plan_of};

use der_view::laws;

/// Inputs of which only bytes differ that aren't shown have the same plan and the same rows.
pub fn pictures_of_unseen_bytes()
    ensures plan { (a b : List ℕ) → AreAlike a b → plan_of a ≡ plan_of b }
    ensures rows { (a b : List ℕ) → AreAlike a b → picture false a ≡ picture false b }
{
    laws::pictures_are_of_masks();
}

/// So have those that differ so one after the other, as RSA keys in several private numbers.
pub fn pictures_of_three()
    ensures { (a b c : List ℕ) → AreAlike a b → AreAlike b c
        → picture false a ≡ picture false c }
{
    laws::pictures_are_of_masks();
}

/// Two EC keys with the same curve and public key differ in bytes that aren't shown, whatever
/// follows, and wherever the bytes end.
pub fn unseen_in_ec_keys()
    ensures { (m n : ℕ) (version x y rest : List ℕ)
        → length version ≤ max_content_len → DifferIn n x y
        → IsContent m (key_in [] ((0x02, version) ∷ []) 0x04 n x) rest
        → AreAlike (key_bytes m [] ((0x02, version) ∷ []) 0x04 n x rest)
        (key_bytes m [] ((0x02, version) ∷ []) 0x04 n y rest) }
{
    laws::keys_are_unseen();
}

/// So do two RSA keys with the same public numbers, and two DSA keys.
pub fn unseen_in_numbers()
    ensures { (m n : ℕ) (numbers : List (List ℕ)) (x y rest : List ℕ)
        → AreParts (integers numbers) → 3 ≤ length numbers → length numbers ≤ 8 → 8 < n
        → DifferIn n x y
        → IsContent m (key_in [] (integers numbers) 0x02 n x) rest
        → AreAlike (key_bytes m [] (integers numbers) 0x02 n x rest)
        (key_bytes m [] (integers numbers) 0x02 n y rest) }
{
    laws::keys_are_unseen();
}

/// So do two private keys of Ed25519 in PKCS #8, also if attributes follow.
pub fn unseen_in_curve_keys()
    ensures { (m n : ℕ) (version algorithm attributes x y rest : List ℕ)
        → let around = container version algorithm attributes ∷ [] in
        AreLevels around [] 0x04 n x → DifferIn n x y
        → IsContent m (key_in around [] 0x04 n x) rest
        → AreAlike (key_bytes m around [] 0x04 n x rest)
        (key_bytes m around [] 0x04 n y rest) }
{
    laws::keys_are_unseen();
}

/// So do two DSA keys in PKCS #8, and two of Diffie-Hellman.
pub fn unseen_in_contained_numbers()
    ensures { (m n : ℕ) (version algorithm attributes x y rest : List ℕ)
        → let around = container version algorithm attributes ∷ [] in
        AreLevels around [] 0x02 n x → 8 < n → DifferIn n x y
        → IsContent m (key_in around [] 0x02 n x) rest
        → AreAlike (key_bytes m around [] 0x02 n x rest)
        (key_bytes m around [] 0x02 n y rest) }
{
    laws::keys_are_unseen();
}

/// So do two RSA keys in PKCS #8.
pub fn unseen_in_contained_rsa_keys()
    ensures { (m n : ℕ) (version algorithm attributes : List ℕ) (numbers : List (List ℕ))
        (x y rest : List ℕ)
        → let around = container version algorithm attributes ∷ sequence ∷ [] in
        AreLevels around (integers numbers) 0x02 n x → 3 ≤ length numbers
        → length numbers ≤ 8 → 8 < n → DifferIn n x y
        → IsContent m (key_in around (integers numbers) 0x02 n x) rest
        → AreAlike (key_bytes m around (integers numbers) 0x02 n x rest)
        (key_bytes m around (integers numbers) 0x02 n y rest) }
{
    laws::keys_are_unseen();
}

/// So do two EC keys in PKCS #8, whatever follows.
pub fn unseen_in_contained_ec_keys()
    ensures { (m n : ℕ) (version algorithm inner attributes x y rest : List ℕ)
        → let around = container version algorithm attributes ∷ sequence ∷ [] in
        AreLevels around ((0x02, inner) ∷ []) 0x04 n x → DifferIn n x y
        → IsContent m (key_in around ((0x02, inner) ∷ []) 0x04 n x) rest
        → AreAlike (key_bytes m around ((0x02, inner) ∷ []) 0x04 n x rest)
        (key_bytes m around ((0x02, inner) ∷ []) 0x04 n y rest) }
{
    laws::keys_are_unseen();
}

/// So do two keys in PKCS #8 that are cut inside the privateKey, in all that is there after the
/// first header in it.
pub fn unseen_in_cut_containers()
    ensures { (m n tag k : ℕ) (version algorithm x y rest : List ℕ)
        → let before = container_parts version algorithm in
        IsCutIn n tag k x → AreParts before → DifferIn n (header tag k ++ x) (header tag k ++ y)
        → IsContent m (key_in [] before 0x04 n (header tag k ++ x)) rest
        → AreAlike (key_bytes m [] before 0x04 n (header tag k ++ x) rest)
        (key_bytes m [] before 0x04 n (header tag k ++ y) rest) }
{
    laws::keys_are_unseen();
}
