//! Laws of pictures, for callers to cite. Each law is the contract of a function, which does
//! nothing else.
ghost use Rattle.std.specs.Prelude.{◌≡◌, ◌<◌, ◌≤◌, ◌∷◌, ◌++◌, [], ℕ, Bool, false, true, List};
ghost use Rattle.std.specs.Prelude.{IsSomeAnd, length};
ghost use Rattle.sec1.specs.Keys.{IsKeyOf, Key};
ghost use Rattle.sec1_der.specs.Elements.{header};
ghost use Rattle.der_view.specs.Drawings.{has_key, is_key_of, picture_lines};
ghost use Rattle.der_view.specs.Grammar.{Component};
ghost use Rattle.der_view.specs.Headers.{max_content_len};
ghost use Rattle.der_view.specs.Keys.{AreLevels, AreParts, AreUnseen, IsCutIn, container};
ghost use Rattle.der_view.specs.Keys.{container_parts, integers, sequence};
ghost use Rattle.der_view.specs.Masks.{AreAlike, mask_as};
ghost use Rattle.der_view.specs.Pictures.{picture, plan_of, rows_as, whole_as};
ghost use Rattle.der_view.specs.RowLaws.{AllFollow, AreAt, rows_len};
ghost use Rattle.der_view.specs.Sources.{Der, has_begin, is_text, sources_of};
ghost use Rattle.der_view.specs.declared.plan.Way.TheVariants as ways;

use crate::drawing::is_key;
use crate::grammar::{Name, Secrecy};

/// The rows of bytes are those of their mask, in which each byte that isn't shown is 0, and each
/// that isn't drawn FF; and so is whether they follow.
#[tactic(auto, using(crate::proofs::PictureMaskLemmas::mask_as_len, crate::proofs::PictureMaskLemmas::rows_of_mask, crate::proofs::PictureMaskLemmas::whole_of_mask))]
pub fn rows_are_of_mask()
    ensures rows { (loose small is_public : Bool) (root : Component) (bytes : List ℕ)
        → rows_as (record { loose = loose; small = small; given = [] }) root is_public
        (mask_as loose small root bytes)
        ≡ rows_as (record { loose = loose; small = small; given = [] }) root is_public bytes }
    ensures whole { (loose small : Bool) (root : Component) (bytes : List ℕ)
        → whole_as loose root (mask_as loose small root bytes) ≡ whole_as loose root bytes }
    ensures len { (loose small : Bool) (root : Component) (bytes : List ℕ)
        → length (mask_as loose small root bytes) ≡ length bytes }
{}

/// Bytes that have the same masks have the same plan and the same picture.
#[tactic(auto, using(crate::proofs::PictureMaskLemmas::picture_alike, crate::proofs::PictureMaskLemmas::plan_alike))]
pub fn pictures_are_of_masks()
    ensures picture { (a b : List ℕ) → AreAlike a b → picture false a ≡ picture false b }
    ensures plan { (a b : List ℕ) → AreAlike a b → plan_of a ≡ plan_of b }
{}

/// Private keys that differ in one private number or string alone have the same masks, however the
/// bytes go on, and wherever they end. So have keys in PKCS #8 that differ in any bytes after the
/// first header in the privateKey, if the element with this header isn't whole there. A key with
/// several private numbers, as of RSA, differs in one after the other. A number has more than 8
/// bytes: one of fewer is shown in a whole tree that isn't the key.
pub fn keys_are_unseen()
    // RFC 5915 section 3: ECPrivateKey
    ensures ec { (m n : ℕ) (version x y rest : List ℕ) → length version ≤ max_content_len
        → AreUnseen m [] ((0x02, version) ∷ []) 0x04 n x y rest }
    // RFC 8017 appendix A.1.2: RSAPrivateKey, from the fourth number on; and the sixth of a DSA key
    ensures number { (m n : ℕ) (numbers : List (List ℕ)) (x y rest : List ℕ)
        → AreParts (integers numbers) → 3 ≤ length numbers → length numbers ≤ 8 → 8 < n
        → AreUnseen m [] (integers numbers) 0x02 n x y rest }
    // RFC 5958 section 2: ECPrivateKey in PKCS #8
    ensures contained_ec { (m n : ℕ) (version algorithm inner after x y rest : List ℕ)
        → let around = container version algorithm after ∷ sequence ∷ [] in
        AreLevels around ((0x02, inner) ∷ []) 0x04 n x
        → AreUnseen m around ((0x02, inner) ∷ []) 0x04 n x y rest }
    // RSAPrivateKey in PKCS #8
    ensures contained_rsa { (m n : ℕ) (version algorithm after : List ℕ)
        (numbers : List (List ℕ)) (x y rest : List ℕ)
        → let around = container version algorithm after ∷ sequence ∷ [] in
        AreLevels around (integers numbers) 0x02 n x → 3 ≤ length numbers → length numbers ≤ 8
        → 8 < n → AreUnseen m around (integers numbers) 0x02 n x y rest }
    // a DSA or Diffie-Hellman key in PKCS #8
    ensures contained_number { (m n : ℕ) (version algorithm after x y rest : List ℕ)
        → let around = container version algorithm after ∷ [] in
        AreLevels around [] 0x02 n x → 8 < n → AreUnseen m around [] 0x02 n x y rest }
    // RFC 8410 section 7: CurvePrivateKey in PKCS #8
    ensures contained_octets { (m n : ℕ) (version algorithm after x y rest : List ℕ)
        → let around = container version algorithm after ∷ [] in
        AreLevels around [] 0x04 n x → AreUnseen m around [] 0x04 n x y rest }
    // any key in PKCS #8 that is cut inside the privateKey
    ensures contained_cut { (m n tag k : ℕ) (version algorithm x y rest : List ℕ)
        → let before = container_parts version algorithm in
        IsCutIn n tag k x → AreParts before
        → AreUnseen m [] before 0x04 n (header tag k ++ x) (header tag k ++ y) rest }
{}

/// Keys with the same curve and public key, and private keys as long, have the same masks.
pub fn keys_are_alike()
    ensures { (k l : Key) (a b : List ℕ) → IsKeyOf k a → IsKeyOf l b
        → k.parameters ≡ l.parameters → k.public_key ≡ l.public_key
        → length k.private_key ≡ length l.private_key → length a ≤ max_content_len
        → AreAlike a b }
{}

/// The bytes of a key are known to be an ECPrivateKey, to the last one, and drawn strictly: each
/// element follows.
#[tactic(auto, using(crate::proofs::KeyFormLemmas::key_known))]
pub fn keys_are_known()
    ensures form { (key : Key) (a : List ℕ) → IsKeyOf key a → length a ≤ max_content_len
        → IsSomeAnd (plan_of a).form
        (λ form. (form.0.3 ≡ Name.EcPrivateKey) × (form.1 ≡ Secrecy.Private)) }
    ensures whole { (key : Key) (a : List ℕ) → IsKeyOf key a → length a ≤ max_content_len
        → (plan_of a).is_whole ≡ true }
    ensures way { (key : Key) (a : List ℕ) → IsKeyOf key a → length a ≤ max_content_len
        → (plan_of a).way ≡ ways.Strict }
    ensures follow { (key : Key) (a : List ℕ) → IsKeyOf key a → length a ≤ max_content_len
        → AllFollow (picture false a) }
{}

/// Each byte is in one row, and the rows are in order: each begins where those before it end.
pub fn rows_are_bytes()
    ensures len { (all : Bool) (bytes : List ℕ) → rows_len (picture all bytes) ≡ length bytes }
    ensures order { (all : Bool) (bytes : List ℕ) → AreAt 0 (picture all bytes) }
{}

/// Keys with the same curve and public key, and private keys as long, have the same picture: the
/// same rows, and the same lines after them.
pub fn keys_are_drawn_alike(a: &[u8], b: &[u8])
    ensures { (k l : Key) → IsKeyOf k a.now → IsKeyOf l b.now → k.parameters ≡ l.parameters
        → k.public_key ≡ l.public_key → length k.private_key ≡ length l.private_key
        → length a.now ≤ max_content_len
        → picture_lines false a.now ≡ picture_lines false b.now }
{
    keys_are_alike();
    keys_are_known();
    pictures_are_of_masks();
    let _ = is_key(a);
    let _ = is_key(b);
}

/// Bytes that are all of their form are the one source of an input. Of one that is no text, and has
/// no block of PEM in it, the picture says that it is a key exactly if it is one.
#[tactic(auto, using(crate::proofs::DrawingLemmas::one_source))]
pub fn keys_are_found(a: &[u8])
    ensures source { (plan_of a.now).is_whole ≡ true → sources_of a.now ≡ Der a.now ∷ [] }
    ensures key { is_text a.now ≡ false → has_begin a.now ≡ false
        → length a.now ≤ max_content_len → has_key a.now ≡ is_key_of a.now }
{
    keys_are_known();
    let _ = is_key(a);
}
