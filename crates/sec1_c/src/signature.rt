//! Signatures of ECDSA (RFC 3279 section 2.2.3): `sec1_signature_read` and `sec1_signature_write`.
ghost use Rattle.std.specs.Prelude.{◌≡◌, ◌≢◌, refl};
ghost use Rattle.pkix.specs.Records.{signature_content, signature_fault};
ghost use Rattle.pkix.specs.declared.signature.EcdsaSigValue.{EcdsaSigValue};
ghost use Rattle.sec1_der.specs.Elements.{element_of};
ghost use Rattle.sec1_der.specs.Faults.{element_fault, end_fault};
ghost use Rattle.sec1_c.specs.Outputs.{WritesIfAny};
ghost use Rattle.sec1_c.specs.Signatures.{AreSignaturePartsOf, IsSignature, signature_given};
ghost use Rattle.sec1_c.specs.Signatures.{signature_places};
ghost use Rattle.sec1_c.specs.Statuses.{fault_number};

mod number;

use crate::encoding::write_value;
use crate::fields::fields_len;
use crate::span::Span;
use crate::status::{OK, kind_number};
use number::Number;
use pkix::EcdsaSigValue;
use sec1_der::{Distinct, Record, Required};

/// The places of a signature's numbers in its bytes.
#[repr(C)]
#[derive(Clone, Copy)]
pub struct SignatureParts {
    /// The content of the INTEGER r.
    pub r: Span,

    /// The content of the INTEGER s.
    pub s: Span,
}

/// Reads a signature from its DER encoding, which is all of `bytes`, and stores the places of the
/// contents of its two numbers.
///
/// # Errors
///
/// Returns the number of the first fault from left to right, and leaves `parts` unchanged.
#[unsafe(no_mangle)]
#[tactic(auto, using(crate::proofs::StatusLemmas::signature_kind))]
pub extern "C" fn sec1_signature_read(bytes: &[u8], parts: &mut SignatureParts) -> u32
    ensures found { result ≡ 0 → (value : EcdsaSigValue) × IsSignature value bytes.now }
    ensures only { (value : EcdsaSigValue) → IsSignature value bytes.now → result ≡ 0 }
    ensures parts { (value : EcdsaSigValue) → IsSignature value bytes.now
        → AreSignaturePartsOf value bytes.now parts.new }
    ensures places { (value : EcdsaSigValue) → IsSignature value bytes.now
        → parts.new ≡ signature_places value bytes.now }
    ensures kind { result ≡ fault_number (element_fault 0x30 signature_fault end_fault bytes.now) }
    ensures unchanged { result ≢ 0 → parts.new ≡ parts.old }
{
    match EcdsaSigValue::from_der(bytes) {
        Ok(value) => {
            *parts = places(bytes, &value);
            OK
        }
        Err(error) => kind_number(error.kind),
    }
}

/// Returns the places of the numbers of the signature that was read from these bytes.
#[tactic(auto, using(crate::proofs::SignatureLemmas::numbers_fit))]
fn places(bytes: &[u8], value: &EcdsaSigValue) -> SignatureParts
    requires { IsSignature value.now bytes.now }
    ensures { result ≡ signature_places value.now bytes.now }
{
    let (_, s) = value.to_parts();
    let end = bytes.len() - fields_len(&s);
    SignatureParts {
        r: Span::before(end, Some(value.r.as_bytes().len())),
        s: Span::before(bytes.len(), Some(value.s.as_bytes().len())),
    }
}

/// Writes the DER encoding of the signature with these two numbers at the beginning of `out`, and
/// stores its length. `r` and `s` are the digits of the numbers in base 256, the most significant
/// first, with or without zeros in front; no digits are the number 0. The rest of `out` is
/// unchanged.
///
/// # Errors
///
/// Returns the number of Buffer if `out` is too short, and stores the length; or that of Overlength
/// if a number or both together are longer than an element can be, and leaves `len` unchanged.
/// `out` is unchanged in both cases.
#[unsafe(no_mangle)]
pub extern "C" fn sec1_signature_write(r: &[u8], s: &[u8], out: &mut [u8], len: &mut usize) -> u32
    ensures signature { let content = signature_content (signature_given r.now s.now) in
        WritesIfAny (element_of 0x30 content) out.old out.new result len.old len.new }
{
    let signature = GivenSignature {
        r: Number::new(r),
        s: Number::new(s),
    };
    write_value(&signature, out, len)
}

/// A signature by the numbers that a caller gives.
#[derive(Drop)]
struct GivenSignature<'a> {
    r: Number<'a>,
    s: Number<'a>,
}

impl<'a> Record for GivenSignature<'a> {
    type Parts = (Required<Number<'a>>, Required<Number<'a>>);

    ghost parts = { λ signature. (signature.r, signature.s) };

    ghost of_parts = { λ pairs. record { r = pairs.0; s = pairs.1 } };

    fn from_parts((r, s): Self::Parts) -> Self {
        GivenSignature { r: r.0, s: s.0 }
    }

    fn to_parts(&self) -> Self::Parts {
        (Required(self.r.reborrow()), Required(self.s.reborrow()))
    }

    ghost same = { λ _. refl };
}

impl Distinct for GivenSignature<'_> {
    ghost distinct = { refl };
}
