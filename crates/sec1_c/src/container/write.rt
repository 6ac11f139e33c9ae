//! EC private keys in containers, written (RFC 5958 section 2): `sec1_private_key_info_write`.
ghost use Rattle.std.specs.Prelude.{◌≡◌, List, ℕ, [], Some, refl};
ghost use Rattle.curves.specs.Curves.{curve_arcs, curve_content};
ghost use Rattle.curves.specs.declared.curve.Curve.{Curve};
ghost use Rattle.sec1.specs.Keys.{Key};
ghost use Rattle.sec1_der.specs.Elements.{element_of};
ghost use Rattle.sec1_der.specs.Identifiers.{identifier_content};
ghost use Rattle.sec1_c.specs.CurveContents.{IsOfNoCurve};
ghost use Rattle.sec1_c.specs.GivenKeys.{IsGiven};
ghost use Rattle.sec1_c.specs.Outputs.{Writes, WritesNothing};
ghost use Rattle.sec1_c.specs.Statuses.{curve_number, kind_number};
ghost use Rattle.sec1_c.specs.WrittenKeys.{IsContainerOf};

use crate::algorithm::{MAX_CURVE_ELEMENT, ec_algorithm, write_curve};
use crate::encoding::write_value;
use crate::key::given::key_given;
use crate::status::curve_number;
use curves::Curve;
use pkix::AlgorithmIdentifier;
use sec1::BorrowedKey;
use sec1::der::ErrorKind;
use sec1::laws::tree_is_element;
use sec1_der::{Containing, Distinct, Record, Required, SmallInteger};

/// Writes the container of an EC private key, a PrivateKeyInfo without attributes, at the beginning
/// of `out`, and stores its length. `curve` is the content of the curve's object identifier, which
/// the algorithm names and the key in the container doesn't name again; the other parts are those
/// of `sec1_key_write`. The rest of `out` is unchanged.
///
/// # Errors
///
/// Returns the number of Buffer if `out` is too short, and stores the length. Otherwise returns
/// that of a curve that isn't in the table, or of Overlength if a part or the whole is longer than
/// an element can be, and leaves `len` unchanged. `out` is unchanged in each case.
#[unsafe(no_mangle)]
pub extern "C" fn sec1_private_key_info_write(
    private_key: &[u8],
    curve: &[u8],
    public_key: &[u8],
    has_public_key: usize,
    out: &mut [u8],
    len: &mut usize,
) -> u32
    ensures container { (named : Curve) (key : Key) (bytes : List ℕ)
        → curve_content named ≡ curve.now
        → IsGiven key private_key.now [] public_key.now has_public_key
        → IsContainerOf named key bytes → Writes bytes out.old out.new result len.new }
    ensures overlength { (named : Curve) (key : Key) → curve_content named ≡ curve.now
        → IsGiven key private_key.now [] public_key.now has_public_key
        → ((bytes : List ℕ) → ¬ IsContainerOf named key bytes)
        → WritesNothing (kind_number ErrorKind.Overlength) out.old out.new result
        len.old len.new }
    ensures no_curve { IsOfNoCurve curve.now
        → WritesNothing curve_number out.old out.new result len.old len.new }
{
    let Some(curve) = Curve::from_content(curve) else {
        return curve_number();
    };
    // A key that names no curve can be given.
    let Some(key) = key_given(private_key, &[], public_key, has_public_key) else {
        unreachable!();
    };
    let mut buffer = [0; MAX_CURVE_ELEMENT];
    let element_len = write_curve(curve, &mut buffer);
    write_container(curve, &buffer[..element_len], key, out, len)
}

/// Writes the container of a key on a curve, whose identifier has this element, and stores its
/// length. Returns the number of Buffer if `out` is too short, and that of Overlength if there is
/// no such container.
fn write_container(
    curve: Curve,
    element: &[u8],
    key: BorrowedKey,
    out: &mut [u8],
    len: &mut usize,
) -> u32
    requires { element_of 0x06 (identifier_content (curve_arcs curve)) ≡ Some element.now }
    ensures container { (bytes : List ℕ) → IsContainerOf curve key.entry bytes
        → Writes bytes out.old out.new result len.new }
    ensures overlength { ((bytes : List ℕ) → ¬ IsContainerOf curve key.entry bytes)
        → WritesNothing (kind_number ErrorKind.Overlength) out.old out.new result
        len.old len.new }
{
    tree_is_element();
    let container = KeyContainer {
        algorithm: ec_algorithm(curve, element),
        key,
    };
    write_value(&container, out, len)
}

/// A PrivateKeyInfo without attributes, by the key in it.
#[derive(Drop)]
struct KeyContainer<'a> {
    algorithm: AlgorithmIdentifier<'a>,
    key: BorrowedKey<'a>,
}

impl<'a> Record for KeyContainer<'a> {
    type Parts = (
        Required<SmallInteger<0>>,
        (
            AlgorithmIdentifier<'a>,
            Required<Containing<BorrowedKey<'a>>>,
        ),
    );

    ghost parts = { λ container. (record {}, (container.algorithm, container.key)) };

    ghost of_parts = { λ pairs. record { algorithm = pairs.1.0; key = pairs.1.1 } };

    fn from_parts((_, (algorithm, key)): Self::Parts) -> Self {
        KeyContainer {
            algorithm,
            key: key.0.value,
        }
    }

    fn to_parts(&self) -> Self::Parts {
        (
            Required(SmallInteger),
            (
                self.algorithm.reborrow(),
                Required(Containing::new(self.key.reborrow())),
            ),
        )
    }

    ghost same = { λ _. refl };
}

impl Distinct for KeyContainer<'_> {
    ghost distinct = { refl };
}
