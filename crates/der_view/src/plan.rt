//! What bytes are, and how they are drawn.
ghost use Rattle.std.specs.Prelude.{◌≡◌, ◌&&◌, ◌||◌, false, fold, nat_le, None, Some};
ghost use Rattle.std.specs.Prelude.{if◌then◌else◌};
ghost use Rattle.der_view.specs.Pictures.{best, form_by, is_last, left_as, parts_as, plan_of};
ghost use Rattle.der_view.specs.Pictures.{rows_as, shape_in, strictly, way_of, whole_as, with_tag};

use crate::grammar::{Component, ELEMENT, FIRST, Form, OTHERS, Secrecy};
use crate::root::{draw_as, is_cut};
use crate::sentences::byte_at;
use crate::walk::{Element, Place, Rows, Rules};

/// How bytes are drawn.
#[derive(Clone, Copy, PartialEq, Eq)]
pub enum Way {
    /// As far as they follow their form.
    Strict,
    /// Each element is a row.
    Loose,
    /// Not at all.
    Nothing,
}

/// What bytes are, and how they are drawn.
#[derive(Clone, Copy)]
pub struct Plan {
    /// The form that the fewest of the bytes don't follow, if they follow it to the end, or for two
    /// components of its root. Of several it is the first that they follow to the end, or else the
    /// first. Or that of an ECPrivateKey, if they are one element that is a key but for the tag of
    /// its privateKey.
    pub form: Option<Form>,
    /// How they are drawn.
    pub way: Way,
    /// Whether they follow the form, and no bytes come after it.
    pub is_whole: bool,
    /// Whether they are one element, in which each header of BER fits, and no bytes come after it.
    pub is_tree: bool,
    /// Whether the content of the root is longer than what is there of it.
    pub is_cut: bool,
    /// The number of bytes.
    pub len: usize,
}

/// Returns what bytes are, and how they are drawn.
pub fn plan_of(bytes: &[u8]) -> Plan
    ensures { result ≡ plan_of bytes.now }
{
    let (nearest, shape) = best(bytes, FIRST, shape_as(FIRST.0, bytes), &OTHERS);
    let tree = shape_as(ELEMENT, bytes);
    let form = form_of(nearest, shape, tree);
    Plan {
        form,
        way: way_of(form, shape.is_whole, tree.is_whole),
        is_whole: shape.is_whole,
        is_tree: tree.is_whole,
        is_cut: is_cut(bytes),
        len: bytes.len(),
    }
}

/// Returns the form of bytes: the nearest if they are known by it, or that of a key with another
/// tag.
fn form_of(nearest: Form, shape: Shape, tree: Shape) -> Option<Form>
    ensures { result ≡ form_by (if shape.is_whole || nat_le 2 shape.parts then Some nearest
        else None) (tree.is_whole && is_last tree.progress) }
{
    if shape.is_whole || shape.parts >= 2 {
        Some(nearest)
    } else if tree.is_whole && tree.progress.is_last() {
        Some(FIRST)
    } else {
        None
    }
}

/// Returns how bytes are drawn that follow a form or not, and are a whole tree or not. Where those
/// of a form that can hold a private key don't follow it, headers may be private bytes.
fn way_of(form: Option<Form>, is_whole: bool, is_tree: bool) -> Way
    ensures { result ≡ way_of form is_whole is_tree }
{
    match form {
        Some((_, Secrecy::Private)) if is_whole || !is_tree => Way::Strict,
        Some((_, Secrecy::Closed)) if !is_tree => Way::Strict,
        None if !is_tree => Way::Nothing,
        _ => Way::Loose,
    }
}

/// Returns the form of these that the fewest of the bytes don't follow, and their shape as it; of
/// several the first that is followed to its end, or else the first.
#[tactic(auto, unfolding(crate::specs::Pictures::best, crate::specs::Pictures::better))]
fn best(bytes: &[u8], first: Form, shape: Shape, others: &[Form]) -> (Form, Shape)
    requires left { shape.left ≡ left_as first.0 bytes.now }
    requires parts { shape.parts ≡ parts_as first.0 bytes.now }
    requires whole { shape.is_whole ≡ whole_as false first.0 bytes.now }
    ensures form { result.0 ≡ best bytes.now first others.now }
    ensures parts { result.1.parts ≡ parts_as result.0.0 bytes.now }
    ensures whole { result.1.is_whole ≡ whole_as false result.0.0 bytes.now }
{
    let [second, others @ ..] = others else {
        return (first, shape);
    };
    let other = shape_as(second.0, bytes);
    if other.left < shape.left || (other.left == shape.left && other.is_whole && !shape.is_whole) {
        best(bytes, *second, other, others)
    } else {
        best(bytes, first, shape, others)
    }
}

/// How far bytes are of a form.
#[derive(Clone, Copy)]
struct Shape {
    /// The number of bytes that aren't drawn.
    left: usize,
    /// The number of elements that are in the root alone.
    parts: usize,
    /// How far they are a key whose private key has another tag.
    progress: Progress,
    /// Whether all of them are.
    is_whole: bool,
}

/// Returns how far the bytes are of a form with this root.
#[tactic(auto, unfolding(crate::specs::Pictures::left_as, crate::specs::Pictures::parts_as))]
fn shape_as(root: Component, bytes: &[u8]) -> Shape
    ensures left { result.left ≡ left_as root bytes.now }
    ensures parts { result.parts ≡ parts_as root bytes.now }
    ensures progress { result.progress
        ≡ (shape_in (rows_as strictly root false bytes.now)).progress }
    ensures whole { result.is_whole ≡ whole_as false root bytes.now }
{
    let mut shape = Shape {
        left: 0,
        parts: 0,
        progress: Progress::Nothing,
        is_whole: false,
    };
    let rules = Rules {
        is_loose: false,
        shows_small: false,
        given: &[],
    };
    let is_whole = draw_as(&mut shape, &rules, root, false, bytes);
    shape.is_whole = is_whole;
    shape
}

impl Rows for Shape {
    ghost use Rattle.std.proofs.Common.{refl};
    ghost use Rattle.der_view.specs.Pictures.{with_row};
    ghost use Rattle.der_view.specs.RowLaws.{fold-join};

    ghost tells = { λ a b rows. b ≡ fold with_row a rows };

    fn element(&mut self, place: Place, element: &Element) {
        if place.depth == 1 {
            self.parts = self.parts.saturating_add(1);
        }
        if place.depth < 2 {
            self.progress = self
                .progress
                .with_tag(byte_at(element.head, 0), element.len);
        }
    }

    fn end_of_contents(&mut self, _place: Place) {}

    fn not_drawn(&mut self, _place: Place, _expected: &[Component], len: usize, _content: &[u8]) {
        self.left = self.left.saturating_add(len);
    }

    ghost nothing = { λ a. refl };

    ghost joined = { fold-join with_row };
}

/// How far a root and its elements are those of an ECPrivateKey (RFC 5915 section 3) of which the
/// privateKey has another tag.
#[derive(Clone, Copy)]
enum Progress {
    /// None has come.
    Nothing,
    /// The root, a SEQUENCE.
    Root,
    /// In it the version.
    Version,
    /// The version, and in the place of the privateKey another primitive type of this length.
    Replaced(usize),
    /// After these the parameters.
    Parameters,
    /// After these the public key.
    PublicKey,
    /// They are others.
    Others,
}

impl Progress {
    /// Returns `true` if no element has to follow, and one that has come tells a key from other
    /// bytes: its parameters, its public key, or as many bytes as a private key on P-224, P-256,
    /// P-384 or P-521 has.
    fn is_last(self) -> bool
        ensures { result ≡ is_last self }
    {
        match self {
            Progress::Replaced(len) => len == 28 || len == 32 || len == 48 || len == 66,
            Progress::Parameters | Progress::PublicKey => true,
            _ => false,
        }
    }

    /// Returns the progress after the root or an element of it, with this tag and a content of this
    /// length.
    #[tactic(auto, unfolding(crate::specs::Pictures::with_tag))]
    fn with_tag(self, tag: u8, len: usize) -> Progress
        ensures { result ≡ with_tag self tag len }
    {
        match self {
            Progress::Nothing if tag == 0x30 => Progress::Root,
            Progress::Root if tag == 0x02 && len == 1 => Progress::Version,
            Progress::Version if tag < 0x20 && tag != 0x04 => Progress::Replaced(len),
            Progress::Replaced(_) if tag == 0xA0 => Progress::Parameters,
            Progress::Replaced(_) if tag == 0xA1 => Progress::PublicKey,
            Progress::Parameters if tag == 0xA1 => Progress::PublicKey,
            _ => Progress::Others,
        }
    }
}
