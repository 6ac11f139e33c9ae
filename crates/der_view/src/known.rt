//! What is known of bytes by their rows.
ghost use Rattle.std.specs.Prelude.{◌≡◌, fold, is_some};
ghost use Rattle.std.specs.List.{list_any};
ghost use Rattle.der_view.specs.Facts.{row_view};
ghost use Rattle.der_view.specs.Known.{first_place, form_name, gives_curve, is_harm};
ghost use Rattle.der_view.specs.Known.{is_sequence, nothing_known, with_marks, with_row};

use crate::facts::{Kind, RowFacts};
use crate::grammar::{Component, Form, Name};
use crate::identifier::Identifier;
use crate::marks::{Fault, Mark};
use crate::plan::Plan;
use crate::walk::{Element, Place, Rows};

/// What is known of bytes by their rows.
#[derive(Drop)]
pub(crate) struct Known {
    /// How they are drawn.
    pub(crate) plan: Plan,
    /// The offset of the first row with a mark.
    pub(crate) first_mark: Option<usize>,
    /// The offset of the first row with a mark, or that isn't drawn.
    pub(crate) marked: Option<usize>,
    /// Whether a mark is there that isn't of a length, of a constructed string, of bytes after the
    /// root, or of a curve that is given by its parameters.
    pub(crate) is_damaged: bool,
    /// Whether a curve is given by its parameters.
    pub(crate) is_explicit: bool,
    /// The length of the root and its header, if it is definite.
    pub(crate) root_len: Option<usize>,
    /// Whether a curve is named.
    pub(crate) has_curve: bool,
    /// The curve.
    pub(crate) curve: Identifier,
    /// The first algorithm.
    pub(crate) algorithm: Identifier,
    /// The length of an EC private key.
    pub(crate) key_len: Option<usize>,
    /// The length of a content that is a point, and of what is shown of it the two bytes.
    pub(crate) point: Option<(usize, u8, u8)>,
    /// The version of the root.
    pub(crate) version: Option<u8>,
    /// Whether an ECPrivateKey is inside.
    pub(crate) has_inner: bool,
    /// Whether PKCS #8 has a public key.
    pub(crate) has_public: bool,
}

impl Known {
    /// Returns what is known before the first row.
    pub(crate) fn new(plan: Plan) -> Known
        ensures { result ≡ nothing_known plan }
    {
        Known {
            plan,
            first_mark: None,
            marked: None,
            is_damaged: false,
            is_explicit: false,
            root_len: None,
            has_curve: false,
            curve: Identifier::of(&[]),
            algorithm: Identifier::of(&[]),
            key_len: None,
            point: None,
            version: None,
            has_inner: false,
            has_public: false,
        }
    }

    /// Notes the marks of a row, and the length of the root.
    fn see_marks(&mut self, row: &RowFacts)
        ensures { self.new ≡ with_marks self.old (row_view row.now) }
    {
        let is_left = matches!(row.kind, Kind::NotDrawn);
        let first = row.marks[0];
        let is_marked = is_marked(&row.marks);
        let is_harmed = is_harmed(&row.marks);
        let gives_curve = gives_curve(row);
        self.first_mark = first_place(self.first_mark, is_marked, row.place);
        self.marked = first_place(self.marked, is_left | is_marked, row.place);
        self.is_damaged |= (is_left && !matches!(first, Some(Mark::AfterRoot)))
            || (!gives_curve && is_harmed);
        self.is_explicit |= gives_curve;
        if row.place.offset == 0 {
            if let Some(len) = row.announced {
                self.root_len = Some(row.head.len().saturating_add(len));
            }
        }
    }

    /// Notes a row whose component has this name.
    fn see(&mut self, name: Name, row: &RowFacts)
        ensures { self.new ≡ with_row self.old name (row_view row.now) }
    {
        self.see_marks(row);
        let depth = row.place.depth;
        match name {
            Name::NamedCurve => {
                self.has_curve = true;
                self.curve = Identifier::of(row.value);
            }
            Name::Algorithm if self.algorithm.as_bytes().is_empty() => {
                self.algorithm = Identifier::of(row.value);
            }
            // of an ECPrivateKey that is the root, or is in PKCS #8
            Name::PrivateKey if !row.opened => {
                let is_root = depth == 1 && form_name(self.plan.form).is(Name::EcPrivateKey);
                if is_root || depth == 3 {
                    self.key_len = Some(row.len);
                }
            }
            // RFC 5480 section 2.1.1: of an EC key in PKCS #8 these are its curve
            Name::Parameters if depth == 2 => self.is_explicit |= is_sequence(row.kind),
            Name::Point => {
                self.point = match row.value {
                    [unused, form, ..] => Some((row.len, *unused, *form)),
                    _ => None,
                }
            }
            Name::Version if depth == 1 => self.version = row.value.first().copied(),
            Name::EcPrivateKey if depth > 0 => self.has_inner = true,
            Name::PublicKey if depth == 1 => self.has_public = true,
            _ => {}
        }
    }
}

impl Rows for Known {
    ghost use Rattle.std.proofs.Common.{refl};
    ghost use Rattle.der_view.specs.Known.{with_next};
    ghost use Rattle.der_view.specs.RowLaws.{fold-join};

    ghost tells = { λ a b rows. b ≡ fold with_next a rows };

    #[tactic(auto, unfolding(crate::specs::Known::with_next, crate::specs::Facts::row_of))]
    fn element(&mut self, place: Place, element: &Element) {
        let row = RowFacts::of_element(self.plan, false, place, element);
        self.see(element.component.3, &row);
    }

    #[tactic(auto, unfolding(crate::specs::Known::with_next, crate::specs::Facts::row_of))]
    fn end_of_contents(&mut self, place: Place) {
        self.see(Name::Nothing, &RowFacts::of_end(place));
    }

    #[tactic(auto, unfolding(crate::specs::Known::with_next, crate::specs::Facts::row_of))]
    fn not_drawn(&mut self, place: Place, expected: &[Component], len: usize, content: &[u8]) {
        let row = RowFacts::of_not_drawn(self.plan, place, expected, len, content);
        if row.is_told() {
            self.see(Name::Nothing, &row);
        }
    }

    ghost nothing = { λ a. refl };

    ghost joined = { fold-join with_next };
}

/// Returns the offset of the first row that was meant, or else of this one, if it is.
fn first_place(offset: Option<usize>, is_meant: bool, place: Place) -> Option<usize>
    ensures { result ≡ first_place offset is_meant place }
{
    match offset {
        None if is_meant => Some(place.offset),
        _ => offset,
    }
}

/// Returns `true` if there is a mark.
fn is_marked(marks: &[Option<Mark>]) -> bool
    ensures { result ≡ list_any is_some marks.now }
{
    marks.iter().any(|mark| mark.is_some())
}

/// Returns `true` if there is a mark that a command doesn't repair.
fn is_harmed(marks: &[Option<Mark>]) -> bool
    ensures { result ≡ list_any is_harm marks.now }
{
    marks.iter().any(|mark| is_harm(*mark))
}

/// Returns `true` if this is a mark that doesn't say what a command repairs: a length, a
/// constructed string or bytes after the root.
fn is_harm(mark: Option<Mark>) -> bool
    ensures { result ≡ is_harm mark }
{
    match mark {
        None | Some(Mark::AfterRoot) => false,
        Some(Mark::Fault(Fault::Length | Fault::Indefinite | Fault::ConstructedString)) => false,
        Some(_) => true,
    }
}

/// Returns `true` if the row is a SEQUENCE where a curve would be named.
fn gives_curve(row: &RowFacts) -> bool
    ensures { result ≡ gives_curve (row_view row.now) }
{
    match row.expected {
        [component, ..] => is_sequence(row.kind) && component.3.is(Name::NamedCurve),
        [] => false,
    }
}

/// Returns `true` if this is a SEQUENCE, which is constructed (X.690 section 8.9.1).
fn is_sequence(kind: Kind) -> bool
    ensures { result ≡ is_sequence kind }
{
    match kind {
        Kind::Element(tag) => tag.is_universal(16) && tag.constructed,
        _ => false,
    }
}

/// Returns the name of a form.
pub(crate) fn form_name(form: Option<Form>) -> Name
    ensures { result ≡ form_name form }
{
    match form {
        Some(form) => form.0.3,
        None => Name::Nothing,
    }
}
