//! What is printed of a row.
ghost use Rattle.std.specs.Prelude.{◌≡◌};
ghost use Rattle.der_view.specs.Facts.{bare_row, element_marks, element_row, end_row};
ghost use Rattle.der_view.specs.Facts.{is_all, is_private, is_private_name, is_told, misfit_mark};
ghost use Rattle.der_view.specs.Facts.{missing_mark, not_drawn_row, point_of, point_shown};
ghost use Rattle.der_view.specs.Facts.{row_view, shown_by, shown_fault};
ghost use Rattle.der_view.specs.Rows.{view_of};

use crate::grammar::{Component, Content, Form, Name, Secrecy};
use crate::header::{Class, Tag};
use crate::marks::{Fault, Mark, content_fault, length_fault, string_fault, tag_fault};
use crate::plan::Plan;
use crate::walk::{Element, Place};

/// What a row is of.
#[derive(Clone, Copy)]
pub enum Kind {
    /// An element with this tag.
    Element(Tag),
    /// The end of a content of indefinite length (X.690 section 8.1.5).
    EndOfContents,
    /// Bytes that aren't drawn.
    NotDrawn,
}

/// The form of a point (SEC1 v2.0 section 2.3.3), and the number of bytes of a coordinate.
#[derive(Clone, Copy)]
pub enum Point {
    /// The point at infinity.
    Infinity,
    /// A compressed point.
    Compressed(usize),
    /// An uncompressed point.
    Uncompressed(usize),
    /// A hybrid point (X9.62).
    Hybrid(usize),
    /// A compact point.
    Compact(usize),
    /// No point.
    None,
}

/// What is shown of a content.
#[derive(Clone, Copy)]
pub enum Shown {
    /// Nothing: it is rows, or there is none.
    Nothing,
    /// The number of its bytes.
    Count,
    /// The number of the bytes of a BIT STRING, and of its unused bits, which isn't 0.
    Unused(u8),
    /// The number of its bytes, and the form of the point in it.
    Point(Point),
    /// All of it.
    Value,
}

/// All that is printed of a row, as text or in JSON.
#[derive(Clone, Copy)]
pub struct RowFacts<'a> {
    /// Where it begins.
    pub place: Place,
    /// What it is of.
    pub kind: Kind,
    /// The bytes of the header.
    pub head: &'a [u8],
    /// The length of the content as the header says; `None` if it is indefinite, or there is no
    /// header.
    pub announced: Option<usize>,
    /// The number of bytes of the content that are there.
    pub len: usize,
    /// Whether its content is drawn as rows.
    pub opened: bool,
    /// The number of bytes of the content that have no other row.
    pub own_len: usize,
    /// Its name, or none if it isn't printed.
    pub name: Name,
    /// Whether it is a private one whose content isn't shown.
    pub is_secret: bool,
    /// What is shown of its content.
    pub shown: Shown,
    /// The bytes of the content that are shown.
    pub value: &'a [u8],
    /// What is marked below it, in this order.
    pub marks: [Option<Mark>; 6],
    /// The components that could come there.
    pub expected: &'a [Component],
    /// The bytes of the content, if all are given, and they aren't rows.
    pub content: &'a [u8],
}

impl<'a> RowFacts<'a> {
    /// Returns what is printed of an element by a plan, with all contents or without.
    pub fn of_element(plan: Plan, all: bool, place: Place, element: &Element<'a>) -> RowFacts<'a>
        ensures { row_view result ≡ element_row plan all place (view_of element.now) }
    {
        let name = if plan.is_whole || plan.is_cut || !is_private(plan.form) {
            element.component.3
        } else {
            Name::Nothing
        };
        let shown = shown_by(element);
        RowFacts {
            place,
            kind: Kind::Element(element.header.tag),
            head: element.head,
            announced: element.header.content_len,
            len: element.len,
            opened: element.opened,
            own_len: element.own_len(),
            name,
            is_secret: !all && is_private_name(name) && matches!(shown, Shown::Count),
            shown,
            value: element.shown,
            marks: element_marks(plan, element),
            expected: element.expected,
            content: element.content,
        }
    }

    /// Returns what is printed of an end-of-contents.
    pub fn of_end(place: Place) -> RowFacts<'a>
        ensures { row_view result ≡ end_row place }
    {
        RowFacts {
            head: &[0, 0],
            ..RowFacts::bare(place, Kind::EndOfContents, 0)
        }
    }

    /// Returns what is printed of bytes that aren't drawn.
    pub fn of_not_drawn(
        plan: Plan,
        place: Place,
        expected: &'a [Component],
        len: usize,
        content: &'a [u8],
    ) -> RowFacts<'a>
        ensures { row_view result
            ≡ not_drawn_row plan place expected.now len content.now }
    {
        let mark = if place.depth == 0 && place.offset > 0 {
            Some(Mark::AfterRoot)
        } else {
            misfit_mark(plan, false)
        };
        RowFacts {
            marks: [mark, None, None, None, None, None],
            expected,
            content,
            ..RowFacts::bare(place, Kind::NotDrawn, len)
        }
    }

    /// Returns a row of so many bytes, of which no more is printed.
    fn bare(place: Place, kind: Kind, len: usize) -> RowFacts<'a>
        ensures { row_view result ≡ bare_row place kind len }
    {
        RowFacts {
            place,
            kind,
            head: &[],
            announced: Some(len),
            len,
            opened: false,
            own_len: len,
            name: Name::Nothing,
            is_secret: false,
            shown: Shown::Nothing,
            value: &[],
            marks: [None; 6],
            expected: &[],
            content: &[],
        }
    }

    /// Returns `true` unless the row is of no bytes, and has no mark.
    pub fn is_told(&self) -> bool
        ensures { result ≡ is_told (row_view self.now) }
    {
        let first = self.marks[0];
        !matches!(self.kind, Kind::NotDrawn) || self.len > 0 || first.is_some()
    }
}

/// Returns `true` if the form is that of a private key.
fn is_private(form: Option<Form>) -> bool
    ensures { result ≡ is_private form }
{
    matches!(form, Some((_, Secrecy::Private)))
}

/// The names of the components with private bytes.
#[rattlefmt::skip]
const PRIVATE_NAMES: [Name; 10] = [
    Name::PrivateKey, Name::TheKey, Name::PrivateExponent, Name::Prime1, Name::Prime2,
    Name::Exponent1, Name::Exponent2, Name::Coefficient, Name::OtherPrimeInfos, Name::X,
];

/// Returns `true` if it is one of them.
fn is_private_name(name: Name) -> bool
    ensures { result ≡ is_private_name name }
{
    PRIVATE_NAMES.iter().any(|private| name.is(*private))
}

/// Returns what is shown of an element's content.
fn shown_by(element: &Element) -> Shown
    ensures { result ≡ shown_by (view_of element.now) }
{
    if element.opened {
        Shown::Nothing
    } else if matches!(element.component.2, Content::Point) {
        point_shown(element.header.tag, element.len, element.shown)
    } else if is_all(element) {
        Shown::Value
    } else {
        Shown::Count
    }
}

/// Returns `true` if the element is primitive, and all of its content is there and shown.
fn is_all(element: &Element) -> bool
    ensures { result ≡ is_all (view_of element.now) }
{
    let header = element.header;
    !header.tag.constructed && header.content_len == Some(element.shown.len())
}

/// Returns what is shown of the content of this length of a point, of which these bytes are shown.
fn point_shown(tag: Tag, len: usize, shown: &[u8]) -> Shown
    ensures { result ≡ point_shown tag len shown.now }
{
    match shown {
        [] => Shown::Count,
        [form, ..] if tag.is_universal(4) => Shown::Point(point_of(*form, len.saturating_sub(1))),
        [0x00] => Shown::Point(Point::None),
        [0x00, form, ..] => Shown::Point(point_of(*form, len.saturating_sub(2))),
        [unused, ..] => Shown::Unused(*unused),
    }
}

/// Returns the form of the point that begins with this byte, before so many others.
fn point_of(form: u8, size: usize) -> Point
    ensures { result ≡ point_of form size }
{
    match form {
        0x00 if size == 0 => Point::Infinity,
        _ if size == 0 => Point::None,
        0x02 | 0x03 => Point::Compressed(size),
        0x04 if size % 2 == 0 => Point::Uncompressed(size / 2),
        0x05 => Point::Compact(size),
        0x06 | 0x07 if size % 2 == 0 => Point::Hybrid(size / 2),
        _ => Point::None,
    }
}

/// Returns the marks of an element.
fn element_marks(plan: Plan, element: &Element) -> [Option<Mark>; 6]
    ensures { result ≡ element_marks plan (view_of element.now) }
{
    let header = element.header;
    let tag = header.tag;
    let length_len = header.len.saturating_sub(header.tag_len);
    [
        missing_mark(header.content_len, element.len),
        tag_fault(element.head, tag.number),
        length_fault(header.content_len, length_len),
        string_fault(tag),
        shown_fault(element),
        misfit_mark(plan, element.follows),
    ]
}

/// Returns the mark of a content of this length, of which so many bytes are there.
fn missing_mark(announced: Option<usize>, len: usize) -> Option<Mark>
    ensures { result ≡ missing_mark announced len }
{
    let announced = announced?;
    (announced > len).then_some(Mark::Missing {
        missing: announced.saturating_sub(len),
        announced,
    })
}

/// Returns what is wrong with what is shown of an element's content: all, or of a BIT STRING the
/// number of unused bits.
fn shown_fault(element: &Element) -> Option<Mark>
    ensures { result ≡ shown_fault (view_of element.now) }
{
    let tag = element.header.tag;
    match (tag.class, element.shown) {
        (Class::Universal, shown) if is_all(element) => content_fault(tag.number, shown),
        (Class::Universal, [unused, ..]) if tag.number == 3 && *unused > 7 => {
            Some(Mark::Fault(Fault::UnusedAboveSeven))
        }
        _ => None,
    }
}

/// Returns the mark of what follows the form or not: where a private key's form isn't followed.
fn misfit_mark(plan: Plan, follows: bool) -> Option<Mark>
    ensures { result ≡ misfit_mark plan follows }
{
    (is_private(plan.form) && !plan.is_cut && !follows).then_some(Mark::Expected)
}
