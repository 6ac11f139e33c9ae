//! The rows of bytes.
ghost use Rattle.std.specs.Prelude.{◌≡◌, ◌+◌, ◌<◌, ◌≤◌, ◌++◌, ◌∷◌, ◌&&◌, [], List, length, IfSome};
ghost use Rattle.std.specs.Prelude.{nat_lt, not, option_map};
ghost use Rattle.der_view.specs.Pictures.{level_rest, level_rows, told};
ghost use Rattle.der_view.specs.Rows.{Row, end_rows, front_len, given_part, inside_loose};
ghost use Rattle.der_view.specs.Rows.{is_followed, opened_of, own_len, rest_after, rules_of};
ghost use Rattle.der_view.specs.Rows.{step_of, step_rows, view, view_of};
ghost use Rattle.der_view.specs.Rows.Row.{Element as Drawn, EndOfContents, NotDrawn};

use crate::content::shown_len;
use crate::grammar::{Component, Content, Structure};
use crate::header::Header;
use crate::step::{Step, end_at, may_end, step_by};

/// Where a row begins.
#[derive(Clone, Copy)]
pub struct Place {
    /// The number of bytes before it.
    pub offset: usize,
    /// The number of elements around it; of an end-of-contents, around the element that ends there.
    pub depth: usize,
    /// The number of bytes of the input.
    pub end: usize,
    /// Whether all contents are known to be public.
    pub is_public: bool,
}

impl Place {
    /// Returns `true` if a content of so many bytes, of which these are shown, may hold private
    /// bytes: all of them aren't shown, nor known to be public.
    pub fn hides(self, len: usize, shown: &[u8]) -> bool
        ensures { result ≡ (not self.is_public && nat_lt (length shown.now) len) }
    {
        !self.is_public && shown.len() < len
    }
}

/// An element, as a row has it.
#[derive(Clone, Copy)]
pub struct Element<'a> {
    /// Its header.
    pub header: Header,
    /// The bytes of its header.
    pub head: &'a [u8],
    /// Its component; the name is [`Name::Nothing`](crate::Name::Nothing) if it has none.
    pub component: Component,
    /// The components that could come there, if it is none of them; else none.
    pub expected: &'a [Component],
    /// Whether it is one of those that could come there.
    pub follows: bool,
    /// The number of bytes of its content that are there; 0 of an indefinite length.
    pub len: usize,
    /// Those of them that are shown: all, the first one or two of a point, or none.
    pub shown: &'a [u8],
    /// All of them, if everything is given, and they are no rows; else none.
    pub content: &'a [u8],
    /// Whether its content is rows.
    pub opened: bool,
}

impl Element<'_> {
    /// Returns the number of bytes of its content that have no other row: all, or none if they are
    /// rows, but for the number of unused bits before them (X.690 section 8.6.2).
    pub fn own_len(&self) -> usize
        ensures { result ≡ own_len (view_of self.now) }
    {
        match self.component.2 {
            _ if !self.opened => self.len,
            Content::Bits(_) => 1,
            _ => 0,
        }
    }
}

/// Who is told of rows: a printer, a counter, lines in memory.
pub trait Rows {
    // The second is the first after these rows.
    ghost tells: { Self → Self → List Row → Type 0 };

    /// An element.
    fn element(&mut self, place: Place, element: &Element)
        ensures { tells self.old self.new (Drawn place (view_of element.now) ∷ []) };

    /// An end-of-contents (X.690 section 8.1.5).
    fn end_of_contents(&mut self, place: Place)
        ensures { tells self.old self.new (EndOfContents place ∷ []) };

    /// So many bytes which aren't drawn, where one of these components would follow: all up to the
    /// end, or none where a component is missing. Of the content there is everything or nothing.
    fn not_drawn(&mut self, place: Place, expected: &[Component], len: usize, content: &[u8])
        ensures { tells self.old self.new
            (NotDrawn place expected.now len content.now ∷ []) };

    ghost nothing: { (a : Self) → tells a a [] };

    ghost joined: { (a b c : Self) (first second : List Row) → tells a b first → tells b c second
        → tells a c (first ++ second) };
}

/// How bytes are drawn.
#[derive(Clone, Copy)]
pub(crate) struct Rules<'a> {
    /// Whether elements that don't follow are rows all the same.
    pub(crate) is_loose: bool,
    /// Whether small contents of elements without a component are shown.
    pub(crate) shows_small: bool,
    /// The input, if everything is given, or nothing.
    pub(crate) given: &'a [u8],
}

/// Borrows so many bytes after these of what is given.
pub(crate) fn given_part(given: &[u8], start: usize, len: usize) -> &[u8]
    ensures { result.now ≡ given_part given.now start len }
{
    let after = &given[start.min(given.len())..];
    &after[..len.min(after.len())]
}

/// A level: the bytes inside an element, or all.
#[derive(Clone, Copy)]
pub(crate) struct Level<'c, 'a> {
    /// Whether an end-of-contents ends it.
    pub(crate) is_open: bool,
    /// Whether it is only tried how far they follow: no row is told.
    pub(crate) is_trial: bool,
    /// The components that may come.
    pub(crate) components: &'c [Component],
    /// The bytes.
    pub(crate) bytes: &'a [u8],
}

/// The greatest number of elements inside each other.
const MOST_LEVELS: usize = 64;

/// Tells the rows of a level, at most so many elements, one after or inside the other. Returns the
/// bytes after it, unless the rows end in it.
#[cycle(walks)]
#[tactic(auto, unfolding(crate::specs::Rows::step_at))]
fn walk<'a, R: Rows>(
    rows: &mut R,
    rules: &Rules,
    mut most: usize,
    mut place: Place,
    level: &Level<'_, 'a>,
) -> Option<&'a [u8]>
    requires within { place.offset + length level.now.bytes.now ≤ place.end }
    ensures rows { R.tells rows.old rows.new
        (level_rows (rules_of rules.now) most place level.now) }
    ensures rest { option_map (λ rest. rest.now) result
        ≡ level_rest rules.now.is_loose most place.depth level.now }
    ensures len { IfSome result (λ rest. length rest.now ≤ length level.now.bytes.now) }
{
    let mut level = *level;
    while most > 0 {
        let components = level.components;
        let bytes = level.bytes;
        if let Some(len) = end_at(rules.is_loose, level.is_open, components, bytes) {
            draw_end(rows, place, &level, len);
            return Some(&bytes[len..]);
        }
        if place.depth >= MOST_LEVELS {
            break;
        }
        let Some(step) = step_by(rules.is_loose, rules.is_loose, components, bytes) else {
            break;
        };
        most -= 1;
        let rest = draw_step(rows, rules, most, place, &level, &step)?;
        place.offset += bytes.len() - rest.len();
        level.components = step.others;
        level.bytes = rest;
    }
    draw_left(rows, rules, place, &level);
    None
}

/// Tells the rows where a level ends, by so many bytes.
// Its part of the stack isn't one of each level.
#[inline(never)]
fn draw_end<R: Rows>(rows: &mut R, place: Place, level: &Level, len: usize)
    ensures { R.tells rows.old rows.new
        (told level.now.is_trial (end_rows place level.now.components.now len)) }
{
    if level.is_trial {
        return;
    }
    if !may_end(level.components) {
        rows.not_drawn(place, level.components, 0, &[]);
    }
    if len > 0 {
        let around = Place {
            depth: place.depth.saturating_sub(1),
            ..place
        };
        rows.end_of_contents(around);
    }
}

/// Tells the row of the bytes of a level that aren't drawn: all up to the end.
// Its part of the stack isn't one of each level.
#[inline(never)]
fn draw_left<R: Rows>(rows: &mut R, rules: &Rules, place: Place, level: &Level)
    requires within { place.offset ≤ place.end }
    ensures { R.tells rows.old rows.new
        (level_rows (rules_of rules.now) 0 place level.now) }
{
    if level.is_trial {
        return;
    }
    let len = place.end - place.offset;
    let content = given_part(rules.given, place.offset, len);
    rows.not_drawn(place, level.components, len, content);
}

/// Tells the rows of an element of a level and of what is inside it. Returns the bytes after it,
/// unless the rows end in it.
#[cycle(walks)]
pub(crate) fn draw_step<'a, R: Rows>(
    rows: &mut R,
    rules: &Rules,
    most: usize,
    place: Place,
    level: &Level,
    step: &Step<'_, 'a>,
) -> Option<&'a [u8]>
    requires within { place.offset + step.now.header.len + length step.now.content.now ≤ place.end }
    requires depth { place.depth < 64 }
    ensures rows { R.tells rows.old rows.new (told level.now.is_trial (step_rows
        (rules_of rules.now) most place level.now.components.now (step_of step.now))) }
    ensures rest { option_map (λ rest. rest.now) result
        ≡ rest_after rules.now.is_loose most (place.depth + 1) (step_of step.now) }
    ensures len { IfSome result
        (λ rest. length rest.now ≤ length step.now.content.now + length step.now.rest.now) }
{
    let mut inside = Place {
        offset: place.offset + step.header.len,
        depth: place.depth + 1,
        ..place
    };
    let opened = opened_of(rows, rules, most, inside, step);
    draw_element(rows, rules, place, level, opened.is_some(), step);
    let Some((structure, front, is_loose)) = opened else {
        return Some(step.rest);
    };
    let is_open = step.header.content_len.is_none();
    inside.offset += front;
    let elements = Level {
        is_open,
        is_trial: level.is_trial,
        components: structure.components(),
        bytes: &step.content[front..],
    };
    let rules = Rules { is_loose, ..*rules };
    let after = walk(rows, &rules, most, inside, &elements)?;
    Some(if is_open { after } else { step.rest })
}

/// Tells the row of an element, whose content is rows or not.
// Its part of the stack isn't one of each level.
#[inline(never)]
fn draw_element<R: Rows>(
    rows: &mut R,
    rules: &Rules,
    place: Place,
    level: &Level,
    opened: bool,
    step: &Step,
)
    requires within { place.offset + step.now.header.len + length step.now.content.now ≤ place.end }
    ensures { R.tells rows.old rows.new (told level.now.is_trial (Drawn place
        (view (rules_of rules.now) place level.now.components.now opened
        (step_of step.now)) ∷ [])) }
{
    if level.is_trial {
        return;
    }
    let header = step.header;
    let content = step.content;
    let shown = shown_len(rules.shows_small, &header, step.component.2, content);
    let given = given_part(rules.given, place.offset + header.len, content.len());
    let is_open = header.content_len.is_none();
    let element = Element {
        header,
        head: step.head,
        component: step.component,
        expected: if step.follows { &[] } else { level.components },
        follows: step.follows,
        len: if is_open { 0 } else { content.len() },
        shown: &content[..shown],
        content: if opened { &[] } else { given },
        opened,
    };
    rows.element(place, &element);
}

/// Returns the structure that an element's content is drawn as, the number of bytes before its
/// elements, of which there are at most so many, and whether these may follow or not: not, if the
/// content is rows because they do. Where it has no structure, it is any elements if it has an
/// indefinite length, or is constructed and has no component or is drawn loosely.
#[cycle(walks)]
#[inline(never)]
#[tactic(auto, unfolding(crate::specs::Rows::opened_in))]
fn opened_of<R: Rows>(
    rows: &mut R,
    rules: &Rules,
    most: usize,
    place: Place,
    step: &Step,
) -> Option<(Structure, usize, bool)>
    requires within { place.offset + length step.now.content.now ≤ place.end }
    ensures rows { R.tells rows.old rows.new [] }
    ensures exact { option_map (λ opened. opened.0) result
        ≡ opened_of rules.now.is_loose most place.depth (step_of step.now) }
    ensures inside { IfSome result (λ opened. (opened.1 ≡ front_len step.now.component.2)
        × (opened.1 ≤ length step.now.content.now)
        × (opened.2 ≡ inside_loose step.now.component.2 rules.now.is_loose)) }
{
    let header = &step.header;
    let is_loose = rules.is_loose;
    match step.component.2 {
        Content::Inside(structure) => Some((structure, 0, is_loose)),
        Content::Whole(structure) => {
            follows(rows, rules, most, place, structure, step.content).then_some((
                structure, 0, false,
            ))
        }
        Content::Bits(structure) => match step.content {
            [0x00, bits @ ..] if !bits.is_empty() => {
                follows(rows, rules, most, place, structure, bits).then_some((structure, 1, false))
            }
            _ => None,
        },
        content => {
            let is_elements = is_loose || matches!(&content, Content::Free);
            (header.content_len.is_none() || header.tag.constructed && is_elements).then_some((
                Structure::Any,
                0,
                is_loose,
            ))
        }
    }
}

/// Returns `true` if bytes follow a structure to its end. It tells no row.
#[cycle(walks)]
fn follows<R: Rows>(
    rows: &mut R,
    rules: &Rules,
    most: usize,
    place: Place,
    structure: Structure,
    bytes: &[u8],
) -> bool
    requires within { place.offset + length bytes.now ≤ place.end }
    ensures rows { R.tells rows.old rows.new [] }
    ensures exact { result ≡ is_followed most place.depth structure bytes.now }
{
    let trial = Level {
        is_open: false,
        is_trial: true,
        components: structure.components(),
        bytes,
    };
    let is_loose = false;
    let strict = Rules { is_loose, ..*rules };
    walk(rows, &strict, most, place, &trial).is_some()
}
