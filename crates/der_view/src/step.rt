//! The element that comes next, what it is, and what is shown of it.
ghost use Rattle.std.specs.Prelude.{◌≡◌, ◌+◌, ◌<◌, ◌≤◌, IfSome, length, option_map};
ghost use Rattle.der_view.specs.Rows.{admits, chosen, component_at, element_at, end_at, fitting};
ghost use Rattle.der_view.specs.Rows.{is_of, may_end, step_by, step_of};

use crate::content::{is_primitive, is_whole, shown_len};
use crate::grammar::{Case, Component, Content, ELEMENT, Presence, Structure};
use crate::header::Header;

/// The element that comes next at a level.
#[derive(Clone, Copy)]
pub(crate) struct Step<'c, 'a> {
    /// Its header.
    pub(crate) header: Header,
    /// The bytes of its header.
    pub(crate) head: &'a [u8],
    /// Its component, [`ELEMENT`] if it has none.
    pub(crate) component: Component,
    /// The components that may come after it.
    pub(crate) others: &'c [Component],
    /// Whether it is one of those that could come.
    pub(crate) follows: bool,
    /// Its content, as far as it is there; of an indefinite length, with all that comes after it.
    pub(crate) content: &'a [u8],
    /// The bytes after it; none of an indefinite length.
    pub(crate) rest: &'a [u8],
}

/// Returns the next element, if the bytes begin with one of these components. It may be cut, or be
/// none of them, if that is allowed.
#[tactic(auto, unfolding(crate::specs::Rows::step_by))]
pub(crate) fn step_by<'c, 'a>(
    may_be_cut: bool,
    may_misfit: bool,
    components: &'c [Component],
    bytes: &'a [u8],
) -> Option<Step<'c, 'a>>
    ensures exact { option_map step_of result
        ≡ step_by may_be_cut may_misfit components.now bytes.now }
    ensures within { IfSome result
        (λ step. step.header.len + length step.content.now + length step.rest.now
        ≡ length bytes.now) }
{
    let tag = *bytes.first()?;
    let (header, content, rest) = element_at(may_be_cut, bytes)?;
    let found = component_at(tag, &header, content, components);
    let follows = found.is_some();
    if !follows && !may_misfit {
        return None;
    }
    let (component, others) = found.unwrap_or((ELEMENT, Structure::Any.components()));
    Some(Step {
        header,
        head: &bytes[..header.len],
        component,
        others,
        follows,
        content,
        rest,
    })
}

/// Returns the header and the content of the element that the bytes begin with, and the bytes after
/// it. Of an indefinite length the content is all that comes.
fn element_at(may_be_cut: bool, bytes: &[u8]) -> Option<(Header, &[u8], &[u8])>
    ensures exact { option_map (λ found. (found.0, found.1.now, found.2.now)) result
        ≡ element_at may_be_cut bytes.now }
    ensures within { IfSome result
        (λ found. found.0.len + length found.1.now + length found.2.now ≡ length bytes.now) }
{
    let header = Header::read(bytes).ok()?;
    let there = &bytes[header.len..];
    match header.content_len {
        Some(len) if len <= there.len() => Some((header, &there[..len], &there[len..])),
        Some(_) if !may_be_cut => None,
        _ => Some((header, there, &[])),
    }
}

/// Returns the first component that such an element can be, and those that may come after it. If
/// it is an identifier that decides them, it does so only as far as it is shown.
#[tactic(auto, unfolding(crate::specs::Rows::others_after))]
fn component_at<'a>(
    tag: u8,
    header: &Header,
    content: &[u8],
    components: &'a [Component],
) -> Option<(Component, &'a [Component])>
    ensures { option_map (λ found. (found.0, found.1.now)) result
        ≡ component_at tag header.now content.now components.now }
{
    let (component, others) = fitting(tag, components)?;
    if !admits(header, component.2, content) {
        return None;
    }
    let len = shown_len(false, header, component.2, content);
    Some((
        component,
        chosen(component.3.cases(), &content[..len], others),
    ))
}

/// Returns the components after an identifier with these bytes: those of its first case.
fn chosen<'a>(cases: &[Case], bytes: &[u8], others: &'a [Component]) -> &'a [Component]
    ensures { result.now ≡ chosen cases.now bytes.now others.now }
{
    let Some((case, more)) = cases.split_first() else {
        return others;
    };
    if is_of(case.0.identifiers(), bytes) {
        case.1.components()
    } else {
        chosen(more, bytes, others)
    }
}

/// Returns the first component that an element with this tag can be, and those that may come after
/// it. A Time is a UTCTime or a GeneralizedTime.
fn fitting(tag: u8, components: &[Component]) -> Option<(Component, &[Component])>
    ensures { option_map (λ found. (found.0, found.1.now)) result ≡ fitting tag components.now }
{
    let (component, others) = components.split_first()?;
    let (expected, presence, ..) = *component;
    let fits = expected == tag || (expected == 0x17 && tag == 0x18) || expected == 0x00;
    match presence {
        Presence::Many if fits => Some((*component, components)),
        _ if fits => Some((*component, others)),
        Presence::Needed => None,
        _ => fitting(tag, others),
    }
}

/// Returns `true` if none of these components has to come.
pub(crate) fn may_end(components: &[Component]) -> bool
    ensures { result ≡ may_end components.now }
{
    components
        .iter()
        .all(|component| !matches!(component.1, Presence::Needed))
}

/// Returns the number of bytes that end a level here: those of an end-of-contents (X.690 section
/// 8.1.5), or none at the end of the bytes.
#[tactic(auto, unfolding(crate::specs::Rows::end_at))]
pub(crate) fn end_at(
    is_loose: bool,
    is_open: bool,
    components: &[Component],
    bytes: &[u8],
) -> Option<usize>
    ensures exact { result ≡ end_at is_loose is_open components.now bytes.now }
    ensures within { IfSome result (λ len. len ≤ length bytes.now) }
{
    match bytes {
        [] if is_loose || !is_open && may_end(components) => Some(0),
        [0x00, 0x00, ..] if is_open && (is_loose || may_end(components)) => Some(2),
        _ => None,
    }
}

/// Returns `true` if a content follows the table.
#[tactic(auto, unfolding(crate::specs::Rows::admits))]
fn admits(header: &Header, content: Content, bytes: &[u8]) -> bool
    ensures { result ≡ admits header.now content bytes.now }
{
    match content {
        Content::Short(most) => is_whole(header, bytes) && bytes.len() <= usize::from(most),
        Content::Version => is_whole(header, bytes) && bytes.len() == 1,
        Content::Of(family) => is_whole(header, bytes) && is_of(family.identifiers(), bytes),
        Content::Point | Content::Whole(_) | Content::Bits(_) => is_primitive(header),
        _ => true,
    }
}

/// Returns `true` if a content begins with these bytes, and has at most 12.
fn is_of(front: &[u8], bytes: &[u8]) -> bool
    ensures { result ≡ is_of front.now bytes.now }
{
    bytes.len() <= 12 && bytes.starts_with(front)
}
