//! The rows of bytes whose root is one component.
ghost use Rattle.std.specs.Prelude.{◌≡◌};
ghost use Rattle.der_view.specs.Pictures.{is_complete, is_cut, rest_rows, rows_as, whole_as};
ghost use Rattle.der_view.specs.Rows.{rules_of, step_of};

use crate::grammar::{Component, ELEMENT};
use crate::step::{Step, step_by};
use crate::walk::{Level, Place, Rows, Rules, draw_step, given_part};

/// Tells the rows of bytes whose root is this component, and of which all contents are public or
/// not. Returns whether they follow it, and no bytes come after it.
#[tactic(auto, unfolding(crate::specs::Pictures::rows_as, crate::specs::Pictures::whole_as, crate::specs::Pictures::root_step))]
pub(crate) fn draw_as<R: Rows>(
    rows: &mut R,
    rules: &Rules,
    root: Component,
    is_public: bool,
    bytes: &[u8],
) -> bool
    ensures rows { R.tells rows.old rows.new
        (rows_as (rules_of rules.now) root is_public bytes.now) }
    ensures whole { result ≡ whole_as rules.now.is_loose root bytes.now }
{
    let end = bytes.len();
    let place = Place {
        offset: 0,
        depth: 0,
        end,
        is_public,
    };
    let roots = [root];
    let Some(step) = step_by(true, false, &roots, bytes) else {
        let content = given_part(rules.given, 0, end);
        rows.not_drawn(place, &roots, end, content);
        return false;
    };
    let level = Level {
        is_open: false,
        is_trial: false,
        components: &roots,
        bytes,
    };
    match draw_step(rows, rules, end, place, &level, &step) {
        None => false,
        Some([]) => is_complete(&step),
        Some(rest) => {
            let after = Place {
                offset: end - rest.len(),
                ..place
            };
            draw_rest(rows, rules, after, rest);
            false
        }
    }
}

/// Tells the row of bytes after a root.
pub(crate) fn draw_rest<R: Rows>(rows: &mut R, rules: &Rules, place: Place, rest: &[u8])
    ensures { R.tells rows.old rows.new (rest_rows (rules_of rules.now) place rest.now) }
{
    if !rest.is_empty() {
        let content = given_part(rules.given, place.offset, rest.len());
        rows.not_drawn(place, &[], rest.len(), content);
    }
}

/// Returns `true` if a content isn't longer than what is there of it.
fn is_complete(step: &Step) -> bool
    ensures { result ≡ is_complete (step_of step.now) }
{
    match step.header.content_len {
        Some(len) => len == step.content.len(),
        None => true,
    }
}

/// Returns `true` if the content of the root is longer than what is there of it.
#[tactic(auto, unfolding(crate::specs::Pictures::is_cut, crate::specs::Pictures::root_step))]
pub(crate) fn is_cut(bytes: &[u8]) -> bool
    ensures { result ≡ is_cut bytes.now }
{
    match step_by(true, false, &[ELEMENT], bytes) {
        Some(step) => !is_complete(&step),
        None => false,
    }
}
