//! The rows of whole inputs.
ghost use Rattle.std.specs.Prelude.{◌≡◌};
ghost use Rattle.der_view.specs.Pictures.{is_public, root_of, rows_by, rules_by};
ghost use Rattle.der_view.specs.Rows.{rules_of};

use crate::grammar::{Component, ELEMENT, Secrecy};
use crate::plan::{Plan, Way};
use crate::root::{draw_as, draw_rest};
use crate::walk::{Place, Rows, Rules};

/// Tells the rows of bytes by a plan, which [`plan_of`](crate::plan_of) makes. With `all` each
/// content is given, and each element is a row.
#[tactic(auto, unfolding(crate::specs::Pictures::rows_by))]
pub fn draw_rows<R: Rows>(rows: &mut R, plan: Plan, bytes: &[u8], all: bool)
    ensures { R.tells rows.old rows.new (rows_by plan all bytes.now) }
{
    let rules = rules_by(plan, bytes, all);
    if let Way::Nothing = plan.way {
        let place = Place {
            offset: 0,
            depth: 0,
            end: bytes.len(),
            is_public: false,
        };
        draw_rest(rows, &rules, place, bytes);
        return;
    }
    let (root, is_public) = root_of(plan);
    draw_as(rows, &rules, root, is_public, bytes);
}

/// Returns the rules of a plan.
fn rules_by(plan: Plan, bytes: &[u8], all: bool) -> Rules<'_>
    ensures { rules_of result ≡ rules_by plan all bytes.now }
{
    let is_loose = match plan.way {
        Way::Loose => true,
        _ => all,
    };
    Rules {
        is_loose,
        shows_small: is_loose && plan.is_tree,
        given: if all { bytes } else { &[] },
    }
}

/// Returns the component that a root is, and whether no part can hold a private key.
fn root_of(plan: Plan) -> (Component, bool)
    ensures root { result.0 ≡ root_of plan.form }
    ensures public { result.1 ≡ is_public plan }
{
    match plan.form {
        Some((root, Secrecy::Public)) => (root, plan.is_whole && plan.is_tree),
        Some((root, _)) => (root, false),
        None => (ELEMENT, false),
    }
}
