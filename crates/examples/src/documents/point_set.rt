ghost use Rattle.sec1.specs.EncodedPoints.{point_of};
ghost use Rattle.sec1.specs.PointOrder.{IsBelow};
ghost use Rattle.std.specs.BTreeSet.{contains, insert_key};
ghost use Rattle.std.specs.Prelude.{◌≡◌, ◌↔◌, IfErr, IfOk, IsTrue, OnErr, OnOk, not};

use sec1::laws::points_ordered;
use sec1::point::EncodedPoint32;
use sec1::{Error, Result};
use std::collections::BTreeSet;

/// Returns `true` if the first point is below the second.
pub fn is_below(a: &EncodedPoint32, b: &EncodedPoint32) -> bool
    ensures { IsTrue result ↔ IsBelow (point_of a.now) (point_of b.now) }
{
    points_ordered();
    *a < *b
}

/// Adds a point to a set, and returns `true` if it wasn't there.
///
/// # Errors
///
/// Memory if the allocation of an entry fails. The set has the same points then.
pub fn add(set: &mut BTreeSet<EncodedPoint32>, point: EncodedPoint32) -> Result<bool>
    ensures found { IfOk result (λ added. added
        ≡ not (contains ⟦<EncodedPoint32 as Ord>⟧.cmp set.old point)) }
    ensures keys { OnOk result (set.new.keys
        ≡ insert_key ⟦<EncodedPoint32 as Ord>⟧.cmp set.old.keys point) }
    ensures unchanged { OnErr result (set.new.keys ≡ set.old.keys) }
    ensures kind { IfErr result (λ e. e ≡ Error.Memory) }
{
    let added = set.insert(point)?;
    Ok(added)
}
