//! The arcs of an identifier, as numbers: `sec1_identifier_arcs`.
ghost use Rattle.std.specs.Prelude.{◌≡◌, ◌≤◌, ◌++◌, ℕ, List, drop, length};
ghost use Rattle.sec1_der.specs.Identifiers.{IsIdentifier};
ghost use Rattle.sec1_c.specs.Outputs.{Writes, WritesNothing};
ghost use Rattle.sec1_c.specs.Statuses.{kind_number};

use crate::status::{OK, kind_number};
use sec1::der::{Arcs, ErrorKind, IdentifierRef};

/// Writes the arcs of the identifier with this content at the beginning of `arcs`, and stores their
/// number, from 2 to 40. The rest of `arcs` is unchanged.
///
/// # Errors
///
/// Returns the number of Buffer if `arcs` is too short, and stores the number of arcs; or that of
/// Value if `content` isn't the content of an identifier, and leaves `count` unchanged. `arcs` is
/// unchanged in both cases.
#[unsafe(no_mangle)]
pub extern "C" fn sec1_identifier_arcs(content: &[u8], arcs: &mut [u32], count: &mut usize) -> u32
    ensures identifier { (numbers : List ℕ) → IsIdentifier numbers content.now
        → Writes numbers arcs.old arcs.new result count.new }
    ensures no_identifier { ((numbers : List ℕ) → ¬ IsIdentifier numbers content.now)
        → WritesNothing (kind_number ErrorKind.Value) arcs.old arcs.new result
        count.old count.new }
{
    match IdentifierRef::from_bytes(content) {
        Ok(identifier) => write_arcs(&identifier, arcs, count),
        Err(error) => kind_number(error.kind),
    }
}

/// Writes the arcs of the identifier, and stores their number. Returns the number of Buffer if
/// `arcs` is too short, which is unchanged then.
fn write_arcs(identifier: &IdentifierRef, arcs: &mut [u32], count: &mut usize) -> u32
    ensures { Writes identifier.now arcs.old arcs.new result count.new }
{
    let needed = identifier.arcs().count();
    *count = needed;
    if arcs.len() < needed {
        return kind_number(ErrorKind::Buffer);
    }
    put_arcs(arcs, identifier.arcs());
    OK
}

/// Writes the arcs that are left at the beginning of `places`.
fn put_arcs(places: &mut [u32], mut left: Arcs)
    requires { length left ≤ length places.old }
    ensures { places.new ≡ left.entry ++ drop (length left.entry) places.old }
{
    if let Some(arc) = left.next() {
        places[0] = arc;
        put_arcs(&mut places[1..], left);
    }
}
