//! Where bytes are refused, and by which kind.
ghost use Rattle.std.specs.Prelude.{◌≡◌, ◌≤◌, ◌++◌, None, Some, MatchOption, length, true};
ghost use Rattle.sec1.specs.KeyFaults as keys;
ghost use Rattle.sec1_der.specs.Faults as trees;
ghost use Rattle.sec1_der.specs.declared.error.ErrorKind.TheVariants as kinds;

use der_view::faults::{key_fault, tree_fault};
use sec1_der::ErrorKind;

/// Returns the bytes from the first fault of a key on, and whether they are refused as further ones
/// after its end; `None` if the bytes are a key's.
pub fn refused_part(bytes: &[u8]) -> Option<(&[u8], bool)>
    ensures { MatchOption result (keys.key_fault bytes.now ≡ None)
        (λ part. (length part.0.now ≤ length bytes.now)
        × (part.1 ≡ true → keys.key_fault bytes.now ≡ Some (Some kinds.TrailingData))) }
{
    match key_fault(bytes) {
        Some(fault) => {
            let is_rest = matches!(fault.kind, ErrorKind::TrailingData);
            Some((&bytes[fault.offset..], is_rest))
        }
        None => None,
    }
}

/// Splits the bytes at the first fault of a tree, which is nested too deep there or isn't; `None`
/// if the bytes are a tree's.
pub fn split_tree(bytes: &[u8]) -> Option<(&[u8], &[u8], bool)>
    ensures { MatchOption result (trees.tree_fault bytes.now ≡ None)
        (λ split. (bytes.now ≡ split.0.now ++ split.1.now)
        × (split.2 ≡ true → trees.tree_fault bytes.now ≡ Some (Some kinds.Depth))) }
{
    match tree_fault(bytes) {
        Some(fault) => {
            let (front, rest) = bytes.split_at(fault.offset);
            Some((front, rest, matches!(fault.kind, ErrorKind::Depth)))
        }
        None => None,
    }
}
