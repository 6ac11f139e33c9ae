ghost use Rattle.std.specs.Prelude.{◌≡◌, ◌<◌, ◌≤◌, List, ℕ, get_or, ◌≢◌, ◌-◌, ◌⊎◌};
ghost use Rattle.std.specs.Prelude.{◌↔◌, ◌++◌, [], ◌∷◌, Some, take, drop, length, IsTrue};
ghost use Rattle.std.specs.Prelude.{MatchResult};
ghost use Rattle.sec1_der.specs.Elements.{IsProperPrefix};
ghost use Rattle.sec1_der.specs.Errors.{Refuses, IsHeaderFault};
ghost use Rattle.sec1_der.specs.Faults.{HasFault, tree_fault, Fault, any_fault};
ghost use Rattle.sec1_der.specs.Trees.{Tree, IsTree, IsTreeOf, bytes, size, depth, max_tree_depth};
ghost use Rattle.sec1_der.specs.Walks.{open_ends, Opens};

use crate::header::element_at;
use crate::{ErrorKind, Result};
use std::marker::Model;

/// The greatest depth of a tree that [`check_tree`] accepts.
pub const MAX_DEPTH: usize = 64;

/// Checks that the input is one tree of elements with at most 64 levels, and returns their number.
/// The content of an element with a constructed tag is elements again, and nothing else (X.690
/// section 8.1.2.5). Allocates no memory.
///
/// # Errors
///
/// The first fault from left to right: Tag or Length if an element has no header of DER; Truncated
/// if the input ends inside an element, or an element ends after the one around it; Depth if an
/// element at level 64 contains elements, before they are read; TrailingData if bytes follow the
/// tree.
///
/// # Examples
///
/// ```
/// let elements = check_tree(bytes)?;
/// ```
pub fn check_tree(input: &[u8]) -> Result<usize>
    // What is counted is a tree, and these are its bytes.
    ensures found { MatchResult result (λ n. (t : Tree) × IsTreeOf t input.now
        × (depth t ≤ max_tree_depth) × (size t ≡ n)) (λ e. IsHeaderFault e.kind
        ⊎ (e.kind ≡ ErrorKind.TrailingData) ⊎ (e.kind ≡ ErrorKind.Depth)) }
    // If they are the bytes of such a tree, it is counted.
    ensures only { (t : Tree) → IsTreeOf t input.now → depth t ≤ max_tree_depth
        → result ≡ Ok (size t) }
    ensures deeper { (t : Tree) → IsTreeOf t input.now → max_tree_depth < depth t
        → Refuses result ErrorKind.Depth }

    // The bytes end inside a tree of any depth, or continue after one.
    ensures short { (t : Tree) → IsTree t → IsProperPrefix input.now (bytes t)
        → Refuses result ErrorKind.Truncated }
    ensures long { (t : Tree) → IsTree t → depth t ≤ max_tree_depth
        → IsProperPrefix (bytes t) input.now
        → Refuses result ErrorKind.TrailingData }
    // Whether the input is refused, and by which kind, is a function of its bytes.
    ensures kind { HasFault result (tree_fault input.now) }
{
    // A separate function: the clauses above follow from its three.
    count_elements(input)
}

/// Walks over the elements of a tree, and counts them.
#[tactic(auto, using(crate::proofs::CheckLemmas::tree_read))]
fn count_elements(input: &[u8]) -> Result<usize>
    ensures found { MatchResult result (λ n. (t : Tree) × IsTreeOf t input.now
        × (depth t ≤ max_tree_depth) × (size t ≡ n)) (λ e. IsHeaderFault e.kind
        ⊎ (e.kind ≡ ErrorKind.TrailingData) ⊎ (e.kind ≡ ErrorKind.Depth)) }
    ensures kind { HasFault result (tree_fault input.now) }
{
    let mut nodes = OpenNodes::new();
    let mut rest = nodes.enter(input)?;
    let mut count = 1;
    while !nodes.is_empty() {
        if rest.len() == nodes.end() {
            nodes.close();
        } else {
            rest = nodes.enter(rest)?;
            count += 1;
        }
    }
    if !rest.is_empty() {
        return Err(ErrorKind::TrailingData.into());
    }
    Ok(count)
}

/// The elements around the next one, which are its open nodes. A contract sees how many bytes are
/// left at the end of each, the innermost first.
#[derive(Drop)]
struct OpenNodes {
    /// The number of bytes left at the end of the input, which is 0, and at the end of each open
    /// node.
    ends: [usize; MAX_DEPTH],

    /// The number of open nodes.
    level: usize,
}

impl Model for OpenNodes {
    ghost Value = { List ℕ };

    ghost view = { λ nodes. open_ends nodes.level nodes.ends };

    ghost invariant = { λ nodes. (nodes.level < max_tree_depth) × (get_or nodes.ends 0 0 ≡ 0) };
}

impl OpenNodes {
    /// Returns no open nodes.
    fn new() -> OpenNodes
        ensures { result ≡ [] }
    {
        OpenNodes {
            ends: [0; MAX_DEPTH],
            level: 0,
        }
    }

    /// Returns `true` if no node is open.
    fn is_empty(&self) -> bool
        ensures { IsTrue result ↔ (self.now ≡ []) }
    {
        self.level == 0
    }

    /// Returns how many bytes of input follow the innermost open node, or 0 if none is open.
    fn end(&self) -> usize
        ensures { result ≡ get_or self.now 0 0 }
    {
        self.ends[self.level]
    }

    /// Opens a node at the next level.
    ///
    /// # Errors
    ///
    /// Depth if that is level 64.
    #[tactic(auto, using(crate::proofs::WalkLemmas::opened_ends))]
    fn open(&mut self, end: usize) -> Result<()>
        ensures { MatchResult result
            (λ _. (length self.old < max_tree_depth - 1) × (self.new ≡ end ∷ self.old))
            (λ e. (e.kind ≡ ErrorKind.Depth) × (length self.old ≡ max_tree_depth - 1)) }
    {
        if self.level == MAX_DEPTH - 1 {
            return Err(ErrorKind::Depth.into());
        }
        self.level += 1;
        self.ends[self.level] = end;
        Ok(())
    }

    /// Closes the innermost node.
    fn close(&mut self)
        requires { self.old ≢ [] }
        ensures { self.new ≡ drop 1 self.old }
    {
        self.level -= 1;
    }

    /// Skips the next element, or opens it if it contains elements. Returns the bytes after the
    /// element, or after its header.
    #[inline(always)]
    #[tactic(auto, using(crate::proofs::EnterLemmas::inside_within))]
    fn enter<'a>(&mut self, rest: &'a [u8]) -> Result<&'a [u8]>
        requires { get_or self.old 0 0 ≤ length rest.now }
        // A leaf or an empty node is skipped, and another node opened if one more may be open.
        ensures { MatchResult result
            (λ after. (((t : Tree) × IsTree t × (size t ≡ 1) × (depth t ≡ 1)
            × (rest.now ≡ bytes t ++ after.now) × (get_or self.old 0 0 ≤ length after.now))
            × (self.new ≡ self.old))
            ⊎ ((end : ℕ) × Opens self.old rest.now end after.now × (self.new ≡ end ∷ self.old)
            × (length self.old < max_tree_depth - 1)))
            (λ e. ((e.kind ≡ ErrorKind.Depth) × (length self.old ≡ max_tree_depth - 1)
            × ((end : ℕ) × (after : List ℕ) × Opens self.old rest.now end after))
            ⊎ (IsHeaderFault e.kind × ((content : ℕ → Fault) (following : Fault)
            → any_fault content following (take (length rest.now - get_or self.old 0 0) rest.now)
            ≡ Some (Some e.kind)))) }
    {
        let end = self.end();
        let room = rest.len() - end;
        let (header, inside) = match element_at(&rest[..room]) {
            Ok(found) => found,
            Err(kind) => return Err(kind.into()),
        };
        let length = header.length.get();
        let start = room - inside.len();
        if length > 0 && header.tag.is_constructed() {
            self.open(end + inside.len() - length)?;
            Ok(&rest[start..])
        } else {
            Ok(&rest[start + length..])
        }
    }
}
