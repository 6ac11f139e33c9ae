//! Laws of the table of curves, for callers to cite. Each law is the contract of a function, which
//! does nothing else.
ghost use Rattle.std.specs.Prelude.{◌≡◌, ℕ, List, Contains};
ghost use Rattle.curves.specs.Curves.{curve_arcs, curve_content, IsNameOf};
ghost use Rattle.curves.specs.declared.curve.Curve.{Curve};

use crate::Curve;

/// [`Curve::ALL`] has every curve.
#[tactic(auto, using(crate::proofs::CurveLemmas::all_curves))]
pub fn all_curves()
    ensures { (curve : Curve) → Contains Curve.ALL curve }
{}

/// No two curves have the same identifier.
#[tactic(auto, using(crate::proofs::CurveLemmas::one_identifier))]
pub fn one_identifier()
    ensures arcs { (a b : Curve) → curve_arcs a ≡ curve_arcs b → a ≡ b }
    ensures content { (a b : Curve) → curve_content a ≡ curve_content b → a ≡ b }
{}

/// No two curves have a name in common.
#[tactic(auto, using(crate::proofs::CurveLemmas::one_name))]
pub fn one_name()
    ensures { (a b : Curve) (text : List ℕ) → IsNameOf text a → IsNameOf text b → a ≡ b }
{}
