//! The curves that algorithms name.
ghost use Rattle.std.specs.Prelude.{◌≡◌, Some, IfSome};
ghost use Rattle.curves.specs.Curves.{curve_arcs};
ghost use Rattle.curves.specs.declared.curve.Curve.{Curve};

use crate::documents::algorithm::AlgorithmIdentifier;
use curves::Curve;

/// Returns the curve that is the parameter of an algorithm, if it is one of the table.
pub fn curve_of(algorithm: &AlgorithmIdentifier) -> Option<Curve>
    ensures found { IfSome result (λ curve. curve_arcs curve ≡ algorithm.now.parameters) }
    ensures only { (curve : Curve) → curve_arcs curve ≡ algorithm.now.parameters
        → result ≡ Some curve }
{
    Curve::from_identifier(&algorithm.parameters)
}
