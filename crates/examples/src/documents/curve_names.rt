ghost use Rattle.curves.specs.Curves.{curve_arcs};
ghost use Rattle.curves.specs.declared.curve.Curve.{Curve};
ghost use Rattle.std.specs.Prelude.{◌≡◌, IfSome, Some};

use curves::Curve;
use sec1_der::ObjectIdentifier;

/// Returns the curve that an identifier names, if it is one of the table.
pub fn curve_of(identifier: &ObjectIdentifier) -> Option<Curve>
    ensures found { IfSome result (λ curve. curve_arcs curve ≡ identifier.now) }
    ensures only { (curve : Curve) → curve_arcs curve ≡ identifier.now → result ≡ Some curve }
{
    Curve::from_identifier(identifier)
}
