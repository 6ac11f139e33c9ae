ghost use Rattle.std.specs.Prelude.{refl};

use sec1::der::{Distinct, ObjectIdentifier, Record, Required};

/// The algorithm of a public key, and the curve that is its parameter (RFC 5280 section 4.1.1.2,
/// RFC 5480 section 2.1).
#[derive(Clone, Copy, PartialEq, Eq, Debug)]
pub struct AlgorithmIdentifier {
    /// The identifier of the algorithm.
    pub algorithm: ObjectIdentifier,
    /// The identifier of the curve.
    pub parameters: ObjectIdentifier,
}

impl Record for AlgorithmIdentifier {
    type Parts = (Required<ObjectIdentifier>, Required<ObjectIdentifier>);

    ghost parts = { λ value. (value.algorithm, value.parameters) };

    ghost of_parts = { λ pairs. record { algorithm = pairs.0; parameters = pairs.1 } };

    fn from_parts(pairs: Self::Parts) -> Self {
        let (Required(algorithm), Required(parameters)) = pairs;
        AlgorithmIdentifier {
            algorithm,
            parameters,
        }
    }

    fn to_parts(&self) -> Self::Parts {
        (Required(self.algorithm), Required(self.parameters))
    }

    ghost same = { λ _. refl };
}

impl Distinct for AlgorithmIdentifier {
    ghost distinct = { refl };
}
