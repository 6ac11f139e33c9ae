ghost use Rattle.std.specs.Prelude.{refl};

use sec1::der::{
    Context0, Distinct, Explicit, ObjectIdentifier, Octets, Optional, Record, Required,
    SmallInteger,
};

/// A secret, which is borrowed, and the identifier of what it is for.
#[derive(Drop)]
pub struct StoredSecret<'a> {
    /// The bytes of the secret.
    pub secret: Octets<'a>,
    /// What the secret is for, if that is said.
    pub purpose: Option<Explicit<Context0, ObjectIdentifier>>,
}

impl<'a> Record for StoredSecret<'a> {
    type Parts = (
        Required<SmallInteger<0>>,
        (
            Required<Octets<'a>>,
            Optional<Explicit<Context0, ObjectIdentifier>>,
        ),
    );

    ghost parts = { λ value. (record {}, (value.secret, value.purpose)) };

    ghost of_parts = { λ pairs. record { secret = pairs.1.0; purpose = pairs.1.1 } };

    fn from_parts((_, (secret, purpose)): Self::Parts) -> Self {
        StoredSecret {
            secret: secret.0,
            purpose: purpose.0,
        }
    }

    fn to_parts(&self) -> Self::Parts {
        let bytes = self.secret.bytes;
        let purpose = match &self.purpose {
            Some(field) => Some(Explicit::new(field.value)),
            None => None,
        };
        (
            Required(SmallInteger),
            (Required(Octets { bytes }), Optional(purpose)),
        )
    }

    ghost same = { λ _. refl };
}

impl Distinct for StoredSecret<'_> {
    ghost distinct = { refl };
}
