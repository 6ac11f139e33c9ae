//! What a user concludes from the contracts of keys and of their readers, for every key type and
//! every reader: by which kind a stream is refused that isn't one key's element.
ghost use Rattle.std.specs.Prelude.{◌≡◌, ◌≢◌, ◌⊎◌, [], Some, None, false, IfSome};
ghost use Rattle.std.specs.Prelude.{IsErrAnd, IsSomeAnd};
ghost use Rattle.sec1.specs.Der.{document_fault};
ghost use Rattle.sec1.specs.Errors.{IsAsn1Where};

use sec1::der::{ErrorKind, Read};
use sec1::{DecodeEcPrivateKey, Error, Result};
use std::alloc::Global;

/// Reads a key from a stream whose remaining input isn't one element. It is refused by the kind by
/// which a slice of these bytes is, unless a read or an allocation fails.
///
/// # Errors
///
/// Always.
pub fn refused_stream<K: DecodeEcPrivateKey, R: Read>(alloc: Global, reader: &mut R) -> Result<K>
    requires unfailed { R.failed reader.old ≡ false }
    requires no_element { IsSomeAnd (R.left reader.old) (λ left. document_fault left ≢ None) }
    ensures { IfSome (R.left reader.old) (λ left. IsErrAnd result (λ error. (error ≡ Error.Memory)
        ⊎ IsAsn1Where (λ kind. (kind ≡ ErrorKind.Io)
        ⊎ (document_fault left ≡ Some (Some kind))) error)) }
{
    K::read_sec1_der_from(alloc, reader)
}

/// Reads a key from a stream that knows only the bytes that it gave, of which there are none yet. A
/// refusal has the kind by which a slice of the bytes that it gave is refused, if they aren't one
/// element.
///
/// # Errors
///
/// Those of [`DecodeEcPrivateKey::read_sec1_der_from`].
pub fn recorded_stream<K: DecodeEcPrivateKey, R: Read>(alloc: Global, reader: &mut R) -> Result<K>
    requires unfailed { R.failed reader.old ≡ false }
    requires unknown { R.left reader.old ≡ None }
    requires untouched { R.taken reader.old ≡ Some [] }
    ensures { IfSome (R.taken reader.new) (λ given. (document_fault given ≡ None)
        ⊎ IsErrAnd result (λ error. (error ≡ Error.Memory) ⊎ IsAsn1Where
        (λ kind. (kind ≡ ErrorKind.Io) ⊎ (document_fault given ≡ Some (Some kind))) error)) }
{
    K::read_sec1_der_from(alloc, reader)
}
