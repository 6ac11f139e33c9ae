//! The kinds by which the header of an element is refused, for every type. A type may leave open by
//! which kind its content is refused, but not this.
ghost use Rattle.std.specs.Prelude.{◌≡◌, ◌≢◌, ◌∷◌, ◌++◌, ◌≤◌, [], ℕ, List, length, false};
ghost use Rattle.sec1_der.specs.Elements.{element, max_length, IsProperPrefix};
ghost use Rattle.sec1_der.specs.Errors.{Refuses};
ghost use Rattle.sec1_der.specs.Readers.{reader_over};

use sec1_der::{
    DecodeValue, ErrorKind, OctetStringRef, Result, SliceReader, Tagged, from_der, laws,
};

/// Reads a value of any type from exactly these bytes. No bytes are Truncated.
pub fn from_der_empty<'a, T: DecodeValue<'a> + Tagged + Drop>(input: &'a [u8]) -> Result<T>
    ensures { input.now ≡ [] → Refuses result ErrorKind.Truncated }
{
    from_der(input)
}

/// Reads a value of any type from exactly these bytes. Another tag is Tag, whatever follows.
pub fn from_der_other_tag<'a, T: DecodeValue<'a> + Tagged + Drop>(input: &'a [u8]) -> Result<T>
    ensures { (byte : ℕ) (rest : List ℕ) → input.now ≡ byte ∷ rest → byte ≢ T.tag_byte
        → Refuses result ErrorKind.Tag }
{
    from_der(input)
}

/// Reads a value of any type from exactly these bytes. An element that is cut is Truncated.
pub fn from_der_short<'a, T: DecodeValue<'a> + Tagged + Drop>(input: &'a [u8]) -> Result<T>
    ensures { (content : List ℕ) → length content ≤ max_length
        → IsProperPrefix input.now (element T.tag_byte content)
        → Refuses result ErrorKind.Truncated }
{
    laws::cut_elements();
    from_der(input)
}

/// Reads a value of any type from the remaining input. Where none remains, that is Truncated.
pub fn decode_empty<'a, T: DecodeValue<'a> + Tagged + Drop>(
    reader: &mut SliceReader<'a>,
) -> Result<T>
    ensures { reader.old ≡ reader_over [] → Refuses result ErrorKind.Truncated }
{
    reader.decode()
}

/// Reads a value of any type from the remaining input. Another tag is Tag, whatever follows.
pub fn decode_other_tag<'a, T: DecodeValue<'a> + Tagged + Drop>(
    reader: &mut SliceReader<'a>,
) -> Result<T>
    ensures { (byte : ℕ) (rest : List ℕ) → reader.old ≡ reader_over (byte ∷ rest)
        → byte ≢ T.tag_byte → Refuses result ErrorKind.Tag }
{
    reader.decode()
}

/// Reads a value of any type from the remaining input. An element that is cut is Truncated.
pub fn decode_short<'a, T: DecodeValue<'a> + Tagged + Drop>(
    reader: &mut SliceReader<'a>,
) -> Result<T>
    ensures { (content : List ℕ) → length content ≤ max_length → reader.old.failed ≡ false
        → IsProperPrefix reader.old.unread (element T.tag_byte content)
        → Refuses result ErrorKind.Truncated }
{
    laws::cut_elements();
    reader.decode()
}

/// Reads an octet string from exactly these bytes. Bytes after one are TrailingData.
pub fn octets_long(input: &[u8]) -> Result<OctetStringRef<'_>>
    ensures { (content : List ℕ) → length content ≤ max_length
        → IsProperPrefix (element 0x04 content) input.now
        → Refuses result ErrorKind.TrailingData }
{
    laws::longer_elements();
    from_der(input)
}
