//! Parts and values that are written where there is just room for them.
use crate::assert_equal;
use der_types::{Any, Boolean, Choice, Defaulted, Implicit, OptionalPart};
use sec1_der::{BackWriter, EncodePart, EncodeValue, ErrorKind, Primitive0, Required, VersionOne};
use std::process::Abort;
use std::test::Fail;

/// Fails the test unless the part has these bytes, and its length is theirs.
fn assert_written<P: EncodePart>(rt: &impl Abort, part: &P, wanted: [u8; 3]) {
    let mut bytes = [0; 3];
    let mut writer = BackWriter::new(&mut bytes);
    let length = part.part_len().map_or(usize::MAX, |length| length.get());
    if length <= writer.remaining() {
        part.prepend_part(&mut writer);
    }
    assert_equal(rt, &length, &3);
    assert_equal(rt, &bytes, &wanted);
}

/// A choice between a BOOLEAN and a version.
type Alternatives = Choice<Required<Boolean>, Required<VersionOne>>;

/// TRUE, as in X.690 section 8.2.2, and the INTEGER 1.
#[test]
fn writes_parts(rt: HostRuntime) -> Result<(), Fail> {
    let first: Alternatives = Choice::First(Required(Boolean(true)));
    assert_written(&rt, &first, [0x01, 0x01, 0xFF]);
    let second: Alternatives = Choice::Second(Required(VersionOne));
    assert_written(&rt, &second, [0x02, 0x01, 0x01]);
    assert_written(
        &rt,
        &OptionalPart(Some(Required(Boolean(true)))),
        [0x01, 0x01, 0xFF],
    );
    assert_written(&rt, &Defaulted(Boolean(true)), [0x01, 0x01, 0xFF]);
    assert_written(&rt, &Any::new(&[0x04, 0x01, 0x61])?, [0x04, 0x01, 0x61]);
    Ok(())
}

#[test]
fn writes_a_value(rt: HostRuntime) {
    let field: Implicit<Primitive0, Boolean> = Implicit::new(Boolean(true));
    let mut bytes = [0];
    field.prepend_value(&mut BackWriter::new(&mut bytes));
    assert_equal(&rt, &bytes, &[0xFF]);
}
