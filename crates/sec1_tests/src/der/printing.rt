//! What is printed of values by `{:?}`, and by `{:#?}` as a derived `Debug` prints it; and by `{}`,
//! whatever options are set.
use crate::helpers::{assert_debug_options, assert_debugged, assert_displayed, assert_printed};
use sec1_der::{
    AnyRef, BitStringRef, Context0, Error, ErrorKind, Explicit, Header, IoFault, Length,
    ObjectIdentifier, OctetStringRef, Optional, Required, SmallInteger, Tag, VersionOne,
};
use std::fmt::Debug;
use std::process::Abort;
use std::test::Fail;

/// Returns the length.
fn length(rt: &impl Abort, bytes: usize) -> Length {
    Length::new(bytes).expect(rt, "a length")
}

#[test]
fn prints_structs_with_one_field(rt: HostRuntime) -> Result<(), Fail> {
    assert_debug_options(
        &rt,
        &Tag::OBJECT_IDENTIFIER,
        "Tag { byte: 6 }|Tag { byte:     6 }|Tag { byte: 6 }|Tag { byte: +6 }|Tag { byte: 00006 }",
        "Tag {\n    byte: 6,\n}",
    );
    assert_debug_options(
        &rt,
        &length(&rt, 128),
        "Length { bytes: 128 }|Length { bytes:   128 }|Length { bytes: 128 }|Length { bytes: +128 }|Length { bytes: 00128 }",
        "Length {\n    bytes: 128,\n}",
    );
    assert_debug_options(
        &rt,
        &Error::from(ErrorKind::Truncated),
        "Error { kind: Truncated }|Error { kind: Truncated }|Error { kind: Truncated }|Error { kind: Truncated }|Error { kind: Truncated }",
        "Error {\n    kind: Truncated,\n}",
    );
    assert_debug_options(
        &rt,
        &OctetStringRef::new(&[1, 255])?,
        "OctetStringRef { bytes: [1, 255] }|OctetStringRef { bytes: [    1,   255] }|OctetStringRef { bytes: [1, 255] }|OctetStringRef { bytes: [+1, +255] }|OctetStringRef { bytes: [00001, 00255] }",
        "OctetStringRef {\n    bytes: [\n        1,\n        255,\n    ],\n}",
    );
    Ok(())
}

#[test]
fn prints_structs_with_two_fields(rt: HostRuntime) -> Result<(), Fail> {
    let header = Header {
        tag: Tag::SEQUENCE,
        length: length(&rt, 3),
    };
    assert_debug_options(
        &rt,
        &header,
        "Header { tag: Tag { byte: 48 }, length: Length { bytes: 3 } }|Header { tag: Tag { byte:    48 }, length: Length { bytes:     3 } }|Header { tag: Tag { byte: 48 }, length: Length { bytes: 3 } }|Header { tag: Tag { byte: +48 }, length: Length { bytes: +3 } }|Header { tag: Tag { byte: 00048 }, length: Length { bytes: 00003 } }",
        "Header {\n    tag: Tag {\n        byte: 48,\n    },\n    length: Length {\n        bytes: 3,\n    },\n}",
    );
    assert_debug_options(
        &rt,
        &AnyRef::new(Tag::SEQUENCE, &[5, 0])?,
        "AnyRef { tag: 48, value: [5, 0] }|AnyRef { tag:    48, value: [    5,     0] }|AnyRef { tag: 48, value: [5, 0] }|AnyRef { tag: +48, value: [+5, +0] }|AnyRef { tag: 00048, value: [00005, 00000] }",
        "AnyRef {\n    tag: 48,\n    value: [\n        5,\n        0,\n    ],\n}",
    );
    assert_debug_options(
        &rt,
        &BitStringRef::new(4, &[240])?,
        "BitStringRef { unused: 4, bytes: [240] }|BitStringRef { unused:     4, bytes: [  240] }|BitStringRef { unused: 4, bytes: [240] }|BitStringRef { unused: +4, bytes: [+240] }|BitStringRef { unused: 00004, bytes: [00240] }",
        "BitStringRef {\n    unused: 4,\n    bytes: [\n        240,\n    ],\n}",
    );
    Ok(())
}

#[test]
fn prints_parts(rt: HostRuntime) {
    let length = length(&rt, 128);
    assert_debug_options(
        &rt,
        &Required(length),
        "Required(Length { bytes: 128 })|Required(Length { bytes:   128 })|Required(Length { bytes: 128 })|Required(Length { bytes: +128 })|Required(Length { bytes: 00128 })",
        "Required(\n    Length {\n        bytes: 128,\n    },\n)",
    );
    assert_debug_options(
        &rt,
        &Optional(Some(length)),
        "Optional(Some(Length { bytes: 128 }))|Optional(Some(Length { bytes:   128 }))|Optional(Some(Length { bytes: 128 }))|Optional(Some(Length { bytes: +128 }))|Optional(Some(Length { bytes: 00128 }))",
        "Optional(\n    Some(\n        Length {\n            bytes: 128,\n        },\n    ),\n)",
    );
    let absent: Optional<VersionOne> = Optional(None);
    assert_debug_options(
        &rt,
        &absent,
        "Optional(None)|Optional(None)|Optional(None)|Optional(None)|Optional(None)",
        "Optional(\n    None,\n)",
    );
    let field: Explicit<Context0, Length> = Explicit::new(length);
    assert_debug_options(
        &rt,
        &field,
        "Explicit { value: Length { bytes: 128 }, .. }|Explicit { value: Length { bytes:   128 }, .. }|Explicit { value: Length { bytes: 128 }, .. }|Explicit { value: Length { bytes: +128 }, .. }|Explicit { value: Length { bytes: 00128 }, .. }",
        "Explicit {\n    value: Length {\n        bytes: 128,\n    },\n    ..\n}",
    );
}

/// Fails the test unless the value is printed as this name by `{:?}`, whatever options are set.
fn assert_name<R: Abort + AllocGlobal, T: Debug>(rt: &R, value: &T, name: &str) {
    assert_printed(rt, format!(in rt.alloc(); "{value:#?}"), name);
    assert_debugged(rt, value, name);
}

#[test]
fn prints_names(rt: HostRuntime) {
    assert_name(&rt, &SmallInteger::<7>, "SmallInteger");
    assert_name(&rt, &VersionOne, "VersionOne");
    assert_name(&rt, &IoFault, "IoFault");
    assert_name(&rt, &ErrorKind::TrailingData, "TrailingData");
}

#[test]
fn prints_the_same_whatever_is_asked(rt: HostRuntime) -> Result<(), Fail> {
    let identifier = ObjectIdentifier::new("1.2.4294967295")?;
    assert_displayed(&rt, &identifier, "1.2.4294967295");
    assert_debugged(&rt, &identifier, "ObjectIdentifier(1.2.4294967295)");
    assert_displayed(&rt, &Error::from(ErrorKind::Memory), "out of memory");
    assert_displayed(&rt, &ErrorKind::Io, "read or write failed");
    Ok(())
}
