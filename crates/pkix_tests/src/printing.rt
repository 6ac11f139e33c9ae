//! What is printed of values by `{:?}`, with each option, and by `{:#?}`, as rustc prints derived
//! types of these shapes.
use crate::assert_equal;
use curves::Curve;
use der_types::{Boolean, Choice, DateTime, Defaulted, Implicit, OptionalPart};
use der_view::faults::Position;
use pkix::LaterVersion;
use sec1_der::{ErrorKind, Primitive0, Required, VersionOne};
use std::alloc::AllocError;
use std::fmt::Debug;
use std::process::Abort;

/// Fails the test unless these are the texts by `{:?}`, with a width, a precision, a sign and
/// zeros, one after the other, and the lines by `{:#?}`.
fn assert_prints<R: Abort + AllocGlobal, T: Debug>(rt: &R, value: &T, texts: &str, lines: &str) {
    let alloc = rt.alloc();
    let printed = format!(in alloc; "{value:?}|{value:5?}|{value:.1?}|{value:+?}|{value:05?}");
    assert_text(rt, printed, texts);
    assert_text(rt, format!(in alloc; "{value:#?}"), lines);
}

/// Fails the test unless what was printed is this text.
fn assert_text(rt: &impl Abort, printed: Result<String, AllocError>, text: &str) {
    assert_equal(rt, &printed.expect(rt, "no memory").as_str(), &text);
}

/// Fails the test unless this is the text with each of these options, and these are the lines by
/// `{:#?}`.
fn assert_prints_alike<R: Abort + AllocGlobal, T: Debug>(
    rt: &R,
    value: &T,
    text: &str,
    lines: &str,
) {
    let alloc = rt.alloc();
    let printed = format!(in alloc; "{value:?}|{value:5?}|{value:.1?}|{value:+?}|{value:05?}");
    assert_texts(rt, printed, text);
    assert_text(rt, format!(in alloc; "{value:#?}"), lines);
}

/// Fails the test unless each text between two `|` of what was printed is this one.
fn assert_texts(rt: &impl Abort, printed: Result<String, AllocError>, text: &str) {
    let printed = printed.expect(rt, "no memory");
    for found in printed.split('|') {
        assert_equal(rt, &found, &text);
    }
}

/// A choice between a BOOLEAN and a version.
type Alternatives = Choice<Required<Boolean>, Required<VersionOne>>;

#[test]
fn prints_values(rt: HostRuntime) {
    let time = DateTime {
        year: 1950,
        month: 1,
        day: 2,
        hour: 3,
        minute: 4,
        second: 5,
    };
    assert_prints(
        &rt,
        &time,
        "DateTime { year: 1950, month: 1, day: 2, hour: 3, minute: 4, second: 5 }|DateTime { year:  1950, month:     1, day:     2, hour:     3, minute:     4, second:     5 }|DateTime { year: 1950, month: 1, day: 2, hour: 3, minute: 4, second: 5 }|DateTime { year: +1950, month: +1, day: +2, hour: +3, minute: +4, second: +5 }|DateTime { year: 01950, month: 00001, day: 00002, hour: 00003, minute: 00004, second: 00005 }",
        "DateTime {\n    year: 1950,\n    month: 1,\n    day: 2,\n    hour: 3,\n    minute: 4,\n    second: 5,\n}",
    );
    assert_prints(
        &rt,
        &Boolean(true),
        "Boolean(true)|Boolean(true )|Boolean(t)|Boolean(true)|Boolean(true )",
        "Boolean(\n    true,\n)",
    );
    assert_prints(
        &rt,
        &Boolean(false),
        "Boolean(false)|Boolean(false)|Boolean(f)|Boolean(false)|Boolean(false)",
        "Boolean(\n    false,\n)",
    );
    assert_prints_alike(&rt, &LaterVersion::V2, "V2", "V2");
    assert_prints_alike(&rt, &LaterVersion::V3, "V3", "V3");
}

#[test]
fn prints_parts(rt: HostRuntime) {
    let first: Alternatives = Choice::First(Required(Boolean(true)));
    assert_prints(
        &rt,
        &first,
        "First(Required(Boolean(true)))|First(Required(Boolean(true )))|First(Required(Boolean(t)))|First(Required(Boolean(true)))|First(Required(Boolean(true )))",
        "First(\n    Required(\n        Boolean(\n            true,\n        ),\n    ),\n)",
    );
    let second: Alternatives = Choice::Second(Required(VersionOne));
    assert_prints_alike(
        &rt,
        &second,
        "Second(Required(VersionOne))",
        "Second(\n    Required(\n        VersionOne,\n    ),\n)",
    );
    assert_prints(
        &rt,
        &Defaulted(Boolean(true)),
        "Defaulted(Boolean(true))|Defaulted(Boolean(true ))|Defaulted(Boolean(t))|Defaulted(Boolean(true))|Defaulted(Boolean(true ))",
        "Defaulted(\n    Boolean(\n        true,\n    ),\n)",
    );
    let field: Implicit<Primitive0, Boolean> = Implicit::new(Boolean(true));
    assert_prints(
        &rt,
        &field,
        "Implicit { value: Boolean(true), .. }|Implicit { value: Boolean(true ), .. }|Implicit { value: Boolean(t), .. }|Implicit { value: Boolean(true), .. }|Implicit { value: Boolean(true ), .. }",
        "Implicit {\n    value: Boolean(\n        true,\n    ),\n    ..\n}",
    );
    let absent: OptionalPart<Required<Boolean>> = OptionalPart(None);
    assert_prints_alike(
        &rt,
        &absent,
        "OptionalPart(None)",
        "OptionalPart(\n    None,\n)",
    );
    assert_prints(
        &rt,
        &OptionalPart(Some(Required(Boolean(false)))),
        "OptionalPart(Some(Required(Boolean(false))))|OptionalPart(Some(Required(Boolean(false))))|OptionalPart(Some(Required(Boolean(f))))|OptionalPart(Some(Required(Boolean(false))))|OptionalPart(Some(Required(Boolean(false))))",
        "OptionalPart(\n    Some(\n        Required(\n            Boolean(\n                false,\n            ),\n        ),\n    ),\n)",
    );
}

#[test]
fn prints_curves_and_faults(rt: HostRuntime) {
    assert_prints_alike(
        &rt,
        &[Curve::Secp112r1, Curve::BrainpoolP512t1],
        "[Secp112r1, BrainpoolP512t1]",
        "[\n    Secp112r1,\n    BrainpoolP512t1,\n]",
    );
    let fault = Position {
        offset: 34,
        kind: ErrorKind::Value,
    };
    assert_prints(
        &rt,
        &fault,
        "Position { offset: 34, kind: Value }|Position { offset:    34, kind: Value }|Position { offset: 34, kind: Value }|Position { offset: +34, kind: Value }|Position { offset: 00034, kind: Value }",
        "Position {\n    offset: 34,\n    kind: Value,\n}",
    );
}
