//! Tests of what a picture prints of contents, and of what is wrong with them.
use super::{assert_equal, assert_equal_for};
use der_view::{
    Class, Content, Element, Fault, Header, Line, Mark, Name, Place, Presence, RowFacts, Tag,
    plan_of, value_of,
};
use std::process::Abort;
use std::test::Fail;

/// What is expected: in each line the first letter of a class, the number of a tag, a content in
/// hexadecimal, and what is printed. Python's `datetime`, `int`, `str` and `bytes` made the texts.
const ROWS: &str = "\
    U 1 00 BOOLEAN FALSE\n\
    U 1 ff BOOLEAN TRUE\n\
    U 1 01 BOOLEAN TRUE\n\
    U 1  BOOLEAN, 0 bytes\n\
    U 1 0000 BOOLEAN, 2 bytes\n\
    U 2 00 INTEGER 0\n\
    U 10 00 ENUMERATED 0\n\
    U 2 01 INTEGER 1\n\
    U 10 01 ENUMERATED 1\n\
    U 2 ff INTEGER -1\n\
    U 10 ff ENUMERATED -1\n\
    U 2 7f INTEGER 127\n\
    U 10 7f ENUMERATED 127\n\
    U 2 0080 INTEGER 128\n\
    U 10 0080 ENUMERATED 128\n\
    U 2 80 INTEGER -128\n\
    U 10 80 ENUMERATED -128\n\
    U 2 ff7f INTEGER -129\n\
    U 10 ff7f ENUMERATED -129\n\
    U 2 00ff INTEGER 255\n\
    U 10 00ff ENUMERATED 255\n\
    U 2 0100 INTEGER 256\n\
    U 10 0100 ENUMERATED 256\n\
    U 2 010001 INTEGER 65537\n\
    U 10 010001 ENUMERATED 65537\n\
    U 2 0080000000 INTEGER 2147483648\n\
    U 10 0080000000 ENUMERATED 2147483648\n\
    U 2 80000000 INTEGER -2147483648\n\
    U 10 80000000 ENUMERATED -2147483648\n\
    U 2 7fffffffffffffff INTEGER 9223372036854775807\n\
    U 10 7fffffffffffffff ENUMERATED 9223372036854775807\n\
    U 2 8000000000000000 INTEGER -9223372036854775808\n\
    U 10 8000000000000000 ENUMERATED -9223372036854775808\n\
    U 2 8000000000000001 INTEGER -9223372036854775807\n\
    U 10 8000000000000001 ENUMERATED -9223372036854775807\n\
    U 2 0100000000000000 INTEGER 72057594037927936\n\
    U 10 0100000000000000 ENUMERATED 72057594037927936\n\
    U 2 80000000000000 INTEGER -36028797018963968\n\
    U 10 80000000000000 ENUMERATED -36028797018963968\n\
    U 2 0000000000000001 INTEGER 1\n\
    U 2 ffff INTEGER -1\n\
    U 2  INTEGER, 0 bytes\n\
    U 2 010000000000000000 INTEGER, 9 bytes\n\
    U 3 0780 BIT STRING 1\n\
    U 3 0700 BIT STRING 0\n\
    U 3 05a0 BIT STRING 101\n\
    U 3 0186 BIT STRING 1000011\n\
    U 3 0001 BIT STRING 00000001\n\
    U 3 07f080 BIT STRING 111100001\n\
    U 3 00ffffff BIT STRING 111111111111111111111111\n\
    U 3 01492492 BIT STRING 01001001001001001001001\n\
    U 3  BIT STRING, 0 bytes\n\
    U 3 00 BIT STRING, 0 bytes\n\
    U 3 000404040404040404040404040404040404040404040404040404040404040404040404040404040404\
    040404040404040404040404040404040404040404040404 BIT STRING, 65 bytes\n\
    U 3 0308080808 BIT STRING, 4 bytes, 3 unused bits\n\
    U 3 0102020202 BIT STRING, 4 bytes, 1 unused bit\n\
    U 3 ff00 BIT STRING, 1 byte, 255 unused bits\n\
    U 4 61 OCTET STRING, 1 byte\n\
    U 5  NULL\n\
    U 5 61 NULL, 1 byte\n\
    U 6 2a8648ce3d030107 OBJECT IDENTIFIER P-256 (1.2.840.10045.3.1.7)\n\
    U 6 2a8648ce3d0201 OBJECT IDENTIFIER ecPublicKey (1.2.840.10045.2.1)\n\
    U 6 2b6570 OBJECT IDENTIFIER Ed25519 (1.3.101.112)\n\
    U 6 550403 OBJECT IDENTIFIER commonName (2.5.4.3)\n\
    U 6 551d0f OBJECT IDENTIFIER keyUsage (2.5.29.15)\n\
    U 6 2b8104000a OBJECT IDENTIFIER secp256k1 (1.3.132.0.10)\n\
    U 6 2b2403030208010107 OBJECT IDENTIFIER brainpoolP256r1 (1.3.36.3.3.2.8.1.1.7)\n\
    U 6 2b0e030207 OBJECT IDENTIFIER desCBC (1.3.14.3.2.7)\n\
    U 6 2b0e03021a OBJECT IDENTIFIER sha1 (1.3.14.3.2.26)\n\
    U 6 0992268993f22c640119 OBJECT IDENTIFIER domainComponent (0.9.2342.19200300.100.1.25)\n\
    U 6 00 OBJECT IDENTIFIER 0.0\n\
    U 6 27 OBJECT IDENTIFIER 0.39\n\
    U 6 28 OBJECT IDENTIFIER 1.0\n\
    U 6 4f OBJECT IDENTIFIER 1.39\n\
    U 6 50 OBJECT IDENTIFIER 2.0\n\
    U 6 77 OBJECT IDENTIFIER 2.39\n\
    U 6 78 OBJECT IDENTIFIER 2.40\n\
    U 6 883703 OBJECT IDENTIFIER 2.999.3\n\
    U 6 2a8648 OBJECT IDENTIFIER 1.2.840\n\
    U 6 5504 OBJECT IDENTIFIER 2.5.4\n\
    U 6 550402 OBJECT IDENTIFIER knowledgeInformation (2.5.4.2)\n\
    U 6 55040301 OBJECT IDENTIFIER 2.5.4.3.1\n\
    U 6 6983f09da7ebcfdee0c7a1a7b2c0948cc8f9d776 OBJECT IDENTIFIER 2.25.32980073569858662929\
    5641978511506172918\n\
    U 6 6983ffffffffffffffffffffffffffffffffff7f OBJECT IDENTIFIER 2.25.34028236692093846346\
    3374607431768211455\n\
    U 6 83ffffffffffffffffffffffffffffffffff7f OBJECT IDENTIFIER 2.3402823669209384634633746\
    07431768211375\n\
    U 6 2b90808080009080808000908080800090808080009080808000 OBJECT IDENTIFIER 1.3.429496729\
    6.4294967296.4294967296.4294967296.4294967296\n\
    U 6 6984808080808080808080808080808080808000 OBJECT IDENTIFIER, 20 bytes\n\
    U 6  OBJECT IDENTIFIER, 0 bytes\n\
    U 6 8001 OBJECT IDENTIFIER, 2 bytes\n\
    U 6 81 OBJECT IDENTIFIER, 1 byte\n\
    U 12 4578c3a46d706c65 UTF8String \"Ex\\u{E4}mple\"\n\
    U 30 0045007800e4006d0070006c0065 BMPString \"Ex\\u{E4}mple\"\n\
    U 28 0000004500000078000000e40000006d000000700000006c00000065 UniversalString, 28 bytes\n\
    U 12  UTF8String \"\"\n\
    U 30  BMPString \"\"\n\
    U 28  UniversalString, 0 bytes\n\
    U 12 6122625c63 UTF8String \"a\\\"b\\\\c\"\n\
    U 30 006100220062005c0063 BMPString \"a\\\"b\\\\c\"\n\
    U 28 0000006100000022000000620000005c00000063 UniversalString, 20 bytes\n\
    U 12 e282ac UTF8String \"\\u{20AC}\"\n\
    U 30 20ac BMPString \"\\u{20AC}\"\n\
    U 28 000020ac UniversalString, 4 bytes\n\
    U 12 f09f9880 UTF8String \"\\u{1F600}\"\n\
    U 30 d83dde00 BMPString \"\\u{1F600}\"\n\
    U 28 0001f600 UniversalString, 4 bytes\n\
    U 12 7e7f201f UTF8String \"~\\u{7F} \\u{1F}\"\n\
    U 30 007e007f0020001f BMPString \"~\\u{7F} \\u{1F}\"\n\
    U 28 0000007e0000007f000000200000001f UniversalString, 16 bytes\n\
    U 12 efbfbd00 UTF8String \"\\u{FFFD}\\u{0}\"\n\
    U 30 fffd0000 BMPString \"\\u{FFFD}\\u{0}\"\n\
    U 28 0000fffd00000000 UniversalString, 8 bytes\n\
    U 20 e462ff8022 TeletexString \"\\u{E4}b\\u{FF}\\u{80}\\\"\"\n\
    U 21 e462ff8022 VideotexString \"\\u{E4}b\\u{FF}\\u{80}\\\"\"\n\
    U 25 e462ff8022 GraphicString \"\\u{E4}b\\u{FF}\\u{80}\\\"\"\n\
    U 27 e462ff8022 GeneralString \"\\u{E4}b\\u{FF}\\u{80}\\\"\"\n\
    U 18 31322033 NumericString \"12 3\"\n\
    U 19 612728292c2d2e2f3a3d3f202b PrintableString \"a'(),-./:=? +\"\n\
    U 22 61406201 IA5String \"a@b\\u{1}\"\n\
    U 26 7b7c7d7e VisibleString \"{|}~\"\n\
    U 12 ff UTF8String, 1 byte\n\
    U 12 eda080 UTF8String, 3 bytes\n\
    U 12 c080 UTF8String, 2 bytes\n\
    U 18 61 NumericString, 1 byte\n\
    U 19 615f62ff PrintableString, 4 bytes\n\
    U 22 80 IA5String, 1 byte\n\
    U 26 7f VisibleString, 1 byte\n\
    U 28 616263 UniversalString, 3 bytes\n\
    U 28 00110000 UniversalString, 4 bytes\n\
    U 28 0000d800 UniversalString, 4 bytes\n\
    U 30 61 BMPString, 1 byte\n\
    U 30 d8000061 BMPString, 4 bytes\n\
    U 30 dc00d800 BMPString, 4 bytes\n\
    U 30 d800 BMPString, 2 bytes\n\
    U 23 3939303732313031303435325a UTCTime 1999-07-21 01:04:52Z\n\
    U 24 31393939303732313031303435322e32355a GeneralizedTime 1999-07-21 01:04:52.25Z\n\
    U 23 3530303631393031353833325a UTCTime 1950-06-19 01:58:32Z\n\
    U 24 31393530303631393031353833322e32355a GeneralizedTime 1950-06-19 01:58:32.25Z\n\
    U 23 3530303231343133303431355a UTCTime 1950-02-14 13:04:15Z\n\
    U 24 31393530303231343133303431352e32355a GeneralizedTime 1950-02-14 13:04:15.25Z\n\
    U 23 3631303730323138303731345a UTCTime 1961-07-02 18:07:14Z\n\
    U 24 31393631303730323138303731342e32355a GeneralizedTime 1961-07-02 18:07:14.25Z\n\
    U 23 3330303131393138323530335a UTCTime 2030-01-19 18:25:03Z\n\
    U 24 32303330303131393138323530332e32355a GeneralizedTime 2030-01-19 18:25:03.25Z\n\
    U 23 3530303932383034313832365a UTCTime 1950-09-28 04:18:26Z\n\
    U 24 31393530303932383034313832362e32355a GeneralizedTime 1950-09-28 04:18:26.25Z\n\
    U 23 3638303231393039333535325a UTCTime 1968-02-19 09:35:52Z\n\
    U 24 31393638303231393039333535322e32355a GeneralizedTime 1968-02-19 09:35:52.25Z\n\
    U 23 3939303231393138343031325a UTCTime 1999-02-19 18:40:12Z\n\
    U 24 31393939303231393138343031322e32355a GeneralizedTime 1999-02-19 18:40:12.25Z\n\
    U 23 3530303932333032333630335a UTCTime 1950-09-23 02:36:03Z\n\
    U 24 31393530303932333032333630332e32355a GeneralizedTime 1950-09-23 02:36:03.25Z\n\
    U 23 3939303832323137323734395a UTCTime 1999-08-22 17:27:49Z\n\
    U 24 31393939303832323137323734392e32355a GeneralizedTime 1999-08-22 17:27:49.25Z\n\
    U 23 3439313031353131313931355a UTCTime 2049-10-15 11:19:15Z\n\
    U 24 32303439313031353131313931352e32355a GeneralizedTime 2049-10-15 11:19:15.25Z\n\
    U 23 3939303231393039333333315a UTCTime 1999-02-19 09:33:31Z\n\
    U 24 31393939303231393039333333312e32355a GeneralizedTime 1999-02-19 09:33:31.25Z\n\
    U 24 30303030313233313233353935395a GeneralizedTime 0000-12-31 23:59:59Z\n\
    U 24 30303031313233313233353935395a GeneralizedTime 0001-12-31 23:59:59Z\n\
    U 24 30393939313233313233353935395a GeneralizedTime 0999-12-31 23:59:59Z\n\
    U 24 31353832313233313233353935395a GeneralizedTime 1582-12-31 23:59:59Z\n\
    U 24 39393939313233313233353935395a GeneralizedTime 9999-12-31 23:59:59Z\n\
    U 23 3030303232393030303030305a UTCTime 2000-02-29 00:00:00Z\n\
    U 23 323630313032303330345a UTCTime, 11 bytes\n\
    U 23 3031303232393030303030305a UTCTime, 13 bytes\n\
    U 23 3236303130323033303430352b30303030 UTCTime, 17 bytes\n\
    U 24 3230323630313032303330343035 GeneralizedTime, 14 bytes\n\
    U 24 32303236303130323033303430352e35305a GeneralizedTime, 18 bytes\n\
    U 24 31393030303232393030303030305a GeneralizedTime, 15 bytes\n\
    C 2 6578616d706c652e6f7267 [2] \"example.org\"\n\
    C 2 6100 [2], 2 bytes\n\
    A 30 787f [APPLICATION 30], 2 bytes\n\
    P 128 78 [PRIVATE 128] \"x\"\n\
    U 7 6162 ObjectDescriptor, 2 bytes\n\
    U 8 6162 EXTERNAL, 2 bytes\n\
    U 9 6162 REAL, 2 bytes\n\
    U 11 6162 EMBEDDED PDV, 2 bytes\n\
    U 13 6162 RELATIVE-OID, 2 bytes\n\
    U 14 6162 TIME, 2 bytes\n\
    U 29 6162 CHARACTER STRING, 2 bytes\n\
    U 0  [UNIVERSAL 0], 0 bytes\n\
    U 15  [UNIVERSAL 15], 0 bytes\n\
    U 31  [UNIVERSAL 31], 0 bytes\n\
    U 128 6162 [UNIVERSAL 128], 2 bytes\n\
    ";

/// Returns the class with this first letter.
fn class_of(letter: &str) -> Class {
    match letter {
        "U" => Class::Universal,
        "A" => Class::Application,
        "C" => Class::Context,
        _ => Class::Private,
    }
}

/// Compares what is printed of a primitive element.
fn assert_shown(rt: &impl Abort, tag: Tag, content: &[u8], expected: &str) {
    let mut line = Line::new();
    line.push_type(tag);
    line.push_value(&value_of(tag, content));
    let line = line.finish();
    let shown = str::from_utf8(line.as_bytes()).unwrap_or("");
    assert_equal(rt, &shown, &expected);
}

#[test]
fn prints_values(rt: HostRuntime) -> Result<(), Fail> {
    let mut count = 0u32;
    for row in ROWS.lines() {
        let (class, rest) = row.split_once(' ').ok_or("class")?;
        let (number, rest) = rest.split_once(' ').ok_or("number")?;
        let (content, expected) = rest.split_once(' ').ok_or("content")?;
        let tag = Tag {
            class: class_of(class),
            constructed: false,
            number: number.parse::<u32>()?,
        };
        let content = hex::decode(rt.alloc(), content)?;
        assert_shown(&rt, tag, &content, expected);
        count = count.saturating_add(1);
    }
    assert_equal(&rt, &count, &184);
    Ok(())
}

/// Compares what is printed of an IA5String of as many equal characters.
fn assert_cut(rt: &impl Abort, count: usize, expected: usize, end: &str) {
    let content = [b'y'; 300];
    let mut line = Line::new();
    let tag = Tag {
        class: Class::Context,
        constructed: false,
        number: 2,
    };
    line.push_type(tag);
    line.push_value(&value_of(tag, &content[..count.min(300)]));
    let line = line.finish();
    let shown = str::from_utf8(line.as_bytes()).unwrap_or("");
    assert_equal(rt, &(shown.len(), shown.ends_with(end)), &(expected, true));
}

#[test]
fn cuts_long_values(rt: HostRuntime) {
    assert_cut(&rt, 94, 100, "y\"");
    assert_cut(&rt, 95, 100, "yyy...");
    assert_cut(&rt, 96, 100, "yyy...");
    assert_cut(&rt, 300, 100, "yyy...");
}

/// What is wrong with contents: in each line the number of a tag, a content in hexadecimal, and the
/// fault (of characters the type), or `-`. The faults are those of X.690, and of Python's
/// `datetime` and codecs.
const FAULTS: &str = "\
    1 00 -\n\
    1 ff -\n\
    1 01 TrueIsFf\n\
    1 fe TrueIsFf\n\
    1  BooleanLength\n\
    1 0000 BooleanLength\n\
    2  EmptyInteger\n\
    2 00 -\n\
    2 0080 -\n\
    2 ff7f -\n\
    2 ff -\n\
    10  EmptyInteger\n\
    10 00 -\n\
    10 0080 -\n\
    10 ff7f -\n\
    10 ff -\n\
    3  EmptyBitString\n\
    3 00 -\n\
    3 01 UnusedInEmpty\n\
    3 07 UnusedInEmpty\n\
    3 08 UnusedAboveSeven\n\
    3 0800 UnusedAboveSeven\n\
    3 0780 -\n\
    3 07c0 UnusedNotZero\n\
    3 010102 -\n\
    3 010201 UnusedNotZero\n\
    3 00ff -\n\
    3 041f UnusedNotZero\n\
    5  -\n\
    5 00 NullContent\n\
    6  NoIdentifier\n\
    6 8001 NoIdentifier\n\
    6 550403 -\n\
    6 5584 NoIdentifier\n\
    6 558003 NoIdentifier\n\
    23 3236303130323033303430355a -\n\
    23 323630313032303330345a UtcTime\n\
    23 3236303232393033303430355a UtcTime\n\
    23 3234303232393033303430355a -\n\
    23 3236303130323234303430355a UtcTime\n\
    23 3236303130323033363030355a UtcTime\n\
    23 3236303130323033303436305a UtcTime\n\
    23 3236313330323033303430355a UtcTime\n\
    23 3236303130303033303430355a UtcTime\n\
    23 3236303130323033303430352b30303030 UtcTime\n\
    23 3236303130323033303430357a UtcTime\n\
    24 32303236303130323033303430355a -\n\
    24 32303236303130323033303430352e355a -\n\
    24 32303236303130323033303430352e35305a GeneralizedTime\n\
    24 32303236303130323033303430352e5a GeneralizedTime\n\
    24 3230323630313032303330343035 GeneralizedTime\n\
    24 3230323630313032303330345a GeneralizedTime\n\
    24 31393030303232393033303430355a GeneralizedTime\n\
    24 32303030303232393033303430355a -\n\
    24 32303236303130323033303430352c355a GeneralizedTime\n\
    12 c3a4e282acf09f9880 -\n\
    12 ff UTF8String\n\
    12 eda080 UTF8String\n\
    18 312032 -\n\
    18 312d32 NumericString\n\
    19 412d62 -\n\
    19 614062 PrintableString\n\
    19 612a PrintableString\n\
    22 614062 -\n\
    22 80 IA5String\n\
    26 207e -\n\
    26 1f VisibleString\n\
    20 00336699ccff -\n\
    21 00336699ccff -\n\
    25 00336699ccff -\n\
    27 00336699ccff -\n\
    30 00e4d83dde00 -\n\
    30 61 BMPString\n\
    30 d800 BMPString\n\
    30 dc000041 BMPString\n\
    30 d800d800 BMPString\n\
    0 ff00 -\n\
    4 ff00 -\n\
    7 ff00 -\n\
    8 ff00 -\n\
    9 ff00 -\n\
    11 ff00 -\n\
    13 ff00 -\n\
    14 ff00 -\n\
    15 ff00 -\n\
    29 ff00 -\n\
    31 ff00 -\n\
    99 ff00 -\n\
    ";

/// Returns the type of X.680 with this number, of characters.
fn characters_of(number: u32) -> &'static str {
    match number {
        12 => "UTF8String",
        18 => "NumericString",
        19 => "PrintableString",
        22 => "IA5String",
        26 => "VisibleString",
        30 => "BMPString",
        _ => "of no characters",
    }
}

/// Returns the name of a mark, or `-`.
fn word_of(mark: Option<Mark>) -> &'static str {
    match mark {
        None => "-",
        Some(Mark::Fault(fault)) => word_of_fault(fault),
        Some(Mark::Characters(number)) => characters_of(number),
        Some(mark) => mark.kind(),
    }
}

/// Returns the name of a fault.
fn word_of_fault(fault: Fault) -> &'static str {
    match fault {
        Fault::LowTag => "LowTag",
        Fault::PaddedTag => "PaddedTag",
        Fault::Length => "Length",
        Fault::Indefinite => "Indefinite",
        Fault::ConstructedString => "ConstructedString",
        Fault::TrueIsFf => "TrueIsFf",
        Fault::BooleanLength => "BooleanLength",
        Fault::EmptyInteger => "EmptyInteger",
        Fault::NullContent => "NullContent",
        Fault::NoIdentifier => "NoIdentifier",
        Fault::EmptyBitString => "EmptyBitString",
        Fault::UnusedAboveSeven => "UnusedAboveSeven",
        Fault::UnusedInEmpty => "UnusedInEmpty",
        Fault::UnusedNotZero => "UnusedNotZero",
        Fault::UtcTime => "UtcTime",
        Fault::GeneralizedTime => "GeneralizedTime",
    }
}

/// Returns the first mark below a primitive element of X.680 whose content is shown.
fn mark_of(number: u32, content: &[u8]) -> Option<Mark> {
    let header = Header {
        tag: Tag {
            class: Class::Universal,
            constructed: false,
            number,
        },
        tag_len: 1,
        len: 2,
        content_len: Some(content.len()),
    };
    let element = Element {
        header,
        head: &[],
        component: (0, Presence::Many, Content::Free, Name::Nothing),
        expected: &[],
        follows: true,
        len: content.len(),
        shown: content,
        content: &[],
        opened: false,
    };
    let place = Place {
        offset: 0,
        depth: 0,
        end: content.len(),
        is_public: false,
    };
    let row = RowFacts::of_element(plan_of(content), false, place, &element);
    for mark in row.marks {
        if mark.is_some() {
            return mark;
        }
    }
    None
}

#[test]
fn finds_faults_of_contents(rt: HostRuntime) -> Result<(), Fail> {
    let mut count = 0u32;
    for row in FAULTS.lines() {
        let (number, rest) = row.split_once(' ').ok_or("number")?;
        let (content, expected) = rest.split_once(' ').ok_or("content")?;
        let content = hex::decode(rt.alloc(), content)?;
        let mark = mark_of(number.parse::<u32>()?, &content);
        assert_equal_for(&rt, &row, &word_of(mark), &expected);
        count = count.saturating_add(1);
    }
    assert_equal(&rt, &count, &88);
    Ok(())
}
