//! Rows counted by hand in bytes that OpenSSL 3.0.19 made, and in short ones.

use super::{assert_equal, assert_equal_for};
use der_view::{Component, Element, Place, Rows, draw_rows, plan_of};

/// A key on P-256 of 32 bytes, with its curve and no public key.
static KEY: [u8; 51] = [
    0x30, 0x31, 0x02, 0x01, 0x01, 0x04, 0x20, 0x53, 0xA2, 0x93, 0xA2, 0x75, 0x42, 0x3E, 0xA1, 0x4B,
    0xE8, 0xC5, 0x17, 0x6B, 0x92, 0x1E, 0xC5, 0x7B, 0x15, 0xB7, 0x8F, 0x70, 0xAA, 0x10, 0xAE, 0x43,
    0x0C, 0x9E, 0x98, 0x08, 0x01, 0xB7, 0x66, 0xA0, 0x0A, 0x06, 0x08, 0x2A, 0x86, 0x48, 0xCE, 0x3D,
    0x03, 0x01, 0x07,
];

/// The offset, the depth, the length of the header, that of the content, and whether this is rows,
/// of each row of the key.
static KEY_ROWS: [(usize, usize, usize, usize, bool); 5] = [
    (0, 0, 2, 49, true),
    (2, 1, 2, 1, false),
    (5, 1, 2, 32, false),
    (39, 1, 2, 10, true),
    (41, 2, 2, 8, false),
];

/// The rows that were told of some bytes, of which eight are kept.
#[derive(Drop)]
struct Told<'a> {
    /// The bytes.
    bytes: &'a [u8],
    /// The first rows, as [`KEY_ROWS`] has them.
    rows: [(usize, usize, usize, usize, bool); 8],
    /// The number of rows.
    count: usize,
    /// Whether each header, and each content that isn't drawn by rows of its own, is the bytes at
    /// its offset.
    are_bytes: bool,
}

impl Told<'_> {
    /// Tells one more row.
    fn push(&mut self, row: (usize, usize, usize, usize, bool)) {
        if let Some(place) = self.rows.get_mut(self.count) {
            *place = row;
        }
        self.count = self.count.saturating_add(1);
    }
}

impl Rows for Told<'_> {
    ghost tells = { λ _ _ _. Unit {0} };

    fn element(&mut self, place: Place, element: &Element) {
        let (header_len, len) = (element.header.len, element.len);
        self.push((place.offset, place.depth, header_len, len, element.opened));
        let own_len = if element.opened { 0 } else { len };
        let rest = self.bytes.get(place.offset..).unwrap_or_default();
        let (head, content) = rest.split_at_checked(header_len).unwrap_or_default();
        if element.head != head || content.get(..own_len) != Some(element.content) {
            self.are_bytes = false;
        }
    }

    fn end_of_contents(&mut self, place: Place) {
        self.push((place.offset, place.depth, 2, 0, false));
    }

    fn not_drawn(&mut self, place: Place, _expected: &[Component], len: usize, _content: &[u8]) {
        self.push((place.offset, place.depth, 0, len, false));
    }

    ghost nothing = { λ _. tt };

    ghost joined = { λ _ _ _ _ _ _ _. tt };
}

/// Returns the rows of these bytes; with `all` each element is one.
fn rows_of(bytes: &[u8], all: bool) -> Told<'_> {
    let mut told = Told {
        bytes,
        rows: [(0, 0, 0, 0, false); 8],
        count: 0,
        are_bytes: true,
    };
    draw_rows(&mut told, plan_of(bytes), bytes, all);
    told
}

#[test]
fn draws_a_key(rt: HostRuntime) {
    let told = rows_of(&KEY, true);
    assert_equal(&rt, &told.rows.get(..told.count), &Some(&KEY_ROWS));
    assert_equal(&rt, &told.are_bytes, &true);
}

/// Bytes, and how many rows they have: one for each header of BER and each end of contents of a
/// whole tree, and one for all bytes of what is none.
static COUNTS: [(&[u8], usize); 9] = [
    (&[], 0),
    (&[0x00, 0x00], 1),
    (&[0x30, 0x00], 1),
    (&[0x30, 0x80, 0x00, 0x00], 2),
    (&[0x30, 0x02, 0x05, 0x00], 2),
    (&[0x30, 0x02, 0x05, 0x01, 0x00], 1),
    (&[0x30, 0x03, 0x05, 0x00], 1),
    (&[0x05, 0x00, 0x04, 0x01, 0xFF], 1),
    (&[0x30, 0x04, 0x30, 0x00, 0x1F, 0x01, 0x05, 0x00], 1),
];

#[test]
fn draws_what_is_no_tree(rt: HostRuntime) {
    for &(bytes, count) in COUNTS.iter() {
        assert_equal_for(&rt, &bytes, &rows_of(bytes, true).count, &count);
    }
}

/// A key that ends inside its third element, which is a row with `all` alone, and inside the second
/// one, by which it isn't known.
#[test]
fn draws_a_cut_key(rt: HostRuntime) {
    let told = rows_of(&KEY[..45], false);
    let rows = [
        (0, 0, 2, 43, true),
        (2, 1, 2, 1, false),
        (5, 1, 2, 32, false),
        (39, 1, 0, 6, false),
    ];
    assert_equal(&rt, &told.rows.get(..told.count), &Some(&rows));
    let told = rows_of(&KEY[..45], true);
    let rows = [
        (0, 0, 2, 43, true),
        (2, 1, 2, 1, false),
        (5, 1, 2, 32, false),
        (39, 1, 2, 4, true),
        (41, 2, 2, 2, false),
    ];
    assert_equal(&rt, &told.rows.get(..told.count), &Some(&rows));
    assert_equal(&rt, &told.are_bytes, &true);
    for all in [false, true] {
        let told = rows_of(&KEY[..20], all);
        let rows = [(0, 0, 0, 20, false)];
        assert_equal(&rt, &told.rows.get(..told.count), &Some(&rows));
    }
}
