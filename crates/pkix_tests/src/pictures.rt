//! Pictures of keys and other bytes, counted.

use der_view::{Component, Element, Form, Name, Place, Plan, Rows, Way, draw_rows, plan_of};

/// What was told of a picture.
#[derive(Drop)]
struct Tally {
    /// The number of elements.
    elements: usize,
    /// The number of elements that don't follow.
    misfits: usize,
    /// The number of bytes of contents that are shown.
    shown: usize,
    /// The number of bytes of contents that are given.
    given: usize,
    /// The number of ends of contents.
    ends: usize,
    /// The greatest depth of an element.
    depth: usize,
    /// The number of bytes that aren't drawn.
    left: usize,
}

impl Rows for Tally {
    ghost tells = { λ _ _ _. Unit {0} };

    fn element(&mut self, place: Place, element: &Element) {
        self.elements = self.elements.saturating_add(1);
        if !element.follows {
            self.misfits = self.misfits.saturating_add(1);
        }
        self.shown = self.shown.saturating_add(element.shown.len());
        self.given = self.given.saturating_add(element.content.len());
        self.depth = self.depth.max(place.depth);
    }

    fn end_of_contents(&mut self, _place: Place) {
        self.ends = self.ends.saturating_add(1);
    }

    fn not_drawn(&mut self, _place: Place, _expected: &[Component], len: usize, _content: &[u8]) {
        self.left = self.left.saturating_add(len);
    }

    ghost nothing = { λ _. tt };

    ghost joined = { λ _ _ _ _ _ _ _. tt };
}

/// Returns what is told of bytes, and their plan.
fn told(bytes: &[u8], all: bool) -> (Tally, Plan) {
    let mut told = nothing();
    let plan = plan_of(bytes);
    draw_rows(&mut told, plan, bytes, all);
    (told, plan)
}

/// Returns a tally of nothing.
fn nothing() -> Tally {
    Tally {
        elements: 0,
        misfits: 0,
        shown: 0,
        given: 0,
        ends: 0,
        depth: 0,
        left: 0,
    }
}

/// Returns `true` if bytes are of a form with this name.
fn is_form(form: Option<Form>, name: Name) -> bool {
    match form {
        Some(form) => form.0.3.text() == name.text(),
        None => false,
    }
}

/// The header of an ECPrivateKey on P-256, its version, and the header of its private key.
const FRONT: [u8; 7] = [0x30, 0x77, 0x02, 0x01, 0x01, 0x04, 0x20];

/// Its parameters, and the headers of its public key.
const BACK: [u8; 18] = [
    0xA0, 0x0A, 0x06, 0x08, 0x2A, 0x86, 0x48, 0xCE, 0x3D, 0x03, 0x01, 0x07, 0xA1, 0x44, 0x03, 0x42,
    0x00, 0x04,
];

/// Returns a key, with 11 for each private byte and 22 for each byte of its point.
fn key() -> [u8; 121] {
    let mut key = [0x22u8; 121];
    for (at, byte) in FRONT.iter().enumerate() {
        key[at] = *byte;
    }
    for at in 7..39 {
        key[at] = 0x11;
    }
    for (at, byte) in BACK.iter().enumerate() {
        key[39 + at] = *byte;
    }
    key
}

#[test]
fn draws_a_key(rt: HostRuntime) {
    let (told, plan) = told(&key(), false);
    assert!(&rt; plan.is_whole && plan.is_tree && !plan.is_cut && plan.len == 121);
    assert!(&rt; plan.way == Way::Strict && is_form(plan.form, Name::EcPrivateKey));
    // the root, the version, the private key, and two fields with an element each
    assert!(&rt; told.elements == 7 && told.misfits == 0 && told.depth == 2);
    // the version, the identifier, and the first bytes of the point
    assert!(&rt; told.shown == 1 + 8 + 2);
    assert!(&rt; told.left == 0 && told.given == 0 && told.ends == 0);
    let (told, _) = self::told(&key(), true);
    // and with them the private key and the point
    assert!(&rt; told.elements == 7 && told.given == 1 + 32 + 8 + 66);
}

#[test]
fn draws_a_damaged_key_that_is_a_tree_loosely(rt: HostRuntime) {
    let mut bytes = key();
    bytes[5] = 0x06;
    let (told, plan) = told(&bytes, false);
    assert!(&rt; plan.is_tree && !plan.is_whole && is_form(plan.form, Name::EcPrivateKey));
    assert!(&rt; plan.way == Way::Loose);
    // 32 bytes of an identifier aren't shown; a version of one byte is, as is one of 8 bytes
    assert!(&rt; told.elements == 7 && told.misfits == 1 && told.shown == 1 + 8);
    bytes[39] = 0xA2;
    let (told, plan) = self::told(&bytes, false);
    assert!(&rt; plan.is_tree && plan.form.is_none() && plan.way == Way::Loose);
    assert!(&rt; told.elements == 7 && told.misfits == 0 && told.shown == 1 + 8);
    bytes[5] = 0x04;
    let (told, plan) = self::told(&bytes, false);
    assert!(&rt; is_form(plan.form, Name::EcPrivateKey) && plan.way == Way::Loose);
    assert!(&rt; told.elements == 7 && told.misfits == 1 && told.shown == 1 + 8);
}

#[test]
fn draws_a_damaged_key_up_to_its_fault(rt: HostRuntime) {
    let mut bytes = key();
    bytes[39] = 0x00;
    let (told, plan) = told(&bytes, false);
    assert!(&rt; is_form(plan.form, Name::EcPrivateKey) && plan.way == Way::Strict);
    assert!(&rt; !plan.is_tree && !plan.is_whole);
    assert!(&rt; told.elements == 3 && told.shown == 1 && told.left == 82);
    let whole = key();
    let mut cut = [0x00u8; 60];
    for at in 0..60 {
        cut[at] = whole[at];
    }
    let (told, plan) = self::told(&cut, false);
    assert!(&rt; plan.is_cut && plan.way == Way::Strict && told.elements == 5 && told.left == 9);
}

#[test]
fn draws_no_bytes_of_a_raw_key(rt: HostRuntime) {
    let (told, plan) = told(&[0x30; 32], false);
    assert!(&rt; plan.way == Way::Nothing && plan.form.is_none());
    assert!(&rt; told.elements == 0 && told.shown == 0 && told.left == 32);
    let (told, plan) = self::told(&[], false);
    assert!(&rt; plan.way == Way::Nothing && told.elements == 0 && told.left == 0);
}

#[test]
fn draws_64_levels(rt: HostRuntime) {
    // SEQUENCEs of an indefinite length, and an end-of-contents for each
    let mut bytes = [0x00u8; 256];
    for at in 0..64 {
        bytes[2 * at] = 0x30;
        bytes[2 * at + 1] = 0x80;
    }
    let (told, plan) = told(&bytes, false);
    assert!(&rt; plan.is_tree && plan.way == Way::Loose);
    assert!(&rt; told.elements == 64 && told.ends == 64 && told.depth == 63 && told.left == 0);
    // one more
    let mut deeper = [0x00u8; 260];
    for at in 0..65 {
        deeper[2 * at] = 0x30;
        deeper[2 * at + 1] = 0x80;
    }
    let (told, plan) = self::told(&deeper, false);
    assert!(&rt; !plan.is_tree && plan.way == Way::Nothing && told.left == 260);
    // without its last end-of-contents it is no tree
    let mut cut = [0x00u8; 254];
    for at in 0..254 {
        cut[at] = bytes[at];
    }
    let (_, plan) = self::told(&cut, false);
    assert!(&rt; !plan.is_tree && plan.way == Way::Nothing);
}

#[test]
fn draws_many_elements_without_more_stack(rt: HostRuntime) {
    // a SEQUENCE of 32,766 NULLs
    let mut bytes = [0x00u8; 65536];
    bytes[0] = 0x30;
    bytes[1] = 0x82;
    bytes[2] = 0xFF;
    bytes[3] = 0xFC;
    for at in 2..32768 {
        bytes[2 * at] = 0x05;
    }
    let (told, plan) = told(&bytes, false);
    assert!(&rt; plan.is_tree && plan.way == Way::Loose);
    assert!(&rt; told.elements == 32767 && told.left == 0);
}

#[test]
fn draws_two_keys_alike(rt: HostRuntime) {
    let mut other = key();
    other[20] = 0x99;
    let (told, plan) = told(&other, false);
    assert!(&rt; told.elements == 7 && told.shown == 11 && plan.way == Way::Strict);
    assert!(&rt; plan.is_whole && is_form(plan.form, Name::EcPrivateKey));
}

/// A certificate of an RSA key, with four extensions: a subjectKeyIdentifier, an
/// authorityKeyIdentifier, a subjectKeyIdentifier that is an INTEGER, and basicConstraints with an
/// OCTET STRING.
const CERTIFICATE: [u8; 169] = [
    0x30, 0x81, 0xA6, 0x30, 0x81, 0x99, 0x02, 0x01, 0x05, 0x30, 0x05, 0x06, 0x03, 0x2B, 0x65, 0x70,
    0x30, 0x00, 0x30, 0x1E, 0x17, 0x0D, 0x32, 0x36, 0x30, 0x31, 0x30, 0x32, 0x30, 0x33, 0x30, 0x34,
    0x30, 0x35, 0x5A, 0x17, 0x0D, 0x32, 0x36, 0x30, 0x31, 0x30, 0x32, 0x30, 0x33, 0x30, 0x34, 0x30,
    0x35, 0x5A, 0x30, 0x00, 0x30, 0x24, 0x30, 0x0D, 0x06, 0x09, 0x2A, 0x86, 0x48, 0x86, 0xF7, 0x0D,
    0x01, 0x01, 0x01, 0x05, 0x00, 0x03, 0x13, 0x00, 0x30, 0x10, 0x02, 0x09, 0x00, 0xC3, 0x01, 0x02,
    0x03, 0x04, 0x05, 0x06, 0x07, 0x02, 0x03, 0x01, 0x00, 0x01, 0xA3, 0x43, 0x30, 0x41, 0x30, 0x0D,
    0x06, 0x03, 0x55, 0x1D, 0x0E, 0x04, 0x06, 0x04, 0x04, 0x81, 0x82, 0x83, 0x84, 0x30, 0x12, 0x06,
    0x03, 0x55, 0x1D, 0x23, 0x04, 0x0B, 0x30, 0x09, 0x80, 0x04, 0x81, 0x82, 0x83, 0x84, 0x82, 0x01,
    0x05, 0x30, 0x0D, 0x06, 0x03, 0x55, 0x1D, 0x0E, 0x01, 0x01, 0xFF, 0x04, 0x03, 0x02, 0x01, 0x05,
    0x30, 0x0D, 0x06, 0x03, 0x55, 0x1D, 0x13, 0x04, 0x06, 0x04, 0x04, 0x81, 0x82, 0x83, 0x84, 0x30,
    0x05, 0x06, 0x03, 0x2B, 0x65, 0x70, 0x03, 0x01, 0x00,
];

#[test]
fn draws_what_an_identifier_says(rt: HostRuntime) {
    let (told, plan) = told(&CERTIFICATE, false);
    assert!(&rt; plan.is_whole && is_form(plan.form, Name::Certificate));
    // the RSA key has three elements in its BIT STRING, the identifiers of keys one and three
    assert!(&rt; told.elements == 33 + 3 + 1 + 3 && told.misfits == 0 && told.depth == 7);
    // numbers, identifiers, times, the exponent, what is critical, and identifiers of keys
    assert!(&rt; told.shown == 1 + 3 + 26 + 9 + 3 + 12 + 1 + (4 + 4 + 1) + 3);
    let mut other = CERTIFICATE;
    other[100] = 0x23;
    let (told, plan) = self::told(&other, false);
    assert!(&rt; plan.is_whole && is_form(plan.form, Name::Certificate));
    assert!(&rt; told.elements == 33 + 3 + 3 && told.shown == 67 - 4);
}
