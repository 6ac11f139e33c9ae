//! Laws of the contents, and of the kinds by which they are refused, for callers to cite. Each law
//! is the contract of a function, which does nothing else.
ghost use Rattle.std.specs.Prelude.{◌≡◌, ◌⊎◌, ◌<◌, ◌≤◌, ℕ, Bool, true, List, [], ℤ};
ghost use Rattle.std.specs.Int.Digits.{AllBelowBase};
ghost use Rattle.std.specs.Str.{is_utf8};
ghost use Rattle.sec1_der.specs.Identifiers.{arcs_of};
ghost use Rattle.sec1_der.specs.Identifiers.{content_of};
ghost use Rattle.sec1_der.specs.Elements.{number_of};
ghost use Rattle.sec1_der.specs.Faults.{Fault, SaysKinds};
ghost use Rattle.der_types.specs.AnyElements.{any_element_fault};
ghost use Rattle.der_types.specs.Choices.{choice_fault, optional_part_fault};
ghost use Rattle.der_types.specs.Contents.{boolean_content, is_boolean};
ghost use Rattle.der_types.specs.Defaults.{other_fault};
ghost use Rattle.der_types.specs.Integers.{is_integer, is_unsigned, signed_content, signed_number};
ghost use Rattle.der_types.specs.Integers.{unsigned_content};
ghost use Rattle.der_types.specs.ObjectIdentifiers.{AreArcsOfAnySize, is_object_identifier};
ghost use Rattle.der_types.specs.Sequences.{sequence_fault, set_fault};
ghost use Rattle.der_types.specs.Strings.{is_ia5, is_numeric_string, is_printable, is_visible};
ghost use Rattle.der_types.specs.Times.{fraction_of, generalized_content, generalized_date_time};
ghost use Rattle.der_types.specs.Times.{is_date_time, is_fraction, is_generalized_time};
ghost use Rattle.der_types.specs.Times.{is_utc_time, utc_content, utc_date_time};
ghost use Rattle.der_types.specs.declared.time.DateTime.{DateTime};

/// A number that isn't negative has one content, and the bytes that pass the test are the contents
/// (X.690 section 8.3).
#[tactic(auto, using(crate::proofs::IntegerLaws::unsigned_laws))]
pub fn unsigned_integers()
    ensures passes { (n : ℕ) → is_unsigned (unsigned_content n) ≡ true }
    ensures number { (n : ℕ) → number_of (unsigned_content n) ≡ n }
    ensures content { (bytes : List ℕ) → AllBelowBase 256 bytes → is_unsigned bytes ≡ true
        → unsigned_content (number_of bytes) ≡ bytes }
    ensures one_number { (m n : ℕ) → unsigned_content m ≡ unsigned_content n → m ≡ n }
{}

/// A number has one content, and the bytes that pass the test are the contents (X.690 section 8.3).
#[tactic(auto, using(crate::proofs::IntegerLaws::signed_laws))]
pub fn signed_integers()
    ensures passes { (z : ℤ) → is_integer (signed_content z) ≡ true }
    ensures number { (z : ℤ) → signed_number (signed_content z) ≡ z }
    ensures content { (bytes : List ℕ) → AllBelowBase 256 bytes → is_integer bytes ≡ true
        → signed_content (signed_number bytes) ≡ bytes }
    ensures one_content { (xs ys : List ℕ) → AllBelowBase 256 xs → AllBelowBase 256 ys
        → is_integer xs ≡ true → is_integer ys ≡ true
        → signed_number xs ≡ signed_number ys → xs ≡ ys }
{}

/// FALSE and TRUE have one content each, and the bytes that pass the test are these two (X.690
/// section 11.1).
#[tactic(auto, using(crate::proofs::BooleanLaws::boolean_laws))]
pub fn booleans()
    ensures passes { (value : Bool) → is_boolean (boolean_content value) ≡ true }
    ensures content { (bytes : List ℕ) → is_boolean bytes ≡ true
        → (value : Bool) × (boolean_content value ≡ bytes) }
    ensures one_value { (x y : Bool) → boolean_content x ≡ boolean_content y → x ≡ y }
{}

/// An identifier has one content, and the bytes that pass the test are the contents (X.690
/// section 8.19).
#[tactic(auto, using(crate::proofs::ObjectIdentifierLaws::identifier_laws))]
pub fn object_identifiers()
    ensures passes { (arcs : List ℕ) → AreArcsOfAnySize arcs
        → (is_object_identifier (content_of arcs) ≡ true) × (arcs_of (content_of arcs) ≡ arcs) }
    ensures content { (bytes : List ℕ) → AllBelowBase 256 bytes → is_object_identifier bytes ≡ true
        → AreArcsOfAnySize (arcs_of bytes) × (content_of (arcs_of bytes) ≡ bytes) }
{}

/// A content of a NumericString is one of a PrintableString too, and so on to VisibleString,
/// IA5String and UTF8String (X.680 section 41).
#[tactic(auto, using(crate::proofs::StringLaws::string_laws))]
pub fn strings()
    ensures printable { (bytes : List ℕ) → is_numeric_string bytes ≡ true
        → is_printable bytes ≡ true }
    ensures visible { (bytes : List ℕ) → is_printable bytes ≡ true → is_visible bytes ≡ true }
    ensures ia5 { (bytes : List ℕ) → is_visible bytes ≡ true → is_ia5 bytes ≡ true }
    ensures utf8 { (bytes : List ℕ) → is_ia5 bytes ≡ true → is_utf8 bytes ≡ true }
{}

/// A time of the years 1950 to 2049 has one content, and the bytes that pass the test are the
/// contents (X.690 section 11.8).
#[tactic(auto, using(crate::proofs::TimeLaws::utc_laws))]
pub fn utc_times()
    ensures passes { (time : DateTime) → is_date_time time ≡ true → 1950 ≤ time.year
        → time.year < 2050
        → is_utc_time (utc_content time) ≡ true }
    ensures time { (time : DateTime) → 1950 ≤ time.year → time.year < 2050
        → utc_date_time (utc_content time) ≡ time }
    ensures content { (bytes : List ℕ) → is_utc_time bytes ≡ true
        → utc_content (utc_date_time bytes) ≡ bytes }
    ensures valid { (bytes : List ℕ) → is_utc_time bytes ≡ true
        → (is_date_time (utc_date_time bytes) ≡ true)
        × (1950 ≤ (utc_date_time bytes).year) × ((utc_date_time bytes).year < 2050) }
{}

/// A time of the years 0 to 9999 and the digits of a fraction have one content, and the bytes that
/// pass the test are the contents (X.690 section 11.7).
#[tactic(auto, using(crate::proofs::TimeLaws::generalized_laws))]
pub fn generalized_times()
    ensures passes { (time : DateTime) (fraction : List ℕ) → is_date_time time ≡ true
        → time.year < 10000
        → (fraction ≡ []) ⊎ (is_fraction fraction ≡ true)
        → is_generalized_time (generalized_content time fraction) ≡ true }
    ensures time { (time : DateTime) (fraction : List ℕ)
        → generalized_date_time (generalized_content time fraction) ≡ time }
    ensures fraction { (time : DateTime) (fraction : List ℕ)
        → fraction_of (generalized_content time fraction) ≡ fraction }
    ensures content { (bytes : List ℕ) → is_generalized_time bytes ≡ true
        → generalized_content (generalized_date_time bytes) (fraction_of bytes) ≡ bytes }
    ensures valid { (bytes : List ℕ) → is_generalized_time bytes ≡ true
        → (is_date_time (generalized_date_time bytes) ≡ true)
        × ((generalized_date_time bytes).year < 10000) }
{}

/// The rules of the types and parts of this crate leave no kind open, if those inside leave none.
/// Other contents are those that pass a test, of which the law of `sec1_der` speaks.
#[tactic(auto, using(crate::proofs::KindLaws::kinds_said))]
pub fn said_kinds()
    ensures any { (rest : Fault) → SaysKinds rest → SaysKinds (any_element_fault rest) }
    ensures sequence { (tag : ℕ) (content : Fault) → SaysKinds content
        → SaysKinds (sequence_fault tag content) }
    ensures set { (tag : ℕ) (content : Fault) → SaysKinds content
        → SaysKinds (set_fault tag content) }
    ensures default { (default : List ℕ) (content : Fault) → SaysKinds content
        → SaysKinds (other_fault default content) }
    ensures choice { (tags : List ℕ) (first second : Fault → Fault) (rest : Fault)
        → SaysKinds (first rest) → SaysKinds (second rest)
        → SaysKinds (choice_fault tags first second rest) }
    ensures optional { (tags : List ℕ) (part : Fault → Fault) (rest : Fault)
        → SaysKinds (part rest) → SaysKinds rest
        → SaysKinds (optional_part_fault tags part rest) }
{}
