//! By which kind bytes are refused, exactly, as types and parts of `der_types`: as a SEQUENCE OF, a
//! SET OF and an element of any type, and, in a record of one's own, as an optional part that is a
//! CHOICE.
ghost use Rattle.std.specs.Prelude.{◌≡◌, ◌∷◌, [], MatchResult, None, Some, refl};
ghost use Rattle.der_types.specs.AnyElements.{any_element_fault};
ghost use Rattle.der_types.specs.Choices.{choice_fault, optional_part_fault};
ghost use Rattle.der_types.specs.Contents.{is_boolean};
ghost use Rattle.der_types.specs.Defaults.{other_fault};
ghost use Rattle.der_types.specs.Sequences.{sequence_fault, set_fault};
ghost use Rattle.sec1_der.specs.Contents.{byte_fault, identifier_fault, value_unless};
ghost use Rattle.sec1_der.specs.Faults.{HasFault, SaysKinds, element_fault, end_fault};
ghost use Rattle.std.specs.Str.{is_utf8};

use super::content_info::ContentInfo;
use der_types::{Choice, OptionalPart, SequenceOf, SetOf, Utf8String};
use sec1_der::{Distinct, ObjectIdentifier, Record, Required, Result, VersionOne, from_der};

/// The rule of labels in a row leaves no kind open.
fn row_says()
    ensures { SaysKinds (sequence_fault 0x0C (λ content. value_unless (is_utf8 content))) }
{
    sec1_der::laws::said_kinds();
    der_types::laws::said_kinds();
}

/// The rule of their element leaves no kind open.
#[tactic(auto, using(sec1_der::proofs::KindLaws::kinds_said))]
fn row_element_says()
    ensures { SaysKinds (element_fault 0x30
        (sequence_fault 0x0C (λ content. value_unless (is_utf8 content))) end_fault) }
{
    row_says();
}

/// Reads labels in a row.
pub fn label_row(bytes: &[u8]) -> Result<SequenceOf<'_, Utf8String<'_>>>
    ensures { let fault = element_fault 0x30
        (sequence_fault 0x0C (λ content. value_unless (is_utf8 content))) end_fault bytes.now in
        MatchResult result (λ _. fault ≡ None) (λ e. fault ≡ Some (Some e.kind)) }
{
    sec1_der::laws::said_kinds();
    row_element_says();
    from_der::<SequenceOf<Utf8String>>(bytes)
}

/// The rule of labels in ascending order leaves no kind open.
fn set_says()
    ensures { SaysKinds (set_fault 0x0C (λ content. value_unless (is_utf8 content))) }
{
    sec1_der::laws::said_kinds();
    der_types::laws::said_kinds();
}

/// The rule of their element leaves no kind open.
#[tactic(auto, using(sec1_der::proofs::KindLaws::kinds_said))]
fn set_element_says()
    ensures { SaysKinds (element_fault 0x31
        (set_fault 0x0C (λ content. value_unless (is_utf8 content))) end_fault) }
{
    set_says();
}

/// Reads labels in ascending order.
pub fn label_set(bytes: &[u8]) -> Result<SetOf<'_, Utf8String<'_>>>
    ensures { let fault = element_fault 0x31
        (set_fault 0x0C (λ content. value_unless (is_utf8 content))) end_fault bytes.now in
        MatchResult result (λ _. fault ≡ None) (λ e. fault ≡ Some (Some e.kind)) }
{
    sec1_der::laws::said_kinds();
    set_element_says();
    from_der::<SetOf<Utf8String>>(bytes)
}

/// The rule of an element of any type, and nothing after it, leaves no kind open.
fn any_says()
    ensures { SaysKinds (any_element_fault end_fault) }
{
    sec1_der::laws::said_kinds();
    der_types::laws::said_kinds();
}

/// The rule of a ContentInfo's content leaves no kind open.
#[tactic(auto, using(sec1_der::proofs::KindLaws::kinds_said))]
fn info_says()
    ensures { SaysKinds (element_fault 0x06 identifier_fault
        (element_fault 0xA0 (any_element_fault end_fault) end_fault)) }
{
    any_says();
}

/// The rule of its element leaves no kind open.
#[tactic(auto, using(sec1_der::proofs::KindLaws::kinds_said))]
fn info_element_says()
    ensures { SaysKinds (element_fault 0x30 (element_fault 0x06 identifier_fault
        (element_fault 0xA0 (any_element_fault end_fault) end_fault)) end_fault) }
{
    info_says();
}

/// Reads a ContentInfo.
fn read_info(bytes: &[u8]) -> Result<ContentInfo<'_>>
    ensures { HasFault result (element_fault 0x30 (element_fault 0x06 identifier_fault
        (element_fault 0xA0 (any_element_fault end_fault) end_fault)) end_fault bytes.now) }
{
    from_der(bytes)
}

/// Reads a ContentInfo, whose content isn't examined.
pub fn content_info(bytes: &[u8]) -> Result<ContentInfo<'_>>
    ensures { let fault = element_fault 0x30 (element_fault 0x06 identifier_fault
        (element_fault 0xA0 (any_element_fault end_fault) end_fault)) end_fault bytes.now in
        MatchResult result (λ _. fault ≡ None) (λ e. fault ≡ Some (Some e.kind)) }
{
    sec1_der::laws::said_kinds();
    info_element_says();
    read_info(bytes)
}

/// The rule of a BOOLEAN that isn't TRUE, as `BOOLEAN DEFAULT TRUE` has it, leaves no kind open.
pub fn enabled_says()
    ensures { SaysKinds (other_fault (0xFF ∷ []) (λ content. value_unless (is_boolean content))) }
{
    sec1_der::laws::said_kinds();
    der_types::laws::said_kinds();
}

/// A name, an identifier or the version 1.
pub type Name = Choice<Required<ObjectIdentifier>, Required<VersionOne>>;

/// What may have a name.
#[derive(Drop)]
pub struct Named {
    /// The name, if there is one.
    pub name: Option<Name>,
}

impl Record for Named {
    type Parts = OptionalPart<Name>;

    ghost parts = { λ named. named.name };

    ghost of_parts = { λ name. record { name = name } };

    fn from_parts(name: Self::Parts) -> Self {
        Named { name: name.0 }
    }

    fn to_parts(&self) -> Self::Parts {
        OptionalPart(self.name)
    }

    ghost same = { λ _. refl };
}

impl Distinct for Named {
    ghost distinct = { refl };
}

/// The rule of an identifier, and nothing after it, leaves no kind open.
#[tactic(auto, using(sec1_der::proofs::KindLaws::kinds_said))]
fn identifier_says()
    ensures { SaysKinds (element_fault 0x06 identifier_fault end_fault) }
{}

/// The rule of the version 1, and nothing after it, leaves no kind open.
#[tactic(auto, using(sec1_der::proofs::KindLaws::kinds_said))]
fn version_says()
    ensures { SaysKinds (element_fault 0x02 (byte_fault 1) end_fault) }
{}

/// The rule of a name, and nothing after it, leaves no kind open.
fn name_says()
    ensures { SaysKinds (choice_fault (0x06 ∷ []) (element_fault 0x06 identifier_fault)
        (element_fault 0x02 (byte_fault 1)) end_fault) }
{
    der_types::laws::said_kinds();
    identifier_says();
    version_says();
}

/// The rule of a name that may be absent leaves no kind open.
fn optional_name_says()
    ensures { SaysKinds (optional_part_fault (0x06 ∷ 0x02 ∷ [])
        (choice_fault (0x06 ∷ []) (element_fault 0x06 identifier_fault)
        (element_fault 0x02 (byte_fault 1))) end_fault) }
{
    sec1_der::laws::said_kinds();
    der_types::laws::said_kinds();
    name_says();
}

/// The rule of the element around it leaves no kind open.
#[tactic(auto, using(sec1_der::proofs::KindLaws::kinds_said))]
fn named_says()
    ensures { SaysKinds (element_fault 0x30 (optional_part_fault (0x06 ∷ 0x02 ∷ [])
        (choice_fault (0x06 ∷ []) (element_fault 0x06 identifier_fault)
        (element_fault 0x02 (byte_fault 1))) end_fault) end_fault) }
{
    optional_name_says();
}

/// Reads what may have a name.
fn read_named(bytes: &[u8]) -> Result<Named>
    ensures { HasFault result (element_fault 0x30 (optional_part_fault (0x06 ∷ 0x02 ∷ [])
        (choice_fault (0x06 ∷ []) (element_fault 0x06 identifier_fault)
        (element_fault 0x02 (byte_fault 1))) end_fault) end_fault bytes.now) }
{
    from_der(bytes)
}

/// Reads what may have a name, an optional part that is a CHOICE.
pub fn named_by(bytes: &[u8]) -> Result<Named>
    ensures { let fault = element_fault 0x30 (optional_part_fault (0x06 ∷ 0x02 ∷ [])
        (choice_fault (0x06 ∷ []) (element_fault 0x06 identifier_fault)
        (element_fault 0x02 (byte_fault 1))) end_fault) end_fault bytes.now in
        MatchResult result (λ _. fault ≡ None) (λ e. fault ≡ Some (Some e.kind)) }
{
    sec1_der::laws::said_kinds();
    named_says();
    read_named(bytes)
}
