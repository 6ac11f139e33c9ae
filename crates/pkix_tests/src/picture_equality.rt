//! What `==`, `!=` and `clone` say of the values of `der_view`, as a caller meets them.
ghost use Rattle.std.specs.Prelude.{◌≡◌, ◌≢◌, ◌↔◌, IsTrue, IsOkAnd};

use crate::equality::Cloned;
use der_view::{
    Advice, Arcs, Armour, Block, Characters, Class, Content, Element, ElementFault, Encoding,
    Family, Fault, Flaw, Found, Header, Kind, Mark, Name, Options, PictureLine, Place, Plan, Point,
    Presence, Reading, RowFacts, Secrecy, Sentence, Shown, Source, Structure, Tag, Way,
};

/// The clone of characters is the same, and never fails.
pub fn cloned_characters<'a>(value: &Characters<'a>) -> Cloned<Characters<'a>>
    ensures { IsOkAnd result (λ cloned. cloned ≡ value.now) }
{
    value.clone()
}

/// The clone of a kind of row is the same, and never fails.
pub fn cloned_kind(value: &Kind) -> Cloned<Kind>
    ensures { IsOkAnd result (λ cloned. cloned ≡ value.now) }
{
    value.clone()
}

/// The clone of a form of a point is the same, and never fails.
pub fn cloned_point(value: &Point) -> Cloned<Point>
    ensures { IsOkAnd result (λ cloned. cloned ≡ value.now) }
{
    value.clone()
}

/// The clone of what is shown of a content is the same, and never fails.
pub fn cloned_shown(value: &Shown) -> Cloned<Shown>
    ensures { IsOkAnd result (λ cloned. cloned ≡ value.now) }
{
    value.clone()
}

/// The clone of what is printed of a row is the same, and never fails.
pub fn cloned_row<'a>(value: &RowFacts<'a>) -> Cloned<RowFacts<'a>>
    ensures { IsOkAnd result (λ cloned. cloned ≡ value.now) }
{
    value.clone()
}

/// The clone of what a line is of is the same, and never fails.
pub fn cloned_line(value: &PictureLine) -> Cloned<PictureLine>
    ensures { IsOkAnd result (λ cloned. cloned ≡ value.now) }
{
    value.clone()
}

/// The clone of a presence is the same, and never fails.
pub fn cloned_presence(value: &Presence) -> Cloned<Presence>
    ensures { IsOkAnd result (λ cloned. cloned ≡ value.now) }
{
    value.clone()
}

/// The clone of what is shown of a component is the same, and never fails.
pub fn cloned_content(value: &Content) -> Cloned<Content>
    ensures { IsOkAnd result (λ cloned. cloned ≡ value.now) }
{
    value.clone()
}

/// The clone of a family of identifiers is the same, and never fails.
pub fn cloned_family(value: &Family) -> Cloned<Family>
    ensures { IsOkAnd result (λ cloned. cloned ≡ value.now) }
{
    value.clone()
}

/// The clone of a structure is the same, and never fails.
pub fn cloned_structure(value: &Structure) -> Cloned<Structure>
    ensures { IsOkAnd result (λ cloned. cloned ≡ value.now) }
{
    value.clone()
}

/// The clone of a secrecy is the same, and never fails.
pub fn cloned_secrecy(value: &Secrecy) -> Cloned<Secrecy>
    ensures { IsOkAnd result (λ cloned. cloned ≡ value.now) }
{
    value.clone()
}

/// The clone of a name is the same, and never fails.
pub fn cloned_name(value: &Name) -> Cloned<Name>
    ensures { IsOkAnd result (λ cloned. cloned ≡ value.now) }
{
    value.clone()
}

/// The clone of a fault of a header is the same, and never fails.
pub fn cloned_element_fault(value: &ElementFault) -> Cloned<ElementFault>
    ensures { IsOkAnd result (λ cloned. cloned ≡ value.now) }
{
    value.clone()
}

/// The clone of a class is the same, and never fails.
pub fn cloned_class(value: &Class) -> Cloned<Class>
    ensures { IsOkAnd result (λ cloned. cloned ≡ value.now) }
{
    value.clone()
}

/// The clone of a tag is the same, and never fails.
pub fn cloned_tag(value: &Tag) -> Cloned<Tag>
    ensures { IsOkAnd result (λ cloned. cloned ≡ value.now) }
{
    value.clone()
}

/// The clone of a header is the same, and never fails.
pub fn cloned_header(value: &Header) -> Cloned<Header>
    ensures { IsOkAnd result (λ cloned. cloned ≡ value.now) }
{
    value.clone()
}

/// The clone of a rule that isn't kept is the same, and never fails.
pub fn cloned_rule(value: &Fault) -> Cloned<Fault>
    ensures { IsOkAnd result (λ cloned. cloned ≡ value.now) }
{
    value.clone()
}

/// The clone of a mark is the same, and never fails.
pub fn cloned_mark(value: &Mark) -> Cloned<Mark>
    ensures { IsOkAnd result (λ cloned. cloned ≡ value.now) }
{
    value.clone()
}

/// The clone of a plan is the same, and never fails.
pub fn cloned_plan(value: &Plan) -> Cloned<Plan>
    ensures { IsOkAnd result (λ cloned. cloned ≡ value.now) }
{
    value.clone()
}

/// Two ways to draw are equal exactly where they are the same.
pub fn same_way(a: &Way, b: &Way) -> bool
    ensures { IsTrue result ↔ (a.now ≡ b.now) }
{
    a == b
}

/// Two ways to draw are unequal exactly where they differ.
pub fn other_way(a: &Way, b: &Way) -> bool
    ensures { IsTrue result ↔ (a.now ≢ b.now) }
{
    a != b
}

/// The clone of a way to draw is the same, and never fails.
pub fn cloned_way(value: &Way) -> Cloned<Way>
    ensures { IsOkAnd result (λ cloned. cloned ≡ value.now) }
{
    value.clone()
}

/// The clone of a place is the same, and never fails.
pub fn cloned_place(value: &Place) -> Cloned<Place>
    ensures { IsOkAnd result (λ cloned. cloned ≡ value.now) }
{
    value.clone()
}

/// The clone of an element is the same, and never fails.
pub fn cloned_element<'a>(value: &Element<'a>) -> Cloned<Element<'a>>
    ensures { IsOkAnd result (λ cloned. cloned ≡ value.now) }
{
    value.clone()
}

/// The clone of a reading is the same, and never fails.
pub fn cloned_reading(value: &Reading) -> Cloned<Reading>
    ensures { IsOkAnd result (λ cloned. cloned ≡ value.now) }
{
    value.clone()
}

/// The clone of a sentence is the same, and never fails.
pub fn cloned_sentence(value: &Sentence) -> Cloned<Sentence>
    ensures { IsOkAnd result (λ cloned. cloned ≡ value.now) }
{
    value.clone()
}

/// The clone of an advice is the same, and never fails.
pub fn cloned_advice(value: &Advice) -> Cloned<Advice>
    ensures { IsOkAnd result (λ cloned. cloned ≡ value.now) }
{
    value.clone()
}

/// The clone of options is the same, and never fails.
pub fn cloned_options<'a>(value: &Options<'a>) -> Cloned<Options<'a>>
    ensures { IsOkAnd result (λ cloned. cloned ≡ value.now) }
{
    value.clone()
}

/// The clone of an encoding is the same, and never fails.
pub fn cloned_encoding(value: &Encoding) -> Cloned<Encoding>
    ensures { IsOkAnd result (λ cloned. cloned ≡ value.now) }
{
    value.clone()
}

/// The clone of a flaw of a text is the same, and never fails.
pub fn cloned_flaw(value: &Flaw) -> Cloned<Flaw>
    ensures { IsOkAnd result (λ cloned. cloned ≡ value.now) }
{
    value.clone()
}

/// The clone of an armour is the same, and never fails.
pub fn cloned_armour<'a>(value: &Armour<'a>) -> Cloned<Armour<'a>>
    ensures { IsOkAnd result (λ cloned. cloned ≡ value.now) }
{
    value.clone()
}

/// The clone of a block of PEM is the same, and never fails.
pub fn cloned_block<'a>(value: &Block<'a>) -> Cloned<Block<'a>>
    ensures { IsOkAnd result (λ cloned. cloned ≡ value.now) }
{
    value.clone()
}

/// The clone of a source is the same, and never fails.
pub fn cloned_source<'a>(value: &Source<'a>) -> Cloned<Source<'a>>
    ensures { IsOkAnd result (λ cloned. cloned ≡ value.now) }
{
    value.clone()
}

/// The clone of what is found in a source is the same, and never fails.
pub fn cloned_found(value: &Found) -> Cloned<Found>
    ensures { IsOkAnd result (λ cloned. cloned ≡ value.now) }
{
    value.clone()
}

/// The clone of arcs is the same, and never fails.
pub fn cloned_arcs<'a>(value: &Arcs<'a>) -> Cloned<Arcs<'a>>
    ensures { IsOkAnd result (λ cloned. cloned ≡ value.now) }
{
    value.clone()
}
