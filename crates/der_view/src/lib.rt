//! What is seen of bytes that may hold a private key: a row for each element that follows one
//! table of structures, with no byte of a hidden content; where the bytes leave the table, the
//! number of those that aren't drawn.
#![tactic(auto)]

mod characters;
mod content;
mod drawing;
mod facts;
pub mod faults;
mod form;
mod grammar;
mod header;
mod identifier;
mod json;
mod known;
pub mod laws;
mod line;
mod marks;
mod names;
mod output;
mod part;
mod plan;
mod printer;
mod root;
mod row_line;
mod said;
mod sentences;
mod showing;
mod step;
mod text;
mod universal;
mod values;
mod walk;
mod words;

pub use characters::Characters;
pub use drawing::is_key;
pub use facts::{Kind, Point, RowFacts, Shown};
pub use form::draw_rows;
pub use grammar::{Component, Content, Family, Form, Name, Presence, Secrecy, Structure};
pub use header::{Class, ElementFault, Header, Tag};
pub use line::Line;
pub use marks::{Fault, Mark};
pub use names::name_of;
pub use output::{COMMAND, CONTENT, HEADING, MARK, Output, PictureLine, ROW, WORDS};
pub use plan::{Plan, Way, plan_of};
pub use printer::{Options, lines_are_short, write_line, write_rows};
pub use sentences::{Advice, Reading, Sentence};
pub use showing::{draw, show};
pub use text::{
    Armour, Block, Encoding, Flaw, Found, Source, Sources, armour_of, room_len, text_len,
};
pub use values::{Arcs, ShortText, Value, value_of};
pub use walk::{Element, Place, Rows};
