//! Texts: a shared text that contracts see as its characters, lists that they see as their items, items by name, the
//! operators on texts, what a word, a reserved word and a name are, and whether texts are distinct.
//!
//! Everything that has a name holds a `Txt`, and everything that has parts a `List`, so contracts speak of
//! characters and items and not of memory. Searches go by bytes, and are proved to find characters.
//! It knows no values and no syntax; the reserved words stand here, since structures files must keep to them too.
//! Begin with specs/Texts.antt and specs/Words.antt.
#![tactic(auto)]

mod by_name;
mod distinct;
mod item_list;
mod operators;
mod searches;
mod shared_items;
mod shared_text;
mod words;

pub use by_name::ByName;
pub use distinct::are_distinct;
pub use item_list::List;
pub use operators::{concat, length, ltrim, rtrim, substr, trim};
pub use searches::{instr, replace};
pub use shared_items::Shared;
pub use shared_text::{Txt, order_is_of_bytes};
pub use words::{is_component_name, is_name, is_reserved, is_word, reserved_place};
