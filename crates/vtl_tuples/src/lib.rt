//! Facts on tuples that take one item of each of several lists: all lists at once, one list after the other, from the
//! items of one list, and from keys.
//!
//! A join is defined over all its operands at once and made one operand after the other, and a full join, a union and
//! `pivot` go by keys that come once. That these are the same is list calculus, so it is proved here for items of any
//! type, and what an item or a key is comes in only above.
//! It knows no cell, no point, no structure and no join, and runs nothing.
//! Begin with specs/Tuples.antt, Keys.antt and src/laws.rt.
#![tactic(auto)]

mod laws;

pub use laws::{keys_come_once, lead_stands_anywhere, tuples_grow};
