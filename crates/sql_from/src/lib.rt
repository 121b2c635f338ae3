//! FROM and WHERE of a select of the SQL dialect, on tables that the program holds.
//!
//! `HeldTables` has the tables by name, and the columns of each by name. `FromTables` has those of the sources of a select,
//! and makes the tables of its SERIES, which then are tables like any other; `Given` has the tables that EXISTS asks, and
//! those of its SERIES, which are made once when a query is begun (`given_for`). A row of FROM is kept as a tuple of row
//! numbers, one for each source, and no cell of it is copied: `TupleRow` lends the cells to the evaluator (`sql_eval`),
//! and `Sources` says where those of each column stand, worked out once for a select. Where the rows are those of the
//! only source, each once and in order, its table is lent (`lent_table.rt`).
//! How the rows are found that go together with a tuple is left to the trait `Pairing`: each row is tried, or, where the
//! caller gives a list of joins, rows are looked up by cells that ON or WHERE equates. Parts of WHERE that the caller lists
//! are tried before a join too. `Partners` holds look-ups for the EXISTS of a select, made once for all its rows, and
//! `PartneredRow` asks them; `KeyPartners` holds those that are asked with a list of cells, as the key of a group is. The fault
//! is that of every ON, of these parts and of WHERE.
//! It knows no groups, items or windows, no statement, nothing of how joins and parts are chosen, and nothing of VTL.
//! Begin with specs/Rows.antt and specs/Sources.antt, then `sources.rt`, `tuple_row.rt` and `tuples.rt`; for look-ups with
//! specs/Keys.antt, then `key_pairs.rt` and `key_lookup.rt`; for EXISTS with specs/Partners.antt, then `partners.rt`, and with
//! specs/KeyPartners.antt, then `key_partners.rt`.
#![tactic(auto)]

mod asking;
mod columns;
mod condition;
mod conditions;
mod counting;
mod early;
mod existence;
mod from_tables;
mod given;
mod held_tables;
mod joining;
mod key_index;
mod key_lookup;
mod key_pairs;
mod key_partners;
mod lent_table;
mod lookup;
mod outer_row;
mod pairing;
mod pairs;
mod partner_index;
mod partnered_row;
mod partners;
mod placed_lists;
mod selects;
mod series_names;
mod series_places;
mod series_reads;
mod series_table;
mod source_condition;
mod sources;
mod test_places;
mod ties;
mod tuple_row;
mod tuple_rows;
mod tuples;

pub use asking::asks;
pub use existence::has_partner;
pub use from_tables::FromTables;
pub use given::Given;
pub use held_tables::{HeldTable, HeldTables};
pub use key_partners::KeyPartners;
pub use outer_row::OuterRow;
pub use partnered_row::PartneredRow;
pub use partners::Partners;
pub use placed_lists::{no_lists, put_at};
pub use selects::{ExecErr, source_rows, source_tuples};
pub use series_reads::given_for;
pub use sources::Sources;
pub use tuple_row::TupleRow;
pub use tuple_rows::TupleRows;
pub use tuples::Tuples;
