//! Typed scripts of VTL as scripts of the SQL dialect, with the laws that they mean the same, break no rule and can be
//! printed.
//!
//! An expression on data sets is the tables of its operands and then one query. This crate decides which query that is,
//! how tables are named, and in what order statements stand; how a component expression is written it leaves to
//! `expressions_to_sql`, and how a table is found to an engine.
//! Its code takes a script that the checker accepted and asks the checker's functions about structures; it knows no
//! text, no file, and no program that runs either language.
//! Begin with specs/FormQueries.antt, Tables.antt and Scripts.antt, then Means.antt and src/laws.rt.
//!
//! Texts that people read are checked by examples (proofs/Examples.antt): each form's query, and a whole script.
#![tactic(auto)]

mod constants;
mod existence_queries;
mod form_queries;
mod inputs;
mod laws;
mod ruled_queries;
mod script;
mod set_operators;
mod set_queries;
mod walk;

pub use constants::constants_are_held;
pub use laws::{
    accepted_scripts_are_translated, inputs_ask_for_data_sets, inputs_have_their_columns,
    scripts_are_translated, scripts_are_translated_over_inputs, tables_are_counted,
    translated_scripts_are_lawful,
};
pub use script::translate;
