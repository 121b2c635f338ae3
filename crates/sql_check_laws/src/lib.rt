//! Typing of the SQL dialect read positively: which expressions fit, which selects, queries and statements are typed,
//! each as a record or a product of what it asks for, with the law that this is so exactly where no rule is broken.
//!
//! Who proves something of a typed script takes it apart here and sees no list of rules.
//! It knows trees and the definition of the rules alone: no program that checks them, so that an engine which wants
//! these laws needs none, no rows, nothing of VTL.
//! Begin with specs/Fits.antt, then Selects.antt, Statements.antt and src/scripts.rt.
#![tactic(auto)]

mod columns;
mod expressions;
mod queries;
mod scripts;

pub use columns::{columns_have_places, found_values_are_mapped};
pub use expressions::{expressions_fit, operands_are_counted_as_given, operators_have_one_kind};
pub use queries::{
    each_select_is_typed, one_select_is_typed, queries_are_typed, queries_are_whole,
    selects_are_typed, typed_queries_give_columns,
};
pub use scripts::{
    checked_creates_are_whole, checked_exports_are_typed, checked_inputs_are_declared,
    checked_statements_are_typed, scripts_are_typed, statements_are_typed, statements_compose,
    typed_inputs_are_declared,
};
