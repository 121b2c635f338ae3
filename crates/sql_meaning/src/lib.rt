//! What the SQL dialect means: tables as lists of rows, the value of an expression at a row or a group, the rows of
//! FROM, of selects and of queries, and what a script gives; definitions and laws, and the plan of a query as a type.
//!
//! Engine, planner and translator cite this meaning and nothing else of SQL. It decides what is evaluated, in which
//! phase, and which fault counts; how rows are found, and in what order tables keep them, it leaves to the engine.
//! It knows trees and their typing, cells and their operators: nothing of VTL's structures, no file, no program but the
//! entries of plans.
//! Begin with specs/Values.antt, then From.antt, Selects.antt, Scripts.antt and src/laws.rt.
//!
//! A column is found by its place, by the one look-up of typing (`found`, `placed`). What expressions see is a record
//! of sources and places (`View`), so rows and groups have one value function.
//!
//! What a query rests on is a record (`Base`): two bases that differ in rows alone have the same typing by definition.
//!
//! Operators and CASE make their value one of the expression's kind, and an item one of the kind that the selects
//! share: so the values that an aggregate or an order sees are of one kind, and UNION ALL only appends.
//!
//! Joins are one function over any three types (`joined_by`): rows here, numbers of rows in an engine.
#![tactic(auto)]

mod laws;
mod plan;

pub use laws::{
    faults_are_joined, first_statements_give_a_front, held_tables_fit, no_key_allows_one_row,
    null_meets_nothing, one_group_gives_one_row, places_are_those_in_order, plans_stand,
    queries_do_not_see_order, results_are_of_the_profile, scripts_do_not_see_order,
    typed_queries_fit, typed_scripts_fit, unions_are_their_selects, values_are_of_their_kind,
};
pub use plan::{Early, Indexed, Plan};
