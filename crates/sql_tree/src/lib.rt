//! The SQL dialect: the trees of its scripts, its grammar, which trees are scripts, and with which tokens a tree is
//! written.
//!
//! The grammar is a page of forms, each with its production above it; brackets leave no trace in a tree. Printer,
//! reader and checker all cite these definitions.
//! It knows no types and no meaning, and nothing of VTL except its values and operators, which the dialect shares.
//! Begin with specs/Grammar.antt (docs/SQL.md has the same productions), then Formed.antt and Texts.antt.
#![tactic(auto)]

mod expressions;
mod laws;
mod parts;
mod statements;
mod windows;
mod word_groups;

pub use expressions::{Branch, SqlExpr};
pub use laws::{expressions_are_bounded_by_depth, scripts_are_unique, statements_are_unique};
pub use parts::{Column, Constant, Equality, Literal, Numeral, Series, Source};
pub use statements::{
    InputColumn, Item, ItemValue, Join, Query, Select, SqlCreate, SqlExport, SqlInput, SqlScript,
    Statement,
};
pub use windows::{Bound, Frame, Over, Window, WindowCall, WindowKey};
pub use word_groups::{Direction, JoinKind, ShiftFunction, Side, Span, ValueFunction};
