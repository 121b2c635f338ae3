//! What the language speaks of: components, structures of data sets, expressions over the components of a point, and the
//! typed trees of scripts.
//!
//! It stands apart so that checking, reading files and evaluating speak of the same things. It decides which structures
//! may be declared and in which order their columns stand, and which components an operator's result has; its
//! definitions say what a data set is and which value an expression has at a point. A node of a typed tree has a
//! structure and a form, which keeps what the operator was given besides its operands. To compute values, and to say
//! which expressions are well typed, is left to others: it decides no rule.
//! It knows no text of a script, no table and no file.
//! Begin with `structure.rt` and specs/Structure, then specs/DataSet and specs/Value, and for nodes specs/Trees and `nodes.rt`.
#![tactic(auto)]

mod calls;
mod choices;
mod clauses;
mod columns;
mod copies;
mod counting;
mod declarable;
mod expression;
mod joins;
mod kinds;
mod laws;
mod limits;
mod made_expressions;
mod measures;
mod names;
mod nodes;
mod operands;
mod pairs;
mod renaming;
mod rules;
mod specifications;
mod structure;
mod structures;
mod targets;
mod times;

pub use calls::{AnalyticCall, AnalyticOp, Bound, Frame, OrderKey, TimeOp, Window};
pub use choices::{Choice, is_chosen, is_identifier, is_identifier_name, push_chosen};
pub use clauses::{CalcItem, CalcValue, SubItem};
pub use columns::{common_identifiers, kind_named, place_of, places_in};
pub use copies::{share_codes, share_component, share_structure};
pub use counting::count_measures;
pub use declarable::is_declarable;
pub use expression::{AggCall, CompExpr};
pub use joins::Operand;
pub use kinds::{given_kind, kind};
pub use laws::{filter_is_a_clause, points_are_a_map};
pub use limits::MAX_COMPONENTS;
pub use made_expressions::{column_behind, copied, push_column};
pub use measures::{Outcome, is_measure, push_measures};
pub use names::{Wanted, component_of, is_among, serves};
pub use nodes::{JoinOperand, MeasureOp, Node, NodeForm};
pub use operands::{
    Compared, agree, all_agree, all_meet, has_one_measure, is_there, is_within, push_identifiers,
};
pub use pairs::{contains, push_pair_identifiers};
pub use renaming::Renaming;
pub use rules::{DatapointRule, DatapointRules, HierRules};
pub use specifications::{AggItems, AggSpec, AggTarget, AnalyticSpec, CheckSpec, JoinSpec};
pub use structure::{Component, Role, Structure, is_same_role};
pub use structures::Structures;
pub use targets::Target;
pub use times::{has_time, is_time};
