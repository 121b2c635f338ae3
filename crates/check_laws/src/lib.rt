//! What typing gives, as laws on its definition: typed expressions have their kinds, nodes fit their operands,
//! typed scripts read what is known, and typing depends on nothing else. It has no code.
//!
//! It is the one bridge from typing (`vtl_check`) to meaning (`vtl_meaning`): the conditions of the laws there hold
//! for what is typed.
//! Neither side names the other; `vtl_backend`, which says what every back end keeps to, cites this and passes on what
//! it names of typing.
//! Begin with specs/WellTyped.antt and src/laws.rt.
//!
//! What calls of rulesets give is a premise of the laws on expressions (`AreSoundRulings`, `AreCalls`, `AreCalledAlike`);
//! it holds without rulesets, and of definitions that are what rulesets have to be, as all of a typed script are.
//!
//! The depth of a node is that of the expressions by which its points are made (`node_depth`): those that its form
//! holds, and the calls that an operator on data sets makes of measures. So an operator counts one, as where it was
//! written.
#![tactic(auto)]

mod laws;

pub use laws::{
    calls_have_rules, nodes_are_made_over_what_they_read, typed_scripts_are_made,
    typed_trees_are_no_deeper, typed_values_are_of_their_kind, typing_depends_on_what_is_read,
    typing_is_sound,
};
