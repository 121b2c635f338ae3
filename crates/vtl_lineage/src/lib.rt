//! The links of a script: which components of the data sets that it reads each component of an output depends on.
//!
//! The table stands in `vtl_sources`, and this program is it, form by form. Each component that is read has a number, in
//! the order of the links, and a set is the ascending list of its numbers; what a form leaves as it is, it shares. It
//! types nothing and evaluates nothing: a link says what a component may depend on, whatever the data.
//! Begin with specs/Links.antt of `vtl_sources`, then src/links.rt and src/lines.rt.
#![tactic(auto)]

mod columns;
mod expressions;
mod inputs;
mod joins;
mod lines;
mod link;
mod links;
mod made;
mod nodes;
mod numbers;
mod operand;
mod parts;
mod statements;

pub use link::Link;
pub use links::lineage;
