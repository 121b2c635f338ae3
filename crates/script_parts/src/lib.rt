//! Parts of a typed script: each transformation as a script of its own, over the declared data sets and the results of the
//! transformations before it.
//!
//! It stands apart since a part is typed anew and its statements are copied, which only those need that run a script part
//! by part. It evaluates nothing and knows no table; what the parts mean together `rerun_laws` says.
//! Begin with specs/Parts.antt of `rerun_laws`, then src/parts.rt.
#![tactic(auto)]

mod known;
mod parts;
mod statements;

pub use parts::statement;
