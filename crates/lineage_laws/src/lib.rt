//! Laws of lineage: what a script's result depends on, as `vtl_sources` says it, suffices. It has no program, and
//! nothing stands on it.
//!
//! Where two lists of inputs agree in some components, and a script has a fault on neither, each output is the same in
//! each component all of whose sources are among them. It is proved form by form, on points that stand in the same
//! order (specs/Agree.antt); the order is dealt with once, at the inputs.
//! Begin with specs/Inputs.antt and src/laws.rt.
#![tactic(auto)]

mod laws;

pub use laws::sources_suffice;
