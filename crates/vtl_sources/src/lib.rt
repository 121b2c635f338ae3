//! What results depend on: for each form of expression what the points of its data set depend on, and what each component
//! that is no identifier depends on besides; and the links of a script. Definitions; it has no code.
//!
//! The table is the same for each way of keeping sets: over pairs of a data set and a component it defines the links,
//! `vtl_lineage` computes it over numbers, and `lineage_laws` says that what it names suffices.
//! It goes by structures and forms alone, so it is an upper bound: it knows no points and no values.
//! Begin with specs/Table.antt, then specs/Lineage.antt and Links.antt; proofs/Examples.antt works out scripts.
#![tactic(auto)]
