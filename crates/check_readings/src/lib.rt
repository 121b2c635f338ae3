//! Typing in a reader's words: the body of a join is clauses in turn, each typed as a clause of a data set is. It has no
//! code, and nothing stands on it.
//!
//! A body is written in parts, of which each may be left out, and typing walks over these parts. Here they are clauses
//! (specs/Bodies.antt), and what a chain of clauses in brackets gives stands beside what the body gives. It knows
//! neither points nor what clauses mean.
//! Begin with specs/Bodies.antt and src/bodies.rt.
#![tactic(auto)]

mod bodies;

pub use bodies::join_bodies_are_clauses_in_turn;
