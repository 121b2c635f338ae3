//! What a grammar is made of, over tokens of any type: forms, their combinations, statements in a row and their
//! fault.
//!
//! A form is a value, which says which tokens spell what, how they are read, and with which tokens it begins and goes
//! on. The laws of each combination are proved here once, so that a production costs its grammar a line, and a line of
//! laws, where VTL's own grammar takes a proof for each. Definitions and lemmas alone: no code.
//! It knows no language; which forms there are is for each grammar to say (`sql_tree`).
//! Begin with specs/Forms.antt.
#![tactic(auto)]
