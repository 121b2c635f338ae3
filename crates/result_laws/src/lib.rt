//! Laws of results: the structure that a typed script gives each of them may be declared again. It has no program.
//!
//! So a result can be an input of another script: what is run in parts, each over results of earlier ones, rests on it.
//! What may be declared is said by `vtl_tree`, how structures are made by `vtl_scripts`, and which names a script may
//! write by `vtl_syntax`; nothing is defined here. It knows neither points nor SQL, nor who keeps results.
//!
//! The way there: typing hands the words of what is written on to the nodes (proofs/Words.antt, and the walk over
//! expressions in WordedTyping.antt), and nodes with words have components with names and codes (Names.antt). The
//! translator cites both, since the names of columns are names in SQL too.
//! Begin with src/laws.rt.
#![tactic(auto)]

mod laws;

pub use laws::results_are_declarable;
