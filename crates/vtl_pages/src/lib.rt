//! `Pages`: a list whose items lie in blocks and never move while it grows. Rows of a table are runs of its width.
//!
//! A list in one piece is moved each time it outgrows its room. Here another block is put behind the others, so what
//! is reserved is really there, a row is pushed without asking for memory, and sorting needs no second list.
//! The first block is small, so that few rows take little memory; each other one has a power of two of runs, so that a
//! shift and a mask find a run, and no run crosses a block's end.
//! It knows no cells, rows or tables (`vtl_rows`): only items of one type, and how many of them a run has.
//! Begin with specs/Paged.antt for what contracts see, and specs/Laid.antt for how items lie in blocks.
#![tactic(auto)]

mod block;
mod cells;
mod leaving;
mod moving;
mod narrow;
mod order;
mod pages;
mod store;
#[cfg(test)]
mod tests;

// A crate names pages in its contracts only where the types of their fields are named too.
#[doc(hidden)]
pub use block::Block;
#[doc(hidden)]
pub use cells::{Cells, Claim, Start};
#[doc(hidden)]
pub use leaving::Leaving;
pub use pages::Pages;
#[doc(hidden)]
pub use store::Store;
