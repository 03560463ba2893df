// Function calls: the value and the tree of a call, in lent storage (document 01, "Evaluated terms"; the Rust's `Evaluator::call`).
//
// All functions here serve the crates above: they ask for a program in storage (`Program` of specs/Calls.antt).
#![tactic(auto)]

mod calls; // calls of functions

pub use calls::{Level, MAX_CALLS, MAX_DEPTH, Outcome, Program, Spent, Store, TreeRow, call};
pub use clause_matching::{Built, Room};
