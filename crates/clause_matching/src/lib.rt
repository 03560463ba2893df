// Clauses against values, in lent storage: the clause that fits, and terms built from its patterns (document 01, "Evaluated terms"; the Rust's `bind`,
// `instantiate` and the choice in `Evaluator::call`).
//
// All functions here serve the crates above: they ask for patterns, values and environments in storage (specs/Stored.antt).
#![tactic(auto)]

mod references; // what a pattern's reference stands for
mod matching; // patterns against values
mod building; // values from patterns
mod choice; // the clause that fits values

pub use building::{Built, Room, instantiate, instantiate_arguments};
pub use choice::{Clauses, find_clause};
pub use matching::{Values, bind};
pub use references::{Pattern, pattern_at};
