// Expressions: the value of a written term (document 01, "Evaluated terms"; the Rust's `Evaluator::expression`).
//
// All functions here serve the crates above: they ask for a signature in storage (`Tables` of specs/Applying.antt) and for rows that stand for a term.
#![tactic(auto)]

mod nodes; // nodes on values, and their sorts
mod numerals; // numerals as values
mod applying; // a symbol on values
mod written; // written terms

pub use applying::apply;
pub use nodes::{build, sort_of};
pub use numerals::numeral;
pub use written::{Expressed, expression};
