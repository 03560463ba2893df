// What the test programs share: words of terms, rows of bindings, lines of output, and calls of `unifier` on storage that is tested first.
#![tactic(auto)]

pub mod build; // words of terms
pub mod report; // lines
pub mod rows; // rows of bindings
pub mod unification; // one unification
