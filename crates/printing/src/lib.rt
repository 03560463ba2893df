// Printing: terms and the lines of a listing as bytes (document 01, "One text in full"; the Rust's `pat_text`).
//
// Each writing function asks that its output has room.
#![tactic(auto)]

mod printed; // stored terms as they are printed
mod walk; // a walk through one
mod pieces; // what a term is printed of
mod writing; // its bytes
mod sizes; // how many nodes that is
mod lines; // the lines of a listing
mod nodes; // the goals of a tree

pub use lines::{LINE, write_node_line, write_value_line, write_verdict_line};
pub use nodes::any_too_large;
pub use pieces::Piece;
pub use printed::PrintedTerms;
pub use sizes::{MOST_NODES, is_too_large};
pub use walk::{OpenRow, Walk};
pub use writing::write_term;
