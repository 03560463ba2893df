// The printer of terms, in a file of its own: what the contracts of this crate say names it.
ghost use Rattle.std.specs.Prelude.{◌≤◌, length};

use super::prefix::{OpenRow, StoredTerms};

// A printer of terms: the open nodes, which are `depth`.
// Stays: the number of open nodes changes as a term is written, and with no heap a lent buffer with that number beside it is what a stack can be.
// Stays: each step promises what became of the stack (`Stepped`); an invariant tells of one value, and not of the one before.
// Stays: `printing` asks terms in form and room for all; this prints what any buffers hold, and says what is wrong there, so neither can call the other.
#[derive(Drop)]
pub struct Printer<'a> {
    pub terms: StoredTerms<'a>,
    pub stack: &'a mut [OpenRow],
    pub depth: usize,
    pub ghost within: { depth ≤ length stack.now },
}
