// A walk through a printed term, in a file of its own: what the contracts of this crate say names it.
ghost use Rattle.std.specs.Prelude.{◌≤◌, length};
ghost use Rattle.std.specs.Option.{ForSome};
ghost use Rattle.printing.specs.OpenNodes.{OpenRows};
ghost use Rattle.arena.specs.Cells.{cells, Reference};

use super::printed::PrintedTerms;

// An open node: the address of its next argument, and how many arguments are left.
pub type OpenRow = [u32; 2];

// A walk through a printed term from left to right: the open nodes, and the reference that comes next, if a term does.
// Stays: the number of open nodes changes as a term is walked through, and with no heap a lent buffer with that number beside it is what a stack can be.
#[derive(Drop)]
pub struct Walk<'a> {
    pub printed: PrintedTerms<'a>,
    pub stack: &'a mut [OpenRow],
    pub depth: usize,
    pub next: Option<u32>,
    pub ghost within: { depth ≤ length stack.now },
    pub ghost open: { OpenRows printed.terms.room printed.terms.words.now printed.terms.variables printed.terms.used stack.now depth },
    pub ghost ahead: { ForSome next (Reference printed.terms.room (cells printed.terms.words.now) printed.terms.variables printed.terms.used) },
}
