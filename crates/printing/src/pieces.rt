// What a term is printed of, from left to right.
ghost use Rattle.std.specs.Prelude.{◌≡◌, ◌<◌, None, length};
ghost use Rattle.arena.specs.Cells.{cells, Reference};
ghost use Rattle.printing.specs.Stored.{Printable};
ghost use Rattle.printing.specs.Walking.{Started, Stepped, Entered, WentOn};

use super::printed::PrintedTerms;
use super::walk::{OpenRow, Walk};

// A piece of a printed term.
#[derive(Clone, Copy)]
pub enum Piece {
    // An unbound variable.
    Variable(u32),
    // A symbol that has no arguments.
    Constant(usize),
    // A symbol in front of its arguments.
    Open(usize),
    // The space in front of an argument.
    Space,
    // The parenthesis behind the last argument.
    Close,
}

impl<'a> Walk<'a> {
    // A walk through the term of a reference, on a stack of which no row is in use.
    pub fn new(printed: PrintedTerms<'a>, reference: u32, stack: &'a mut [OpenRow]) -> Self
        requires { Reference printed.terms.room (cells printed.terms.words.now) printed.terms.variables printed.terms.used reference }
        ensures { Started printed.entry reference stack.old result }
    {
        Walk {
            printed,
            stack,
            depth: 0,
            next: Some(reference),
        }
    }

    // Enters the term of a reference.
    fn enter(&mut self, reference: u32) -> Piece
        requires printable { Printable self.old.printed }
        requires room { self.old.depth < length self.old.stack.now }
        requires stored { Reference self.old.printed.terms.room (cells self.old.printed.terms.words.now) self.old.printed.terms.variables self.old.printed.terms.used reference }
        ensures { Entered self.old reference self.new result }
    {
        let printed = self.printed;
        let terms = printed.terms;
        let end = bindings::walk(terms, printed.bindings, reference);
        if end < terms.room {
            return Piece::Variable(end);
        }
        let header = terms.header(end);
        let symbol = arena::symbol_of(header);
        let arity = arena::arity_of(header);
        if arity == 0 {
            return Piece::Constant(symbol);
        }
        let depth = self.depth;
        self.stack[depth] = [end - terms.room + 1, arity];
        self.depth = depth + 1;
        Piece::Open(symbol)
    }

    // Goes on at the innermost open node: to its next argument, or closes it.
    fn go_on(&mut self) -> Option<Piece>
        requires printable { Printable self.old.printed }
        requires entered { self.old.next ≡ None }
        ensures { WentOn self.old self.new result }
    {
        let top = self.depth.checked_sub(1)?;
        let [address, left] = self.stack[top];
        let Some(others) = left.checked_sub(1) else {
            self.depth = top;
            return Some(Piece::Close);
        };
        self.stack[top] = [address + 1, others];
        self.next = Some(self.printed.terms.words[address as usize]);
        Some(Piece::Space)
    }

    // The next piece, if there is one.
    // Stays: no `Iterator`: `next` of one can ask nothing, and this asks `Printable`, which no ghost field takes whole, and room for a row.
    pub fn next_piece(&mut self) -> Option<Piece>
        requires printable { Printable self.old.printed }
        requires room { self.old.depth < length self.old.stack.now }
        ensures { Stepped self.old self.new result }
    {
        match self.next.take() {
            Some(reference) => Some(self.enter(reference)),
            None => self.go_on(),
        }
    }
}
