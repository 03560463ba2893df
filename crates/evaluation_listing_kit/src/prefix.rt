// Terms in prefix form, as the Rust's `pat_text` prints them. A term may be as deep as it has nodes, so it is written by a loop over a stack of open nodes.
ghost use Rattle.std.specs.Prelude.{◌≡◌, ◌+◌, ◌≤◌, ◌<◌, IfOk, length, slice_get};
ghost use Rattle.evaluation_listing_kit.specs.Nodes.{node_at};
ghost use Rattle.evaluation_listing_kit.specs.Printing.{Moved, Stepped};

use super::output::{NoRoom, put, put_byte, put_decimal};
use super::printer::Printer;
use arena::HEADERS;
use byte_output::Output;
use names::{SymbolRow, Word};
use signature::columns::OUTPUT;

// An open node: its address, and how many of its arguments are written or begun.
pub type OpenRow = [u32; 2];

// Stored terms: words over symbols whose names stand in a text. A reference below the room is a variable, any other the room and a node's address.
#[derive(Clone, Copy)]
pub struct StoredTerms<'a> {
    pub text: &'a [u8],
    pub symbols: &'a [SymbolRow],
    pub words: &'a [u32],
    pub room: u32,
}

// A node: its symbol, and how many arguments it has.
#[derive(Clone, Copy)]
struct Node {
    symbol: usize,
    arity: u32,
}

// The node at an address, if one stands there.
fn node_at(words: &[u32], address: u32) -> Option<Node>
    ensures { result ≡ node_at words.now address }
{
    match words.get(address as usize) {
        Some(&header) if HEADERS <= header => Some(Node {
            symbol: arena::symbol_of(header),
            arity: arena::arity_of(header),
        }),
        _ => None,
    }
}

// The address of an argument of the node at an address, if the words go so far.
fn argument_at(words: &[u32], address: u32, number: u32) -> Option<u32>
    ensures { result ≡ slice_get words.now (address + 1 + number) }
{
    words.get(address as usize + 1 + number as usize).copied()
}

// Writes a name of the text.
pub fn put_name(text: &[u8], word: Word, out: &mut Output) -> Result<(), NoRoom>
    ensures { Moved out.old out.new }
{
    put(names::part(text, word), out)
}

// Writes a variable.
pub fn put_variable(number: u32, out: &mut Output) -> Result<(), NoRoom>
    ensures { Moved out.old out.new }
{
    put(b"?v", out)?;
    put_decimal(number, out)
}

// Is a node written without parentheses, as a constructor that has no arguments?
fn is_bare(symbols: &[SymbolRow], node: Node) -> bool {
    node.arity == 0
        && symbols
            .get(node.symbol)
            .map_or(true, |row| row[OUTPUT] != 0)
}

impl Printer<'_> {
    // Writes the name of a symbol.
    fn put_symbol(&self, symbol: usize, out: &mut Output) -> Result<(), NoRoom>
        ensures { Moved out.old out.new }
    {
        match self.terms.symbols.get(symbol) {
            Some(row) => put_name(self.terms.text, Word::at_start(row), out),
            None => put(b"wrong: no such symbol", out),
        }
    }

    // Writes the start of a node that has parentheses, and opens it, if there is room for it in the stack too.
    fn open_node(&mut self, symbol: usize, address: u32, out: &mut Output) -> Result<(), NoRoom>
        ensures { Stepped self.old self.new × Moved out.old out.new }
    {
        let depth = self.depth;
        *self.stack.get_mut(depth).ok_or(NoRoom)? = [address, 0];
        self.depth = depth + 1;
        put_byte(out, b'(')?;
        self.put_symbol(symbol, out)
    }

    // Writes a variable, or the start of a node, which is all of one without parentheses.
    fn enter(&mut self, reference: u32, out: &mut Output) -> Result<(), NoRoom>
        ensures { Stepped self.old self.new × Moved out.old out.new }
    {
        let Some(address) = reference.checked_sub(self.terms.room) else {
            return put_variable(reference, out);
        };
        let Some(node) = node_at(self.terms.words, address) else {
            return put(b"wrong: no node", out);
        };
        if is_bare(self.terms.symbols, node) {
            return self.put_symbol(node.symbol, out);
        }
        self.open_node(node.symbol, address, out)
    }

    // Writes on at the innermost open node: the start of its next argument, or its end.
    fn step(&mut self, out: &mut Output) -> Result<(), NoRoom>
        requires { 0 < self.old.depth }
        ensures { IfOk result (λ _. out.old.at < out.new.at) × Stepped self.old self.new × Moved out.old out.new }
    {
        let top = self.depth - 1;
        let [address, next] = self.stack[top];
        let Some(node) = node_at(self.terms.words, address) else {
            self.depth = top;
            return put(b"wrong: no node", out);
        };
        if node.arity <= next {
            self.depth = top;
            return put_byte(out, b')');
        }
        self.stack[top] = [address, next + 1];
        put_byte(out, b' ')?;
        let argument = argument_at(self.terms.words, address, next).unwrap_or(0);
        self.enter(argument, out)
    }
}

// Writes the term of a reference.
pub fn put_term(
    terms: StoredTerms,
    reference: u32,
    stack: &mut [OpenRow],
    out: &mut Output,
) -> Result<(), NoRoom>
    ensures { Moved out.old out.new }
{
    let mut printer = Printer {
        terms,
        stack,
        depth: 0,
    };
    printer.enter(reference, out)?;
    while 0 < printer.depth {
        printer.step(out)?;
    }
    Ok(())
}
