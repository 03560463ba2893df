// A printed term as bytes.
// Stays: names are bytes of a text, which `write!` does not write, and it promises its bytes only where it answers `Ok`.
ghost use Rattle.std.specs.Prelude.{◌≡◌, ◌+◌, ◌≤◌, ◌<◌, length};
ghost use Rattle.arena.specs.Cells.{cells, Reference};
ghost use Rattle.byte_output.specs.Output.{IsWritten};
ghost use Rattle.names.specs.Symbols.{symbol_at};
ghost use Rattle.printing.specs.Terms.{head_bytes, constant_bytes, term_bytes, printed_nodes, most_nodes};
ghost use Rattle.printing.specs.Pieces.{piece_bytes, pieces_bytes, pieces_nodes, PieceKnown};
ghost use Rattle.printing.specs.Stored.{Printable, term_in};
ghost use Rattle.printing.specs.Walking.{pieces_left};
ghost use Rattle.printing.specs.Written.{symbols_in};

use super::pieces::Piece;
use super::printed::PrintedTerms;
use super::walk::{OpenRow, Walk};
use byte_output::Output;
use names::Word;
use names::columns::OUTPUT;

impl PrintedTerms<'_> {
    // Writes the name of a symbol.
    fn write_name(self, symbol: usize, out: &mut Output)
        requires known { symbol < length self.symbols.now }
        requires room { out.old.at + length ((symbol_at (symbols_in self) symbol).name) ≤ length out.old.bytes.now }
        ensures { IsWritten out.old out.new (symbol_at (symbols_in self.entry) symbol).name }
    {
        let word = Word::at_start(&self.symbols[symbol]);
        out.write(names::part(self.text, word));
    }

    // Writes a symbol in front of its arguments.
    fn write_head(self, symbol: usize, out: &mut Output)
        requires known { symbol < length self.symbols.now }
        requires room { out.old.at + length (head_bytes (symbol_at (symbols_in self) symbol)) ≤ length out.old.bytes.now }
        ensures { IsWritten out.old out.new (head_bytes (symbol_at (symbols_in self.entry) symbol)) }
    {
        out.write_byte(b'(');
        self.write_name(symbol, out);
    }

    // Writes a symbol that has no arguments.
    fn write_constant(self, symbol: usize, out: &mut Output)
        requires known { symbol < length self.symbols.now }
        requires room { out.old.at + length (constant_bytes (symbol_at (symbols_in self) symbol)) ≤ length out.old.bytes.now }
        ensures { IsWritten out.old out.new (constant_bytes (symbol_at (symbols_in self.entry) symbol)) }
    {
        if self.symbols[symbol][OUTPUT] == 0 {
            self.write_head(symbol, out);
            out.write_byte(b')');
            return;
        }
        self.write_name(symbol, out);
    }

    // Writes a piece.
    fn write_piece(self, piece: Piece, out: &mut Output)
        requires known { PieceKnown (length self.symbols.now) piece }
        requires room { out.old.at + length (piece_bytes (symbols_in self) piece) ≤ length out.old.bytes.now }
        ensures { IsWritten out.old out.new (piece_bytes (symbols_in self.entry) piece) }
    {
        match piece {
            Piece::Variable(number) => {
                out.write(b"?v");
                out.write_decimal(number);
            }
            Piece::Constant(symbol) => self.write_constant(symbol, out),
            Piece::Open(symbol) => self.write_head(symbol, out),
            Piece::Space => out.write_byte(b' '),
            Piece::Close => out.write_byte(b')'),
        }
    }
}

// Writes the term of a reference, of at most 4,096 nodes.
// Stays: callers may lend a longer stack, and an array in its place would ask for exactly 4,097 rows.
pub fn write_term(printed: PrintedTerms, reference: u32, stack: &mut [OpenRow], out: &mut Output)
    requires printable { Printable printed }
    requires stored { Reference printed.terms.room (cells printed.terms.words.now) printed.terms.variables printed.terms.used reference }
    requires small { printed_nodes (term_in printed reference) ≤ most_nodes }
    requires rows { most_nodes < length stack.old }
    requires room { out.old.at + length (term_bytes (symbols_in printed) (term_in printed reference)) ≤ length out.old.bytes.now }
    ensures { IsWritten out.old out.new (term_bytes (symbols_in printed.entry) (term_in printed.entry reference)) }
{
    let mut walk = Walk::new(printed, reference, stack);
    while let Some(piece) = walk.next_piece() {
        walk.printed.write_piece(piece, out);
    }
}
