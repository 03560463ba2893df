// How many nodes a printed term has.
ghost use Rattle.std.specs.Prelude.{◌≡◌, ◌+◌, ◌≤◌, ◌<◌, length, ltb};
ghost use Rattle.arena.specs.Cells.{cells, Reference};
ghost use Rattle.printing.specs.Terms.{most_nodes, is_too_large};
ghost use Rattle.printing.specs.Pieces.{piece_nodes, pieces_nodes};
ghost use Rattle.printing.specs.Stored.{Printable, term_in};
ghost use Rattle.printing.specs.Walking.{pieces_left};

use super::pieces::Piece;
use super::printed::PrintedTerms;
use super::walk::{OpenRow, Walk};

// The most nodes that a printed term has.
pub const MOST_NODES: u32 = 4096;

impl Piece {
    // How many nodes it prints.
    fn nodes(self) -> u32
        ensures { result ≡ piece_nodes self }
    {
        match self {
            Piece::Variable(_) | Piece::Constant(_) | Piece::Open(_) => 1,
            Piece::Space | Piece::Close => 0,
        }
    }
}

// Does the term of a reference print more nodes than are allowed? It is refused by 39 then.
pub fn is_too_large(printed: PrintedTerms, reference: u32, stack: &mut [OpenRow]) -> bool
    requires printable { Printable printed }
    requires stored { Reference printed.terms.room (cells printed.terms.words.now) printed.terms.variables printed.terms.used reference }
    requires rows { most_nodes < length stack.old }
    ensures { result ≡ is_too_large (term_in printed.entry reference) }
{
    let mut walk = Walk::new(printed, reference, stack);
    let mut left = MOST_NODES;
    while let Some(piece) = walk.next_piece() {
        let Some(fewer) = left.checked_sub(piece.nodes()) else {
            return true;
        };
        left = fewer;
    }
    false
}
