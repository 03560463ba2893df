// Nodes on values.
ghost use Rattle.std.specs.Prelude.{◌≡◌, List, ℕ, length};
ghost use Rattle.arena.specs.Cells.{symbol_of as symbolIn};
ghost use Rattle.names.specs.Symbols.{symbol_at, symbols_of};
ghost use Rattle.expressions.specs.Nodes.{BuildAsked, BuildAnswered};

use function_calls::{Built, Room};
use names::SymbolRow;
use names::columns::OUTPUT;
use refusals::Refusal;

// The sort of a value by its header: the output of its symbol.
// Stays: where there is no such symbol the definition's output is 0, as a predicate's is, and the contract would have to say so of an option too.
pub fn sort_of(symbols: &[SymbolRow], header: u32) -> u32
    ensures { (text : List ℕ) → result ≡ (symbol_at (symbols_of text symbols.now (length symbols.now)) (symbolIn header)).output }
{
    match symbols.get(arena::symbol_of(header)) {
        Some(row) => row[OUTPUT],
        None => 0,
    }
}

// A node of a symbol on values.
pub fn build(words: &mut [u32], room: Room, symbol: usize, values: &[u32]) -> Result<Built, Refusal>
    requires { BuildAsked words.old room.used room.limit symbol values.now }
    ensures { BuildAnswered words.old room.used room.limit symbol values.now result words.new }
{
    let count = values.len() as u32;
    if room.limit - room.used <= count {
        return Err(Refusal::OverLimit);
    }
    let header = arena::header_of(symbol, values.len());
    arena::push_node(words, room.used, header, values);
    Ok(Built {
        value: room.used,
        used: room.used + 1 + count,
    })
}
