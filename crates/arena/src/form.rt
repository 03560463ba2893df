// The tests on one word.
ghost use Rattle.std.specs.Prelude.{◌≡◌, ◌+◌, ◌*◌, ◌≤◌, ◌<◌, length};
ghost use Rattle.arena.specs.Cells.{headers, symbol_of as symbolIn, arity_of as arityIn};
ghost use Rattle.arena.specs.Form.{is_header, is_argument};

use super::Terms;
use super::format::{HEADERS, INPUTS, SYMBOL_STEP};

// The symbol of a header. A word that is no header is read as one of symbol 0.
pub fn symbol_of(header: u32) -> usize
    ensures { result ≡ symbolIn header }
{
    (header.saturating_sub(HEADERS) / SYMBOL_STEP) as usize
}

// How many arguments the node of a header has.
pub fn arity_of(header: u32) -> u32
    ensures { result ≡ arityIn header }
{
    header % SYMBOL_STEP
}

// The header of a symbol with so many arguments.
pub fn header_of(symbol: usize, arity: usize) -> u32
    // The header is a word: the callers' limits on symbols and arguments are far below what a word holds.
    requires { headers + 32 * symbol + arity < 4294967296 }
    ensures { result ≡ headers + 32 * symbol + arity }
{
    HEADERS + SYMBOL_STEP * (symbol as u32) + (arity as u32)
}

// Whether a word is the header of a known symbol, with that symbol's arity.
pub fn is_header(arities: &[u32], word: u32) -> bool
    ensures { result ≡ is_header arities.now word }
{
    if word < HEADERS {
        return false;
    }
    let symbol = symbol_of(word);
    if symbol < arities.len() {
        let arity = arity_of(word);
        if arity == arities[symbol] {
            return arity <= INPUTS;
        }
    }
    false
}

// Whether a word may be an argument of a node behind the words in use, or is a reference in form: a variable, or a node in use from the address `from` on.
// Stays: by `checked_sub` it is as many lines, and `check_words` takes 8 % more instructions (604,340 for 560,348): tried.
pub fn is_argument(terms: Terms, from: u32, word: u32) -> bool
    // The words in use are among those lent.
    requires { terms.used ≤ length terms.words.now }
    ensures { result ≡ is_argument (record { words = terms.entry.words.now; room = terms.entry.room; variables = terms.entry.variables; from = from })
        terms.entry.used word }
{
    if word < terms.room {
        return word < terms.variables;
    }
    let address = word - terms.room;
    if address < from {
        return false;
    }
    if address < terms.used {
        return terms.words[address as usize] >= HEADERS;
    }
    false
}
