// Numerals: n times `succ` on `zero`, evaluated as written out.
ghost use Rattle.std.specs.Prelude.{List, ℕ, ◌≤◌, ◌<◌, length};
ghost use Rattle.names.specs.Symbols.{symbols_of};
ghost use Rattle.resolution.specs.Rules.{Rule};
ghost use Rattle.evaluation.specs.Expressions.{numeral_misuse};
ghost use Rattle.expressions.specs.Nodes.{Finds};
ghost use Rattle.expressions.specs.Numerals.{TowerAsked, TowerAnswered, NumeralAsked, NumeralAnswered};

use super::nodes::build;
use function_calls::{Built, MAX_DEPTH, Room};
use names::SymbolRow;
use names::columns::{ARITY, FIRST_INPUT, OUTPUT};
use patterns::NumeralSymbols;
use refusals::Refusal;

// What n times `succ` on `zero` is refused for at a depth, before anything is built, if it is.
fn check_numeral(numerals: NumeralSymbols, n: u32, depth: u32) -> Result<(), Refusal>
    requires { depth ≤ 128 }
    ensures { (limit : ℕ) (text : List ℕ) (rules : List Rule)
        → Finds result (numeral_misuse limit (symbols_of text numerals.entry.symbols.now (length numerals.entry.symbols.now)) rules numerals.entry.succ numerals.entry.zero n depth) }
{
    let NumeralSymbols {
        symbols,
        zero,
        succ,
    } = numerals;
    if 0 < n && symbols[succ][ARITY] != 1 {
        return Err(Refusal::ArgumentCount);
    }
    if MAX_DEPTH - depth < n {
        return Err(Refusal::TooDeep);
    }
    if symbols[zero][ARITY] != 0 {
        return Err(Refusal::ArgumentCount);
    }
    Ok(())
}

// n times `succ` on `zero`, upwards: the sort of each is tested before the next is built around it.
fn tower(numerals: NumeralSymbols, n: u32, words: &mut [u32], room: Room) -> Result<Built, Refusal>
    requires { TowerAsked numerals.symbols.now (length numerals.symbols.now) numerals.succ numerals.zero n words.old room.used room.limit }
    ensures { TowerAnswered numerals.entry.symbols.now (length numerals.entry.symbols.now) numerals.entry.succ numerals.entry.zero n words.old room.used room.limit result words.new }
{
    let NumeralSymbols {
        symbols,
        zero,
        succ,
    } = numerals;
    let mut sort = symbols[zero][OUTPUT];
    let want = symbols[succ][FIRST_INPUT];
    let mut built = build(words, room, zero, &[])?;
    for _k in 0..n {
        if sort != want {
            return Err(Refusal::WrongSort);
        }
        let left = Room {
            used: built.used,
            ..room
        };
        built = build(words, left, succ, &[built.value])?;
        sort = symbols[succ][OUTPUT];
    }
    Ok(built)
}

// The value of the numeral of a number, at a depth.
// Stays: the symbols are the program's, lent with its rules; a `SourceTerms` would be made for this call alone, with rows that no numeral reads.
pub fn numeral(
    text: &[u8],
    symbols: &[SymbolRow],
    number: u32,
    depth: u32,
    words: &mut [u32],
    room: Room,
) -> Result<Built, Refusal>
    requires { NumeralAsked symbols.now (length symbols.now) depth words.old room.used room.limit }
    ensures { NumeralAnswered text.now symbols.now (length symbols.now) number depth words.old room.used room.limit result words.new }
{
    let numerals = NumeralSymbols::find(text, symbols)?;
    check_numeral(numerals, number, depth)?;
    tower(numerals, number, words, room)
}
