// Patterns: source terms compiled to words. The Rust's `Vars::get`, `Sig::numeral` and `Sig::pattern`, with the refusals 19 to 24, 26 and 28.
//
// All functions here serve the crates above: they ask for storage of the listed sizes.
#![tactic(auto)]

ghost use Rattle.std.specs.Prelude.{◌≡◌, IfOk, List, [], ◌∷◌, ℕ, ◌+◌, ◌*◌, ◌≤◌, ◌<◌, length};
ghost use Rattle.names.specs.Names.{name_of};
ghost use Rattle.names.specs.Named.{symbols_named};
ghost use Rattle.names.specs.Symbols.{column, row_at, symbol_of, symbols_of, variables_of};
ghost use Rattle.patterns.specs.Patterns.{enter as enterOf, counted, misfit as misfitOf};
ghost use Rattle.patterns.specs.Laying.{lay, laid};
ghost use Rattle.patterns.specs.Promises.{stored, entry_of, Grew, answer, Small, NextIs, Ready, Compiled, NodeMade, tower, refusal, RefusedFor, constructor_of, NumeralsFound, Numbered, Judged};
ghost use Rattle.patterns.specs.Promises.{LiesAt, EntryPlaced, MadePlaced};

pub mod numeral_symbols; // the symbols of numerals

use arena::{INPUTS, PATTERN_ROOM};
use names::columns::{ARITY, FIRST_INPUT, MARK, OUTPUT, SORT};
use names::{FUNCTION, SourceTerms, SymbolRow, TermRow, VariableRow, Word};
pub use numeral_symbols::NumeralSymbols;
use refusals::Refusal;

// How many variables a rule may have.
pub const VARIABLES: usize = PATTERN_ROOM as usize;

// A variable that is entered: its number, and how many variables there are then.
#[derive(Clone, Copy)]
pub struct EnteredVariable {
    pub index: usize,
    pub count: usize,
}

// The number of the variable that a row names, entered if it is new. Its sort (0: not known) is checked, and set where it was not known.
// Stays: a variable's row holds 0 for a sort not known, and `pattern` has 0 for a judgment; an `Option` would be made of the one and be the other again.
// Stays: callers may lend a longer table, and an array in its place would ask for exactly 64 rows.
// Stays: a new variable's row is written just behind the `count` rows in use, which a slice of those alone would not reach.
pub fn enter(
    text: &[u8],
    variables: &mut [VariableRow],
    count: usize,
    row: TermRow,
    sort: u32,
) -> Result<EnteredVariable, Refusal>
    requires { (count ≤ 64) × (64 ≤ length variables.old) }
    ensures grew { Grew count result }
    ensures variables_after { entry_of text.now result variables.new ≡ enterOf (variables_of text.now variables.old count) (name_of text.now (column row 0) (column row 1) (column row 2)) sort }
    ensures entry_placed { EntryPlaced (LiesAt (column row 0) (column row 1) (column row 2)) variables.old count result variables.new }
{
    let [kind, start, size, _] = row;
    match names::find_at(text, &variables[..count], kind, Word { start, size }) {
        Some(index) => {
            let old = variables[index][SORT];
            if old != 0 && sort != 0 && old != sort {
                return Err(Refusal::TwoSorts);
            }
            if old == 0 {
                variables[index][SORT] = sort;
            }
            Ok(EnteredVariable { index, count })
        }
        None => {
            if count < VARIABLES {
                variables[count] = [kind, start, size, sort];
                return Ok(EnteredVariable {
                    index: count,
                    count: count + 1,
                });
            }
            Err(Refusal::Full)
        }
    }
}

// How far the compiler is: the next row, how many variables there are, how many words are used, and the room for nodes left.
// Stays: variables and words have different owners; in one struct that is lent, each contract here would say besides that the same two come back.
// Stays: that variables are at most 64 and words few is asked beside it (`Ready`); with ghost fields, six of its eight literals could not be updates.
#[derive(Clone, Copy)]
pub struct Place {
    pub next: usize,
    pub variables: usize,
    pub used: usize,
    pub room: usize,
}

// A compiled term: its reference, and how far the compiler is then.
#[derive(Clone, Copy)]
pub struct CompiledTerm {
    pub node: u32,
    pub place: Place,
}

// A variable as a pattern: entered, then counted as a node.
fn variable(
    text: &[u8],
    variables: &mut [VariableRow],
    row: TermRow,
    want: u32,
    from: Place,
) -> Result<CompiledTerm, Refusal>
    requires { (from.variables ≤ 64) × (64 ≤ length variables.old) }
    ensures small { Small from.next from.variables from.used from.room result }
    ensures by_index { (w : List ℕ) → answer text.now result variables.new w ≡ stored [] (counted (enterOf (variables_of text.now variables.old from.variables) (name_of text.now (column row 0) (column row 1) (column row 2)) want) from.room) w from.used }
    ensures next_is { NextIs from.next result }
    ensures made_placed { MadePlaced (λ _. LiesAt (column row 0) (column row 1) (column row 2)) variables.old from.variables result variables.new }
{
    let entered = enter(text, variables, from.variables, row, want)?;
    let room = from.room.checked_sub(1).ok_or(Refusal::Full)?;
    Ok(CompiledTerm {
        node: entered.index as u32,
        place: Place {
            variables: entered.count,
            room,
            ..from
        },
    })
}

impl<'a> NumeralSymbols<'a> {
    // Those among a text's symbols.
    // Stays: a numeral's symbols are looked up for a program's functions too, whose symbols are lent with its rules and not with the rows of a term.
    pub fn find(text: &[u8], symbols: &'a [SymbolRow]) -> Result<Self, Refusal>
        ensures found { NumeralsFound (symbols_of text.now symbols.now (length symbols.now)) result }
        ensures same { IfOk result (λ found. found.symbols.now ≡ symbols.now) }
    {
        let zero = constructor(text, symbols, b"zero").ok_or(Refusal::NoNumerals)?;
        let succ = constructor(text, symbols, b"succ").ok_or(Refusal::NoNumerals)?;
        Ok(NumeralSymbols {
            symbols,
            zero,
            succ,
        })
    }
}

// What a symbol is refused for at a place of the sort want (0: a judgment), with so many arguments.
// Stays: `want` is compared with the output in a symbol's row, where 0 is a predicate's; of an `Option` it would be made a number again first.
fn misfit(symbol: &SymbolRow, want: u32, arguments: usize) -> Result<(), Refusal>
    ensures { (text : List ℕ) → RefusedFor (misfitOf (symbol_of text symbol.now) want arguments) result }
{
    if symbol[MARK] == FUNCTION {
        if 0 < want {
            return Err(Refusal::FunctionInTerm);
        }
    }
    if symbol[OUTPUT] != want {
        return Err(Refusal::CannotStand);
    }
    if symbol[ARITY] as usize != arguments {
        return Err(Refusal::ArgumentCount);
    }
    Ok(())
}

// What n times `succ` on `zero` is refused for. Without room it ends, however large n is.
fn numeral_misfit(numerals: NumeralSymbols, n: usize, want: u32, room: usize) -> Result<(), Refusal>
    ensures { (text : List ℕ) → RefusedFor (refusal (symbol_of text (row_at numerals.entry.symbols.now numerals.entry.succ)) (symbol_of text (row_at numerals.entry.symbols.now numerals.entry.zero)) n want room) result }
{
    let NumeralSymbols {
        symbols,
        zero,
        succ,
    } = numerals;
    let mut s = want;
    let mut m = room;
    for _k in 0..n {
        misfit(&symbols[succ], s, 1)?;
        m = m.checked_sub(1).ok_or(Refusal::Full)?;
        s = symbols[succ][FIRST_INPUT];
    }
    misfit(&symbols[zero], s, 0)?;
    if m == 0 {
        return Err(Refusal::Full);
    }
    Ok(())
}

// Writes n times `succ` on `zero` behind the used words.
// Stays: with the words from `used` on alone lent, the caller would have to join what comes back, and references count from the first word of all.
fn numeral_words(words: &mut [u32], used: usize, numerals: NumeralSymbols, n: usize) -> u32
    requires { (used + 1 + 2 * n ≤ length words.old) × (used + 2 * n ≤ 65536) × (numerals.succ < 1024) × (numerals.zero < 1024) }
    ensures { lay (tower numerals.entry.succ numerals.entry.zero n) words.old used ≡ laid (result ∷ []) words.new (used + 1 + 2 * n) }
{
    let NumeralSymbols { zero, succ, .. } = numerals;
    words[used] = arena::header_of(zero, 0);
    let h = arena::header_of(succ, 1);
    let mut r = PATTERN_ROOM + (used as u32);
    for k in 0..n {
        let u = (used + 1 + 2 * k) as u32;
        arena::push_node(words, u, h, &[r]);
        r = PATTERN_ROOM + u;
    }
    r
}

// The number of the constructor that is called w.
// Stays: no row of a term is read here, only those of symbols, and `NumeralSymbols::find`, which calls it, is given none.
pub fn constructor(text: &[u8], symbols: &[SymbolRow], w: &[u8]) -> Option<usize>
    ensures { result ≡ constructor_of (symbols_of text.now symbols.now (length symbols.now)) w.now }
{
    let i = names::find(text, symbols, w)?;
    (symbols[i][OUTPUT] != 0).then_some(i)
}

// The numeral n as a pattern.
fn numeral(
    source: SourceTerms,
    want: u32,
    n: usize,
    words: &mut [u32],
    from: Place,
) -> Result<CompiledTerm, Refusal>
    requires { (length source.symbols.now ≤ 1024) × (from.variables ≤ 64) × (from.used + 2 * from.room ≤ length words.old) × (from.used + 2 * from.room ≤ 65536) }
    ensures { Numbered source.entry.text.now (symbols_named source.entry) n want from.variables from.next words.old from.used from.room result words.new }
{
    let numerals = NumeralSymbols::find(source.text, source.symbols)?;
    numeral_misfit(numerals, n, want, from.room)?;
    let r = numeral_words(words, from.used, numerals, n);
    Ok(CompiledTerm {
        node: r,
        place: Place {
            used: from.used + 1 + 2 * n,
            room: from.room - 1 - n,
            ..from
        },
    })
}

// The pattern of the source term at a row, at a place of the sort want (0: a judgment).
// Stays: the rows of symbols, which C callers lend, have 0 where there is no sort, and the sorts of places are compared with theirs.
// Stays: C callers lend the kind, which may be none of these; an enum would be made by the same `match`, only to be matched again here.
#[cycle(node_pattern)]
pub fn pattern(
    source: SourceTerms,
    want: u32,
    variables: &mut [VariableRow],
    words: &mut [u32],
    from: Place,
) -> Result<CompiledTerm, Refusal>
    requires { Ready source.symbols.now (length source.symbols.now) variables.old from.variables words.old from.used from.room }
    ensures { Compiled source.entry.text.now source.entry.rows.now from.next (symbols_named source.entry) want variables.old from.variables words.old from.used from.room result variables.new words.new }
{
    let SourceTerms {
        text,
        rows,
        symbols,
    } = source;
    let row = *rows.get(from.next).ok_or(Refusal::UnknownSymbol)?;
    let [kind, start, size, more] = row;
    let behind = Place {
        next: from.next + 1,
        ..from
    };
    match kind {
        words::NUMERAL => numeral(source, want, more as usize, words, behind),
        words::METAVARIABLE => variable(text, variables, row, want, behind),
        _ => match names::find_at(text, symbols, kind, Word { start, size }) {
            Some(i) => node(source, more as usize, i, want, variables, words, behind),
            None => {
                if kind == term_parser::APPLICATION {
                    return Err(Refusal::UnknownSymbol);
                }
                if want == 0 {
                    return Err(Refusal::UnknownPredicate);
                }
                variable(text, variables, row, want, behind)
            }
        },
    }
}

// A node of the symbol i, with its arguments from a row on.
#[cycle(node_pattern)]
fn node(
    source: SourceTerms,
    arguments: usize,
    i: usize,
    want: u32,
    variables: &mut [VariableRow],
    words: &mut [u32],
    from: Place,
) -> Result<CompiledTerm, Refusal>
    requires { (Ready source.symbols.now (length source.symbols.now) variables.old from.variables words.old from.used from.room) × ((i < length source.symbols.now) × (from.next ≤ length source.rows.now)) }
    ensures { NodeMade source.entry.text.now source.entry.rows.now from.next arguments (symbols_named source.entry) i want variables.old from.variables words.old from.used from.room result variables.new words.new }
{
    let symbols = source.symbols;
    misfit(&symbols[i], want, arguments)?;
    let mut refs = [0u32; INPUTS as usize];
    let mut place = Place {
        room: from.room.checked_sub(1).ok_or(Refusal::Full)?,
        ..from
    };
    // Stays: as at `names::put_column`, nothing would be known of what is written behind a `zip`.
    for (k, sort) in symbols[i][FIRST_INPUT..FIRST_INPUT + arguments]
        .iter()
        .enumerate()
    {
        let made = pattern(source, *sort, variables, words, place)?;
        refs[k] = made.node;
        place = made.place;
    }
    let h = arena::header_of(i, arguments);
    arena::push_node(words, place.used as u32, h, &refs[..arguments]);
    Ok(CompiledTerm {
        node: PATTERN_ROOM + (place.used as u32),
        place: Place {
            used: place.used + 1 + arguments,
            ..place
        },
    })
}

// The patterns of judgments from a row on, as many as `heads` has places for their references.
pub fn judgments(
    source: SourceTerms,
    variables: &mut [VariableRow],
    words: &mut [u32],
    heads: &mut [u32],
    from: Place,
) -> Result<Place, Refusal>
    requires { Ready source.symbols.now (length source.symbols.now) variables.old from.variables words.old from.used from.room }
    ensures { Judged source.entry.text.now source.entry.rows.now from.next (length heads.old) (symbols_named source.entry) variables.old from.variables words.old from.used from.room result variables.new words.new heads.new }
{
    let mut place = from;
    for head in heads {
        let made = pattern(source, 0, variables, words, place)?;
        *head = made.node;
        place = made.place;
    }
    Ok(place)
}
