// Signatures in storage: the test of their form (document 01, refusal 1). The form is `Listed` in specs/Form.
//
// The entry point is `check_signature`. It asks nothing of its caller.
#![tactic(auto)]

ghost use Rattle.std.specs.Prelude.{◌≡◌, ℕ, ◌+◌, ◌≤◌, ◌<◌, length, take};
ghost use Rattle.names.specs.Names.{Distinct};
ghost use Rattle.names.specs.Symbols.{column, columns, row_at, sorts_of, symbols_of};
ghost use Rattle.unifier.specs.Promises.{Tells};
ghost use Rattle.rules.specs.PatternLaws.{arities_of};
ghost use Rattle.loader.specs.Legal.{names_of};
ghost use Rattle.signature.specs.Form.{SymbolFormed};
ghost use Rattle.signature.specs.Parts.{Lent, Counted, SortsNamed, NumbersFormed, MarkFormed, ClausesFormed, InputsFormed, SymbolsFormed, RulesListed};
ghost use Rattle.signature.specs.Storage.{store_of, SignatureChecked};

pub mod columns;
mod functions;

use arena::INPUTS;
pub use columns::ARITY;
use columns::{CLAUSES, FIRST_CLAUSE, FIRST_INPUT, FREE, MARK, OUTPUT, START};
use loader::{SORTS, SYMBOLS};
pub use names::put_column;
use names::{FUNCTION, NO_FUNCTION, SortRow, SymbolRow, Word};
use rules::{RULE_WORDS, RULES, RuleRow};

// How many names there may be: of sorts and symbols together.
const NAMES: usize = SORTS + SYMBOLS;

// How many words there may be: 2 for each node.
const WORDS: usize = 2 * words::NODES as usize;

// How much is stored of each kind.
#[derive(Clone, Copy, Default)]
pub struct Counts {
    pub sorts: u32,
    pub symbols: u32,
    pub rules: u32,
    pub words: u32,
}

// A signature in storage: the rows of its sorts, symbols and rules, the words of the rules, and how much of each is in use.
// Stays: C lends whole tables and counts of any size, so parts in use can be lent only behind `check_signature`, which tests that the counts fit.
#[derive(Clone, Copy)]
pub struct StoredSignature<'a> {
    pub sorts: &'a [SortRow],
    pub symbols: &'a [SymbolRow],
    pub rules: &'a [RuleRow],
    pub words: &'a [u32],
    pub counts: Counts,
}

impl<'a> StoredSignature<'a> {
    // The rows of the symbols in use.
    pub fn symbols_in_use(self) -> &'a [SymbolRow]
        requires { self.counts.symbols ≤ length self.symbols.now }
        ensures { result.now ≡ take self.entry.counts.symbols self.entry.symbols.now }
    {
        &self.symbols[..self.counts.symbols as usize]
    }

    // The rows of the rules in use.
    pub fn rules_in_use(self) -> &'a [RuleRow]
        requires { self.counts.rules ≤ length self.rules.now }
        ensures { result.now ≡ take self.entry.counts.rules self.entry.rules.now }
    {
        &self.rules[..self.counts.rules as usize]
    }
}

// Are as many rows lent as there may be?
fn is_lent(signature: StoredSignature) -> bool
    ensures { Tells result (Lent signature.entry.sorts.now signature.entry.symbols.now signature.entry.rules.now) }
{
    SORTS <= signature.sorts.len()
        && SYMBOLS <= signature.symbols.len()
        && RULES <= signature.rules.len()
}

// Are the counts within the limits and the words lent?
fn is_counted(words: &[u32], counts: Counts) -> bool
    ensures { Tells result (Counted words.now counts.sorts counts.symbols counts.rules counts.words) }
{
    counts.sorts as usize <= SORTS
        && counts.symbols as usize <= SYMBOLS
        && counts.rules as usize <= RULES
        && counts.words as usize <= WORDS
        && counts.words as usize <= words.len()
}

// Do the names of sorts have places in the text?
fn are_sorts_named(text: &[u8], sorts: &[SortRow]) -> bool
    ensures { Tells result (SortsNamed text.now sorts.now (length sorts.now)) }
{
    sorts
        .iter()
        .all(|row| names::is_word_place(text, Word::at_start(row)))
}

// Writes M columns of rows, from a column on.
// Stays: tried `parts.iter_mut().zip(rows)`: the loop's invariant can't name the parts then, and so nothing is known of what was written.
pub fn put_parts<const N: usize, const M: usize>(
    rows: &[[u32; N]],
    at: usize,
    parts: &mut [[u32; M]],
)
    requires { (at + M ≤ N) × (length rows.now ≤ length parts.old) }
    ensures { (i : ℕ) → i < length rows.now → row_at parts.new i ≡ columns (row_at rows.now i) at M }
{
    for (i, row) in rows.iter().enumerate() {
        let columns = &row[..];
        parts[i].copy_from_slice(&columns[at..at + M]);
    }
}

// Does no name serve twice among sorts and symbols? Their places are sorted by their names: for k names at most k times log2 k comparisons, each at most as
// long as the shorter name.
fn are_names_distinct(text: &[u8], sorts: &[SortRow], symbols: &[SymbolRow]) -> bool
    requires { (length sorts.now ≤ 256) × (length symbols.now ≤ 1024) }
    ensures { Tells result (Distinct (names_of (sorts_of text.now sorts.now (length sorts.now)) (symbols_of text.now symbols.now (length symbols.now)))) }
{
    let mut places = [[0u32; 2]; NAMES];
    let mut spare = [[0u32; 2]; NAMES];
    let n = sorts.len();
    let m = symbols.len();
    places[..n].copy_from_slice(sorts);
    put_parts(symbols, START, &mut places[n..n + m]);
    distinct::are_distinct_by_merging(text, &mut places[..n + m], &mut spare)
}

// Are a symbol's output, number of inputs and free column in form?
fn are_numbers_formed(sorts: u32, row: &SymbolRow) -> bool
    ensures { Tells result (NumbersFormed sorts (column row.now 2) (column row.now 6) (column row.now 7)) }
{
    row[OUTPUT] <= sorts && row[ARITY] <= INPUTS && row[FREE] == 0
}

// A function has no output, and its last input is its result; only a function has clauses.
// Stays: C callers lend the mark as a number that may be neither; an enum would be made by the same `match`, only to be matched again here.
fn is_mark_formed(row: &SymbolRow) -> bool
    ensures { Tells result (MarkFormed (column row.now 2) (column row.now 3) (column row.now 5) (column row.now 6)) }
{
    match row[MARK] {
        NO_FUNCTION => row[CLAUSES] == 0,
        FUNCTION => row[OUTPUT] == 0 && 0 < row[ARITY],
        _ => false,
    }
}

// Are the clauses rules that there are, and is the first number zero without clauses?
fn are_clauses_formed(row: &SymbolRow, rules: u32) -> bool
    ensures { Tells result (ClausesFormed (column row.now 4) (column row.now 5) rules) }
{
    let first = row[FIRST_CLAUSE] as usize;
    let clauses = row[CLAUSES] as usize;
    first + clauses <= rules as usize && (clauses != 0 || first == 0)
}

// Is each input of a symbol's row a sort, and each column past them zero?
fn are_inputs_formed(sorts: u32, row: &SymbolRow) -> bool
    requires { column row.now 6 ≤ 16 }
    ensures { Tells result (InputsFormed sorts row.now) }
{
    let n = row[ARITY] as usize;
    rule_checks::are_sorts(&row[FIRST_INPUT..FIRST_INPUT + n], sorts)
        && rule_checks::are_zeros(&row[FIRST_INPUT + n..])
}

// Is a symbol's row in form, where there are so many sorts and rules?
fn is_symbol_formed(text: &[u8], row: &SymbolRow, counts: Counts) -> bool
    ensures { Tells result (SymbolFormed text.now counts.sorts counts.rules row.now) }
{
    if !names::is_word_place(text, Word::at_start(row)) {
        return false;
    }
    if !are_numbers_formed(counts.sorts, row) {
        return false;
    }
    if !is_mark_formed(row) {
        return false;
    }
    if !are_clauses_formed(row, counts.rules) {
        return false;
    }
    are_inputs_formed(counts.sorts, row)
}

// Are the rows of symbols in form?
fn are_symbols_formed(text: &[u8], symbols: &[SymbolRow], counts: Counts) -> bool
    ensures { Tells result (SymbolsFormed text.now counts.sorts counts.rules symbols.now (length symbols.now)) }
{
    symbols
        .iter()
        .all(|row| is_symbol_formed(text, row, counts))
}

// Are the rules in form, one behind the other in the words in use, and do they end where these end? The stack is scratch.
fn are_rules_listed(
    text: &[u8],
    arities: &[u32],
    signature: StoredSignature,
    stack: &mut [[u32; 2]; RULE_WORDS],
) -> bool
    requires { (signature.counts.words ≤ length signature.words.now) × (signature.counts.words ≤ 65536) × (signature.counts.rules ≤ length signature.rules.now) }
    ensures { Tells result (RulesListed text.now arities.now signature.entry.words.now signature.entry.counts.sorts signature.entry.rules.now signature.entry.counts.rules signature.entry.counts.words) }
{
    let counts = signature.counts;
    let mut at = 0;
    for rule in signature.rules_in_use() {
        let Some(next) = rule_checks::check_rule(
            text,
            arities,
            signature.words,
            counts.words,
            at,
            counts.sorts,
            rule,
            stack,
        ) else {
            return false;
        };
        at = next;
    }
    at == counts.words
}

// Are all rules so over the symbols that are stored?
fn are_rules_of(text: &[u8], symbols: &[SymbolRow], signature: StoredSignature) -> bool
    requires { (length symbols.now ≤ 1024) × (signature.counts.words ≤ length signature.words.now) × (signature.counts.words ≤ 65536) × (signature.counts.rules ≤ length signature.rules.now) }
    ensures { Tells result (RulesListed text.now (arities_of (symbols_of text.now symbols.now (length symbols.now))) signature.entry.words.now signature.entry.counts.sorts signature.entry.rules.now signature.entry.counts.rules signature.entry.counts.words) }
{
    let mut arities = [0u32; SYMBOLS];
    put_column(symbols, ARITY, &mut arities);
    let mut stack = [[0u32; 2]; RULE_WORDS];
    are_rules_listed(text, &arities[..symbols.len()], signature, &mut stack)
}

// Is the stored signature in the listed form? Every entry point that is lent one asks this first.
pub fn check_signature(text: &[u8], signature: StoredSignature) -> bool
    ensures { SignatureChecked text.now (store_of signature.entry) result }
{
    let counts = signature.counts;
    if !is_lent(signature) {
        return false;
    }
    if !is_counted(signature.words, counts) {
        return false;
    }
    let sorts = &signature.sorts[..counts.sorts as usize];
    let symbols = signature.symbols_in_use();
    let rules = signature.rules_in_use();
    if !are_sorts_named(text, sorts) {
        return false;
    }
    if !are_names_distinct(text, sorts, symbols) {
        return false;
    }
    if !are_symbols_formed(text, symbols, counts) {
        return false;
    }
    if !are_rules_of(text, symbols, signature) {
        return false;
    }
    functions::are_listed(signature.words, rules, symbols)
}
