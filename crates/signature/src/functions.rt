// The clauses of functions: the test that each concludes in its own function and calls only functions. It reads headers alone.
// Stays: words and symbols go apart, here and below: the one caller has cut the symbols in use, and lends the words whole; a struct would be made for it.
ghost use Rattle.std.specs.Prelude.{◌≡◌, List, ℕ, ◌≤◌, ◌<◌, length, get_or, eqb};
ghost use Rattle.terms.specs.Term.{Terms, app};
ghost use Rattle.arena.specs.Cells.{symbol_of, terms_of};
ghost use Rattle.meeting.specs.Contract.{term_of};
ghost use Rattle.names.specs.Symbols.{column, row_at, symbols_of};
ghost use Rattle.rules.specs.StoredRows.{heads_in};
ghost use Rattle.rule_checks.specs.RuleForm.{rule_in};
ghost use Rattle.loader.specs.Legal.{Calls, ClauseFormed};
ghost use Rattle.unifier.specs.Promises.{Tells};
ghost use Rattle.signature.specs.Parts.{NodeSymbol, ClausesAsked, ClausesOf, ClausesListed};

use super::columns::{CLAUSES, CONCLUSION, FIRST_CLAUSE, MARK};
use arena::PATTERN_ROOM;
use names::{FUNCTION, SymbolRow};
use rules::RuleRow;

// The symbol of the node at an address: that of its header. A word that is no header, or is not there, is read as one of symbol 0.
// Stays: the definition gives such a word the symbol 0, and an option would be turned into it at once.
fn symbol_at(words: &[u32], at: usize) -> usize
    ensures { result ≡ symbol_of (get_or words.now at 0) }
{
    let header = words.get(at).copied().unwrap_or(0);
    arena::symbol_of(header)
}

// The symbol of the node that a reference denotes; a variable has none.
fn node_symbol(words: &[u32], reference: u32) -> Option<usize>
    ensures { NodeSymbol words.now reference result }
{
    let address = reference.checked_sub(PATTERN_ROOM)?;
    Some(symbol_at(words, address as usize))
}

// Is the term of a reference a node of the symbol i?
fn is_node_of(words: &[u32], reference: u32, i: usize) -> bool
    ensures { Tells result ((ts : Terms) × (term_of words.now reference ≡ app i ts)) }
{
    node_symbol(words, reference) == Some(i)
}

// Is the term of a reference a call of one of the symbols?
fn is_call(words: &[u32], reference: u32, symbols: &[SymbolRow]) -> bool
    ensures { (text : List ℕ) → Tells result (Calls (symbols_of text symbols.now (length symbols.now))
        (term_of words.now reference)) }
{
    let Some(i) = node_symbol(words, reference) else {
        return false;
    };
    symbols.get(i).is_some_and(
        |symbol|
            ensures { result ≡ eqb (column symbol.now 3) 1 }
        { symbol[MARK] == FUNCTION },
    )
}

// Are all premises of a rule calls?
fn are_calls(words: &[u32], rule: &RuleRow, symbols: &[SymbolRow]) -> bool
    requires { column rule.now 4 ≤ 16 }
    ensures { (text : List ℕ) → Tells result (Calls (symbols_of text symbols.now (length symbols.now))
        (terms_of (term_of words.now) (heads_in rule.now))) }
{
    rules::premises(rule)
        .iter()
        .all(|reference| is_call(words, *reference, symbols))
}

// Is a rule a clause in form of the symbol i?
fn is_clause(words: &[u32], rule: &RuleRow, symbols: &[SymbolRow], i: usize) -> bool
    requires { column rule.now 4 ≤ 16 }
    ensures { (text : List ℕ) → Tells result (ClauseFormed (symbols_of text symbols.now (length symbols.now)) i
        (rule_in text words.now rule.now)) }
{
    is_node_of(words, rule[CONCLUSION], i) && are_calls(words, rule, symbols)
}

// Are all clauses of the symbol i in form?
// Stays: `function_calls::call` cuts its clauses so too, from the same two columns; one function for both is nine lines with its contract, and saves four.
fn are_clauses_of(words: &[u32], rules: &[RuleRow], symbols: &[SymbolRow], i: usize) -> bool
    requires { ClausesAsked symbols.now rules.now × (i < length symbols.now) }
    ensures { (text : List ℕ) → Tells result (ClausesOf text symbols.now (length symbols.now) rules.now words.now i) }
{
    let first = symbols[i][FIRST_CLAUSE] as usize;
    let n = symbols[i][CLAUSES] as usize;
    rules[first..first + n].iter().all(
        |rule|
            requires { column rule.now 4 ≤ 16 }
        { is_clause(words, rule, symbols, i) },
    )
}

// Are the clauses of all symbols in form? Clauses of two functions cannot be the same rule, so each rule is read once.
pub fn are_listed(words: &[u32], rules: &[RuleRow], symbols: &[SymbolRow]) -> bool
    requires { ClausesAsked symbols.now rules.now }
    ensures { (text : List ℕ) → Tells result (ClausesListed text symbols.now (length symbols.now) rules.now words.now) }
{
    (0..symbols.len()).all(
        |i|
            requires { ClausesAsked symbols.now rules.now × (i < length symbols.now) }
        { are_clauses_of(words, rules, symbols, i) },
    )
}
