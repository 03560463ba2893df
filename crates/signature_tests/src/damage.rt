// Damaged signatures, which `check_signature` must refuse: in a stored one that it accepts a single number is changed, and then put back.
ghost use Rattle.std.specs.Prelude.{◌≡◌, ◌<◌, length};
ghost use Rattle.load_storage.specs.Lent.{buffers_of, IsLent};
ghost use Rattle.signature.specs.Storage.{SignatureChecked};
ghost use Rattle.signature_tests.specs.Damage.{Stands, number_at, changed, loaded_in};

use crate::buffers;
use arena::PATTERN_ROOM;
use load_storage::LentBuffers;
use names::{SortRow, SymbolRow};
use rules::{RULES, RuleRow};
use signature::columns::{
    CLAUSE, FIRST_CLAUSE, FIRST_PREMISE, FIRST_WORD, OUTPUT, PREMISE_WORDS, PREMISES, SIZE, START,
    VARIABLES,
};
use signature::{Counts, StoredSignature};
use std::mem;
use words::{LONGEST, TEXT};

// The most bytes of a name, and the largest clause number.
const BYTES: u32 = LONGEST as u32;

const LAST_CLAUSE: u32 = RULES as u32;

// Neither a header nor a reference.
const NO_WORD: u32 = 0xFFFF_FFFF;

// A signature that was loaded, whose storage is damaged and put right again.
// Stays: with `LentBuffers` in it, the definitions of damage would speak of four buffers more, which no test here reads or changes.
// Stays: that a row or spot stands in what is loaded is asked beside it; a struct of both would be made anew for each number that is changed.
// Stays: each test promises that all is as it was (`loaded.new ≡ loaded.old`); an invariant tells of one value, and not of the one before.
#[derive(Drop)]
struct LoadedSignature<'a> {
    text: &'a [u8],
    sorts: &'a mut [SortRow],
    symbols: &'a mut [SymbolRow],
    rules: &'a mut [RuleRow],
    words: &'a mut [u32],
    counts: Counts,
}

// Where a number stands: in a row and a column of one of the tables, or among the words.
#[derive(Clone, Copy)]
enum Spot {
    Sort(usize, usize),
    Symbol(usize, usize),
    Rule(usize, usize),
    Word(usize),
}

// Is it accepted as it stands?
fn is_accepted(loaded: &LoadedSignature) -> bool
    ensures { SignatureChecked loaded.now.text.now (loaded_in loaded.now) result }
{
    signature::check_signature(
        loaded.text,
        StoredSignature {
            sorts: loaded.sorts,
            symbols: loaded.symbols,
            rules: loaded.rules,
            words: loaded.words,
            counts: loaded.counts,
        },
    )
}

// Puts a number at a place, and answers the one that stood there.
// Stays: tried with one `replace` behind the `match`: no reference may be one of four; a function that lends it would have these arms and a starred clause.
fn exchange(loaded: &mut LoadedSignature, spot: Spot, value: u32) -> u32
    requires { Stands spot loaded.old }
    ensures before { result ≡ number_at spot loaded.old }
    ensures changed { loaded.new ≡ changed spot loaded.old value }
{
    match spot {
        Spot::Sort(row, column) => mem::replace(&mut loaded.sorts[row][column], value),
        Spot::Symbol(row, column) => mem::replace(&mut loaded.symbols[row][column], value),
        Spot::Rule(row, column) => mem::replace(&mut loaded.rules[row][column], value),
        Spot::Word(at) => mem::replace(&mut loaded.words[at], value),
    }
}

// Is it accepted with another number at a place? The storage is left as it was.
fn is_accepted_with(loaded: &mut LoadedSignature, spot: Spot, value: u32) -> bool
    requires { Stands spot loaded.old }
    ensures checked { SignatureChecked loaded.old.text.now (loaded_in (changed spot loaded.old value)) result }
    ensures kept { loaded.new ≡ loaded.old }
{
    let before = exchange(loaded, spot, value);
    let accepted = is_accepted(loaded);
    exchange(loaded, spot, before);
    accepted
}

// The place past a text, of which no more is loaded than the limit.
fn end(text: &[u8]) -> u32 {
    text.len().min(TEXT as usize) as u32
}

// Tests that it is refused with another number at a place.
fn expect_refused(loaded: &mut LoadedSignature, spot: Spot, value: u32, claim: &[u8])
    requires { Stands spot loaded.old }
    ensures { loaded.new ≡ loaded.old }
{
    let accepted = is_accepted_with(loaded, spot, value);
    buffers::expect(!accepted, claim);
}

// Tests a name by the place of its length.
fn test_name(loaded: &mut LoadedSignature, size: Spot)
    requires { Stands size loaded.old }
    ensures { loaded.new ≡ loaded.old }
{
    expect_refused(loaded, size, 0, b"refused with an empty name");
    expect_refused(loaded, size, BYTES + 1, b"refused with a name of 65 bytes");
}

// Tests the place of a name: where it starts, and its length.
fn test_place(loaded: &mut LoadedSignature, start: Spot, size: Spot, claim: &[u8])
    requires { Stands start loaded.old × Stands size loaded.old }
    ensures { loaded.new ≡ loaded.old }
{
    let past = end(loaded.text);
    expect_refused(loaded, start, past, claim);
    test_name(loaded, size);
}

// Tests one sort.
fn test_sort(loaded: &mut LoadedSignature, i: usize)
    requires { i < length loaded.old.sorts.now }
    ensures { loaded.new ≡ loaded.old }
{
    let claim = b"refused with a sort's name past the text";
    test_place(loaded, Spot::Sort(i, START), Spot::Sort(i, SIZE), claim);
}

// Tests one symbol.
fn test_symbol(loaded: &mut LoadedSignature, i: usize)
    requires { i < length loaded.old.symbols.now }
    ensures { loaded.new ≡ loaded.old }
{
    let claim = b"refused with a symbol's name past the text";
    test_place(loaded, Spot::Symbol(i, START), Spot::Symbol(i, SIZE), claim);
    let no_sort = loaded.counts.sorts.wrapping_add(1);
    let claim = b"refused with an output past the sorts";
    expect_refused(loaded, Spot::Symbol(i, OUTPUT), no_sort, claim);
}

// Tests the clauses of one symbol: the rule before the first of them was loaded before the function, and so concludes in no node of it.
fn test_first_clause(loaded: &mut LoadedSignature, i: usize)
    requires { i < length loaded.old.symbols.now }
    ensures { loaded.new ≡ loaded.old }
{
    let Some(before) = loaded.symbols[i][FIRST_CLAUSE].checked_sub(1) else {
        return;
    };
    let claim = b"refused with a clause of another function";
    expect_refused(loaded, Spot::Symbol(i, FIRST_CLAUSE), before, claim);
}

// Has the text 64 bytes from a place on?
fn has_bytes(text: &[u8], start: u32) -> bool {
    start as usize + BYTES as usize <= text.len()
}

// Tests the name of one rule: rules may have the same name, so 64 bytes are accepted where the text has them.
fn test_rule_name(loaded: &mut LoadedSignature, i: usize)
    requires { i < length loaded.old.rules.now }
    ensures { loaded.new ≡ loaded.old }
{
    let size = Spot::Rule(i, SIZE);
    test_name(loaded, size);
    if !has_bytes(loaded.text, loaded.rules[i][START]) {
        return;
    }
    let accepted = is_accepted_with(loaded, size, BYTES);
    buffers::expect(accepted, b"accepted with a rule's name of 64 bytes");
}

// Tests the clause number of one rule.
fn test_clause(loaded: &mut LoadedSignature, i: usize)
    requires { i < length loaded.old.rules.now }
    ensures { loaded.new ≡ loaded.old }
{
    let number = Spot::Rule(i, CLAUSE);
    let accepted = is_accepted_with(loaded, number, LAST_CLAUSE);
    buffers::expect(accepted, b"accepted with the clause number 1,024");
    let claim = b"refused with the clause number 1,025";
    expect_refused(loaded, number, LAST_CLAUSE + 1, claim);
}

// Tests the variables of one rule.
fn test_variables(loaded: &mut LoadedSignature, i: usize)
    requires { i < length loaded.old.rules.now }
    ensures { loaded.new ≡ loaded.old }
{
    let more = loaded.rules[i][VARIABLES].wrapping_add(1);
    let claim = b"refused with one variable more";
    expect_refused(loaded, Spot::Rule(i, VARIABLES), more, claim);
}

// The reference of a node past so many words of premises.
fn past_premises(first: u32, count: u32) -> u32 {
    PATTERN_ROOM.wrapping_add(first).wrapping_add(count)
}

// Tests the first premise of one rule, if it has any.
fn test_premise(loaded: &mut LoadedSignature, i: usize)
    requires { i < length loaded.old.rules.now }
    ensures { loaded.new ≡ loaded.old }
{
    let row = loaded.rules[i];
    if row[PREMISES] == 0 {
        return;
    }
    let past = past_premises(row[FIRST_WORD], row[PREMISE_WORDS]);
    let claim = b"refused with a premise past its part";
    expect_refused(loaded, Spot::Rule(i, FIRST_PREMISE), past, claim);
}

// Tests each sort.
// Stays: each of the four functions has its own count and tests; one loop would take both as closures over what is loaded, for bodies of a line to four.
fn test_sorts(loaded: &mut LoadedSignature)
    ensures { loaded.new ≡ loaded.old }
{
    for i in 0..usize::min(loaded.counts.sorts as usize, loaded.sorts.len()) {
        test_sort(loaded, i);
    }
}

// Tests each symbol.
fn test_symbols(loaded: &mut LoadedSignature)
    ensures { loaded.new ≡ loaded.old }
{
    for i in 0..usize::min(loaded.counts.symbols as usize, loaded.symbols.len()) {
        test_symbol(loaded, i);
        test_first_clause(loaded, i);
    }
}

// Tests each rule.
fn test_rules(loaded: &mut LoadedSignature)
    ensures { loaded.new ≡ loaded.old }
{
    for i in 0..usize::min(loaded.counts.rules as usize, loaded.rules.len()) {
        test_rule_name(loaded, i);
        test_clause(loaded, i);
        test_variables(loaded, i);
        test_premise(loaded, i);
    }
}

// Tests each word.
// Stays: each of the four functions has its own count and tests; one loop would take both as closures over what is loaded, for bodies of a line to four.
fn test_words(loaded: &mut LoadedSignature)
    ensures { loaded.new ≡ loaded.old }
{
    for i in 0..usize::min(loaded.counts.words as usize, loaded.words.len()) {
        let claim = b"refused with a word that is none";
        expect_refused(loaded, Spot::Word(i), NO_WORD, claim);
    }
}

// Tests a signature that was loaded, and leaves what is lent as it was.
pub fn test(text: &[u8], lent: &mut LentBuffers, counts: Counts)
    ensures lent { IsLent lent.old lent.new }
    ensures kept { buffers_of lent.new ≡ buffers_of lent.old }
{
    let mut loaded = LoadedSignature {
        text,
        sorts: &mut *lent.sorts,
        symbols: &mut *lent.symbols,
        rules: &mut *lent.rules,
        words: &mut *lent.words,
        counts,
    };
    test_sorts(&mut loaded);
    test_symbols(&mut loaded);
    test_rules(&mut loaded);
    test_words(&mut loaded);
}
