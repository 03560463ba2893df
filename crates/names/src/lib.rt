// Names: sorts, symbols and variables, found by their whole names. Two names are the same only if all their bytes are.
#![tactic(auto)]

ghost use Rattle.std.specs.Prelude.{ℕ, ◌≡◌, ◌≤◌, ◌<◌, List, length, get_or, position, cond, eqb, IsTrue, ◌↔◌};
ghost use Rattle.source_text.specs.Bytes.{same_bytes};
ghost use Rattle.source_text.specs.Parts.{part_of};
ghost use Rattle.names.specs.Names.{Name, result_names, result_kind, name_of, name_in};
ghost use Rattle.names.specs.NamePlaces.{NamePlace, is_word_place};
ghost use Rattle.names.specs.Symbols.{column, row_at, sort_of};

pub mod columns; // the columns of the rows of sorts, symbols and variables

use columns::{SIZE, START};
use words::LONGEST;

// A sort: start, length.
pub type SortRow = [u32; 2];

// A symbol: start, length, output, function mark, first clause, number of clauses, number of inputs, 0, 16 inputs.
pub type SymbolRow = [u32; 24];

// How many sorts and symbols there may be.
pub const SORTS: usize = 256;

pub const SYMBOLS: usize = 1024;

// How many premises a rule may have, and so how many calls, as each has a result that is named.
pub const PREMISES: usize = 16;

// A source term: kind, start, length, number of arguments or value.
pub type TermRow = [u32; 4];

// A variable: kind, start, length, sort.
pub type VariableRow = [u32; 4];

// A declaration or a term as it is written: the text, the rows, and the row at which it begins.
// Stays: that the rows are at most 65,536 is asked beside it: `term_check::check_term` takes any number, and a ghost field would ask more of its callers.
#[derive(Clone, Copy)]
pub struct Source<'a> {
    pub text: &'a [u8],
    pub rows: &'a [TermRow],
    pub at: usize,
}

impl<'a> Source<'a> {
    // The same rows, from another row on.
    pub fn from_row(self, at: usize) -> Source<'a>
        ensures { result ≡ record { text = self.entry.text; rows = self.entry.rows; at = at } }
    {
        Source { at, ..self }
    }
}

// Source terms: the text, the rows in which they stand, and the symbols that they may name.
// Stays: that symbols are few, with at most 16 inputs each, is asked beside it: `flattening::flatten` is given source terms too, and asks neither.
#[derive(Clone, Copy)]
pub struct SourceTerms<'a> {
    pub text: &'a [u8],
    pub rows: &'a [TermRow],
    pub symbols: &'a [SymbolRow],
}

// Where a word stands in a text.
#[derive(Clone, Copy)]
pub struct Word {
    pub start: u32,
    pub size: u32,
}

impl Word {
    // The word that a row begins with, as those of sorts, symbols and rules do.
    pub fn at_start<const N: usize>(row: &[u32; N]) -> Word
        requires { 2 ≤ N }
        ensures { result ≡ record { start = column row.now 0; size = column row.now 1 } }
    {
        Word {
            start: row[START],
            size: row[SIZE],
        }
    }

    // The word behind a row's kind, where source terms and variables have theirs.
    pub fn behind_kind(row: &[u32; 4]) -> Word
        ensures { result ≡ record { start = column row.now 1; size = column row.now 2 } }
    {
        let [_, start, size, _] = *row;
        Word { start, size }
    }
}

// The kind of a row that stands for a variable of flattening, whose place is in `RESULT_NAMES`.
// Stays: flattening writes it into scratch only, but in the column of the kinds that C callers lend, which may be any number: `check_term` refuses it there.
pub const RESULT: u32 = 27;

// The marks in a symbol's row: of a constructor or predicate, and of a function.
// Stays: C callers lend the rows, so a mark is a number there, and may be none of these; a type of marks would be converted at each read and write.
pub const NO_FUNCTION: u32 = 0;

pub const FUNCTION: u32 = 1;

// The names `result.1` to `result.16`, 16 bytes each.
static RESULT_NAMES: [u8; 16 * PREMISES] =
    *b"result.1\0\0\0\0\0\0\0\0result.2\0\0\0\0\0\0\0\0result.3\0\0\0\0\0\0\0\0result.4\0\0\0\0\0\0\0\0result.5\0\0\0\0\0\0\0\0result.6\0\0\0\0\0\0\0\0result.7\0\0\0\0\0\0\0\0result.8\0\0\0\0\0\0\0\0result.9\0\0\0\0\0\0\0\0result.10\0\0\0\0\0\0\0result.11\0\0\0\0\0\0\0result.12\0\0\0\0\0\0\0result.13\0\0\0\0\0\0\0result.14\0\0\0\0\0\0\0result.15\0\0\0\0\0\0\0result.16\0\0\0\0\0\0\0";

// The word at a place of a text.
pub fn part<'a>(text: &'a [u8], word: Word) -> &'a [u8]
    ensures { result.now ≡ part_of text.now word.start word.size }
{
    words::word(text, word.start as usize, word.size as usize)
}

// Writes the numbers in one column of rows.
// Stays: tried `numbers.iter_mut().zip(rows)`: the loop's invariant can't name the numbers then, and so nothing is known of what was written.
pub fn put_column<const N: usize>(rows: &[[u32; N]], at: usize, numbers: &mut [u32])
    requires { (at < N) × (length rows.now ≤ length numbers.old) }
    ensures { (i : ℕ) → i < length rows.now → get_or numbers.new i 0 ≡ column (row_at rows.now i) at }
{
    for (i, row) in rows.iter().enumerate() {
        numbers[i] = row[at];
    }
}

// May a word have this place: inside the text, with 1 to 64 bytes?
pub fn is_word_place(text: &[u8], word: Word) -> bool
    ensures is { result ≡ is_word_place text.now word.start word.size }
    ensures told { IsTrue result ↔ NamePlace text.now word.start word.size }
{
    let start = word.start as usize;
    let size = word.size as usize;
    0 < size && size <= LONGEST && start + size <= text.len()
}

// Is the word at a place of a text w? Most words differ in length, so that is looked at before the place.
fn is_word(text: &[u8], word: Word, w: &[u8]) -> bool
    ensures { result ≡ same_bytes (part_of text.now word.start word.size) w.now }
{
    if w.len() != word.size as usize {
        if 0 < w.len() {
            return false;
        }
    }
    words::same(part(text, word), w)
}

// The bytes among which the name of a row of this kind stands.
fn names_of<'a>(text: &'a [u8], kind: u32) -> &'a [u8]
    ensures { result.now ≡ cond (eqb kind result_kind) result_names text.now }
{
    if kind == RESULT { &RESULT_NAMES } else { text }
}

// Is the name at a place w?
pub fn is_named(text: &[u8], kind: u32, word: Word, w: &[u8]) -> bool
    ensures { result ≡ same_bytes (name_of text.now kind word.start word.size) w.now }
{
    is_word(names_of(text, kind), word, w)
}

// A row with a name.
pub trait Named {
    ghost name: { List ℕ → Self → Name };

    // Is the row called w?
    fn is_called(&self, text: &[u8], w: &[u8]) -> bool
        ensures { result ≡ same_bytes (name text.now self.now) w.now };
}

// Stays: the row of a variable is a `[u32; N]` too, so that one impl for sorts and symbols would overlap with that of variables.
impl Named for SortRow {
    ghost name = { sort_of };

    fn is_called(&self, text: &[u8], w: &[u8]) -> bool {
        is_word(text, Word::at_start(self), w)
    }
}

impl Named for SymbolRow {
    ghost name = { sort_of };

    fn is_called(&self, text: &[u8], w: &[u8]) -> bool {
        is_word(text, Word::at_start(self), w)
    }
}

impl Named for VariableRow {
    ghost name = { name_in };

    fn is_called(&self, text: &[u8], w: &[u8]) -> bool {
        is_named(text, self[0], Word::behind_kind(self), w)
    }
}

// The number of the first row that is called w.
pub fn find<R: Named>(text: &[u8], rows: &[R], w: &[u8]) -> Option<usize>
    ensures { result ≡ position (λ row. same_bytes (R.name text.now row) w.now) rows.now }
{
    rows.iter().position(|row| row.is_called(text, w))
}

// The number of the first row whose name stands at a place.
pub fn find_at<R: Named>(text: &[u8], rows: &[R], kind: u32, word: Word) -> Option<usize>
    ensures { result ≡ position (λ row. same_bytes (R.name text.now row) (name_of text.now kind word.start word.size)) rows.now }
{
    find(text, rows, part(names_of(text, kind), word))
}
