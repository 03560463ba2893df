// Storage of `load`: whether lent buffers are as long as docs/STORAGE.md lists, and what is cleared of them.
//
// All functions here serve `load` and its tests, and ask nothing of their caller.
#![tactic(auto)]

ghost use Rattle.std.specs.Prelude.{◌≡◌, replicate};
ghost use Rattle.load_storage.specs.Storage.{cleared_from, is_short, SignatureCleared, ScratchCleared, Wiped, AllFilled};
ghost use Rattle.load_storage.specs.Lent.{buffers_of, lengths_of, IsLent};

use names::{SORTS, SYMBOLS, SortRow, SymbolRow, TermRow};
use rules::{PREMISES, RULES, RuleRow};

// An `#eval` that waits: its line, and the row of its term.
pub type EvalRow = [u32; 2];

// All that a caller of `load` lends: scratch and rows for reading a text, storage for a signature, and rows for the `#eval` that wait.
// Stays: each function promises that the same buffers are lent afterwards (`IsLent`); an invariant tells of one value, and not of the one before.
#[derive(Drop)]
pub struct LentBuffers<'a> {
    pub tokens: &'a mut [TermRow],
    pub rows: &'a mut [TermRow],
    pub calls: &'a mut [TermRow],
    pub sorts: &'a mut [SortRow],
    pub symbols: &'a mut [SymbolRow],
    pub rules: &'a mut [RuleRow],
    pub words: &'a mut [u32],
    pub evals: &'a mut [EvalRow],
}

// The lengths of such buffers.
#[derive(Clone, Copy)]
pub struct Lengths {
    pub tokens: usize,
    pub rows: usize,
    pub calls: usize,
    pub sorts: usize,
    pub symbols: usize,
    pub rules: usize,
    pub words: usize,
    pub evals: usize,
}

impl LentBuffers<'_> {
    // How long they are.
    pub fn lengths(&self) -> Lengths
        ensures { result ≡ lengths_of (buffers_of self.now) }
    {
        Lengths {
            tokens: self.tokens.len(),
            rows: self.rows.len(),
            calls: self.calls.len(),
            sorts: self.sorts.len(),
            symbols: self.symbols.len(),
            rules: self.rules.len(),
            words: self.words.len(),
            evals: self.evals.len(),
        }
    }

    // Sets every number of every buffer to a value.
    pub fn fill(&mut self, value: u32)
        ensures filled { AllFilled value (buffers_of self.old) (buffers_of self.new) }
        ensures lent { IsLent self.old self.new }
    {
        fill_rows(self.tokens, 0, value);
        fill_rows(self.rows, 0, value);
        fill_rows(self.calls, 0, value);
        fill_rows(self.sorts, 0, value);
        fill_rows(self.symbols, 0, value);
        fill_rows(self.rules, 0, value);
        self.words.fill(value);
        fill_rows(self.evals, 0, value);
    }
}

// How much of a signature's storage is in use.
// Stays: `leave` serves counts of any size, `signature::Counts` has 32 bits; one `Counts<N>` saves four fields here, for an argument in ten types.
#[derive(Clone, Copy, Default)]
pub struct Used {
    pub sorts: usize,
    pub symbols: usize,
    pub rules: usize,
    pub words: usize,
}

// Sets each number of the rows from a place on to a value, whatever their width.
fn fill_rows<const N: usize>(rows: &mut [[u32; N]], from: usize, value: u32)
    ensures { rows.new ≡ cleared_from (replicate N value) from rows.old }
{
    slices::clear_from(rows, from, [value; N]);
}

// Zeroes the scratch, and the rows of `#eval` from a count on.
fn clear_scratch(
    tokens: &mut [TermRow],
    calls: &mut [TermRow],
    evals: &mut [EvalRow],
    waiting: usize,
)
    ensures { ScratchCleared tokens.old calls.old evals.old waiting tokens.new calls.new evals.new }
{
    fill_rows(tokens, 0, 0);
    fill_rows(calls, 0, 0);
    fill_rows(evals, waiting, 0);
}

// Zeroes the storage of a signature from the counts on.
fn clear_signature(
    sorts: &mut [SortRow],
    symbols: &mut [SymbolRow],
    rules: &mut [RuleRow],
    words: &mut [u32],
    used: Used,
)
    ensures { SignatureCleared sorts.old symbols.old rules.old words.old used.sorts used.symbols used.rules used.words sorts.new symbols.new rules.new words.new }
{
    fill_rows(sorts, used.sorts, 0);
    fill_rows(symbols, used.symbols, 0);
    fill_rows(rules, used.rules, 0);
    slices::clear_from(words, used.words, 0);
}

// Zeroes the scratch, and the rest of the storage from the counts on.
pub fn leave(buffers: &mut LentBuffers, used: Used, waiting: usize)
    ensures scratch_cleared { ScratchCleared buffers.old.tokens.now buffers.old.calls.now buffers.old.evals.now waiting buffers.new.tokens.now buffers.new.calls.now buffers.new.evals.now }
    ensures signature_cleared { SignatureCleared buffers.old.sorts.now buffers.old.symbols.now buffers.old.rules.now buffers.old.words.now used.sorts used.symbols used.rules used.words buffers.new.sorts.now buffers.new.symbols.now buffers.new.rules.now buffers.new.words.now }
    ensures rows { buffers.new.rows.now ≡ buffers.old.rows.now }
    ensures lent { IsLent buffers.old buffers.new }
{
    clear_scratch(buffers.tokens, buffers.calls, buffers.evals, waiting);
    clear_signature(
        buffers.sorts,
        buffers.symbols,
        buffers.rules,
        buffers.words,
        used,
    );
}

// Zeroes everything.
// Stays: `load` owes `Wiped`; of `fill(0)` in its place it would get what each buffer holds, and its proof would put them together.
pub fn leave_nothing(buffers: &mut LentBuffers)
    ensures wiped { Wiped (buffers_of buffers.old) (buffers_of buffers.new) }
    ensures lent { IsLent buffers.old buffers.new }
{
    buffers.fill(0);
}

// Are buffers of these lengths shorter than docs/STORAGE.md lists?
pub fn is_short(limits: words::Limits, lengths: Lengths) -> bool
    ensures { result ≡ is_short limits lengths.tokens lengths.rows lengths.calls lengths.sorts lengths.symbols lengths.rules lengths.words lengths.evals }
{
    let capped = limits.capped();
    let text = capped.text as usize;
    let nodes = capped.nodes as usize;
    if lengths.sorts < SORTS {
        return true;
    }
    lengths.tokens < text
        || lengths.rows < text
        || lengths.calls < text + 2 * PREMISES
        || lengths.symbols < SYMBOLS
        || lengths.rules < RULES
        || lengths.words < 2 * nodes
        || lengths.evals < text / 2
}
