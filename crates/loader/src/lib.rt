// The loader: from declarations to a signature. Its definition is `load_of` in specs/Signature; here are the functions that enter sorts, symbols and rules.
//
// All functions here serve the crates above: they ask for storage of the listed sizes.
#![tactic(auto)]

ghost use Rattle.std.specs.Prelude.{◌≡◌, [], ◌∷◌, ◌+◌, ◌-◌, ◌≤◌, ◌<◌, length, set, cond};
ghost use Rattle.source_text.specs.Parts.{part_of};
ghost use Rattle.names.specs.Symbols.{column, row_at, sorts_of, symbols_of};
ghost use Rattle.loader.specs.Known.{sorts_known, symbols_known};
ghost use Rattle.loader.specs.Kinds.{marks_of};
ghost use Rattle.patterns.specs.Promises.{RefusedFor};
ghost use Rattle.loader.specs.Signature.{is_taken, sort_refusal, symbol_refusal, numbers_of};
ghost use Rattle.loader.specs.Rows.{symbol_row, entered};
ghost use Rattle.loader.specs.Entering.{RuleAsked, RuleEntered};
ghost use Rattle.loader.specs.Arrows.{names_at, Arrowing};
ghost use Rattle.loader.specs.SymbolEntry.{SymbolAnswered};

use arena::INPUTS;
use clauses::EnteredRule;
use names::columns::FIRST_INPUT;
use names::{FUNCTION, SortRow, Source, SourceTerms, SymbolRow, Word};
use refusals::Refusal;
use rules::{RulePlace, RuleRow, SourceRule, Title};

// How many sorts and symbols there may be.
pub use names::{SORTS, SYMBOLS};

// The names that there are: the rows of the sorts and symbols in use, and the text in which their names stand.
// Stays: that sorts and symbols are few is asked beside it: `check_symbol` takes any number of both, and a ghost field would ask more of its callers.
#[derive(Clone, Copy)]
pub struct Known<'a> {
    pub text: &'a [u8],
    pub sorts: &'a [SortRow],
    pub symbols: &'a [SymbolRow],
}

// A part of a declaration: where it begins, and how many items it has.
#[derive(Clone, Copy)]
pub struct Part<'a> {
    pub source: Source<'a>,
    pub k: usize,
}

// Is a word the name of a sort or a symbol?
fn is_taken(known: Known, word: &[u8]) -> bool
    ensures { result ≡ is_taken (sorts_known known.entry) (symbols_known known.entry) word.now }
{
    if names::find(known.text, known.sorts, word).is_some() {
        return true;
    }
    names::find(known.text, known.symbols, word).is_some()
}

// Enters the sort whose name stands at a place.
// Stays: the row behind those in use is written, so a part in use would not do.
pub fn enter_sort(
    text: &[u8],
    sorts: &mut [SortRow],
    many: usize,
    symbols: &[SymbolRow],
    word: Word,
) -> Result<(), Refusal>
    requires { (256 ≤ length sorts.old) × (many ≤ 256) }
    ensures value { RefusedFor (sort_refusal (sorts_of text.now sorts.old many) (symbols_of text.now symbols.now (length symbols.now)) (part_of text.now word.start word.size)) result }
    ensures sorts_after { sorts.new ≡ entered (sort_refusal (sorts_of text.now sorts.old many) (symbols_of text.now symbols.now (length symbols.now)) (part_of text.now word.start word.size)) sorts.old many (word.start ∷ word.size ∷ []) }
{
    let known = Known {
        text,
        sorts: &sorts[..many],
        symbols,
    };
    if is_taken(known, names::part(text, word)) {
        return Err(Refusal::AlreadyDeclared);
    }
    if many < SORTS {
        sorts[many] = [word.start, word.size];
        return Ok(());
    }
    Err(Refusal::Full)
}

// May a symbol with k inputs be entered by a name?
// Stays: `k` is how many inputs the symbol has, not how many bytes of the word are meant.
pub fn check_symbol(known: Known, word: &[u8], k: usize) -> Result<(), Refusal>
    ensures { RefusedFor (symbol_refusal (sorts_known known.entry) (symbols_known known.entry) word.now k) result }
{
    if is_taken(known, word) {
        return Err(Refusal::AlreadyDeclared);
    }
    if (INPUTS as usize) < k {
        return Err(Refusal::Full);
    }
    let count = known.symbols.len();
    if count < SYMBOLS {
        return Ok(());
    }
    Err(Refusal::Full)
}

// A symbol but for its inputs: where its name stands, its output, its function mark, and its clauses.
// Stays: these are the numbers of the row that C callers lend, where 0 stands for no output and for no first clause.
#[derive(Clone, Copy)]
pub struct SymbolHead {
    pub word: Word,
    pub output: u32,
    pub function: u32,
    pub first: u32,
    pub clauses: u32,
}

// Writes a symbol into its row.
// Stays: a `From` could not ask that the inputs fit the row's columns.
pub fn put_symbol(row: &mut SymbolRow, symbol: SymbolHead, inputs: &[u32])
    requires { length inputs.now ≤ 16 }
    ensures { row.new ≡ symbol_row symbol.word.start symbol.word.size symbol.output symbol.function symbol.first symbol.clauses (length inputs.now) inputs.now }
{
    let n = inputs.len() as u32;
    let SymbolHead {
        word,
        output,
        function,
        first,
        clauses,
    } = symbol;
    *row = [
        word.start, word.size, output, function, first, clauses, n, 0, 0, 0, 0, 0, 0, 0, 0, 0, 0,
        0, 0, 0, 0, 0, 0, 0,
    ];
    row[FIRST_INPUT..FIRST_INPUT + inputs.len()].copy_from_slice(inputs);
}

// Looks up the sorts whose names stand in the rows of a part; the numbers of the first 16 go to `inputs`, and that of the last is answered, if all are
// known: 0 of a part with no sorts.
// Stays: the last number is read of a constructor alone, and `declare` refuses one without sorts; an inner option would become 0 in `enter_symbol`.
pub fn find_arrow(part: Part, sorts: &[SortRow], inputs: &mut [u32]) -> Option<u32>
    requires { (length sorts.now ≤ 256) × (part.source.at + part.k ≤ length part.source.rows.now) × (length part.source.rows.now ≤ 65536) × (length inputs.old ≡ 16) }
    ensures { Arrowing (numbers_of (sorts_of part.entry.source.text.now sorts.now (length sorts.now)) (names_at part.entry.source.text.now part.entry.source.rows.now part.entry.source.at part.entry.k)) result inputs.new part.entry.k }
{
    let Part { source, k } = part;
    let Source { text, rows, at } = source;
    let mut last = 0;
    // Stays: the names may be more than `inputs` has places for, where a `zip` would end before the last of them.
    for (i, row) in rows[at..at + k].iter().enumerate() {
        let word = Word::behind_kind(row);
        let s = names::find(text, sorts, names::part(text, word))?;
        last = s as u32 + 1;
        slices::put(inputs, i, last);
    }
    Some(last)
}

// What a symbol is. The clauses of a function are so many rules from the first on.
#[derive(Clone, Copy)]
pub enum Kind {
    Constructor,
    Predicate,
    Function { first: u32, clauses: u32 },
}

// What a symbol is, as the columns of its row have it: whether its last sort is its output, its function mark, and its clauses.
// Stays: `enter_symbol` promises the row of any four numbers, as a row that C lends may hold; a `Kind` has only those of a declaration, and would ask more.
// Stays: three of these are in `SymbolHead` too, which has an output in place of `constructor`; a struct of the three would be nested in both.
#[derive(Clone, Copy, Default)]
pub struct SymbolMarks {
    pub constructor: bool,
    pub function: u32,
    pub first: u32,
    pub clauses: u32,
}

impl From<Kind> for SymbolMarks {
    ghost from_gives = { λ kind marks. marks ≡ marks_of kind };

    fn from(symbol: Kind) -> SymbolMarks {
        match symbol {
            Kind::Constructor => SymbolMarks {
                constructor: true,
                ..SymbolMarks::default()
            },
            Kind::Predicate => SymbolMarks::default(),
            Kind::Function { first, clauses } => SymbolMarks {
                constructor: false,
                function: FUNCTION,
                first,
                clauses,
            },
        }
    }
}

impl SymbolMarks {
    // How many of k sorts are inputs: a constructor's last is its output.
    fn input_count(self, k: usize) -> usize
        ensures { result ≡ cond self.constructor (k - 1) k }
    {
        if self.constructor {
            return k.saturating_sub(1);
        }
        k
    }

    // The symbol whose name stands at a place and whose last sort has a number.
    fn head(self, word: Word, last: u32) -> SymbolHead
        ensures { result ≡ record { word = word; output = cond self.constructor last 0; function = self.function; first = self.first; clauses = self.clauses } }
    {
        let SymbolMarks {
            constructor,
            function,
            first,
            clauses,
        } = self;
        SymbolHead {
            word,
            output: if constructor { last } else { 0 },
            function,
            first,
            clauses,
        }
    }
}

// Enters a symbol whose name stands at the row of a part and whose k sorts stand in the rows behind it.
// Stays: the row behind those in use is written, so a part in use would not do.
pub fn enter_symbol(
    part: Part,
    marks: SymbolMarks,
    sorts: &[SortRow],
    symbols: &mut [SymbolRow],
    count: usize,
) -> Result<(), Refusal>
    requires { (part.source.at + 1 + part.k ≤ length part.source.rows.now) × (length part.source.rows.now ≤ 65536) × (length sorts.now ≤ 256) × (count ≤ 1024) × (1024 ≤ length symbols.old) }
    ensures { SymbolAnswered part.entry.source.text.now part.entry.source.rows.now (part.entry.source.at + 1) part.entry.k (column (row_at part.entry.source.rows.now part.entry.source.at) 1) (column (row_at part.entry.source.rows.now part.entry.source.at) 2) marks.constructor marks.function marks.first marks.clauses sorts.now (length sorts.now) symbols.old count result symbols.new }
{
    let Part { source, k } = part;
    let Source { text, rows, at } = source;
    let mut inputs = [0u32; INPUTS as usize];
    let behind = Part {
        source: source.from_row(at + 1),
        k,
    };
    let last = find_arrow(behind, sorts, &mut inputs).ok_or(Refusal::UnknownSort)?;
    let n = marks.input_count(k);
    let known = Known {
        text,
        sorts,
        symbols: &symbols[..count],
    };
    let word = Word::behind_kind(&rows[at]);
    check_symbol(known, names::part(text, word), n)?;
    let symbol = marks.head(word, last);
    put_symbol(&mut symbols[count], symbol, &inputs[..n]);
    Ok(())
}

// Enters a rule, given the word that is its name and the part that has its judgments, at a place.
pub fn enter_rule(
    part: Part,
    word: Word,
    symbols: &[SymbolRow],
    words: &mut [u32],
    rules: &mut [RuleRow],
    place: RulePlace,
) -> Result<EnteredRule, Refusal>
    requires { RuleAsked part.source.text.now part.source.rows.now part.source.at part.k symbols.now (length symbols.now) words.old place.space.used place.space.room rules.old }
    ensures { RuleEntered part.entry.source.text.now part.entry.source.rows.now part.entry.source.at part.entry.k word.start word.size (symbols_of part.entry.source.text.now symbols.now (length symbols.now)) words.old place.space.used place.space.room rules.old place.number result words.new rules.new }
{
    let Part { source, k } = part;
    let Source { text, rows, at } = source;
    let n = k - 1;
    let here = clauses::skip(rows, at, n);
    let next = clauses::skip(rows, here, 1);
    let premises = SourceTerms {
        text,
        rows,
        symbols,
    };
    let rule = SourceRule {
        premises,
        at,
        n,
        conclusions: rows,
        here,
    };
    let title = Title { word, clause: 0 };
    let left = rules::rule(rule, title, words, rules, place)?;
    Ok(EnteredRule { next, space: left })
}
