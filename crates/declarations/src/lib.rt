// Declarations: each enters what it declares into the signature's storage, or is refused by 17 to 28, or by 0 where rows are no
// declaration's. The definition is `declare` in crates/loader/specs/Signature; what storage holds between two declarations is `Held` in specs/Held.
//
// All functions here serve the crates above: they ask for storage of the listed sizes.
#![tactic(auto)]

ghost use Rattle.std.specs.Prelude.{◌≡◌, Ok, cond, [], ◌∷◌, ◌+◌, ◌≤◌, min, eqb, length};
ghost use Rattle.names.specs.Symbols.{column, row_at, sorts_of, symbols_of};
ghost use Rattle.loader.specs.Signature.{sort_refusal};
ghost use Rattle.loader.specs.Rows.{entered};
ghost use Rattle.declarations.specs.Steps.{name_at, GoesTo, SomeOf, sort_progress, SymbolAsked, SymbolDeclared, progress_of, RuleAsked, RuleDeclared, ClauseAsked, ClauseDeclared, ClausesAsked, ClausesDeclared, DefAsked, DefDeclared, DeclareAsked, DeclareDone};
ghost use Rattle.declarations.specs.Lent.{IsLent};
ghost use Rattle.loader.specs.Kinds.{is_constructor, mark_in, first_in, clauses_in};

use clauses::{EnteredRule, SourceClause};
use loader::{Kind, Part, SymbolMarks};
use names::{SortRow, Source, SourceTerms, SymbolRow, TermRow, Word};
use refusals::Refusal;
use rules::{RULE_NODES, RulePlace, RuleRow, Space, Title};
use words::{CTOR, DEF, EVAL, PRED, RULE, SORT};

// How many sorts, symbols and rules there are, how many words are in use, and how many nodes are left.
// Stays: `Counts` of 32 bits would ask more of callers; tried as `load_storage::Used` with `left`: 6 lines more, since each update is of two structs.
#[derive(Clone, Copy, Default)]
pub struct State {
    pub sorts: usize,
    pub symbols: usize,
    pub rules: usize,
    pub used: usize,
    pub left: usize,
}

impl State {
    // Where the next rule goes, and the room for its nodes.
    fn next_rule(self) -> RulePlace
        ensures { result ≡ record { number = self.rules; space = record { used = self.used; room = min 1024 self.left } } }
    {
        RulePlace {
            number: self.rules,
            space: Space {
                used: self.used,
                room: self.left.min(RULE_NODES),
            },
        }
    }

    // What there is behind a rule for which m nodes were allowed.
    fn with_rule(self, m: usize, rule: EnteredRule) -> Progress
        requires { (rule.space.room ≤ m) × (m ≤ self.left) × (self.rules ≤ 1024) }
        ensures { Ok result ≡ progress_of self m (Ok rule) }
    {
        Progress {
            next: rule.next,
            state: State {
                rules: self.rules + 1,
                used: rule.space.used,
                left: self.left - (m - rule.space.room),
                ..self
            },
        }
    }
}

// How far declaring is: the next row, and what there is.
// Stays: one `Ended<T>` of `Progress`, `EnteredRule`, `Expressed` and `Decimal` would call `item` what is `state`, `space`, `outcome` and `value`.
#[derive(Clone, Copy)]
pub struct Progress {
    pub next: usize,
    pub state: State,
}

// What rules are written to: their rows and words, and scratch in which clauses are flattened.
// Stays: sorts and symbols go apart, since functions that only read them would have to promise that they stand; the counts, since they are answered.
// Stays: each function promises that the same buffers are lent afterwards (`IsLent`); an invariant tells of one value, and not of the one before.
#[derive(Drop)]
pub struct Store<'a> {
    pub rules: &'a mut [RuleRow],
    pub words: &'a mut [u32],
    pub out: &'a mut [TermRow],
    pub calls: &'a mut [TermRow],
}

// `sort`: the name stands in the row behind the declaration's.
// Stays: `symbols` and `sorts` go whole beside `state`, here and below, as `declare` gets them; parts would be cut at six calls, not four.
fn declare_sort(
    source: Source,
    sorts: &mut [SortRow],
    symbols: &[SymbolRow],
    state: State,
) -> Result<Progress, Refusal>
    requires { (source.at + 2 ≤ length source.rows.now) × (length source.rows.now ≤ 65536) × (256 ≤ length sorts.old) × (state.sorts ≤ 256) × (state.symbols ≤ length symbols.now) }
    ensures value { GoesTo (sort_refusal (sorts_of source.entry.text.now sorts.old state.sorts) (symbols_of source.entry.text.now symbols.now state.symbols) (name_at source.entry.text.now source.entry.rows.now (source.entry.at + 1))) (sort_progress source.entry.at state) result }
    ensures sorts_after { sorts.new ≡ entered (sort_refusal (sorts_of source.entry.text.now sorts.old state.sorts) (symbols_of source.entry.text.now symbols.now state.symbols) (name_at source.entry.text.now source.entry.rows.now (source.entry.at + 1))) sorts.old state.sorts (column (row_at source.entry.rows.now (source.entry.at + 1)) 1 ∷ column (row_at source.entry.rows.now (source.entry.at + 1)) 2 ∷ []) }
{
    let Source { text, rows, at } = source;
    let word = Word::behind_kind(&rows[at + 1]);
    loader::enter_sort(text, sorts, state.sorts, &symbols[..state.symbols], word)?;
    Ok(Progress {
        next: at + 2,
        state: State {
            sorts: state.sorts + 1,
            ..state
        },
    })
}

// `ctor` and `pred`, and the symbol of a `def`: the sorts stand behind the row of the name.
fn declare_symbol(
    source: Source,
    kind: Kind,
    sorts: &[SortRow],
    symbols: &mut [SymbolRow],
    state: State,
) -> Result<Progress, Refusal>
    requires { SymbolAsked source.rows.now source.at sorts.now symbols.old state }
    ensures { SymbolDeclared source.entry.text.now source.entry.rows.now source.entry.at (is_constructor kind) (mark_in kind) (first_in kind) (clauses_in kind) sorts.now symbols.old state result symbols.new }
{
    let Source { rows, at, .. } = source;
    let [_, _, count, _] = rows[at];
    let k = count as usize;
    let part = Part {
        source: source.from_row(at + 1),
        k,
    };
    loader::enter_symbol(
        part,
        SymbolMarks::from(kind),
        &sorts[..state.sorts],
        symbols,
        state.symbols,
    )?;
    Ok(Progress {
        next: at + 2 + k,
        state: State {
            symbols: state.symbols + 1,
            ..state
        },
    })
}

// How many sorts or judgments stand behind the name of a declaration that needs one.
fn some_behind(row: &TermRow) -> Result<usize, Refusal>
    ensures { SomeOf (column row.now 2) result }
{
    let [_, _, count, _] = *row;
    if count == 0 {
        return Err(Refusal::NoDeclaration);
    }
    Ok(count as usize)
}

// `rule`: the judgments stand behind the row of the name.
fn declare_rule(
    source: Source,
    symbols: &[SymbolRow],
    store: &mut Store,
    state: State,
) -> Result<Progress, Refusal>
    requires { RuleAsked source.text.now source.rows.now source.at symbols.now store.old.rules.now store.old.words.now state }
    ensures declared { RuleDeclared source.entry.text.now source.entry.rows.now source.entry.at symbols.now store.old.rules.now store.old.words.now state result store.new.rules.now store.new.words.now }
    ensures lent { IsLent store.old store.new }
{
    let Source { rows, at, .. } = source;
    let k = some_behind(&rows[at])?;
    let word = Word::behind_kind(&rows[at + 1]);
    let place = state.next_rule();
    let part = Part {
        source: source.from_row(at + 2),
        k,
    };
    let rule = loader::enter_rule(
        part,
        word,
        &symbols[..state.symbols],
        store.words,
        store.rules,
        place,
    )?;
    Ok(state.with_rule(place.space.room, rule))
}

// The clause with a number of the function whose name stands at a place.
fn declare_clause(
    source: Source,
    number: usize,
    word: Word,
    symbols: &[SymbolRow],
    store: &mut Store,
    state: State,
) -> Result<Progress, Refusal>
    requires { ClauseAsked source.text.now source.rows.now source.at number symbols.now store.old.rules.now store.old.words.now store.old.out.now store.old.calls.now state }
    ensures declared { ClauseDeclared source.entry.text.now source.entry.rows.now source.entry.at number word.start word.size symbols.now store.old.rules.now store.old.words.now state result store.new.rules.now store.new.words.now }
    ensures lent { IsLent store.old store.new }
{
    let Source { text, rows, at } = source;
    let [_, _, _, patterns] = rows[at];
    let n = patterns as usize;
    let place = state.next_rule();
    let title = Title {
        word,
        clause: number as u32 + 1,
    };
    let terms = SourceTerms {
        text,
        rows,
        symbols: &symbols[..state.symbols],
    };
    let clause = SourceClause {
        source: terms,
        at: at + 1,
        n,
    };
    let rule = clauses::clause(
        clause,
        title,
        store.words,
        store.rules,
        place,
        store.out,
        store.calls,
    )?;
    Ok(state.with_rule(place.space.room, rule))
}

// The n clauses, from a row on, of the function whose name stands at a place.
fn declare_clauses(
    source: Source,
    n: usize,
    word: Word,
    symbols: &[SymbolRow],
    store: &mut Store,
    state: State,
) -> Result<Progress, Refusal>
    requires { ClausesAsked source.text.now source.rows.now source.at n word.start word.size symbols.now store.old.rules.now store.old.words.now store.old.out.now store.old.calls.now state }
    ensures declared { ClausesDeclared source.entry.text.now source.entry.rows.now source.entry.at n word.start word.size symbols.now store.old.rules.now store.old.words.now state result store.new.rules.now store.new.words.now }
    ensures lent { IsLent store.old store.new }
{
    let mut progress = Progress {
        next: source.at,
        state,
    };
    for i in 0..n {
        let clause = source.from_row(progress.next);
        progress = declare_clause(clause, i, word, symbols, store, progress.state)?;
    }
    Ok(progress)
}

// The first of n clauses is the next rule; 0 where there is none.
// Stays: the number goes into a symbol's row, which C callers lend, and 0 is what the row holds without clauses.
fn first_clause(n: usize, number: usize) -> u32
    requires { number ≤ 1024 }
    ensures { result ≡ cond (eqb n 0) 0 number }
{
    if n == 0 {
        return 0;
    }
    number as u32
}

// `def`: the symbol first, and then its clauses.
fn declare_def(
    source: Source,
    sorts: &[SortRow],
    symbols: &mut [SymbolRow],
    store: &mut Store,
    state: State,
) -> Result<Progress, Refusal>
    requires { DefAsked source.text.now source.rows.now source.at sorts.now symbols.old store.old.rules.now store.old.words.now store.old.out.now store.old.calls.now state }
    ensures declared { DefDeclared source.entry.text.now source.entry.rows.now source.entry.at sorts.now symbols.old store.old.rules.now store.old.words.now state result symbols.new store.new.rules.now store.new.words.now }
    ensures lent { IsLent store.old store.new }
{
    let Source { rows, at, .. } = source;
    some_behind(&rows[at])?;
    let [_, _, _, clauses] = rows[at];
    let n = clauses as usize;
    let kind = Kind::Function {
        first: first_clause(n, state.rules),
        clauses: n as u32,
    };
    let entered = declare_symbol(source, kind, sorts, symbols, state)?;
    let clauses = source.from_row(entered.next);
    let word = Word::behind_kind(&rows[at + 1]);
    declare_clauses(clauses, n, word, symbols, store, entered.state)
}

// One declaration, by the keyword in its row. An `#eval` waits.
// Stays: the parser's rows are numbers in lent buffers; an enum of keywords would be made by a `match` on the same six names, only to be matched again here.
pub fn declare(
    source: Source,
    sorts: &mut [SortRow],
    symbols: &mut [SymbolRow],
    store: &mut Store,
    state: State,
) -> Result<Progress, Refusal>
    requires { DeclareAsked source.text.now source.rows.now source.at sorts.old symbols.old store.old.rules.now store.old.words.now store.old.out.now store.old.calls.now state }
    ensures declared { DeclareDone source.entry.text.now source.entry.rows.now source.entry.at sorts.old symbols.old store.old.rules.now store.old.words.now state result sorts.new symbols.new store.new.rules.now store.new.words.now }
    ensures lent { IsLent store.old store.new }
{
    let Source { rows, at, .. } = source;
    let [keyword, _, _, _] = rows[at];
    match keyword {
        SORT => declare_sort(source, sorts, symbols, state),
        CTOR => {
            some_behind(&rows[at])?;
            declare_symbol(source, Kind::Constructor, sorts, symbols, state)
        }
        PRED => declare_symbol(source, Kind::Predicate, sorts, symbols, state),
        RULE => declare_rule(source, symbols, store, state),
        DEF => declare_def(source, sorts, symbols, store, state),
        EVAL => Ok(Progress {
            next: clauses::skip(rows, at + 1, 1),
            state,
        }),
        _ => Err(Refusal::NotLoaded),
    }
}
