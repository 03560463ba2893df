// Loading: from a text to a signature in lent storage. The text is lexed, parsed and loaded in this order, and refused by number and line.
//
// The entry point is `load`. It asks nothing of its caller, and its contract fixes the answer and every lent buffer on all inputs.
#![tactic(auto)]

ghost use Rattle.std.specs.Prelude.{◌≡◌, Err, cond, [], ◌∷◌, ◌+◌, ◌≤◌, eqb, length, set, take};
ghost use Rattle.load.specs.Load.{noted, WalkAsked, Walked};
ghost use Rattle.load.specs.Loading.{LoadingText};
ghost use Rattle.load.specs.Clearing.{RowsAsked, RowsLoaded};
ghost use Rattle.load_storage.specs.Lent.{buffers_of, IsLent};
ghost use Rattle.load_storage.specs.Storage.{Wiped};
ghost use Rattle.declarations.specs.Lent.{IsLent as IsLentFor};

use declarations::{Progress, State, Store};
use load_storage::Used;
pub use load_storage::{EvalRow, LentBuffers};
use names::{SortRow, Source, SymbolRow, TermRow};
use refusals::{Refusal, Rejection};
use signature::Counts;
use words::EVAL;

// Keeps the line and the row of an `#eval`, whose kind is `EVAL`; answers how many there are then.
// Stays: the row behind those in use is written, so a part in use would not do.
fn note(evals: &mut [EvalRow], count: usize, kind: u32, line: u32, at: usize) -> usize
    requires { (at ≤ 65536) × (count ≤ 65536) }
    ensures { (result ≡ cond (eqb kind 10) (count + 1) count) × (evals.new ≡ noted evals.old count kind line at) }
{
    if kind != EVAL {
        return count;
    }
    slices::put(evals, count, [line, at as u32 + 1]);
    count + 1
}

// All declarations entered: what there is then, and how many `#eval` wait.
#[derive(Clone, Copy)]
struct Entered {
    state: State,
    evals: usize,
}

// What is entered: n declarations, in the first rows of a text, with so many nodes allowed in all.
#[derive(Clone, Copy)]
struct Walk<'a> {
    text: &'a [u8],
    limit: usize,
    n: u32,
    used: usize,
}

// Enters the declarations in text order.
// Stays: tried to lend `&rows[..used]`: as `rows` comes from a field of `buffers`, nothing is known of that field in `load_rows` afterwards.
fn enter_all(
    walk: Walk,
    rows: &[TermRow],
    sorts: &mut [SortRow],
    symbols: &mut [SymbolRow],
    store: &mut Store,
    evals: &mut [EvalRow],
) -> Result<Entered, Rejection>
    requires { (walk.used ≤ length rows.now) × WalkAsked walk.text.now walk.limit (take walk.used rows.now) walk.n sorts.old symbols.old store.old.rules.now store.old.words.now evals.old store.old.out.now store.old.calls.now }
    ensures walked { Walked walk.entry.text.now walk.entry.limit (take walk.entry.used rows.now) walk.entry.n result sorts.new symbols.new store.new.rules.now store.new.words.now evals.new }
    ensures lent { IsLentFor store.old store.new }
{
    let text = walk.text;
    let rows = &rows[..walk.used];
    let mut progress = Progress {
        next: 0,
        state: State {
            left: walk.limit,
            ..State::default()
        },
    };
    let mut count = 0;
    for _i in 0..walk.n {
        let [kind, line, _, _] = rows[progress.next];
        count = note(evals, count, kind, line, progress.next);
        let source = Source {
            text,
            rows,
            at: progress.next,
        };
        progress = declarations::declare(source, sorts, symbols, store, progress.state).map_err(
            |refusal| Rejection { refusal, line },
        )?;
    }
    Ok(Entered {
        state: progress.state,
        evals: count,
    })
}

// A text that is loaded: how many declarations there are, how many `#eval` wait, and how much is stored.
#[derive(Clone, Copy)]
pub struct Loaded {
    pub declarations: u32,
    pub evals: u32,
    pub counts: Counts,
}

// Clears everything, as the text is refused.
fn refused(rejection: Rejection, buffers: &mut LentBuffers) -> Result<Loaded, Rejection>
    ensures answer { result ≡ Err rejection }
    ensures wiped { Wiped (buffers_of buffers.old) (buffers_of buffers.new) }
    ensures lent { IsLent buffers.old buffers.new }
{
    load_storage::leave_nothing(buffers);
    Err(rejection)
}

// Enters the declarations, and clears what is past the counts; or clears everything.
// Stays: no `From` makes `Used` or `Counts` of a `State`: none of the three is a type of this crate, and their crates do not know each other's.
fn load_rows(walk: Walk, buffers: &mut LentBuffers) -> Result<Loaded, Rejection>
    requires { RowsAsked walk.text.now walk.limit walk.n walk.used buffers.old.tokens.now buffers.old.rows.now buffers.old.calls.now buffers.old.sorts.now buffers.old.symbols.now buffers.old.rules.now buffers.old.words.now buffers.old.evals.now }
    ensures loaded { RowsLoaded walk.entry.text.now walk.entry.limit walk.entry.n walk.entry.used (buffers_of buffers.old) result (buffers_of buffers.new) }
    ensures lent { IsLent buffers.old buffers.new }
{
    let rows = &mut *buffers.rows;
    let mut store = Store {
        rules: &mut *buffers.rules,
        words: &mut *buffers.words,
        out: &mut *buffers.tokens,
        calls: &mut *buffers.calls,
    };
    match enter_all(
        walk,
        rows,
        buffers.sorts,
        buffers.symbols,
        &mut store,
        buffers.evals,
    ) {
        Err(rejection) => refused(rejection, buffers),
        Ok(Entered { state, evals: k }) => {
            let used = Used {
                sorts: state.sorts,
                symbols: state.symbols,
                rules: state.rules,
                words: state.used,
            };
            load_storage::leave(buffers, used, k);
            Ok(Loaded {
                declarations: walk.n,
                evals: k as u32,
                counts: Counts {
                    sorts: state.sorts as u32,
                    symbols: state.symbols as u32,
                    rules: state.rules as u32,
                    words: state.used as u32,
                },
            })
        }
    }
}

// Loads a text: lexes it, parses it, and enters its declarations in text order.
pub fn load(
    text: &[u8],
    limits: words::Limits,
    buffers: &mut LentBuffers,
) -> Result<Loaded, Rejection>
    ensures loaded { LoadingText text.now limits (buffers_of buffers.old) result (buffers_of buffers.new) }
    ensures lent { IsLent buffers.old buffers.new }
{
    if load_storage::is_short(limits, buffers.lengths()) {
        return Err(Rejection::from(Refusal::Storage));
    }
    match parser::parse_text(text, limits, buffers.tokens, buffers.rows) {
        Err(rejection) => refused(rejection, buffers),
        Ok(parsed) => {
            let walk = Walk {
                text,
                limit: limits.capped().nodes as usize,
                n: parsed.declarations,
                used: parsed.rows,
            };
            load_rows(walk, buffers)
        }
    }
}
