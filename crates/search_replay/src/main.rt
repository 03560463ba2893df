// Replays a recorded list of texts: loads each, opens a session, proves each of its `#eval` there as a goal, and lists the answers, for comparison with the
// recorded ones. Tests also what the lent buffers hold afterwards, and that what is too short or not in form is refused. A test that fails writes a line
// that begins with `wrong`.
#![tactic(auto)]

mod asks; // what is asked of each goal
mod lent; // the buffers of a session: what is lent of them, and what they hold before and after
mod lines; // the lines of an answer
mod refused; // calls that must be refused by 1

ghost use Rattle.std.specs.Prelude.{◌+◌, ◌^◌, ◌≤◌, ◌<◌};

use asks::Ask;
use lent::Lent;
use lines::list_answer;
use listing::recorded::{self, Recorded};
use load::{EvalRow, LentBuffers, Loaded};
use names::{Source, TermRow};
use prover::Query;
use search_machine::Store;
use sessions::{NameRow, SessionCounts};
use signature::StoredSignature;
use signature_listing::used;
use signature_tests::buffers;
use words::Limits;

// A loaded text: its signature, the rows of its terms, its `#eval`, and the numbers that are asked of each.
#[derive(Clone, Copy)]
struct LoadedText<'a> {
    text: &'a [u8],
    signature: StoredSignature<'a>,
    rows: &'a [TermRow],
    evals: &'a [EvalRow],
    asks: &'a [u8],
}

// The goal whose rows start at a place, with what is asked of it.
fn query_at(loaded: LoadedText, at: u32, ask: Ask) -> Query {
    Query {
        signature: loaded.signature,
        goal: Source {
            text: loaded.text,
            rows: loaded.rows,
            at: at as usize,
        },
        limits: ask.limits,
        steps: ask.steps,
        depth: ask.depth,
    }
}

// Proves one `#eval` as a goal, lists the answer, and answers the counts then.
fn list_goal(
    loaded: LoadedText,
    eval: EvalRow,
    ask: Ask,
    names: &mut [NameRow],
    store: &mut Store,
    session: SessionCounts,
) -> SessionCounts {
    let [line, at] = eval;
    let query = query_at(loaded, at, ask);
    let lent = Lent::by_limits(ask.limits, session);
    let answer = lent::prove_in(query, names, store, session, lent);
    evaluation_listing_kit::write_eval(line);
    list_answer(query, answer, store, session)
}

// Lists each `#eval` of a loaded text, and tests calls that must be refused: before the goals, where all that the limits ask is used, and after them.
fn list_session(loaded: LoadedText, names: &mut [NameRow], store: &mut Store) {
    let [_, first] = loaded.evals.first().copied().unwrap_or([0; 2]);
    let query = query_at(loaded, first, asks::LARGEST);
    let mut session = lent::open(names, store);
    refused::test_short(query, names, store, session);
    let mut at = 0;
    for eval in loaded.evals {
        let ask = asks::read(loaded.asks, at);
        session = list_goal(loaded, *eval, ask, names, store, session);
        at = ask.next;
    }
    refused::test_damaged(query, names, store, session);
    lent::test_scratch(store);
}

// Lists a loaded text, in a session of its own.
fn list_loaded(loaded: LoadedText) {
    let mut names = [[0; 5]; lent::NAMES];
    let mut words = [0; lent::WORDS];
    let mut bindings = [[0; 2]; lent::VARIABLES];
    let mut links = [[0; 2]; lent::REFERENCES];
    let mut marks = [[0; 2]; lent::REFERENCES];
    let mut stack = [[0; 3]; lent::WORDS];
    let mut frames = [[0; 8]; lent::STEPS];
    let mut store = Store {
        words: &mut words,
        bindings: &mut bindings,
        links: &mut links,
        marks: &mut marks,
        stack: &mut stack,
        frames: &mut frames,
    };
    list_session(loaded, &mut names, &mut store);
}

// Lists a text that is loaded into what is lent.
// Stays: as in `evaluator_replay` but for the field that each type has of its own; a type of both, generic in that, would be as long as these lines.
fn list_stored(text: &[u8], asks: &[u8], loaded: Loaded, lent: &LentBuffers) {
    list_loaded(LoadedText {
        text,
        signature: buffers::stored_in(lent, loaded.counts),
        rows: lent.rows,
        evals: used(lent.evals, loaded.evals),
        asks,
    });
}

// Loads a text and lists what it comes to.
fn list_text(text: &[u8], asks: &[u8], limits: Limits) {
    buffers::with_buffers(|lent| match load::load(text, limits, lent) {
        Err(rejection) => listing::write_refusal(u32::from(rejection.refusal), rejection.line),
        Ok(loaded) => list_stored(text, asks, loaded, lent),
    });
}

// The most bytes behind a text for what is asked.
const ASKED: u32 = 65536;

// The text whose line is at a place. The line's third number limits the nodes; its fourth is how many bytes stand behind the text for what is asked.
fn read(list: &[u8], at: usize) -> Recorded
    requires { at < 2 ^ 61 }
    ensures { (at < result.next) × (result.next ≤ at + 3000000) }
{
    let text = recorded::read(list, at);
    let asked = recorded::read_decimal(list, text.start);
    let start = asked.next;
    Recorded {
        start,
        limits: text.node_limits(),
        next: start + text.length + 1 + asked.value.min(ASKED) as usize,
        ..text
    }
}

// Stays: what is asked stands in the list behind the text, and `recorded::replay_input` hands on the text alone.
fn main() {
    let mut input = [0u8; 262144];
    let n = io::read_full(0, &mut input);
    let list = &input[..n];
    recorded::replay(list, read, |text, recorded| {
        let behind = recorded.start.saturating_add(recorded.length);
        list_text(text, asks::behind(list, behind), recorded.limits);
    });
}
