// Replays a recorded list of texts: loads each, evaluates each of its `#eval` that is a forward call, and lists the answers, for comparison with the
// recorded ones. Tests also what the lent buffers hold afterwards, and that what is too short or not in form is refused. A test that fails writes a line
// that begins with `wrong`.
#![tactic(auto)]

ghost use Rattle.std.specs.Prelude.{◌+◌, ◌^◌, ◌≤◌, ◌<◌};

use evaluation_listing_kit::StoredTerms;
use evaluation_tests_kit::{lent, refused};
use evaluator::{Buffers, Query};
use function_calls::{MAX_CALLS, Outcome};
use listing::recorded::{self, Recorded};
use listing::{write, write_number};
use load::{EvalRow, LentBuffers, Loaded};
use names::{Source, TermRow};
use refusals::Refusal;
use signature::StoredSignature;
use signature_listing::used;
use signature_tests::buffers;
use words::Limits;

// What is lent is exactly enough for this limit on words.
// Stays: this limit is the program's own, and no limit of document 01; a text of the list that asks for more is refused by 1.
const WORDS: u32 = 65536;

// A loaded text: its signature, the rows of its terms, its `#eval`, and the limits to evaluate them under.
#[derive(Clone, Copy)]
struct LoadedText<'a> {
    text: &'a [u8],
    signature: StoredSignature<'a>,
    rows: &'a [TermRow],
    evals: &'a [EvalRow],
    limits: Limits,
}

// Lists a value and its calls.
fn list_value(loaded: LoadedText, outcome: Outcome, storage: &Buffers) {
    let signature = loaded.signature;
    let terms = StoredTerms {
        text: loaded.text,
        symbols: signature.symbols,
        words: storage.words,
        room: 0,
    };
    let mut stack = [[0u32; 2]; 1024];
    let mut out = [0u8; 16384];
    evaluation_listing_kit::list_value(terms, outcome.value, &mut stack, &mut out);
    evaluation_listing_kit::list_calls(
        terms,
        signature.rules,
        used(storage.trees, outcome.spent.calls),
        &mut stack,
        &mut out,
    );
}

// Lists an answer, and tests the buffers: zero past what is used, zero throughout after a refusal, and after refusal 1 as they were.
fn list_evaluation(loaded: LoadedText, answer: Result<Outcome, Refusal>, storage: &Buffers) {
    match answer {
        Err(refusal) => {
            write(b"refused ");
            write_number(u32::from(refusal));
            write(b"\n");
            let value = recorded::value_after(refusal);
            lent::test(storage.words, 0, storage.links, storage.trees, 0, value);
        }
        Ok(outcome) => {
            list_value(loaded, outcome, storage);
            let words = outcome.spent.used as usize;
            let calls = outcome.spent.calls as usize;
            lent::test(storage.words, words, storage.links, storage.trees, calls, 0);
        }
    }
}

// The evaluation of the term whose rows start at a place.
fn query_at(loaded: LoadedText, at: u32) -> Query {
    Query {
        signature: loaded.signature,
        term: Source {
            text: loaded.text,
            rows: loaded.rows,
            at: at as usize,
        },
        limits: loaded.limits,
    }
}

// Is a term evaluated? A goal is listed as such.
fn is_evaluated(query: Query) -> bool {
    match evaluator::is_forward_call(query.signature, query.term) {
        Ok(true) => true,
        Ok(false) => {
            write(b"goal\n");
            false
        }
        Err(_) => {
            write(b"wrong: no term\n");
            false
        }
    }
}

// Lists one `#eval`.
fn list_eval(loaded: LoadedText, eval: EvalRow, storage: &mut Buffers) {
    let [line, at] = eval;
    evaluation_listing_kit::write_eval(line);
    let query = query_at(loaded, at);
    if !is_evaluated(query) {
        return;
    }
    let answer = lent::evaluate(query, storage);
    list_evaluation(loaded, answer, storage);
}

// Tests calls that must be refused, with the first `#eval`.
fn test_refused(loaded: LoadedText, storage: &mut Buffers) {
    // Where there is no `#eval`, any place serves: each of these calls is refused before the term there is read.
    let [_, at] = loaded.evals.first().copied().unwrap_or([0; 2]);
    let query = query_at(loaded, at);
    refused::test_unlisted_forward(query.signature, query.term);
    refused::test_short(query, storage.words, storage.links, storage.trees);
    refused::test_unlisted(query, storage);
}

// Lists each `#eval` of a loaded text, and tests calls that must be refused.
fn list_lent(loaded: LoadedText, storage: &mut Buffers) {
    for eval in loaded.evals {
        list_eval(loaded, *eval, storage);
    }
    test_refused(loaded, storage);
}

// For how many words there is room under a limit.
fn most_words(limits: Limits) -> u32
    ensures { result ≤ 65536 }
{
    u32::min(limits.words, WORDS)
}

// Lists a loaded text, with so much lent for the results as the limits ask.
fn list_loaded(loaded: LoadedText) {
    let mut words = [0u32; WORDS as usize + evaluator::SCRATCH];
    let mut links = [0u32; WORDS as usize];
    let mut trees = [[0u32; 8]; MAX_CALLS as usize];
    let most = most_words(loaded.limits);
    let links_end = most as usize;
    let words_end = links_end + evaluator::SCRATCH;
    let calls = evaluator::tree_rows(most);
    let mut storage = Buffers {
        words: &mut words[..words_end],
        links: &mut links[..links_end],
        trees: &mut trees[..calls],
    };
    list_lent(loaded, &mut storage);
}

// Lists a text that is loaded into what is lent.
fn list_stored(text: &[u8], limits: Limits, loaded: Loaded, lent: &LentBuffers) {
    list_loaded(LoadedText {
        text,
        signature: buffers::stored_in(lent, loaded.counts),
        rows: lent.rows,
        evals: used(lent.evals, loaded.evals),
        limits,
    });
}

// Loads a text and lists what it comes to.
fn list_text(text: &[u8], limits: Limits) {
    buffers::with_buffers(|lent| match load::load(text, limits, lent) {
        Err(rejection) => listing::write_refusal(u32::from(rejection.refusal), rejection.line),
        Ok(loaded) => list_stored(text, limits, loaded, lent),
    });
}

// The text whose line is at a place. The line's third number limits the nodes, its fourth the words.
fn read(list: &[u8], at: usize) -> Recorded
    requires { at < 2 ^ 61 }
    ensures { (at < result.next) × (result.next ≤ at + 3000000) }
{
    let text = recorded::read(list, at);
    let words = recorded::read_decimal(list, text.start);
    let start = words.next;
    let limits = Limits {
        words: words.value,
        ..text.node_limits()
    };
    Recorded {
        start,
        limits,
        next: start + text.length + 1,
        ..text
    }
}

fn main() {
    recorded::replay_input::<262144, _, _>(read, |text, recorded| {
        list_text(text, recorded.limits);
    });
}
