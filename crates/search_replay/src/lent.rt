// The buffers of a session: what is lent of them, what they hold before a call, and the tests of what they hold afterwards.
ghost use Rattle.std.specs.Prelude.{◌≡◌, ◌≤◌};
ghost use Rattle.search_machine.specs.Groups.{IsLent};
ghost use Rattle.sessions.specs.Answers.{answer_in};
ghost use Rattle.sessions.specs.Promises.{counts_after};

use super::asks::LARGEST;
use arena::TERM_ROOM;
use listing::recorded::{self, JUNK};
use prover::Query;
use refusals::Refusal;
use search_machine::Store;
pub use session_check::Lengths;
use sessions::{NameRow, SessionCounts, StoredSession, Verdict};
use signature_listing::used;
use signature_tests::buffers::expect;
use slices::{are_all, clear_from};
use words::Limits;

// What is lent is exactly enough for these limits on steps, variables and words.
// Stays: these limits are the program's own, and no limits of document 01; a goal of the list that asks for more is refused by 1.
pub const STEPS: usize = 2000;

pub const VARIABLES: usize = 4096;

pub const WORDS: usize = 8192;

pub const REFERENCES: usize = TERM_ROOM as usize + WORDS;

pub const NAMES: usize = patterns::VARIABLES;

// How much is in use after a call, and what each number of names, words and proof past that is.
#[derive(Clone, Copy)]
struct Left {
    counts: SessionCounts,
    nodes: u32,
    value: u32,
}

// What an answer in a session has to leave: zero past what is in use, and after refusal 1 all as it was.
fn left_by(answer: Result<Verdict, Refusal>, session: SessionCounts) -> Left
    ensures { result.counts ≡ counts_after session (answer_in answer) }
{
    match answer {
        Err(refusal) => Left {
            counts: session,
            nodes: 0,
            value: recorded::value_after(refusal),
        },
        Ok(Verdict::Proved { nodes, counts, .. }) => Left {
            counts,
            nodes,
            value: 0,
        },
        Ok(Verdict::Nothing { counts, .. } | Verdict::Undecided { counts, .. }) => Left {
            counts,
            nodes: 0,
            value: 0,
        },
    }
}

// Tests what lies past what is in use.
fn test_past(names: &[NameRow], store: &Store, left: Left) {
    let counts = left.counts;
    let value = left.value;
    expect(
        are_all(names, counts.names as usize, [value; 5]),
        b"names as lent or zero",
    );
    expect(
        are_all(store.words, counts.words as usize, value),
        b"words of terms as lent or zero",
    );
    expect(
        are_all(store.frames, left.nodes as usize, [value; 8]),
        b"rows of a proof as lent or zero",
    );
    expect(
        are_all(store.bindings, counts.variables as usize, [0; 2]),
        b"bindings zero",
    );
}

// Tests that the scratch is zero. It is enough to ask this after the last call: each call refuses scratch that is not.
pub fn test_scratch(store: &Store) {
    expect(are_all(store.links, 0, [0; 2]), b"links zero");
    expect(are_all(store.marks, 0, [0; 2]), b"marks zero");
    expect(are_all(store.stack, 0, [0; 3]), b"stack zero");
}

// Tests that what a session had in use is as it was, and without a proof its bindings.
fn test_held(names: &[NameRow], store: &Store, held: StoredSession, nodes: u32) {
    let counts = held.counts;
    expect(
        used(names, counts.names) == used(held.names, counts.names),
        b"names as before",
    );
    expect(
        used(store.words, counts.words) == used(held.words, counts.words),
        b"words as before",
    );
    if nodes == 0 {
        let variables = counts.variables;
        expect(
            used(store.bindings, variables) == used(held.bindings, variables),
            b"bindings as before",
        );
    }
}

// Copies the items, as far as there is room.
fn copy<T: Copy>(items: &[T], to: &mut [T]) {
    let n = items.len().min(to.len());
    to[..n].copy_from_slice(&items[..n]);
}

// Fills with junk what lies past what a session has in use, and the proof.
fn fill_past(names: &mut [NameRow], store: &mut Store, session: SessionCounts)
    ensures { IsLent store.old store.new }
{
    clear_from(names, session.names as usize, [JUNK; 5]);
    clear_from(store.words, session.words as usize, JUNK);
    store.frames.fill([JUNK; 8]);
}

// Proves a goal in buffers that hold junk past what is in use, and tests what that leaves.
fn prove(
    query: Query,
    names: &mut [NameRow],
    store: &mut Store,
    session: SessionCounts,
) -> Result<Verdict, Refusal>
    ensures { IsLent store.old store.new }
{
    let mut old_names = [[0; 5]; NAMES];
    let mut old_words = [0; WORDS];
    let mut old_bindings = [[0; 2]; VARIABLES];
    copy(names, &mut old_names);
    copy(store.words, &mut old_words);
    copy(store.bindings, &mut old_bindings);
    let held = StoredSession {
        names: &old_names,
        words: &old_words,
        bindings: &old_bindings,
        counts: session,
    };
    fill_past(names, store, session);
    let answer = prover::prove(query, names, store, session);
    let left = left_by(answer, session);
    test_held(names, store, held, left.nodes);
    test_past(names, store, left);
    answer
}

// How much is lent for a goal: a session's buffers, and rows of a proof.
#[derive(Clone, Copy)]
pub struct Lent {
    pub session: Lengths,
    pub rows: usize,
}

impl Lent {
    // Exactly enough for these limits, in a session.
    pub fn by_limits(limits: Limits, session: SessionCounts) -> Lent
        ensures by_limits { (limits.words ≤ result.session.words) × (limits.variables ≤ result.session.bindings) × (result.rows ≡ limits.steps) }
        ensures by_session { (session.words ≤ result.session.words) × (session.variables ≤ result.session.bindings) }
    {
        let words = limits.words.max(session.words) as usize;
        let references = words + TERM_ROOM as usize;
        Lent {
            session: Lengths {
                names: NAMES,
                words,
                bindings: limits.variables.max(session.variables) as usize,
                links: references,
                marks: references,
                stack: words,
            },
            rows: limits.steps as usize,
        }
    }
}

// The first items, so many, or all where there are not as many.
// Stays: the count is how much is lent, and not how much of it is in use; each caller would cut the same part by the lesser length.
fn first<T>(items: &mut [T], count: usize) -> &mut [T] {
    let n = items.len().min(count);
    &mut items[..n]
}

// Proves a goal, where so much is lent, as far as there is.
// Stays: as at `prover::prove_listed`: the store alone is lent on, and the counts afterwards are in the verdict.
pub fn prove_in(
    query: Query,
    names: &mut [NameRow],
    store: &mut Store,
    session: SessionCounts,
    lent: Lent,
) -> Result<Verdict, Refusal> {
    let lengths = lent.session;
    let mut part = Store {
        words: first(store.words, lengths.words),
        bindings: first(store.bindings, lengths.bindings),
        links: first(store.links, lengths.links),
        marks: first(store.marks, lengths.marks),
        stack: first(store.stack, lengths.stack),
        frames: first(store.frames, lent.rows),
    };
    prove(query, first(names, lengths.names), &mut part, session)
}

// Fills all buffers with junk.
fn fill(names: &mut [NameRow], store: &mut Store)
    ensures { IsLent store.old store.new }
{
    names.fill([JUNK; 5]);
    store.words.fill(JUNK);
    store.bindings.fill([JUNK; 2]);
    store.links.fill([JUNK; 2]);
    store.marks.fill([JUNK; 2]);
    store.stack.fill([JUNK; 3]);
    store.frames.fill([0; 8]);
}

// Opens a session in buffers that hold junk, and tests what that leaves.
pub fn open(names: &mut [NameRow], store: &mut Store) -> SessionCounts {
    fill(names, store);
    let limits = LARGEST.limits;
    let words = &mut *store.words;
    let bindings = &mut *store.bindings;
    let links = &mut *store.links;
    let marks = &mut *store.marks;
    let stack = &mut *store.stack;
    let opened = session_open::open(limits, names, words, bindings, links, marks, stack);
    let counts = SessionCounts {
        names: 0,
        variables: 0,
        bound: 0,
        words: 0,
    };
    expect(opened.is_ok(), b"opened");
    test_past(
        names,
        store,
        Left {
            counts,
            nodes: 0,
            value: 0,
        },
    );
    counts
}
