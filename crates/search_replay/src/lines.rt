// The lines of an answer.
ghost use Rattle.std.specs.Prelude.{◌≡◌};
ghost use Rattle.sessions.specs.Answers.{answer_in};
ghost use Rattle.sessions.specs.Promises.{counts_after};

use arena::TERM_ROOM;
use evaluation_listing_kit::{OpenRow, StoredTerms};
use listing::{write, write_number};
use prover::Query;
use refusals::Refusal;
use search_machine::Store;
use sessions::{SessionCounts, Verdict};
use signature_listing::used;

// Writes a number behind what it counts.
fn write_count(what: &[u8], number: u32) {
    write(what);
    write_number(number);
}

// Writes the rest of the line of an answer that is no refusal.
fn list_verdict(verdict: &[u8], steps: u32, counts: SessionCounts) {
    write(verdict);
    write_count(b" steps ", steps);
    write_count(b" names ", counts.names);
    write_count(b" variables ", counts.variables);
    write_count(b" bound ", counts.bound);
    write_count(b" words ", counts.words);
    write(b"\n");
}

// Lists the new bindings in their order: the trail's variables from the number before on, each with its value.
fn list_bindings(
    terms: StoredTerms,
    bindings: &[[u32; 2]],
    trail: &[[u32; 2]],
    stack: &mut [OpenRow],
    out: &mut [u8],
) {
    for row in trail {
        let [_, variable] = *row;
        match bindings.get(variable as usize) {
            Some(&[value, _]) if 0 < value => {
                evaluation_listing_kit::list_binding(terms, variable, value - 1, stack, out);
            }
            _ => write(b"wrong: not bound\n"),
        }
    }
}

// Lists a proof: its nodes, and the new bindings.
fn list_proof(query: Query, store: &Store, nodes: u32, before: SessionCounts, bound: u32) {
    let signature = query.signature;
    let terms = StoredTerms {
        text: query.goal.text,
        symbols: signature.symbols,
        words: store.words,
        room: TERM_ROOM,
    };
    let mut stack = [[0; 2]; 1024];
    let mut out = [0; 16384];
    let rows = used(store.frames, nodes);
    evaluation_listing_kit::list_calls(terms, signature.rules, rows, &mut stack, &mut out);
    let trail = used(store.bindings, bound)
        .get(before.bound as usize..)
        .unwrap_or(&[]);
    list_bindings(terms, store.bindings, trail, &mut stack, &mut out);
}

// Lists an answer in a session, and answers the counts then.
pub fn list_answer(
    query: Query,
    answer: Result<Verdict, Refusal>,
    store: &Store,
    session: SessionCounts,
) -> SessionCounts
    ensures { result ≡ counts_after session (answer_in answer) }
{
    match answer {
        Err(refusal) => {
            write_count(b"refused ", u32::from(refusal));
            write(b"\n");
            session
        }
        Ok(
            Verdict::Proved {
                steps,
                nodes,
                counts,
            },
        ) => {
            list_verdict(b"proved", steps, counts);
            list_proof(query, store, nodes, session, counts.bound);
            counts
        }
        Ok(Verdict::Nothing { steps, counts }) => {
            list_verdict(b"none", steps, counts);
            counts
        }
        Ok(Verdict::Undecided { steps, counts }) => {
            list_verdict(b"undecided", steps, counts);
            counts
        }
    }
}
