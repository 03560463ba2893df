// Replays a recorded list of texts: loads each and lists the signature, for comparison with the recorded answers, and tests what the lent buffers hold
// afterwards. A test that fails writes a line that begins with `wrong`.
#![tactic(auto)]

use listing::recorded;
use load::{LentBuffers as Lent, Loaded};
use parser::Parsed;
use refusals::Rejection;
use signature::Counts;
use signature_tests::{buffers, damage};
use words::Limits;

// Lists what was loaded, and tests the buffers: zero past the counts.
fn list_loaded(text: &[u8], loaded: Loaded, parsed: Result<Parsed, Rejection>, lent: &Lent) {
    let n = loaded.evals as usize;
    let stored = buffers::stored_in(lent, loaded.counts);
    let waiting = signature_listing::used(lent.evals, loaded.evals);
    signature_listing::list(text, stored, waiting);
    let Ok(parsed) = parsed else {
        buffers::expect(false, b"as many declarations as parsed");
        return;
    };
    buffers::expect(
        loaded.declarations == parsed.declarations,
        b"as many declarations as parsed",
    );
    buffers::test_scratch(
        lent.tokens,
        lent.rows,
        parsed.rows,
        lent.calls,
        lent.evals,
        n,
        0,
    );
    buffers::test_signature(stored, 0);
    buffers::expect(
        signature::check_signature(text, stored),
        b"loaded in the listed form",
    );
}

// Lists a refusal, and tests the buffers: zero throughout, and after refusal 1 as they were.
fn list_refused(rejection: Rejection, lent: &Lent) {
    listing::write_refusal(u32::from(rejection.refusal), rejection.line);
    let value = recorded::value_after(rejection.refusal);
    buffers::test_scratch(lent.tokens, lent.rows, 0, lent.calls, lent.evals, 0, value);
    buffers::test_signature(buffers::stored_in(lent, Counts::default()), value);
}

// Loads a text into buffers that hold junk.
fn load_text(text: &[u8], limits: Limits, lent: &mut Lent) -> Result<Loaded, Rejection> {
    buffers::fill(lent);
    load::load(text, limits, lent)
}

// Parses a text, loads it, lists the answer, and damages what was loaded.
fn list_lent(text: &[u8], limits: Limits, lent: &mut Lent) {
    let parsed = parser::parse_text(text, limits, lent.tokens, lent.rows);
    match load_text(text, limits, lent) {
        Err(rejection) => list_refused(rejection, lent),
        Ok(loaded) => {
            list_loaded(text, loaded, parsed, lent);
            damage::test(text, lent, loaded.counts);
        }
    }
}

// Lists a text, with buffers of its own.
fn list_text(text: &[u8], limits: Limits) {
    buffers::with_buffers(|lent| list_lent(text, limits, lent));
}

fn main() {
    recorded::replay_input::<262144, _, _>(recorded::read, |text, recorded| {
        list_text(text, recorded.node_limits());
    });
}
