// `prover::prove_cleared` for programs in other languages that see to what it asks, as the measurements of its speed do. `capi::horn_prove` is the one for
// users.
#![tactic(auto)]

ghost use Rattle.std.specs.Prelude.{◌≤◌, length};
ghost use Rattle.capi.specs.Evaluation.{store_with};
ghost use Rattle.capi.specs.Sessions.{counts_in, search_limits};
ghost use Rattle.prover.specs.Proving.{ClearedReady};
ghost use Rattle.prover_capi.specs.Cleared.{ClearedTold};

use capi::{limits_of, session_counts, stored_signature};
use names::Source;
use prover::Query;
use search_machine::Store;

// The caller sees to what `prove_cleared` asks, and lends four counts of the signature, four of the session and six results. The answer is that of
// `capi::horn_prove`.
// Stays: the parameters are those that programs in C pass, each buffer by itself, as to `capi::horn_prove`.
// Stays: the body past the guards is that of `capi::horn_prove`; one function of its 18 lines would be called in both with 23 arguments, a line for each.
#[unsafe(no_mangle)]
pub extern "C" fn horn_prove_cleared(
    text: &[u8],
    most: u32,
    variables: u32,
    limit: u32,
    sorts: &[[u32; 2]],
    symbols: &[[u32; 24]],
    rules: &[[u32; 154]],
    pattern: &[u32],
    counts: &[u32],
    rows: &[[u32; 4]],
    at: usize,
    steps: u32,
    depth: u32,
    names: &mut [[u32; 5]],
    words: &mut [u32],
    bindings: &mut [[u32; 2]],
    session: &[u32],
    links: &mut [[u32; 2]],
    marks: &mut [[u32; 2]],
    stack: &mut [[u32; 3]],
    proof: &mut [[u32; 8]],
    results: &mut [u32],
) -> u64
    requires fact_1 { (4 ≤ length counts.now) × (4 ≤ length session.now) × (6 ≤ length results.old) }
    requires fact_2 { ClearedReady (store_with sorts.now symbols.now rules.now pattern.now counts.now)
        (record {
          text = text.now;
          limits = search_limits most variables limit;
          rows = rows.now;
          at = at;
          steps = steps;
          depth = depth;
          proof = proof.old;
          space = record { links = links.old; marks = marks.old; stack = stack.old };
        })
        (record { names = names.old; words = words.old; bindings = bindings.old }) (counts_in session.now) }
    ensures { ClearedTold
        (store_with sorts.now symbols.now rules.now pattern.now counts.now)
        (record {
          text = text.now;
          limits = search_limits most variables limit;
          rows = rows.now;
          at = at;
          steps = steps;
          depth = depth;
          proof = proof.old;
          space = record { links = links.old; marks = marks.old; stack = stack.old };
        })
        (record { names = names.old; words = words.old; bindings = bindings.old }) (counts_in session.now)
        results.old result
        (record { names = names.new; words = words.new; bindings = bindings.new }) proof.new
        (record { links = links.new; marks = marks.new; stack = stack.new }) results.new }
{
    let query = Query {
        signature: stored_signature(sorts, symbols, rules, pattern, counts),
        goal: Source { text, rows, at },
        limits: limits_of(most, variables, limit),
        steps,
        depth,
    };
    let mut store = Store {
        words,
        bindings,
        links,
        marks,
        stack,
        frames: proof,
    };
    let used = session_counts(session);
    let answer = prover::prove_cleared(query, names, &mut store, used);
    capi::tell_answer(results, answer.map_err(u32::from))
}
