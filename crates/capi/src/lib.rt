// The functions that programs in other languages call: numbers, byte slices and rows. `capi_c` exports them.
#![tactic(auto)]

ghost use Rattle.std.specs.Prelude.{◌≡◌, ◌*◌, ◌^◌, ◌≤◌, cond, eqb, length, replicate};
ghost use Rattle.std.proofs.lemmas.List.Edits.{sets};
ghost use Rattle.capi.specs.Declarations.{ParsedAs};
ghost use Rattle.capi.specs.Checks.{CheckedAs};
ghost use Rattle.signature.specs.Storage.{store_of};
ghost use Rattle.capi.specs.Evaluation.{store_with, stored_counts, EvaluatedAs, ForwardAs};
ghost use Rattle.capi.specs.Signatures.{LoadedAs, load_limits};
ghost use Rattle.capi.specs.Sessions.{OpenedAs, ProvedAs, answer_of, counts_in, packed_proof, verdict_row, verdict_after, search_limits};
ghost use Rattle.capi.specs.Unification.{Answered};
ghost use Rattle.capi.specs.Words.{packed, packed_rejection, text_limit};
ghost use Rattle.refusals.specs.Refusals.{number_of};
ghost use Rattle.words.specs.Lexer.{lex_answer, lex_rows};

use arena::{TERM_ROOM, Terms};
use bindings::StoredBindings;
use evaluator::Buffers;
use names::Source;
use prover::Query;
use refusals::{Refusal, Rejection};
use search_machine::Store;
use sessions::Verdict;
use signature::StoredSignature;
use unifier::Workspace;

// A refusal is told as so many times its number: more than any count and any line.
const REFUSAL: u64 = 0x1_0000_0000;

// A refusal as one number; its line is added.
// Stays: how C is told a refusal is this crate's matter, and neither type is of this crate, so that no `From` can stand here.
fn packed_refusal(refusal: Refusal) -> u64
    ensures { result ≡ number_of refusal * 2 ^ 32 }
{
    u32::from(refusal) as u64 * REFUSAL
}

// The refusal of a text as one number, with its line.
// Stays: how C is told a refusal is this crate's matter, and neither type is of this crate, so that no `From` can stand here.
fn packed_rejection(rejection: Rejection) -> u64
    ensures { result ≡ packed_rejection rejection }
{
    packed_refusal(rejection.refusal) + rejection.line as u64
}

// Limits on the text's bytes and the nodes in all.
fn text_limits(text: u32, nodes: u32) -> words::Limits
    ensures { result ≡ load_limits text nodes }
{
    words::Limits {
        text,
        nodes,
        ..words::Limits::default()
    }
}

// Limits on steps, variables and words.
pub fn limits_of(steps: u32, variables: u32, words: u32) -> words::Limits
    ensures { result ≡ search_limits steps variables words }
{
    let others = words::Limits::default();
    words::Limits {
        steps,
        variables,
        words,
        ..others
    }
}

// The first four counts that `horn_load` leaves. Whether there are so many is asked by each function that programs in C call.
// Stays: with an `Option`, `prover_capi`, which knows both lengths, would have two cases for none that never come, each with an answer of its own.
// Stays: of arrays of four, each caller would show that the counts of the first four are those of all, and `prover_capi` that there are four.
pub fn signature_counts(counts: &[u32]) -> signature::Counts
    requires { 4 ≤ length counts.now }
    ensures { result ≡ stored_counts counts.now }
{
    signature::Counts {
        sorts: counts[0],
        symbols: counts[1],
        rules: counts[2],
        words: counts[3],
    }
}

// A signature as it is lent, with the first four counts that `horn_load` leaves.
// Stays: it makes one struct of what programs in C lend apart.
pub fn stored_signature<'a>(
    sorts: &'a [[u32; 2]],
    symbols: &'a [[u32; 24]],
    rules: &'a [[u32; 154]],
    words: &'a [u32],
    counts: &[u32],
) -> StoredSignature<'a>
    requires { 4 ≤ length counts.now }
    ensures { store_of result ≡ store_with sorts.now symbols.now rules.now words.now counts.now }
{
    StoredSignature {
        sorts,
        symbols,
        rules,
        words,
        counts: signature_counts(counts),
    }
}

// A session's four counts.
// Stays: the numbers go into fields with names of their own, as in `signature_counts`; one function of both would be a trait with these bodies as its impls.
pub fn session_counts(counts: &[u32]) -> sessions::SessionCounts
    requires { 4 ≤ length counts.now }
    ensures { result ≡ counts_in counts.now }
{
    sessions::SessionCounts {
        names: counts[0],
        variables: counts[1],
        bound: counts[2],
        words: counts[3],
    }
}

// Writes numbers, and zero behind them.
fn put_numbers(results: &mut [u32], numbers: &[u32])
    requires { length numbers.now ≤ length results.old }
    ensures { results.new ≡ sets (replicate (length results.old) 0) 0 numbers.now }
{
    results.fill(0);
    results[..numbers.len()].copy_from_slice(numbers);
}

// Zeroes the numbers of what is refused, by the refusal's number; 1 writes nothing.
fn clear_numbers(results: &mut [u32], number: u32)
    ensures { results.new ≡ cond (eqb number 1) results.old (replicate (length results.old) 0) }
{
    if number != u32::from(Refusal::Storage) {
        results.fill(0);
    }
}

// Writes what a verdict tells: steps, nodes and the session's counts.
fn put_verdict(results: &mut [u32], steps: u32, nodes: u32, session: sessions::SessionCounts)
    requires { 6 ≤ length results.old }
    ensures { results.new ≡ verdict_row steps nodes session results.old }
{
    put_numbers(
        results,
        &[
            steps,
            nodes,
            session.names,
            session.variables,
            session.bound,
            session.words,
        ],
    );
}

// `words::lex` under a limit on the text's bytes. The answer is the number of tokens, or 2^32 times the refusal's number and its line.
// Stays: C lends the text with the limit on its bytes beside it; the limit counts no used part.
pub fn horn_lex(text: &[u8], limit: u32, tokens: &mut [[u32; 4]]) -> u64
    ensures answer { result ≡ packed (lex_answer text.now (text_limit limit) tokens.old) }
    ensures rows { tokens.new ≡ lex_rows text.now (text_limit limit) tokens.old }
{
    words::lex(text, text_limits(limit, 0), tokens).map_or_else(
        packed_rejection,
        |count| count as u64,
    )
}

// `parser::parse_text` under a limit on the text's bytes. The answer is the number of declarations, or 2^32 times the refusal's number and its line.
// Stays: C lends the text with the limit on its bytes beside it; the limit counts no used part.
pub fn horn_parse(text: &[u8], limit: u32, tokens: &mut [[u32; 4]], rows: &mut [[u32; 4]]) -> u64
    ensures { ParsedAs text.now limit tokens.old rows.old result tokens.new rows.new }
{
    parser::parse_text(text, text_limits(limit, 0), tokens, rows).map_or_else(
        packed_rejection,
        |parsed| parsed.declarations as u64,
    )
}

// `load::load` under limits on the text's bytes and the nodes in all. The answer is the number of declarations, or 2^32 times the refusal's number and its
// line. The counts are those of sorts, symbols, rules, words and waiting `#eval`.
// Stays: the parameters are those that programs in C pass, each buffer by itself.
pub fn horn_load(
    text: &[u8],
    bytes: u32,
    nodes: u32,
    tokens: &mut [[u32; 4]],
    rows: &mut [[u32; 4]],
    calls: &mut [[u32; 4]],
    sorts: &mut [[u32; 2]],
    symbols: &mut [[u32; 24]],
    rules: &mut [[u32; 154]],
    words: &mut [u32],
    evals: &mut [[u32; 2]],
    counts: &mut [u32],
) -> u64
    ensures { LoadedAs text.now bytes nodes (record { tokens = tokens.old; rows = rows.old; calls = calls.old; sorts = sorts.old; symbols = symbols.old; rules = rules.old; words = words.old; evals = evals.old }) counts.old result (record { tokens = tokens.new; rows = rows.new; calls = calls.new; sorts = sorts.new; symbols = symbols.new; rules = rules.new; words = words.new; evals = evals.new }) counts.new }
{
    if counts.len() < 5 {
        return packed_refusal(Refusal::Storage);
    }
    let mut buffers = load::LentBuffers {
        tokens,
        rows,
        calls,
        sorts,
        symbols,
        rules,
        words,
        evals,
    };
    match load::load(text, text_limits(bytes, nodes), &mut buffers) {
        Err(rejection) => {
            clear_numbers(counts, u32::from(rejection.refusal));
            packed_rejection(rejection)
        }
        Ok(loaded) => {
            let stored = loaded.counts;
            put_numbers(
                counts,
                &[
                    stored.sorts,
                    stored.symbols,
                    stored.rules,
                    stored.words,
                    loaded.evals,
                ],
            );
            loaded.declarations as u64
        }
    }
}

// `signature::check_signature` on storage of any contents, with the first four counts that `horn_load` leaves. The answer is 0 for a signature in the listed
// form, and else 2^32, refusal 1.
// Stays: the parameters are those that programs in C pass, each buffer by itself.
pub fn horn_check_signature(
    text: &[u8],
    sorts: &[[u32; 2]],
    symbols: &[[u32; 24]],
    rules: &[[u32; 154]],
    words: &[u32],
    counts: &[u32],
) -> u64
    ensures { CheckedAs text.now sorts.now symbols.now rules.now
        words.now counts.now result }
{
    if counts.len() < 4 {
        return packed_refusal(Refusal::Storage);
    }
    let signature = stored_signature(sorts, symbols, rules, words, counts);
    if !signature::check_signature(text, signature) {
        return packed_refusal(Refusal::Storage);
    }
    0
}

// `evaluator::evaluate` under a limit on words, with the first four counts that `horn_load` leaves. The answer is 0 for a value, or 2^32 times the
// refusal's number. The results are the value's reference, the number of calls and that of words.
// Stays: the parameters are those that programs in C pass, each buffer by itself; the limit beside the text counts no used part.
pub fn horn_evaluate(
    text: &[u8],
    limit: u32,
    sorts: &[[u32; 2]],
    symbols: &[[u32; 24]],
    rules: &[[u32; 154]],
    pattern: &[u32],
    counts: &[u32],
    rows: &[[u32; 4]],
    at: usize,
    words: &mut [u32],
    links: &mut [u32],
    trees: &mut [[u32; 8]],
    results: &mut [u32],
) -> u64
    ensures { EvaluatedAs text.now limit sorts.now symbols.now rules.now pattern.now
        counts.now rows.now at
        (record { words = words.old; links = links.old; trees = trees.old }) results.old result
        (record { words = words.new; links = links.new; trees = trees.new }) results.new }
{
    if counts.len() < 4 {
        return packed_refusal(Refusal::Storage);
    }
    if results.len() < 3 {
        return packed_refusal(Refusal::Storage);
    }
    let query = evaluator::Query {
        signature: stored_signature(sorts, symbols, rules, pattern, counts),
        term: Source { text, rows, at },
        limits: limits_of(0, 0, limit),
    };
    let mut buffers = Buffers {
        words,
        links,
        trees,
    };
    match evaluator::evaluate(query, &mut buffers) {
        Err(refusal) => {
            clear_numbers(results, u32::from(refusal));
            packed_refusal(refusal)
        }
        Ok(outcome) => {
            let spent = outcome.spent;
            put_numbers(results, &[outcome.value, spent.calls, spent.used]);
            0
        }
    }
}

// `evaluator::is_forward_call` with the first four counts that `horn_load` leaves. The answer is 1 for a forward call, 0 for a goal, and 2^32 for
// refusal 1.
// Stays: the parameters are those that programs in C pass, each buffer by itself.
pub fn horn_is_forward_call(
    text: &[u8],
    sorts: &[[u32; 2]],
    symbols: &[[u32; 24]],
    rules: &[[u32; 154]],
    pattern: &[u32],
    counts: &[u32],
    rows: &[[u32; 4]],
    at: usize,
) -> u64
    ensures { ForwardAs text.now sorts.now symbols.now rules.now pattern.now
        counts.now rows.now at result }
{
    if counts.len() < 4 {
        return packed_refusal(Refusal::Storage);
    }
    let signature = stored_signature(sorts, symbols, rules, pattern, counts);
    let term = Source { text, rows, at };
    evaluator::is_forward_call(signature, term).map_or_else(packed_refusal, u64::from)
}

// `session_open::open` under limits on variables and on words. The answer is 0 for a new session, or 2^32 for refusal 1.
// Stays: the parameters are those that programs in C pass, each buffer by itself.
pub fn horn_open(
    variables: u32,
    limit: u32,
    names: &mut [[u32; 5]],
    words: &mut [u32],
    bindings: &mut [[u32; 2]],
    links: &mut [[u32; 2]],
    marks: &mut [[u32; 2]],
    stack: &mut [[u32; 3]],
) -> u64
    ensures { OpenedAs variables limit
        (record { names = names.old; words = words.old; bindings = bindings.old })
        (record { links = links.old; marks = marks.old; stack = stack.old }) result
        (record { names = names.new; words = words.new; bindings = bindings.new })
        (record { links = links.new; marks = marks.new; stack = stack.new }) }
{
    let limits = limits_of(0, variables, limit);
    session_open::open(limits, names, words, bindings, links, marks, stack).map_or_else(
        packed_refusal,
        |()| 0,
    )
}

// An answer as one number, and what else it tells; a refusal by its number.
// Stays: programs in C take the answer as one number and the rest in a lent buffer, and neither of the types is of this crate.
// Stays: a refusal is told by any number, as the contract says; of a `Refusal` it would tell those of document 01 alone, and ask more of callers.
// Stays: callers may lend more than six numbers, and an array in their place would ask for exactly six.
pub fn tell_answer(results: &mut [u32], answer: Result<Verdict, u32>) -> u64
    requires { 6 ≤ length results.old }
    ensures number { result ≡ packed_proof (answer_of answer) }
    ensures results { results.new ≡ verdict_after (answer_of answer) results.old }
{
    match answer {
        Err(number) => {
            clear_numbers(results, number);
            number as u64 * REFUSAL
        }
        Ok(
            Verdict::Proved {
                steps,
                nodes,
                counts,
            },
        ) => {
            put_verdict(results, steps, nodes, counts);
            1
        }
        Ok(Verdict::Nothing { steps, counts }) => {
            put_verdict(results, steps, 0, counts);
            2
        }
        Ok(Verdict::Undecided { steps, counts }) => {
            put_verdict(results, steps, 0, counts);
            3
        }
    }
}

// `prover::prove` under limits on steps, on variables and on words, with the first four counts that `horn_load` leaves and the session's
// four: names, variables, bindings and words. The answer is 1 for a proof, 2 for none and 3 for undecided, or 2^32 times the refusal's
// number. The results are the steps of the last bound, the number of the proof's nodes, and the session's counts then.
// Stays: the parameters are those that programs in C pass, each buffer by itself.
pub fn horn_prove(
    text: &[u8],
    most: u32,
    variables: u32,
    limit: u32,
    sorts: &[[u32; 2]],
    symbols: &[[u32; 24]],
    rules: &[[u32; 154]],
    pattern: &[u32],
    counts: &[u32],
    rows: &[[u32; 4]],
    at: usize,
    steps: u32,
    depth: u32,
    names: &mut [[u32; 5]],
    words: &mut [u32],
    bindings: &mut [[u32; 2]],
    session: &[u32],
    links: &mut [[u32; 2]],
    marks: &mut [[u32; 2]],
    stack: &mut [[u32; 3]],
    proof: &mut [[u32; 8]],
    results: &mut [u32],
) -> u64
    ensures { ProvedAs sorts.now symbols.now rules.now pattern.now counts.now
        (record {
          text = text.now;
          limits = search_limits most variables limit;
          rows = rows.now;
          at = at;
          steps = steps;
          depth = depth;
          proof = proof.old;
          space = record { links = links.old; marks = marks.old; stack = stack.old };
        })
        (record { names = names.old; words = words.old; bindings = bindings.old }) session.now
        results.old result
        (record { names = names.new; words = words.new; bindings = bindings.new }) proof.new
        (record { links = links.new; marks = marks.new; stack = stack.new }) results.new }
{
    if counts.len() < 4 {
        return packed_refusal(Refusal::Storage);
    }
    if session.len() < 4 {
        return packed_refusal(Refusal::Storage);
    }
    if results.len() < 6 {
        return packed_refusal(Refusal::Storage);
    }
    let query = Query {
        signature: stored_signature(sorts, symbols, rules, pattern, counts),
        goal: Source { text, rows, at },
        limits: limits_of(most, variables, limit),
        steps,
        depth,
    };
    let mut store = Store {
        words,
        bindings,
        links,
        marks,
        stack,
        frames: proof,
    };
    let used = session_counts(session);
    let answer = prover::prove(query, names, &mut store, used);
    tell_answer(results, answer.map_err(u32::from))
}

// `unifier::unify` on storage of any contents. Where words, bindings, scratch and references are what it asks, the answer is how it ended, as `packed`
// tells it, below 2^32. Else the answer is 2^32, refusal 1 with line 0, and nothing is written.
// Stays: the parameters are those that programs in C pass, each buffer by itself.
pub fn horn_unify(
    words: &[u32],
    bindings: &mut [[u32; 2]],
    links: &mut [[u32; 2]],
    marks: &mut [[u32; 2]],
    stack: &mut [[u32; 3]],
    variables: u32,
    used: u32,
    bound: u32,
    left: u32,
    right: u32,
) -> u64
    ensures { Answered words.now bindings.old bindings.new links.old links.new
        marks.old marks.new stack.old stack.new variables used bound left right result }
{
    let terms = Terms {
        words,
        room: TERM_ROOM,
        variables,
        used,
    };
    let held = StoredBindings {
        rows: bindings,
        bound,
    };
    if !checks::is_ready(terms, held, links, marks, stack, left, right) {
        return packed_refusal(Refusal::Storage);
    }
    let mut workspace = Workspace {
        links,
        marks,
        stack,
    };
    let ended = unifier::unify(terms, bindings, &mut workspace, bound, left, right);
    unifier::packed(ended, bound)
}
