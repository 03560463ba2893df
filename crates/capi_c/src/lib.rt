// The functions of `capi` for programs in other languages, as a static library: each is exported under its name, with the contract that it has there.
// Stays: a crate is a library or a static library, not both, and `prover_capi` calls `capi`; so its functions stand here again, to be exported.
#![tactic(auto)]

ghost use Rattle.std.specs.Prelude.{◌≡◌};
ghost use Rattle.capi.specs.Declarations.{ParsedAs};
ghost use Rattle.capi.specs.Checks.{CheckedAs};
ghost use Rattle.capi.specs.Evaluation.{EvaluatedAs, ForwardAs};
ghost use Rattle.capi.specs.Signatures.{LoadedAs};
ghost use Rattle.capi.specs.Sessions.{OpenedAs, ProvedAs, search_limits};
ghost use Rattle.capi.specs.Unification.{Answered};
ghost use Rattle.capi.specs.Words.{packed, text_limit};
ghost use Rattle.words.specs.Lexer.{lex_answer, lex_rows};

// `capi::horn_lex`.
// Stays: C lends the text with the limit on its bytes beside it; the limit counts no used part.
#[unsafe(no_mangle)]
pub extern "C" fn horn_lex(text: &[u8], limit: u32, tokens: &mut [[u32; 4]]) -> u64
    ensures answer { result ≡ packed (lex_answer text.now (text_limit limit) tokens.old) }
    ensures rows { tokens.new ≡ lex_rows text.now (text_limit limit) tokens.old }
{
    capi::horn_lex(text, limit, tokens)
}

// `capi::horn_parse`.
// Stays: C lends the text with the limit on its bytes beside it; the limit counts no used part.
#[unsafe(no_mangle)]
pub extern "C" fn horn_parse(
    text: &[u8],
    limit: u32,
    tokens: &mut [[u32; 4]],
    rows: &mut [[u32; 4]],
) -> u64
    ensures { ParsedAs text.now limit tokens.old rows.old result tokens.new rows.new }
{
    capi::horn_parse(text, limit, tokens, rows)
}

// `capi::horn_load`.
// Stays: the parameters are those that programs in C pass, each buffer by itself.
#[unsafe(no_mangle)]
pub extern "C" fn horn_load(
    text: &[u8],
    bytes: u32,
    nodes: u32,
    tokens: &mut [[u32; 4]],
    rows: &mut [[u32; 4]],
    calls: &mut [[u32; 4]],
    sorts: &mut [[u32; 2]],
    symbols: &mut [[u32; 24]],
    rules: &mut [[u32; 154]],
    words: &mut [u32],
    evals: &mut [[u32; 2]],
    counts: &mut [u32],
) -> u64
    ensures { LoadedAs text.now bytes nodes (record { tokens = tokens.old; rows = rows.old; calls = calls.old; sorts = sorts.old; symbols = symbols.old; rules = rules.old; words = words.old; evals = evals.old }) counts.old result (record { tokens = tokens.new; rows = rows.new; calls = calls.new; sorts = sorts.new; symbols = symbols.new; rules = rules.new; words = words.new; evals = evals.new }) counts.new }
{
    capi::horn_load(
        text, bytes, nodes, tokens, rows, calls, sorts, symbols, rules, words, evals, counts,
    )
}

// `capi::horn_check_signature`.
// Stays: the parameters are those that programs in C pass, each buffer by itself.
#[unsafe(no_mangle)]
pub extern "C" fn horn_check_signature(
    text: &[u8],
    sorts: &[[u32; 2]],
    symbols: &[[u32; 24]],
    rules: &[[u32; 154]],
    words: &[u32],
    counts: &[u32],
) -> u64
    ensures { CheckedAs text.now sorts.now symbols.now rules.now
        words.now counts.now result }
{
    capi::horn_check_signature(text, sorts, symbols, rules, words, counts)
}

// `capi::horn_evaluate`.
// Stays: the parameters are those that programs in C pass, each buffer by itself; the limit beside the text counts no used part.
#[unsafe(no_mangle)]
pub extern "C" fn horn_evaluate(
    text: &[u8],
    limit: u32,
    sorts: &[[u32; 2]],
    symbols: &[[u32; 24]],
    rules: &[[u32; 154]],
    pattern: &[u32],
    counts: &[u32],
    rows: &[[u32; 4]],
    at: usize,
    words: &mut [u32],
    links: &mut [u32],
    trees: &mut [[u32; 8]],
    results: &mut [u32],
) -> u64
    ensures { EvaluatedAs text.now limit sorts.now symbols.now rules.now pattern.now
        counts.now rows.now at
        (record { words = words.old; links = links.old; trees = trees.old }) results.old result
        (record { words = words.new; links = links.new; trees = trees.new }) results.new }
{
    capi::horn_evaluate(
        text, limit, sorts, symbols, rules, pattern, counts, rows, at, words, links, trees, results,
    )
}

// `capi::horn_is_forward_call`.
// Stays: the parameters are those that programs in C pass, each buffer by itself.
#[unsafe(no_mangle)]
pub extern "C" fn horn_is_forward_call(
    text: &[u8],
    sorts: &[[u32; 2]],
    symbols: &[[u32; 24]],
    rules: &[[u32; 154]],
    pattern: &[u32],
    counts: &[u32],
    rows: &[[u32; 4]],
    at: usize,
) -> u64
    ensures { ForwardAs text.now sorts.now symbols.now rules.now pattern.now
        counts.now rows.now at result }
{
    capi::horn_is_forward_call(text, sorts, symbols, rules, pattern, counts, rows, at)
}

// `capi::horn_open`.
// Stays: the parameters are those that programs in C pass, each buffer by itself.
#[unsafe(no_mangle)]
pub extern "C" fn horn_open(
    variables: u32,
    limit: u32,
    names: &mut [[u32; 5]],
    words: &mut [u32],
    bindings: &mut [[u32; 2]],
    links: &mut [[u32; 2]],
    marks: &mut [[u32; 2]],
    stack: &mut [[u32; 3]],
) -> u64
    ensures { OpenedAs variables limit
        (record { names = names.old; words = words.old; bindings = bindings.old })
        (record { links = links.old; marks = marks.old; stack = stack.old }) result
        (record { names = names.new; words = words.new; bindings = bindings.new })
        (record { links = links.new; marks = marks.new; stack = stack.new }) }
{
    capi::horn_open(
        variables, limit, names, words, bindings, links, marks, stack,
    )
}

// `capi::horn_prove`.
// Stays: the parameters are those that programs in C pass, each buffer by itself.
#[unsafe(no_mangle)]
pub extern "C" fn horn_prove(
    text: &[u8],
    most: u32,
    variables: u32,
    limit: u32,
    sorts: &[[u32; 2]],
    symbols: &[[u32; 24]],
    rules: &[[u32; 154]],
    pattern: &[u32],
    counts: &[u32],
    rows: &[[u32; 4]],
    at: usize,
    steps: u32,
    depth: u32,
    names: &mut [[u32; 5]],
    words: &mut [u32],
    bindings: &mut [[u32; 2]],
    session: &[u32],
    links: &mut [[u32; 2]],
    marks: &mut [[u32; 2]],
    stack: &mut [[u32; 3]],
    proof: &mut [[u32; 8]],
    results: &mut [u32],
) -> u64
    ensures { ProvedAs sorts.now symbols.now rules.now pattern.now counts.now
        (record {
          text = text.now;
          limits = search_limits most variables limit;
          rows = rows.now;
          at = at;
          steps = steps;
          depth = depth;
          proof = proof.old;
          space = record { links = links.old; marks = marks.old; stack = stack.old };
        })
        (record { names = names.old; words = words.old; bindings = bindings.old }) session.now
        results.old result
        (record { names = names.new; words = words.new; bindings = bindings.new }) proof.new
        (record { links = links.new; marks = marks.new; stack = stack.new }) results.new }
{
    capi::horn_prove(
        text, most, variables, limit, sorts, symbols, rules, pattern, counts, rows, at, steps,
        depth, names, words, bindings, session, links, marks, stack, proof, results,
    )
}

// `capi::horn_unify`.
// Stays: the parameters are those that programs in C pass, each buffer by itself.
#[unsafe(no_mangle)]
pub extern "C" fn horn_unify(
    words: &[u32],
    bindings: &mut [[u32; 2]],
    links: &mut [[u32; 2]],
    marks: &mut [[u32; 2]],
    stack: &mut [[u32; 3]],
    variables: u32,
    used: u32,
    bound: u32,
    left: u32,
    right: u32,
) -> u64
    ensures { Answered words.now bindings.old bindings.new links.old links.new
        marks.old marks.new stack.old stack.new variables used bound left right result }
{
    capi::horn_unify(
        words, bindings, links, marks, stack, variables, used, bound, left, right,
    )
}
