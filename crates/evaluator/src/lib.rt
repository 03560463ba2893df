// Evaluator: which `#eval` is evaluated, and its value with the trees of its calls (document 01, "Evaluated terms"; the Rust's `is_forward_call` and
// `Evaluator::expression`). Refusals 1, 20, 21, 26, 29 to 37.
//
// The entry points are `evaluate` and `is_forward_call`. They ask nothing of their caller, and each contract fixes the answer and every lent buffer on all
// inputs. `evaluate_listed` serves programs that know their signature and their rows to be in form.
#![tactic(auto)]

ghost use Rattle.std.specs.Prelude.{◌≡◌, ◌≤◌, length};
ghost use Rattle.function_calls.specs.Calls.{tree_rows};
ghost use Rattle.signature.specs.Storage.{store_of};
ghost use Rattle.evaluator.specs.Storage.{is_short, filled, results_in, AreLent};
ghost use Rattle.evaluator.specs.Evaluating.{Readable, Tested, Ready, EvaluationLeft, Evaluating, Forwarding};

use function_calls::{MAX_CALLS, MAX_DEPTH, Outcome, Program, Spent, Store, TreeRow};
use names::Source;
use refusals::Refusal;
use signature::StoredSignature;
use words::Limits;

// The scratch behind the words, and the rows of the stack: as many as a rule's terms may take words, and one more.
pub const SCRATCH: usize = rules::RULE_WORDS + 1;

// What is evaluated: a term, over a signature, under limits.
#[derive(Clone, Copy)]
pub struct Query<'a> {
    pub signature: StoredSignature<'a>,
    pub term: Source<'a>,
    pub limits: Limits,
}

// What an evaluation is lent to write: words for values, links for comparing them, and rows for the trees of its calls.
// Stays: each function promises that the same buffers are lent afterwards (`AreLent`); an invariant tells of one value, and not of the one before.
#[derive(Drop)]
pub struct Buffers<'a> {
    pub words: &'a mut [u32],
    pub links: &'a mut [u32],
    pub trees: &'a mut [TreeRow],
}

// How many rows of trees so many words ask: at most 128 calls are open, and each other one has taken two words at least.
pub fn tree_rows(most: u32) -> usize
    ensures { result ≡ tree_rows most }
{
    u32::min(MAX_CALLS, most / 2 + MAX_DEPTH) as usize
}

impl Buffers<'_> {
    // Is one of them shorter than so many words ask?
    fn are_short(&self, most: u32) -> bool
        requires { most ≤ 262144 }
        ensures { result ≡ is_short most (length self.now.words.now) (length self.now.links.now) (length self.now.trees.now) }
    {
        if self.words.len() < most as usize + SCRATCH {
            return true;
        }
        if self.links.len() < most as usize {
            return true;
        }
        let rows = tree_rows(most);
        self.trees.len() < rows
    }

    // Puts a value into each word, link and column of a row.
    pub fn fill(&mut self, value: u32)
        ensures filled { results_in self.new ≡ filled value (results_in self.old) }
        ensures lent { AreLent self.old self.new }
    {
        self.words.fill(value);
        self.links.fill(value);
        self.trees.fill([value; 8]);
    }
}

// The value of a term, and the trees of its calls, where all that is read is in form and the buffers are long enough.
pub fn evaluate_listed(query: Query, buffers: &mut Buffers) -> Result<Outcome, Refusal>
    requires { Ready query.term.text.now query.limits (store_of query.signature) query.term.rows.now query.term.at (results_in buffers.old) }
    ensures left { EvaluationLeft query.entry.term.text.now query.entry.limits (store_of query.entry.signature)
        query.entry.term.rows.now query.entry.term.at (results_in buffers.old) result (results_in buffers.new) }
    ensures lent { AreLent buffers.old buffers.new }
{
    let signature = query.signature;
    let most = query.limits.capped().words;
    let program = Program {
        symbols: signature.symbols_in_use(),
        rules: signature.rules,
        pattern: &signature.words[..signature.counts.words as usize],
        limit: most,
    };
    let mut stack = [[0u32; 3]; SCRATCH];
    buffers.links.fill(0);
    let mut store = Store {
        words: buffers.words,
        links: buffers.links,
        trees: buffers.trees,
        stack: &mut stack,
    };
    let nothing = Spent { calls: 0, used: 0 };
    match expressions::expression(query.term, program, 0, nothing, &mut store) {
        Err(refusal) => {
            buffers.fill(0);
            Err(refusal)
        }
        Ok(expressed) => {
            let spent = expressed.outcome.spent;
            slices::clear_from(buffers.words, spent.used as usize, 0);
            slices::clear_from(buffers.trees, spent.calls as usize, [0; 8]);
            Ok(expressed.outcome)
        }
    }
}

// Whether all that is read is in form: the signature, and the term's rows.
fn check(signature: StoredSignature, term: Source) -> Result<(), Refusal>
    ensures { Tested (Readable term.entry.text.now (store_of signature.entry) term.entry.rows.now term.entry.at) result }
{
    if !signature::check_signature(term.text, signature) {
        return Err(Refusal::Storage);
    }
    term_check::check_term(term).ok_or(Refusal::Storage)?;
    Ok(())
}

// The value of a term, and the trees of its calls.
pub fn evaluate(query: Query, buffers: &mut Buffers) -> Result<Outcome, Refusal>
    ensures evaluating { Evaluating query.entry.term.text.now query.entry.limits (store_of query.entry.signature)
        query.entry.term.rows.now query.entry.term.at (results_in buffers.old) result (results_in buffers.new) }
    ensures lent { AreLent buffers.old buffers.new }
{
    if buffers.are_short(query.limits.capped().words) {
        return Err(Refusal::Storage);
    }
    check(query.signature, query.term)?;
    evaluate_listed(query, buffers)
}

// Whether a term is evaluated, as an `#eval`: a function's name with all arguments but its result, and no metavariable.
pub fn is_forward_call(signature: StoredSignature, term: Source) -> Result<bool, Refusal>
    ensures { Forwarding term.entry.text.now (store_of signature.entry) term.entry.rows.now term.entry.at result }
{
    check(signature, term)?;
    let symbols = signature.symbols_in_use();
    Ok(forward_calls::is_forward_call(term, symbols))
}
