// One call of `try_rule` on storage that is tested first. The rule: succ (succ (succ (succ x))) from pair x y and succ y, where x and y have the
// numbers 1 and 0.
ghost use Rattle.attempts_test.specs.Told.{Room, StateTold};
ghost use Rattle.std.specs.Prelude.{◌≡◌, true};

use arena::{HEADERS, PATTERN_ROOM, TERM_ROOM};
use attempts::{LentRule, SearchState, Stored, Tried};
use refusals::Refusal;
use samples::build::{BINARY, MOST, UNARY};
use samples::unification;
use samples::unification::Fault;
use unifier::Workspace;

// The rule's words, the references of its premises, the places of its variables, and where its parts stand.
const PATTERN: [u32; 13] = [
    BINARY,
    1,
    0,
    UNARY,
    0,
    UNARY,
    1,
    UNARY,
    PATTERN_ROOM + 5,
    UNARY,
    PATTERN_ROOM + 7,
    UNARY,
    PATTERN_ROOM + 9,
];

pub const PREMISES: [u32; 2] = [PATTERN_ROOM, PATTERN_ROOM + 3];

const PLACES: [u32; 2] = [1, 0];

const RULE: Stored = Stored {
    from: 0,
    head: 8,
    body: 5,
    conclusion: PATTERN_ROOM + 11,
    met: 1,
    variables: 2,
};

// Whether storage has room for what the limits allow, and the scratch is zero.
// Stays: `is_state`, its one caller, is lent words, bindings and workspace apart; a struct of the three would be made for this call and taken apart in it.
fn has_room(words: &[u32], bindings: &[[u32; 2]], workspace: &Workspace, state: SearchState) -> bool
    ensures { result ≡ true → Room state.limits.variables state.limits.words words.now bindings.now
        workspace.now.links.now workspace.now.marks.now workspace.now.stack.now }
{
    if TERM_ROOM < state.limits.variables {
        return false;
    }
    if HEADERS - TERM_ROOM < state.limits.words {
        return false;
    }
    if words.len() < state.limits.words as usize {
        return false;
    }
    if bindings.len() < state.limits.variables as usize {
        return false;
    }
    checks::is_scratch_zero(
        TERM_ROOM,
        state.limits.words,
        workspace.links,
        workspace.marks,
        workspace.stack,
    )
}

// Whether storage is what an attempt asks; the marks are left as they are.
// Stays: only the marks are written here; of words and bindings in one struct with them it would be promised that they stay as they were.
fn is_state(
    words: &[u32],
    bindings: &[[u32; 2]],
    workspace: &mut Workspace,
    state: SearchState,
) -> bool
    ensures told { StateTold state words.now bindings.now
        workspace.old.links.now workspace.old.marks.now workspace.new.marks.now workspace.old.stack.now result }
    ensures links { workspace.new.links.now ≡ workspace.old.links.now }
    ensures stack { workspace.new.stack.now ≡ workspace.old.stack.now }
{
    let terms = state.in_use.terms(words);
    let held = state.in_use.bindings(bindings);
    if !checks::is_form(terms, held, workspace.marks) {
        return false;
    }
    if !bindings::is_reference(terms, state.goal) {
        return false;
    }
    has_room(words, bindings, workspace, state)
}

// Tries the rule: as `try_rule` answers.
// Stays: `try_rule` takes words, bindings and workspace apart, so a struct of the three would be made for this one call and taken apart in it.
pub fn attempt(
    words: &mut [u32],
    bindings: &mut [[u32; 2]],
    workspace: Workspace,
    state: SearchState,
) -> Result<Result<Tried, Refusal>, Fault> {
    let mut lent = workspace;
    if !is_state(words, bindings, &mut lent, state) {
        return Err(Fault::NotReady);
    }
    let rule = LentRule {
        pattern: &PATTERN,
        premises: &PREMISES,
        places: &PLACES,
        stored: RULE,
    };
    let tried = attempts::try_rule(rule, words, bindings, &mut lent, state);
    let Workspace {
        links,
        marks,
        stack,
    } = lent;
    unification::is_clean(links, marks, stack)
        .then_some(tried)
        .ok_or(Fault::ScratchLeft)
}

// What a premise's reference becomes by an attempt; none where no sum is sure to fit.
pub fn premise(reference: u32, state: SearchState) -> Option<u32> {
    let [first, last] = PREMISES;
    if reference < first || last < reference || MOST < state.in_use.used {
        return None;
    }
    Some(arena::moved_word(
        reference,
        &PLACES,
        state.in_use.variables,
        PATTERN_ROOM,
        TERM_ROOM + state.in_use.used + RULE.head,
    ))
}
