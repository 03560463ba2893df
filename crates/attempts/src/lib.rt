// One attempt with a rule (document 01, "Search"): its conclusion is copied with new variables and unified with a goal, and then its premises are copied.
#![tactic(auto)]

ghost use Rattle.std.specs.Prelude.{◌≡◌, ◌+◌, ◌<◌, true, IfSome};
ghost use Rattle.resolution.specs.Search.{within, over};
ghost use Rattle.arena.specs.Cells.{cells, Reference};
ghost use Rattle.bindings.specs.Stored.{Form};
ghost use Rattle.attempts.specs.Clashes.{LeadsTo, BothNodes, Comparable, Clashes};
ghost use Rattle.unifier.specs.Lending.{SameBuffers};
ghost use Rattle.attempts.specs.Promises.{Asked, Attempted, HeadAsked, HeadTried, BodyAsked, BodyTried};

use arena::{PATTERN_ROOM, RulePart, TERM_ROOM, Terms, arity_of, inst, moved_word};
use bindings::{InUse, StoredBindings, undo, walk};
use refusals::Refusal;
use unifier::{Workspace, unify};

// A stored rule: where its words start among the pattern's, how many its conclusion takes and how many its premises before them, the reference of its
// conclusion, and how many variables are met in the conclusion and in all.
#[derive(Clone, Copy)]
pub struct Stored {
    pub from: u32,
    pub head: u32,
    pub body: u32,
    pub conclusion: u32,
    pub met: u32,
    pub variables: u32,
}

// A stored rule with the parts of storage that are lent with it: the words of the patterns, the references of its premises, and the places of its variables.
// The references of its premises are named only in contracts: what an attempt makes of them is told by `Attempted`, and its callers compute it.
// Stays: the rule goes apart from words and bindings: it is read while these are written, and they have another owner.
#[derive(Clone, Copy)]
pub struct LentRule<'a> {
    pub pattern: &'a [u32],
    pub premises: &'a [u32],
    pub places: &'a [u32],
    pub stored: Stored,
}

// How many variables and words a search may use.
#[derive(Clone, Copy)]
pub struct SearchLimits {
    pub variables: u32,
    pub words: u32,
}

// Where a search stands: what it may use, what is in use, and the goal.
// Stays: words and bindings go beside it, as they have other owners and are written between two attempts.
#[derive(Clone, Copy)]
pub struct SearchState {
    pub limits: SearchLimits,
    pub in_use: InUse,
    pub goal: u32,
}

impl SearchLimits {
    // Whether so many variables and words are too many (document 01, refusal 37).
    pub fn exceeds(self, variables: u32, words: u32) -> bool
        ensures { result ≡ over (within self.variables self.words) variables words }
    {
        self.variables < variables || self.words < words
    }
}

// What came of an attempt that the limits allow.
// Stays: a miss is no absence and no error, since the counter has moved on; an `Option` would leave the counter of a miss out.
#[derive(Clone, Copy)]
pub enum Tried {
    // The conclusion does not unify; the counter has moved on.
    Missed { counter: u32 },
    // The rule is entered, with what is in use then.
    Entered { in_use: InUse },
}

// The reference of the node that the bindings lead to from the goal; none where they lead to a variable.
pub fn goal_node(terms: Terms, held: StoredBindings, goal: u32) -> Option<u32>
    // The callers hold a goal and bindings in form.
    requires form { Form terms.room terms.words.now held.rows.now terms.variables terms.used held.bound }
    requires refers { Reference terms.room (cells terms.words.now) terms.variables terms.used goal }
    ensures { LeadsTo terms.entry.room terms.entry.words.now held.entry.rows.now terms.entry.variables terms.entry.used held.entry.bound goal result }
{
    let end = walk(terms, held, goal);
    if end < terms.room {
        return None;
    }
    Some(end)
}

// The node that the bindings lead to from the goal, and the address of the pattern's; none where one of the two is a variable.
fn both_nodes(terms: Terms, held: StoredBindings, goal: u32, other: u32) -> Option<(u32, usize)>
    requires form { Form terms.room terms.words.now held.rows.now terms.variables terms.used held.bound }
    requires refers { Reference terms.room (cells terms.words.now) terms.variables terms.used goal }
    ensures { IfSome result (BothNodes terms.entry.room terms.entry.words.now held.entry.rows.now terms.entry.variables terms.entry.used held.entry.bound goal other) }
{
    let from = other.checked_sub(PATTERN_ROOM)?;
    let end = goal_node(terms, held, goal)?;
    Some((end, from as usize))
}

// Whether two heads differ: where the bindings lead from the goal, and a pattern's, both nodes.
fn heads_differ(pattern: &[u32], terms: Terms, held: StoredBindings, goal: u32, other: u32) -> bool
    requires { Comparable terms.room pattern.now terms.words.now held.rows.now terms.variables terms.used held.bound goal other }
    ensures { result ≡ true → Clashes terms.entry.room pattern.now terms.entry.words.now held.entry.rows.now held.entry.bound goal other }
{
    let Some((end, from)) = both_nodes(terms, held, goal, other) else {
        return false;
    };
    terms.header(end) != pattern[from]
}

// Whether the goal and a conclusion clash by their heads or by those of their arguments. A rule that cannot serve is mostly found out here, before
// anything is copied.
pub fn clashes(
    pattern: &[u32],
    terms: Terms,
    held: StoredBindings,
    goal: u32,
    conclusion: u32,
) -> bool
    requires { Comparable terms.room pattern.now terms.words.now held.rows.now terms.variables terms.used held.bound goal conclusion }
    ensures { result ≡ true → Clashes terms.entry.room pattern.now terms.entry.words.now held.entry.rows.now held.entry.bound goal conclusion }
{
    let Some((end, from)) = both_nodes(terms, held, goal, conclusion) else {
        return false;
    };
    let header = terms.header(end);
    if header != pattern[from] {
        return true;
    }
    (0..arity_of(header)).any(|i| {
        let argument = terms.argument(end, i);
        heads_differ(
            pattern,
            terms,
            held,
            argument,
            pattern[from + 1 + i as usize],
        )
    })
}

// Copies the conclusion behind the used words, if the limits allow it, and unifies the goal with it; the answer is how many bindings there are then, where
// they unify.
fn try_head(
    rule: LentRule,
    words: &mut [u32],
    bindings: &mut [[u32; 2]],
    workspace: &mut Workspace,
    at: SearchState,
) -> Result<Option<u32>, Refusal>
    requires { HeadAsked at.limits.variables at.limits.words rule.pattern.now rule.places.now rule.stored words.old bindings.old
        workspace.old.links.now workspace.old.marks.now workspace.old.stack.now at.in_use.variables at.in_use.used at.in_use.bound at.goal }
    ensures tried { HeadTried at.limits.variables at.limits.words rule.entry.pattern.now rule.entry.places.now rule.entry.stored words.old words.new
        bindings.old bindings.new workspace.old.links.now workspace.new.links.now workspace.old.marks.now workspace.new.marks.now
        workspace.old.stack.now workspace.new.stack.now at.in_use.variables at.in_use.used at.in_use.bound at.goal result }
    ensures lent { SameBuffers workspace.old workspace.new }
{
    let stored = rule.stored;
    let from = stored.from + stored.body;
    let before = at.in_use;
    let after = InUse {
        variables: before.variables + stored.met,
        used: before.used + stored.head,
        ..before
    };
    if at.limits.exceeds(after.variables, after.used) {
        return Err(Refusal::OverLimit);
    }
    let terms = before.terms(words);
    let held = before.bindings(bindings);
    if clashes(rule.pattern, terms, held, at.goal, stored.conclusion) {
        return Ok(None);
    }
    // Of two variables the first is bound: the goal's.
    let first = at.goal;
    let second = moved_word(
        stored.conclusion,
        rule.places,
        before.variables,
        PATTERN_ROOM + from,
        TERM_ROOM + before.used,
    );
    let head = RulePart {
        words: rule.pattern,
        from,
        count: stored.head,
        places: rule.places,
    };
    inst(head, words, TERM_ROOM, before.used, before.variables);
    let copied = after.terms(words);
    Ok(unify(copied, bindings, workspace, before.bound, first, second))
}

// Copies the premises behind the conclusion, if the limits allow it; else the bindings, `bound` by now, are undone to those before the attempt.
fn try_body(
    rule: LentRule,
    words: &mut [u32],
    bindings: &mut [[u32; 2]],
    at: SearchState,
    bound: u32,
) -> Result<(), Refusal>
    requires { BodyAsked at.limits.variables at.limits.words rule.pattern.now rule.places.now rule.stored words.old bindings.old at.in_use.variables at.in_use.used at.in_use.bound bound }
    ensures { BodyTried at.limits.variables at.limits.words rule.entry.pattern.now rule.entry.places.now rule.entry.stored words.old words.new
        bindings.old bindings.new at.in_use.variables at.in_use.used at.in_use.bound bound result }
{
    let stored = rule.stored;
    let before = at.in_use;
    let behind = before.used + stored.head;
    let variables = before.variables + stored.variables;
    let end = behind + stored.body;
    if at.limits.exceeds(variables, end) {
        undo(bindings, bound, before.bound);
        return Err(Refusal::OverLimit);
    }
    let body = RulePart {
        words: rule.pattern,
        from: stored.from,
        count: stored.body,
        places: rule.places,
    };
    inst(body, words, TERM_ROOM, behind, before.variables);
    Ok(())
}

// One attempt: the goal with a rule, under the bindings that stand, with new variables from the counter on; where it takes more variables or words than
// the search may use, it is refused. The premises' references are named only in the contract: what they become is `premise_at`, which `arena::moved_word`
// computes.
pub fn try_rule(
    rule: LentRule,
    words: &mut [u32],
    bindings: &mut [[u32; 2]],
    workspace: &mut Workspace,
    at: SearchState,
) -> Result<Tried, Refusal>
    requires { Asked at.limits.variables at.limits.words rule.pattern.now rule.premises.now rule.places.now rule.stored words.old bindings.old
        workspace.old.links.now workspace.old.marks.now workspace.old.stack.now at.in_use.variables at.in_use.used at.in_use.bound at.goal }
    ensures tried { Attempted at.limits.variables at.limits.words rule.entry.pattern.now rule.entry.premises.now rule.entry.places.now rule.entry.stored
        words.old words.new bindings.old bindings.new workspace.old.links.now workspace.new.links.now
        workspace.old.marks.now workspace.new.marks.now workspace.old.stack.now workspace.new.stack.now
        at.in_use.variables at.in_use.used at.in_use.bound at.goal result }
    ensures lent { SameBuffers workspace.old workspace.new }
{
    let counter = at.in_use.variables;
    let met = counter + rule.stored.met;
    let unified = try_head(rule, words, bindings, workspace, at)?;
    match unified {
        None => Ok(Tried::Missed { counter: met }),
        Some(bound) => {
            try_body(rule, words, bindings, at, bound)?;
            let in_use = InUse {
                variables: counter + rule.stored.variables,
                bound,
                used: at.in_use.used + rule.stored.head + rule.stored.body,
            };
            Ok(Tried::Entered { in_use })
        }
    }
}
