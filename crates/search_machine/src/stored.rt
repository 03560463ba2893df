// What an attempt reads in a rule's row.
ghost use Rattle.std.specs.Prelude.{◌≡◌, ◌≤◌};
ghost use Rattle.arena.specs.Rows.{Rows};
ghost use Rattle.names.specs.Symbols.{row_at};
ghost use Rattle.rules.specs.StoredRows.{stored_in};
ghost use Rattle.search_machine.specs.Storage.{PremiseAsked};
ghost use Rattle.search_machine.specs.Groups.{AskedIn, TriedIn, IsLent};
ghost use Rattle.search_machine.specs.State.{premise_ref};

use super::frames::Frame;
use super::{Machine, Program, Store};
use arena::{PATTERN_ROOM, TERM_ROOM, moved_word};
use attempts::{LentRule, Stored, Tried, try_rule};
use refusals::Refusal;
use rules::columns::{
    CONCLUSION, CONCLUSION_WORDS, FIRST_PREMISE, FIRST_WORD, MET, PREMISE_WORDS, VARIABLES,
};
use rules::{RuleRow, places, premises};
use unifier::Workspace;

// What a row says of its rule.
// Stays: neither the row nor what it says is a type of this crate, so that no `From` can stand here; `attempts`, which has the struct, knows no rows of rules.
fn stored_in(row: &RuleRow) -> Stored
    ensures { result ≡ stored_in row.now }
{
    Stored {
        from: row[FIRST_WORD],
        head: row[CONCLUSION_WORDS],
        body: row[PREMISE_WORDS],
        conclusion: row[CONCLUSION],
        met: row[MET],
        variables: row[VARIABLES],
    }
}

// The reference of a premise of an application, whose rule has this row.
pub fn premise(row: &RuleRow, x: Frame, place: u32) -> u32
    requires { (rules : Rows) × PremiseAsked rules x place × (row_at rules x.rule ≡ row.now) }
    ensures { (rules : Rows) → PremiseAsked rules x place → row_at rules x.rule ≡ row.now → result ≡ premise_ref rules x place }
{
    let at = FIRST_PREMISE + place as usize;
    let first = PATTERN_ROOM + row[FIRST_WORD];
    let base = TERM_ROOM + (x.used + row[CONCLUSION_WORDS]);
    moved_word(row[at], places(row), x.counter, first, base)
}

// One attempt with the rule that a state has come to.
pub fn try_stored(program: Program, store: &mut Store, m: Machine) -> Result<Tried, Refusal>
    requires { AskedIn program store.old m }
    ensures tried { TriedIn program.entry store.old store.new m result }
    ensures frames { store.new.frames.now ≡ store.old.frames.now }
    ensures lent { IsLent store.old store.new }
{
    let row = &program.rules[m.rule as usize];
    let stored = stored_in(row);
    let rule = LentRule {
        pattern: program.pattern,
        premises: premises(row),
        places: places(row),
        stored,
    };
    let mut workspace = Workspace {
        links: store.links,
        marks: store.marks,
        stack: store.stack,
    };
    let at = m.state(program.limits);
    try_rule(rule, store.words, store.bindings, &mut workspace, at)
}
