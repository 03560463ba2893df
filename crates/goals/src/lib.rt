// Goals (document 01, "Search": each goal is compiled as a rule without premises): a goal compiled against the names of a session, and then
// stored in the session.
//
// All functions here serve the crates above: they ask for storage of the listed sizes.
#![tactic(auto)]

ghost use Rattle.std.specs.Prelude.{◌≡◌, ℕ, ◌+◌, ◌≤◌, ◌<◌, length};
ghost use Rattle.std.proofs.lemmas.List.Edits.{sets};
ghost use Rattle.arena.specs.Copies.{term_room, pattern_room, moved, copied, Copyable, Movable};
ghost use Rattle.names.specs.Named.{symbols_named};
ghost use Rattle.names.specs.Symbols.{row_at};
ghost use Rattle.patterns.specs.Promises.{Ready};
ghost use Rattle.goals.specs.Compiling.{Bounds, GoalMade};
ghost use Rattle.goals.specs.Storing.{name_row, StoreAsked, GoalStored};

use arena::{PATTERN_ROOM, RulePart, TERM_ROOM};
use names::{SourceTerms, VariableRow};
use patterns::{Place, VARIABLES};
use refusals::Refusal;
use rules::{RULE_NODES, RULE_WORDS};
use sessions::{NAME_VARIABLE, NameRow, SessionCounts};

// How many words the buffer for a goal's words has: a goal is compiled as a rule without premises.
pub const WORDS: usize = RULE_WORDS;

// A compiled goal: its reference, how many variables there are with it, the session's names first, and how many words it has.
#[derive(Clone, Copy)]
pub struct Goal {
    pub node: u32,
    pub variables: u32,
    pub words: u32,
}

// Compiles the goal at a row against the names of a session, which are only read: its variables go to a table of 64 rows, the session's
// names first, and its words to a buffer for 1,024 nodes.
pub fn compile(
    source: SourceTerms,
    at: usize,
    names: &[NameRow],
    variables: &mut [VariableRow],
    words: &mut [u32],
) -> Result<Goal, Refusal>
    requires { Ready source.symbols.now (length source.symbols.now) variables.old (length names.now) words.old 0 1024 }
    ensures bounds { Bounds (length names.now) result }
    ensures goal_made { GoalMade source.entry.text.now source.entry.rows.now at (symbols_named source.entry) names.now words.old result
        variables.new words.new }
{
    // A name of the session is a variable: the first columns of its row.
    signature::put_parts(names, 0, variables);
    let start = Place {
        next: at,
        variables: names.len(),
        used: 0,
        room: RULE_NODES,
    };
    let compiled = patterns::pattern(source, 0, variables, words, start)?;
    let place = compiled.place;
    if !rules::all_known(&variables[..place.variables]) {
        return Err(Refusal::SortNotKnown);
    }
    Ok(Goal {
        node: compiled.node,
        variables: place.variables as u32,
        words: place.used as u32,
    })
}

// Writes the rows of a goal's new names, with variables from `counter` on.
// Stays: as at `signature::put_parts`, nothing would be known of what is written behind a `zip`.
fn enter_names(variables: &[VariableRow], names: &mut [NameRow], counter: u32)
    requires { (length variables.now ≤ 64) × (length variables.now ≤ length names.old) × (counter + length variables.now ≤ term_room) }
    ensures { (i : ℕ) → i < length variables.now → row_at names.new i ≡ name_row (row_at variables.now i) (counter + i) }
{
    for (i, row) in variables.iter().enumerate() {
        let [kind, start, size, sort] = *row;
        let x = counter + i as u32;
        names[i] = [kind, start, size, sort, x];
    }
}

// Copies a goal's words behind the used words of a session, and answers the goal's reference there.
// Stays: with the words from `used` on alone lent, the caller would have to join what comes back to those before, of which its contract speaks too.
fn copy_goal(pattern: &[u32], goal: Goal, places: &[u32], words: &mut [u32], used: u32) -> u32
    requires { (Copyable pattern.now 0 goal.words places.now words.old term_room used 0) × (Movable places.now 0 pattern_room (term_room + used) goal.node) }
    ensures value { result ≡ moved places.now 0 pattern_room (term_room + used) goal.node }
    ensures words_after { words.new
        ≡ sets words.old used (copied pattern.now 0 goal.words places.now term_room used 0) }
{
    let copied = RulePart {
        words: pattern,
        from: 0,
        count: goal.words,
        places,
    };
    arena::inst(copied, words, TERM_ROOM, used, 0);
    arena::moved_word(goal.node, places, 0, PATTERN_ROOM, TERM_ROOM + used)
}

// Stores a compiled goal in a session: writes the rows of its new names, and its words with its variables put in; answers its reference.
// Stays: the goal's counts go on as they are, into the session's; of parts, the caller would cut two buffers, and their lengths be made 32 bits again.
pub fn store(
    variables: &[VariableRow],
    pattern: &[u32],
    goal: Goal,
    names: &mut [NameRow],
    words: &mut [u32],
    counts: SessionCounts,
) -> u32
    requires { StoreAsked variables.now pattern.now goal names.old words.old counts }
    ensures { GoalStored variables.now pattern.now goal names.old words.old counts
        result names.new words.new }
{
    let mut places = [0u32; VARIABLES];
    let n = counts.names as usize;
    let v = goal.variables as usize;
    enter_names(&variables[n..v], &mut names[n..v], counts.variables);
    signature::put_column(&names[..v], NAME_VARIABLE, &mut places);
    copy_goal(pattern, goal, &places, words, counts.words)
}
