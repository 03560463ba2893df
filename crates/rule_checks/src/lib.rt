// Stored rules: the test of their form (document 01, refusal 1), for rows and words of any contents. The form is `RuleListed` in specs/RuleForm.
//
// All functions here serve the crates above: they ask for words of the listed sizes.
#![tactic(auto)]

ghost use Rattle.std.specs.Prelude.{◌≡◌, true, Some, None, [], ℕ, ◌+◌, ◌<◌, ◌≤◌, length, get_or, IsTrue, ◌↔◌, EachIndex, slice_index};
ghost use Rattle.arena.specs.Cells.{headers};
ghost use Rattle.arena.specs.Copies.{pattern_room};
ghost use Rattle.arena.specs.Form.{is_argument};
ghost use Rattle.meeting.specs.Places.{Records, is_place};
ghost use Rattle.names.specs.Symbols.{column};
ghost use Rattle.unifier.specs.Promises.{Tells};
ghost use Rattle.rule_checks.specs.RuleForm.{RuleCheckable, RuleChecked};
ghost use Rattle.rule_checks.specs.Steps.{Numbers, Columns, place_from, Parts, Walkable, premises_of, Walked, PlacedWord, OrderAsked, InOrder, InPlaces};

use arena::{PATTERN_ROOM, Terms};
use meeting::Places;
use names::{Word, is_word_place};
use rules::RuleRow;
use rules::columns::{
    CLAUSE, CONCLUSION, CONCLUSION_WORDS, FIRST_PLACE, FIRST_PREMISE, FIRST_SORT, FIRST_WORD, MET,
    PREMISE_WORDS, PREMISES, VARIABLES,
};

// The most words that the terms of a rule take, as rows count them.
const MOST: u32 = rules::RULE_WORDS as u32;

// The stack of a walk through as many words.
type Stack = [[u32; 2]; rules::RULE_WORDS];

// Whether the words of premises and conclusion are few, and no more than are left.
fn are_sizes(left: u32, body: u32, head: u32) -> bool
    ensures { Tells result ((body + head ≤ left) × (body + head ≤ 2048)) }
{
    if left < body {
        return false;
    }
    if left - body < head {
        return false;
    }
    if MOST < body + head {
        return false;
    }
    true
}

// Whether the numbers of a row are in form, where the rule's words start at `from`.
fn are_numbers(text: &[u8], rule: &RuleRow, from: u32, used: u32) -> bool
    requires { from ≤ used }
    ensures { Tells result (Numbers text.now used from rule.now) }
{
    if !is_word_place(text, Word::at_start(rule)) {
        return false;
    }
    if rules::RULES < rule[CLAUSE] as usize {
        return false;
    }
    if PATTERN_ROOM < rule[VARIABLES] {
        return false;
    }
    if rules::PREMISES < rule[PREMISES] as usize {
        return false;
    }
    if rule[FIRST_WORD] != from {
        return false;
    }
    are_sizes(used - from, rule[PREMISE_WORDS], rule[CONCLUSION_WORDS])
}

// Whether columns are zero: their numbers are or-ed together, and looked at once.
pub fn are_zeros(columns: &[u32]) -> bool
    ensures { IsTrue result ↔ EachIndex columns.now (λ k. slice_index columns.now k ≡ 0) }
{
    columns.iter().fold(0, |seen, &column| seen | column) == 0
}

// Whether sorts are there, of which there are so many.
// Stays: `sorts` is how many sorts there are, not how many columns.
pub fn are_sorts(columns: &[u32], sorts: u32) -> bool
    ensures { IsTrue result ↔ EachIndex columns.now (λ k. (0 < slice_index columns.now k) × (slice_index columns.now k ≤ sorts)) }
{
    columns.iter().all(|sort| 0 < *sort && *sort <= sorts)
}

// Whether the columns of a row are in form.
fn are_columns(rule: &RuleRow, sorts: u32) -> bool
    requires { (column rule.now 3 ≤ 64) × (column rule.now 4 ≤ 16) }
    ensures { Tells result (Columns sorts rule.now) }
{
    let premises = rule[PREMISES] as usize;
    let variables = rule[VARIABLES] as usize;
    if !are_zeros(&rule[FIRST_PREMISE + premises..FIRST_SORT]) {
        return false;
    }
    if !are_zeros(&rule[FIRST_SORT + variables..FIRST_PLACE]) {
        return false;
    }
    if !are_zeros(&rule[FIRST_PLACE + variables..]) {
        return false;
    }
    are_sorts(rules::part_of_row(rule, FIRST_SORT, rule[VARIABLES]), sorts)
}

// Whether references are of the part of the words in use from `from` on.
fn are_roots(terms: Terms, from: u32, references: &[u32]) -> bool
    requires { terms.used ≤ length terms.words.now }
    ensures { Tells result (EachIndex references.now (λ k. is_argument (record { words = terms.entry.words.now; room = terms.entry.room; variables = terms.entry.variables; from = from }) terms.entry.used (slice_index references.now k) ≡ true)) }
{
    references
        .iter()
        .all(|reference| arena::is_argument(terms, from, *reference))
}

// A rule's row and its words: those of its premises from `from` up to `middle`, and those of its conclusion from there up to `end`, as the row counts them.
#[derive(Clone, Copy)]
struct PlacedRule<'a> {
    row: &'a RuleRow,
    words: &'a [u32],
    from: u32,
    middle: u32,
    end: u32,
    ghost counted: { OrderAsked from middle end row.now },
    ghost few: { column row.now 4 ≤ 16 },
    ghost lent: { (end ≤ length words.now) × (pattern_room + end ≤ headers) },
}

// Whether the words of premises and conclusion are in form, and the references of the row are theirs.
fn are_parts(arities: &[u32], rule: PlacedRule) -> bool
    ensures { Tells result (Parts arities.now rule.entry.words.now rule.entry.from rule.entry.middle rule.entry.end rule.entry.row.now) }
{
    let PlacedRule {
        row,
        words,
        from,
        middle,
        end,
    } = rule;
    let premises = Terms {
        words,
        room: PATTERN_ROOM,
        variables: PATTERN_ROOM,
        used: middle,
    };
    if !arena::check_words(premises, from, arities) {
        return false;
    }
    if !are_roots(premises, from, rules::premises(row)) {
        return false;
    }
    let all = Terms {
        used: end,
        ..premises
    };
    if !arena::check_words(all, middle, arities) {
        return false;
    }
    arena::is_argument(all, middle, row[CONCLUSION])
}

// Such a rule whose words and references are in form, so that its terms can be walked through.
#[derive(Clone, Copy)]
struct FormedRule<'a> {
    placed: PlacedRule<'a>,
    ghost walkable: { Walkable placed.words.now placed.end placed.row.now },
}

// Meets the variables of a row's premises in writing order, none of which has a place before; answers whether the premises take the words that the row
// counts.
fn walk_premises(rule: FormedRule, places: &mut Places, stack: &mut Stack) -> bool
    requires { Records [] places.old.places places.old.count }
    ensures { Walked (premises_of rule.entry.placed.words.now rule.entry.placed.row.now) (column rule.entry.placed.row.now 7) places.old.places places.old.count result places.new.places places.new.count }
{
    let PlacedRule { row, words, .. } = rule.placed;
    let size = row[PREMISE_WORDS];
    let mut spent = 0;
    for reference in rules::premises(row) {
        let Some(taken) = places.meet(words, *reference, size - spent, stack) else {
            return false;
        };
        spent += taken;
    }
    spent == size
}

// Whether each variable among words has a place.
fn are_placed(words: &[u32], places: &Places) -> bool
    ensures { Tells result (EachIndex words.now (λ k. PlacedWord places.now.places (slice_index words.now k))) }
{
    words.iter().all(|word| *word >= PATTERN_ROOM || places.places[*word as usize].is_some())
}

// Whether the terms of a row take the words that it counts, and its variables are numbered in writing order. The stack is scratch.
fn is_in_order(rule: FormedRule, stack: &mut Stack) -> bool
    ensures { Tells result (InOrder rule.entry.placed.words.now rule.entry.placed.from rule.entry.placed.row.now) }
{
    let PlacedRule {
        row,
        words,
        from,
        middle,
        ..
    } = rule.placed;
    let mut places = Places::new();
    if !walk_premises(rule, &mut places, stack) {
        return false;
    }
    if !are_placed(&words[from as usize..middle as usize], &places) {
        return false;
    }
    let size = row[CONCLUSION_WORDS];
    if places.meet(words, row[CONCLUSION], size, stack) != Some(size) {
        return false;
    }
    if places.count != row[VARIABLES] {
        return false;
    }
    places.is_in_order()
}

// Whether a row has the places of its variables.
fn are_places(rule: &RuleRow, places: &Places) -> bool
    requires { column rule.now 3 ≤ 64 }
    ensures { Tells result ((x : ℕ) → x < column rule.now 3 → get_or places.now.places x None ≡ Some (column rule.now (90 + x))) }
{
    places.places.iter().zip(rules::places(rule)).all(
        |(place, column)|
            ensures { result ≡ is_place place.entry.now column.entry.now }
        { *place == Some(*column) },
    )
}

// Whether a row has the variables of its conclusion counted and the places of all in meeting order. The stack is scratch.
fn is_in_places(rule: FormedRule, stack: &mut Stack) -> bool
    requires { InOrder rule.placed.words.now rule.placed.from rule.placed.row.now }
    ensures { Tells result (InPlaces rule.entry.placed.words.now rule.entry.placed.from rule.entry.placed.row.now) }
{
    let PlacedRule {
        row,
        words,
        middle,
        end,
        ..
    } = rule.placed;
    let mut places = Places::new();
    places.meet(words, row[CONCLUSION], MOST, stack);
    if places.count != row[MET] {
        return false;
    }
    if !are_placed(&words[middle as usize..end as usize], &places) {
        return false;
    }
    places.meet_back(words, rules::premises(row), MOST, stack);
    are_places(row, &places)
}

// Tests a rule, whose words start at `from`; `used` words are in use, and there are so many sorts. Answers where the rule's words end, if row and words
// are in form. The stack is scratch, lent once for all rules: laying one out takes longer than the walk through a small rule.
// Stays: callers may lend a longer stack, and an array in its place would ask for exactly 2,048 rows.
// Stays: `from` is a place in the whole table, of which the contract speaks, as its one caller's does; of `&words[..used]` that one would prove it again.
pub fn check_rule(
    text: &[u8],
    arities: &[u32],
    words: &[u32],
    used: u32,
    from: u32,
    sorts: u32,
    rule: &RuleRow,
    stack: &mut [[u32; 2]],
) -> Option<u32>
    requires fact_1 { RuleCheckable words.now used from }
    requires fact_2 { 2048 ≤ length stack.old }
    ensures { RuleChecked text.now arities.now words.now sorts used rule.now from result }
{
    if !are_numbers(text, rule, from, used) {
        return None;
    }
    if !are_columns(rule, sorts) {
        return None;
    }
    let middle = from + rule[PREMISE_WORDS];
    let end = middle + rule[CONCLUSION_WORDS];
    let placed = PlacedRule {
        row: rule,
        words,
        from,
        middle,
        end,
    };
    if !are_parts(arities, placed) {
        return None;
    }
    let Some(stack) = stack.first_chunk_mut() else {
        unreachable!();
    };
    let formed = FormedRule { placed };
    if !is_in_order(formed, stack) {
        return None;
    }
    if !is_in_places(formed, stack) {
        return None;
    }
    Some(end)
}
