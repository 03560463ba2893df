// Rules: judgments compiled and stored as a rule. The Rust's `Sig::rule`, with the refusals 25 and 28.
//
// All functions here serve the crates above: they ask for storage of the listed sizes.
#![tactic(auto)]

ghost use Rattle.std.specs.Prelude.{◌≡◌, [], ℕ, ◌+◌, ◌≤◌, length, nat_lt};
ghost use Rattle.std.specs.List.{list_all};
ghost use mathlib.Core.List.{List};
ghost use Rattle.std.proofs.lemmas.List.Edits.{sets};
ghost use Rattle.names.specs.Named.{symbols_named};
ghost use Rattle.names.specs.Symbols.{column, columns, variables_of};
ghost use Rattle.meeting.specs.Places.{place_numbers};
ghost use Rattle.patterns.specs.Promises.{Ready};
ghost use Rattle.rules.specs.StoredRows.{rule_row, heads_in, places_in};
ghost use Rattle.rules.specs.Promises.{Judging, OrderAsked, Ordered, Keeping, KeepAsked, RuleAsked, RuleEntered};

pub mod columns; // the columns of a rule's row

use arena::PATTERN_ROOM;
use columns::{END, FIRST_PLACE, FIRST_PREMISE, FIRST_SORT};
use meeting::Places;
pub use names::PREMISES;
use names::columns::SORT;
use names::{SourceTerms, TermRow, VariableRow, Word};
use patterns::{Place, VARIABLES};
use refusals::Refusal;

// A rule: start and length of its name, clause number + 1 (0: a written rule), number of variables, number of premises, reference of the conclusion, first
// word, words of the premises, words of the conclusion, variables met in the conclusion; 16 references of premises; 64 sorts; 64 places in meeting order.
// Stays: C lends rows of any numbers; that premises are at most 16 and variables 64 is asked at each read, as a struct with it would be made for that alone.
pub type RuleRow = [u32; END];

// Most rules have few words, and a walk through few words needs a small stack only.
const FEW: usize = 64;

// How many nodes a rule may have, how many words its terms may take, 2 for each node, and how many rules there may be.
pub const RULE_NODES: usize = 1024;

pub const RULE_WORDS: usize = 2 * RULE_NODES;

pub const RULES: usize = 1024;

// So many columns of a rule's row, from one on.
pub fn part_of_row(row: &RuleRow, first: usize, count: u32) -> &[u32]
    requires { first + count ≤ 154 }
    ensures { result.now ≡ columns row.now first count }
{
    let end = first + count as usize;
    &row[first..end]
}

// The references of a rule's premises: the part of its row that has them.
pub fn premises(row: &RuleRow) -> &[u32]
    requires { column row.now 4 ≤ 16 }
    ensures { result.now ≡ heads_in row.now }
{
    part_of_row(row, FIRST_PREMISE, row[columns::PREMISES])
}

// The places of a rule's variables: the part of its row that has them.
pub fn places(row: &RuleRow) -> &[u32]
    requires { column row.now 3 ≤ 64 }
    ensures { result.now ≡ places_in row.now }
{
    part_of_row(row, FIRST_PLACE, row[columns::VARIABLES])
}

// How many words are used, and the room for nodes left.
// Stays: `patterns::Place` has these two beside two more; with a `Space` in it, four of its literals would be nested, to save two here.
// Stays: that its words are few is asked beside it, with their length (`RuleAsked`); `State::next_rule` of `declarations` would have to ask it too.
#[derive(Clone, Copy)]
pub struct Space {
    pub used: usize,
    pub room: usize,
}

// The judgments of a rule: source terms, among which its n premises stand from the row `at` on; the conclusion stands at the row `here` of its own rows, with
// their text and symbols.
#[derive(Clone, Copy)]
pub struct SourceRule<'a> {
    pub premises: SourceTerms<'a>,
    pub at: usize,
    pub n: usize,
    pub conclusions: &'a [TermRow],
    pub here: usize,
}

// A rule's judgments: the conclusion's reference, the words used before the conclusion, how many variables there are, and the space behind them.
#[derive(Clone, Copy)]
struct Body {
    conclusion: u32,
    middle: usize,
    variables: usize,
    space: Space,
}

// Compiles the premises, and then the conclusion; their variables are numbered together.
fn judgments(
    source: SourceRule,
    variables: &mut [VariableRow],
    words: &mut [u32],
    space: Space,
    heads: &mut [u32],
) -> Result<Body, Refusal>
    requires fact_1 { Ready source.premises.symbols.now (length source.premises.symbols.now) variables.old 0 words.old space.used space.room }
    requires fact_2 { (source.n ≤ 16) × (length heads.old ≡ 16) }
    ensures { Judging source.entry.premises.text.now source.entry.premises.rows.now source.entry.at source.entry.n source.entry.conclusions.now source.entry.here (symbols_named source.entry.premises) variables.old words.old space.used space.room result variables.new words.new heads.new }
{
    let from = Place {
        next: source.at,
        variables: 0,
        used: space.used,
        room: space.room,
    };
    let premises = source.premises;
    let place = patterns::judgments(premises, variables, words, &mut heads[..source.n], from)?;
    let conclusions = SourceTerms {
        rows: source.conclusions,
        ..premises
    };
    let made = patterns::pattern(
        conclusions,
        0,
        variables,
        words,
        Place {
            next: source.here,
            ..place
        },
    )?;
    Ok(Body {
        conclusion: made.node,
        middle: place.used,
        variables: made.place.variables,
        space: Space {
            used: made.place.used,
            room: made.place.room,
        },
    })
}

// Is the sort of each variable known?
pub fn all_known(variables: &[VariableRow]) -> bool
    ensures { result ≡ list_all (λ row. nat_lt 0 (column row 3)) variables.now }
{
    variables.iter().all(|row| 0 < row[SORT])
}

// A rule's terms: the references of its premises and of its conclusion, the words in use, which hold them, and the most words of one of them.
#[derive(Clone, Copy)]
struct RuleTerms<'a> {
    heads: &'a [u32],
    conclusion: u32,
    words: &'a [u32],
    most: u32,
    ghost asked: { OrderAsked words.now (length words.now) heads.now conclusion most },
}

// The places of a rule's variables in meeting order, and how many variables are met in the conclusion.
#[derive(Drop)]
struct MeetingOrder {
    met: u32,
    places: Places,
}

// Gives the variables of a rule their places in meeting order: the conclusion's from left to right, then those of the premises from the last to the first.
fn order(rule: RuleTerms, stack: &mut [[u32; 2]]) -> MeetingOrder
    requires { rule.most ≤ length stack.old }
    ensures { Ordered rule.entry.words.now rule.entry.heads.now rule.entry.conclusion result.met result.places.places result.places.count }
{
    let RuleTerms {
        heads,
        conclusion,
        words,
        most,
    } = rule;
    let mut places = Places::new();
    places.meet(words, conclusion, most, stack);
    let met = places.count;
    places.meet_back(words, heads, most, stack);
    MeetingOrder { met, places }
}

// The same with a stack of its own, for terms of at most N words.
fn order_within<const N: usize>(rule: RuleTerms) -> MeetingOrder
    requires { (rule.most ≤ N) × (N ≤ 2048) }
    ensures { Ordered rule.entry.words.now rule.entry.heads.now rule.entry.conclusion result.met result.places.places result.places.count }
{
    let mut stack = [[0u32; 2]; N];
    order(rule, &mut stack)
}

// The same with a stack for as many words as the rule has: laying out the large one takes longer than the walk through
// a small rule.
fn order_sized(rule: RuleTerms) -> MeetingOrder
    requires { rule.most ≤ 2048 }
    ensures { Ordered rule.entry.words.now rule.entry.heads.now rule.entry.conclusion result.met result.places.places result.places.count }
{
    if rule.most as usize <= FEW {
        return order_within::<FEW>(rule);
    }
    order_within::<RULE_WORDS>(rule)
}

// Writes the places of variables into a row, from column 90 on.
// Stays: C callers lend the rows, in which a place is a number; each variable of a kept rule has a place, so that the number for none is never written.
// Stays: as at `names::put_column`, nothing would be known of what is written behind a `zip`.
fn put_places(row: &mut RuleRow, places: &[Option<u32>])
    requires { length places.now ≤ 64 }
    ensures { row.new ≡ sets row.old 90 (place_numbers places.now) }
{
    for (j, place) in places.iter().enumerate() {
        row[FIRST_PLACE + j] = place.unwrap_or(PATTERN_ROOM);
    }
}

// Writes a rule's row: ten numbers, the references, and the sorts of the variables and their places.
// Stays: a `From` could not ask that what it is given fits the row's columns.
fn store(
    row: &mut RuleRow,
    numbers: &[u32; 10],
    heads: &[u32],
    variables: &[VariableRow],
    places: &[Option<u32>],
)
    requires { (length heads.now ≤ 16) × (length variables.now ≤ 64) × (length places.now ≤ 64) }
    ensures { (text : List ℕ) → row.new ≡ rule_row numbers.now heads.now (mathlib.Core.List.map (λ v. v.sort) (variables_of text variables.now (length variables.now))) (place_numbers places.now) }
{
    *row = [0u32; END];
    row[..FIRST_PREMISE].copy_from_slice(numbers);
    row[FIRST_PREMISE..FIRST_PREMISE + heads.len()].copy_from_slice(heads);
    names::put_column(
        variables,
        SORT,
        &mut row[FIRST_SORT..FIRST_SORT + variables.len()],
    );
    put_places(row, places);
}

// Where a rule's name stands, and the number of its clause + 1; 0 for a written rule.
// Stays: in the row that C callers lend a clause is its number + 1; `keep` writes it there, and would turn an `Option` back into it: no plainer.
#[derive(Clone, Copy)]
pub struct Title {
    pub word: Word,
    pub clause: u32,
}

// Keeps a rule whose judgments lie in the words from `from` on: gives its variables their places, and writes its row.
fn keep(
    words: &[u32],
    from: usize,
    body: Body,
    heads: &[u32],
    variables: &[VariableRow],
    row: &mut RuleRow,
    title: Title,
)
    requires { KeepAsked words.now from body.middle body.space.used heads.now body.conclusion variables.now }
    ensures { Keeping words.now from body.middle body.space.used heads.now body.conclusion variables.now title row.new }
{
    let Body {
        conclusion,
        middle,
        ..
    } = body;
    let used = body.space.used;
    let v = variables.len();
    let terms = RuleTerms {
        heads,
        conclusion,
        words: &words[..used],
        most: (used - from) as u32,
    };
    let order = order_sized(terms);
    let numbers = [
        title.word.start,
        title.word.size,
        title.clause,
        v as u32,
        heads.len() as u32,
        conclusion,
        from as u32,
        (middle - from) as u32,
        (used - middle) as u32,
        order.met,
    ];
    store(row, &numbers, heads, variables, &order.places.places[..v]);
}

// Where a rule is entered: its number, and the space for its words.
// Stays: words and rules go apart from the place; of a struct that lends both, each contract from here to `declarations` would say that both come back.
#[derive(Clone, Copy)]
pub struct RulePlace {
    pub number: usize,
    pub space: Space,
}

// Compiles a rule, and keeps it at a place.
pub fn rule(
    source: SourceRule,
    title: Title,
    words: &mut [u32],
    rules: &mut [RuleRow],
    place: RulePlace,
) -> Result<Space, Refusal>
    requires { RuleAsked source.premises.text.now source.premises.rows.now source.at source.n source.conclusions.now source.here source.premises.symbols.now (length source.premises.symbols.now) words.old place.space.used place.space.room rules.old }
    ensures { RuleEntered source.entry.premises.text.now source.entry.premises.rows.now source.entry.at source.entry.n source.entry.conclusions.now source.entry.here (symbols_named source.entry.premises) title words.old place.space.used place.space.room rules.old place.number result words.new rules.new }
{
    let RulePlace { number, space } = place;
    let n = source.n;
    if PREMISES < n {
        return Err(Refusal::Full);
    }
    let mut variables = [[0u32; 4]; VARIABLES];
    let mut heads = [0u32; PREMISES];
    let body = judgments(source, &mut variables, words, space, &mut heads)?;
    let v = body.variables;
    if !all_known(&variables[..v]) {
        return Err(Refusal::SortNotKnown);
    }
    if RULES <= number {
        return Err(Refusal::Full);
    }
    keep(
        words,
        space.used,
        body,
        &heads[..n],
        &variables[..v],
        &mut rules[number],
        title,
    );
    Ok(body.space)
}
