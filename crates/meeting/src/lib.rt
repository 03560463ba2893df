// Meeting order: a walk through a stored pattern from left to right, which gives each variable that has no place yet the next one and counts the words that
// the term takes (document 01, refusal 37). The stack is lent, so that nothing is recursive.
#![tactic(auto)]

ghost use Rattle.std.specs.Prelude.{◌≡◌, ◌<◌, ◌≤◌, ℕ, List, [], length, get_or};
ghost use Rattle.arena.specs.Copies.{pattern_room};
ghost use Rattle.meeting.specs.Places.{Records, Given, Known, is_place, in_order};
ghost use Rattle.arena.specs.Cells.{terms_of};
ghost use Rattle.resolution.specs.Fresh.{met_back};
ghost use Rattle.meeting.specs.Contract.{term_of, Ready, Walked, WholeAsked};

use arena::{PATTERN_ROOM, arity_of};

// The variables that were met: the place of each of them in meeting order, and how many they are.
#[derive(Drop)]
pub struct Places {
    pub places: [Option<u32>; PATTERN_ROOM as usize],
    pub count: u32,
    ghost known: { Known places count },
    ghost long: { length places ≡ pattern_room },
}

impl Places {
    // None was met.
    pub fn new() -> Self
        ensures { Records [] result.places result.count }
    {
        Places {
            places: [None; PATTERN_ROOM as usize],
            count: 0,
        }
    }

    // Meets the variables of a pattern's term from left to right: `meet` of the table and the count.
    pub fn meet(
        &mut self,
        words: &[u32],
        reference: u32,
        most: u32,
        stack: &mut [[u32; 2]],
    ) -> Option<u32>
        requires { Ready words.now reference most stack.old }
        ensures { Walked words.now reference self.old.places self.old.count most result self.new.places self.new.count }
    {
        meet(
            words,
            reference,
            &mut self.places,
            &mut self.count,
            most,
            stack,
        )
    }

    // Meets the variables of several patterns' terms from the last to the first, each from left to right. None of the terms takes more than `most` words.
    pub fn meet_back(
        &mut self,
        words: &[u32],
        references: &[u32],
        most: u32,
        stack: &mut [[u32; 2]],
    )
        requires { (i : ℕ) → i < length references.now → WholeAsked words.now (get_or references.now i 0) most stack.old }
        ensures { (e : List ℕ) → Records e self.old.places self.old.count → Records (met_back (terms_of (term_of words.now) references.now) e) self.new.places self.new.count }
    {
        for reference in references.iter().rev() {
            self.meet(words, *reference, most, stack);
        }
    }

    // Whether the variables that were met have their own numbers as places: they were met in order.
    pub fn is_in_order(&self) -> bool
        ensures { result ≡ in_order self.now.places self.now.count }
    {
        is_in_order(&self.places, self.count)
    }
}

// Gives the variable x the next place if it has none.
fn give(places: &mut [Option<u32>], count: &mut u32, x: u32)
    requires { (x < length places.old) × (count.old ≤ pattern_room) }
    ensures { Given places.old x count.old count.new places.new }
{
    let place = places[x as usize];
    if place.is_none() {
        places[x as usize] = Some(*count);
        *count += 1;
    }
}

// Meets the variables of a pattern's term from left to right, over those met before; answers how many words it takes, none past `most`, a stack row each.
// Stays: public, it takes any table of 64 or more with a count, as before; of a `Places` it would ask more of its callers.
pub fn meet(
    words: &[u32],
    reference: u32,
    places: &mut [Option<u32>],
    count: &mut u32,
    most: u32,
    stack: &mut [[u32; 2]],
) -> Option<u32>
    requires ready { Ready words.now reference most stack.old }
    requires long { pattern_room ≤ length places.old }
    requires known { Known places.old count.old }
    ensures walked { Walked words.now reference places.old count.old most result places.new count.new }
    ensures known { Known places.new count.new }
    ensures kept { length places.new ≡ length places.old }
{
    // A row of the stack is an open node: the address of its next argument, and how many arguments are left. `waiting` is the reference to be met next.
    let mut spent = 0;
    let mut depth: usize = 0;
    let mut waiting = Some(reference);
    loop {
        match waiting.take() {
            Some(next) => {
                // Stays: by `checked_sub` it is as many lines, and `meet` takes 5.7 % more instructions (729,128 for 689,523, over 24,587 words): tried.
                if next < PATTERN_ROOM {
                    give(places, count, next);
                } else {
                    let address = next - PATTERN_ROOM;
                    let arity = arity_of(words[address as usize]);
                    if most - spent <= arity {
                        return None;
                    }
                    spent += arity + 1;
                    stack[depth] = [address + 1, arity];
                    depth += 1;
                }
            }
            None => {
                let Some(row) = depth.checked_sub(1) else {
                    return Some(spent);
                };
                let [at, left] = stack[row];
                match left.checked_sub(1) {
                    None => depth = row,
                    Some(rest) => {
                        stack[row] = [at + 1, rest];
                        waiting = Some(words[at as usize]);
                    }
                }
            }
        }
    }
}

// Whether each variable below `count` has its own number as its place.
// Stays: public, it takes any table with a count, as before; with `&places[..count]` lent, the method would need a law from that part to its table.
pub fn is_in_order(places: &[Option<u32>], count: u32) -> bool
    requires { count ≤ length places.now }
    ensures { result ≡ in_order places.now count }
{
    places.iter().zip(0..count).all(
        |(place, x)|
            ensures { result ≡ is_place place.entry.now x }
        { *place == Some(x) },
    )
}
