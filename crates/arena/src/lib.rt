// Arena: terms as words in lent slices. A node is a header, which holds its symbol and its arity, and then one reference for each argument; specs/Cells
// says what a reference denotes, and docs/STORAGE.md how much room it takes.
//
// All functions here serve the crates above, which count words and variables before they write: so they ask for room.
#![tactic(auto)]

mod format; // the numbers of the format
mod copies; // one word of a copy
mod form; // the tests on one word
mod links; // nodes that have to denote the same term

ghost use Rattle.std.specs.Prelude.{◌≡◌, suc, ◌∷◌, ◌+◌, ◌-◌, ◌<◌, ◌≤◌, length};
ghost use Rattle.std.proofs.lemmas.List.Edits.{sets};
ghost use Rattle.arena.specs.Cells.{headers, cells, arity_of};
ghost use Rattle.arena.specs.Arguments.{arguments_in};
ghost use Rattle.arena.specs.Copies.{copied, Copyable};
ghost use Rattle.arena.specs.Form.{in_form};
ghost use Rattle.arena.specs.Equality.{Ready, Compared};

pub use copies::moved_word;
pub use form::{arity_of, header_of, is_argument, is_header, symbol_of};
pub use format::{HEADERS, INPUTS, PATTERN_ROOM, SYMBOL_STEP, TERM_ROOM};
use links::{link, past, settle};

// Terms in lent words: of the words `used` are in use, and of the `room` variables that there is room for, `variables`.
// Stays: words are lent whole, as terms are written into the same buffer behind those in use, so the contracts speak of the whole buffer.
// Stays: that words in use are lent and references below the headers is no invariant, since `checks::are_terms` is handed terms of any numbers to test it.
#[derive(Clone, Copy)]
pub struct Terms<'a> {
    pub words: &'a [u32],
    pub room: u32,
    pub variables: u32,
    pub used: u32,
}

impl<'a> Terms<'a> {
    // The header of the node r.
    // Stays: that `r` is a node is asked here and below; a node with that in it would be made of `r` at each call, to be read once or twice.
    pub fn header(self, r: u32) -> u32
        requires { (self.room ≤ r) × (r - self.room < length self.words.now) }
        ensures { result ≡ cells self.entry.words.now (r - self.entry.room) }
    {
        self.words[(r - self.room) as usize]
    }

    // The number of arguments of the node r.
    pub fn arity(self, r: u32) -> u32
        requires { (self.room ≤ r) × (r - self.room < length self.words.now) }
        ensures { result ≡ arity_of (cells self.entry.words.now (r - self.entry.room)) }
    {
        form::arity_of(self.header(r))
    }

    // Argument i of the node r.
    pub fn argument(self, r: u32, i: u32) -> u32
        requires { (self.room ≤ r) × (suc (r - self.room) + i < length self.words.now) }
        ensures { result ≡ cells self.entry.words.now (suc (r - self.entry.room) + i) }
    {
        self.words[(r - self.room) as usize + 1 + i as usize]
    }

    // The arguments of the node r.
    pub fn arguments(self, r: u32) -> &'a [u32]
        requires { (self.room ≤ r) × (r - self.room + arity_of (cells self.words.now (r - self.room)) < length self.words.now) }
        ensures { result.now ≡ arguments_in self.entry.words.now (r - self.entry.room) }
    {
        let first = (r - self.room) as usize + 1;
        &self.words[first..first + self.arity(r) as usize]
    }
}

// Part of the words of all rules, that of one rule: `count` words from the address `from` on, and for each variable its place among the new ones.
// Stays: of a part `from` stays too, as its addresses count from the first word of all; three callers would cut it, and prove a copy of it one of the whole.
#[derive(Clone, Copy)]
pub struct RulePart<'a> {
    pub words: &'a [u32],
    pub from: u32,
    pub count: u32,
    pub places: &'a [u32],
}

// Writes a node, its header and its arguments, from the address `used` on.
// Stays: with the words from `used` on alone lent, each caller would have to join what comes back to the words before, of which its contract speaks too.
pub fn push_node(words: &mut [u32], used: u32, header: u32, arguments: &[u32])
    // The node has room: the caller counts words before it writes.
    requires { used + 1 + length arguments.now ≤ length words.old }
    ensures { words.new ≡ sets words.old used (header ∷ arguments.now) }
{
    let at = used as usize;
    words[at] = header;
    words[at + 1..at + 1 + arguments.len()].copy_from_slice(arguments);
}

// Copies a rule's words to the address `used`, with new variables from `counter` on.
// Stays: with the words from `used` on alone lent, each caller would have to join what comes back to the words before, of which its contract speaks too.
// Stays: as at `names::put_column`: of words written behind a `zip` with the part's nothing would be known.
pub fn inst(part: RulePart, words: &mut [u32], room: u32, used: u32, counter: u32)
    // The caller counts words and variables before it copies, and a signature in form has rules whose words refer to nothing outside.
    requires { Copyable part.words.now part.from part.count part.places.now words.old room used counter }
    ensures { words.new ≡ sets words.old used
        (copied part.entry.words.now part.entry.from part.entry.count part.entry.places.now room used counter) }
{
    let start = part.from as usize;
    let end = start + part.count as usize;
    let at = used as usize;
    let first = PATTERN_ROOM + part.from;
    let base = room + used;
    for (i, word) in part.words[start..end].iter().enumerate() {
        words[at + i] = moved_word(*word, part.places, counter, first, base);
    }
}

// Whether the words in use from the address `from` on are in form: nodes one after another, whatever they hold.
pub fn check_words(terms: Terms, from: u32, arities: &[u32]) -> bool
    // The part lies in the slice, and all references to it are below the headers: both follow from the limits, which the caller tests first.
    requires { (from ≤ terms.used) × (terms.used ≤ length terms.words.now) × (terms.room + terms.used ≤ headers) }
    ensures { result ≡ in_form terms.entry.words.now from terms.entry.used terms.entry.room terms.entry.variables arities.now }
{
    let mut node = from;
    let mut left = 0;
    for at in from..terms.used {
        let word = terms.words[at as usize];
        if left == 0 {
            if !is_header(arities, word) {
                return false;
            }
            node = at;
            left = form::arity_of(word);
            continue;
        }
        let before = Terms {
            used: node,
            ..terms
        };
        if !is_argument(before, from, word) {
            return false;
        }
        left -= 1;
    }
    left == 0
}

// Whether two references denote the same term: one pass from the greater address down to the least that is linked. The links are zero before and after.
pub fn equal(terms: Terms, links: &mut [u32], a: u32, b: u32) -> bool
    // The words and both references are in form, and there is a link for each address in use.
    requires { Ready terms.room terms.words.now links.old terms.variables terms.used a b }
    ensures { Compared terms.entry.room (cells terms.entry.words.now) links.old links.new a b result }
{
    let mut at = past(terms.room, a.max(b));
    let mut linked = link(links, terms.room, a, b, at);
    // Stays: `low` moves while the loop goes down, so no range is known at the start.
    while at > linked.low {
        at -= 1;
        linked = settle(terms, links, at, linked);
    }
    linked.same
}
