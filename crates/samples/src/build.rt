// Words of terms: two constants, and towers of nodes on a leaf.
ghost use Rattle.std.specs.Prelude.{◌≡◌, ◌∷◌, ◌+◌, ◌≤◌, length, replicate, set};
ghost use Rattle.std.proofs.lemmas.List.Edits.{sets};
ghost use Rattle.samples.specs.Building.{NodePut, PairPut, TowerPut, TowerOrLeaf, TwoPut};

use arena::{HEADERS, INPUTS, SYMBOL_STEP};

// Headers: of two constants, and of symbols with one argument and with two.
pub const CONSTANT: u32 = HEADERS;

pub const OTHER: u32 = HEADERS + 3 * SYMBOL_STEP;

pub const UNARY: u32 = HEADERS + SYMBOL_STEP + 1;

pub const BINARY: u32 = HEADERS + 2 * SYMBOL_STEP + 2;

// The most words, the greatest address and the most levels of a tower.
pub const MOST: u32 = 262144;

// Writes the two constants, at the addresses 0 and 1.
pub fn put_constants(words: &mut [u32])
    ensures { words.new ≡ set (set words.old 0 1048576) 1 1048672 }
{
    slices::put(words, 0, CONSTANT);
    slices::put(words, 1, OTHER);
}

// Writes a node with these arguments: the address behind it; none where there is no room, or there are more than 16 of them, and nothing changes.
// Stays: as at `arena::push_node`: with the words from `at` on alone lent, each caller would join what comes back to those before.
pub fn put_node(words: &mut [u32], at: u32, arguments: &[u32]) -> Option<u32>
    ensures { NodePut words.old words.new at arguments.now result }
{
    if arguments.len() > INPUTS as usize || MOST < at {
        return None;
    }
    let arity = arguments.len();
    let next = at + 1 + arity as u32;
    if words.len() < next as usize {
        return None;
    }
    let header = arena::header_of(arity, arity);
    arena::push_node(words, at, header, arguments);
    Some(next)
}

// Writes a node with two arguments: the address behind it; without room the address given, and nothing changes.
// Stays: a public function that could not fail still can't; `put_node` beside it tells by an `Option` that there is no room.
pub fn put_pair(words: &mut [u32], at: u32, left: u32, right: u32) -> u32
    ensures { PairPut words.old words.new at left right result }
{
    put_node(words, at, &[left, right]).unwrap_or(at)
}

// A tower that was built: the address behind it, and its reference.
#[derive(Clone, Copy)]
pub struct Built {
    pub next: u32,
    pub root: u32,
}

// Nodes one on the other: how many, of how many arguments, all of which are the one below, and what they stand on.
#[derive(Clone, Copy)]
pub struct Tower {
    pub height: u32,
    pub leaf: u32,
    pub arity: u32,
}

// Writes a node whose arguments are all the same, from an address on.
// Stays: as at `arena::push_node`: with the words from `at` on alone lent, each caller would join what comes back to those before.
fn push_alike(words: &mut [u32], at: u32, header: u32, argument: u32, arity: u32)
    requires { at + 1 + arity ≤ length words.old }
    ensures { words.new ≡ sets words.old at (header ∷ replicate arity argument) }
{
    let first = at as usize + 1;
    words[at as usize] = header;
    words[first..first + arity as usize].fill(argument);
}

// Writes a tower from an address on, with references to nodes from `room` on; none where there is no room, or nodes have more than 16 arguments, and nothing
// changes.
// Stays: the place moves with each tower; words in one struct with it are lent to be written, so that each contract would say that they come back.
pub fn try_put_tower(words: &mut [u32], room: u32, at: u32, tower: Tower) -> Option<Built>
    ensures { TowerPut words.old words.new room at tower result }
{
    let Tower {
        height,
        leaf,
        arity,
    } = tower;
    if INPUTS < arity || MOST < room || MOST < at || MOST < height {
        return None;
    }
    if words.len() < (at + height * (1 + arity)) as usize {
        return None;
    }
    let header = arena::header_of(arity as usize, arity as usize);
    let mut next = at;
    let mut root = leaf;
    for _ in 0..height {
        push_alike(words, next, header, root, arity);
        root = room + next;
        next += 1 + arity;
    }
    Some(Built { next, root })
}

// The same; where it answers none, this one answers the address given and the leaf.
// Stays: a public function that could not fail still can't; `try_put_tower` tells by an `Option` that nothing is put.
// Stays: words and place go apart, as at `try_put_tower`.
pub fn put_tower(words: &mut [u32], room: u32, at: u32, tower: Tower) -> Built
    ensures { TowerOrLeaf words.old words.new room at tower result }
{
    let leaf = Built {
        next: at,
        root: tower.leaf,
    };
    try_put_tower(words, room, at, tower).unwrap_or(leaf)
}

// Writes two towers one behind the other, from an address on; none where one of them can't be written, and the lower one may stand then.
// Stays: words and place go apart, as at `try_put_tower`.
pub fn put_two(
    words: &mut [u32],
    room: u32,
    at: u32,
    lower: Tower,
    upper: Tower,
) -> Option<[Built; 2]>
    ensures { TwoPut words.old words.new room at lower upper result }
{
    let first = try_put_tower(words, room, at, lower)?;
    let second = try_put_tower(words, room, first.next, upper)?;
    Some([first, second])
}
