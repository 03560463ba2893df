// One word of a copy.
ghost use Rattle.std.specs.Prelude.{◌≡◌};
ghost use Rattle.arena.specs.Copies.{moved, Movable};

use super::format::{HEADERS, PATTERN_ROOM};

// A pattern's word, moved: a variable by the table of places, an address by a constant.
// Stays: a method of `RulePart` would ask `search_machine::premise`, which reads no words, to lend them.
pub fn moved_word(word: u32, places: &[u32], counter: u32, first: u32, base: u32) -> u32
    // No sum is too large.
    requires { Movable places.now counter first base word }
    ensures { result ≡ moved places.now counter first base word }
{
    if word < PATTERN_ROOM {
        return counter + places[word as usize];
    }
    if word < HEADERS {
        return base + (word - first);
    }
    word
}
