// What was written is cleared.
ghost use Rattle.search_machine.specs.Groups.{IsLent};
ghost use Rattle.deepening.specs.Clearing.{Cleared};
ghost use Rattle.deepening.specs.Groups.{WrittenCleared};

use search_machine::{Machine, Store};

// Sets the items from one place up to another to zero, as far as there are any.
// Stays: `to` may be past the end, and then all from `from` on is cleared; both calls would cut the part by `min` themselves.
fn clear<T: Copy>(items: &mut [T], from: u32, to: u32, zero: T)
    ensures { (past : T) → Cleared past zero items.old items.new from to }
{
    let end = items.len().min(to as usize);
    slices::clear_from(&mut items[..end], from as usize, zero);
}

// Clears what a search wrote: the words from `used` on, and the rows of frames from `frames` on.
pub fn clear_written(store: &mut Store, used: u32, frames: u32, m: Machine)
    ensures cleared { WrittenCleared store.old store.new used frames m }
    ensures lent { IsLent store.old store.new }
{
    clear(store.words, used, m.top, 0);
    clear(store.frames, frames, m.high, [0; 8]);
}
