// Values from patterns: the Rust's `instantiate`.
ghost use Rattle.std.specs.Prelude.{suc, ◌≡◌, ◌+◌, ◌≤◌, ◌<◌, length};
ghost use Rattle.arena.specs.Cells.{cells};
ghost use Rattle.arena.specs.Copies.{pattern_room};
ghost use Rattle.clause_matching.specs.Building.{held, Pushed, InstantiateAsked, Instantiated, ArgumentsAsked, ArgumentsBuilt};

use arena::{PATTERN_ROOM, arity_of};
use refusals::Refusal;

// A term that was built: its value, and the words then used.
#[derive(Clone, Copy)]
pub struct Built {
    pub value: u32,
    pub used: u32,
}

// Where values are built: behind the words in use, up to a limit.
// Stays: words and stack go beside it; as the caller's store lends them apart, a struct of the three would be put together at each call.
// Stays: that `used` is at most `limit`, and this at most `headers`, is asked beside it: four definitions ask it, and six places would show it.
#[derive(Clone, Copy)]
pub struct Room {
    pub used: u32,
    pub limit: u32,
}

// The value of a variable, by its number.
fn value_of(environment: &[u32], index: u32) -> Result<u32, Refusal>
    requires { index < length environment.now }
    ensures { result ≡ held (cells environment.now index) }
{
    environment[index as usize]
        .checked_sub(1)
        .ok_or(Refusal::Unbound)
}

// Writes a node at an address, whose arguments stand from `from` on, and then its reference in the first one's place.
fn push_values(words: &mut [u32], address: u32, header: u32, from: u32, count: u32)
    requires { (address + suc count ≤ from) × (from + suc count ≤ length words.old) }
    ensures { Pushed words.old address header from count words.new }
{
    let at = address as usize;
    let source = from as usize;
    words[at] = header;
    words.copy_within(source..source + count as usize, at + 1);
    words[source] = address;
}

// A pattern that is a node, by its address, with the values of its variables put in. The words from the limit on are scratch: references of arguments whose
// node is open.
fn instantiate_node(
    pattern: &[u32],
    root: u32,
    environment: &[u32],
    words: &mut [u32],
    room: Room,
    stack: &mut [[u32; 3]],
) -> Result<Built, Refusal>
    requires { InstantiateAsked pattern.now (root + pattern_room) environment.now words.old room.used room.limit stack.old }
    ensures { Instantiated pattern.now (root + pattern_room) environment.now words.old room.used room.limit result words.new }
{
    // A row of the stack is an open node: its address in the pattern, how many arguments were taken, and where the first one's reference stands.
    stack[0] = [root, 0, room.limit];
    let mut depth: usize = 1;
    let mut top = room.limit;
    let mut spent = room.used;
    // Stays: the stack grows and shrinks, so no range is known at the start.
    while let Some(row) = depth.checked_sub(1) {
        let [address, taken, base] = stack[row];
        let header = pattern[address as usize];
        let arity = arity_of(header);
        if taken < arity {
            stack[row] = [address, taken + 1, base];
            let next = pattern[(address + 1 + taken) as usize];
            match next.checked_sub(PATTERN_ROOM) {
                None => {
                    let value = value_of(environment, next)?;
                    words[top as usize] = value;
                    top += 1;
                }
                Some(inner) => {
                    stack[depth] = [inner, 0, top];
                    depth += 1;
                }
            }
        } else {
            if room.limit - spent <= arity {
                return Err(Refusal::OverLimit);
            }
            push_values(words, spent, header, base, arity);
            top = base + 1;
            spent += arity + 1;
            depth = row;
        }
    }
    Ok(Built {
        value: words[room.limit as usize],
        used: spent,
    })
}

// The pattern with the values of its variables put in: a variable's value stands already, a node is built.
pub fn instantiate(
    pattern: &[u32],
    reference: u32,
    environment: &[u32],
    words: &mut [u32],
    room: Room,
    stack: &mut [[u32; 3]],
) -> Result<Built, Refusal>
    requires { InstantiateAsked pattern.now reference environment.now words.old room.used room.limit stack.old }
    ensures { Instantiated pattern.now reference environment.now words.old room.used room.limit result words.new }
{
    let Some(root) = reference.checked_sub(PATTERN_ROOM) else {
        let value = value_of(environment, reference)?;
        return Ok(Built {
            value,
            used: room.used,
        });
    };
    instantiate_node(pattern, root, environment, words, room, stack)
}

// The arguments of a pattern's node from the address `first` on, one for each place of `values`, built from left to right: how many words are then used. Their
// references go to `values`.
pub fn instantiate_arguments(
    pattern: &[u32],
    first: u32,
    environment: &[u32],
    words: &mut [u32],
    room: Room,
    stack: &mut [[u32; 3]],
    values: &mut [u32],
) -> Result<u32, Refusal>
    requires { ArgumentsAsked pattern.now first (length values.old) environment.now words.old room.used room.limit stack.old values.old }
    ensures { ArgumentsBuilt pattern.now first (length values.old) environment.now words.old room.used room.limit result words.new values.new }
{
    let base = first as usize;
    let mut spent = room.used;
    // Stays: as at `names::put_column`, nothing would be known of what is written behind a `zip`.
    for (k, reference) in pattern[base..base + values.len()].iter().enumerate() {
        let left = Room {
            used: spent,
            ..room
        };
        let built = instantiate(pattern, *reference, environment, words, left, stack)?;
        values[k] = built.value;
        spent = built.used;
    }
    Ok(spent)
}
