// Whether scratch is zero: its numbers are or-ed together, and looked at once.
ghost use Rattle.std.specs.Prelude.{◌≡◌};
ghost use Rattle.std.specs.List.{fold};
ghost use Rattle.std.specs.Int.Bits.{bit_or};
ghost use Rattle.bindings.specs.Promises.{Tells};
ghost use Rattle.unifier.specs.Promises.{Scratch};
ghost use Rattle.checks.specs.Ready.{Zeros};

// All numbers of a row, or-ed to what was before.
fn joined<const N: usize>(seen: u32, row: &[u32; N]) -> u32
    ensures { result ≡ fold bit_or seen row.now }
{
    row.iter().fold(seen, |seen, &number| seen | number)
}

// Whether there are at least so many rows, and all are zero.
pub fn are_zero<const N: usize>(rows: &[[u32; N]], least: usize) -> bool
    ensures { Tells result (Zeros rows.now least) }
{
    if rows.len() < least {
        return false;
    }
    rows.iter().fold(0, joined) == 0
}

// Whether links, marks and stack are zero, and long enough for words of which `used` are in use, with room for `room` variables.
// Stays: all three are only read here, and a `Workspace` would ask its callers to lend them for writing.
pub fn is_scratch_zero(
    room: u32,
    used: u32,
    links: &[[u32; 2]],
    marks: &[[u32; 2]],
    stack: &[[u32; 3]],
) -> bool
    ensures { Tells result (Scratch room used links.now marks.now stack.now) }
{
    let references = room as usize + used as usize;
    if !are_zero(links, references) {
        return false;
    }
    if !are_zero(marks, references) {
        return false;
    }
    are_zero(stack, used as usize)
}
