// A table with the list of its entries: rows of two numbers, the value by key and the keys in order.
ghost use Rattle.std.specs.Prelude.{◌≡◌, ◌-◌, ◌<◌, length};
ghost use Rattle.bindings.specs.Tables.{undone};
ghost use Rattle.bindings.specs.Promises.{Entered, Undoable};

// Enters a key at position n of the list, with its value.
// Stays: the values of all keys stand in the rows beside the list, so that no part up to the list's end can be lent.
pub fn enter(t: &mut [[u32; 2]], n: u32, key: u32, value: u32)
    requires { (n < length t.old) × (key < length t.old) }
    ensures { Entered t.old t.new n key value }
{
    t[key as usize][0] = value;
    t[n as usize][1] = key;
}

// Takes the entries from position n on down to the mark back, the last first.
// Stays: the values of all keys stand in the rows beside the list, so that no part up to the list's end can be lent.
pub fn undo(t: &mut [[u32; 2]], n: u32, mark: u32)
    requires { Undoable t.old n mark }
    ensures { t.new ≡ undone t.old mark (n - mark) }
{
    for i in (mark..n).rev() {
        let key = t[i as usize][1];
        t[key as usize][0] = 0;
        t[i as usize][1] = 0;
    }
}
