// The check of the trail and of the values.
ghost use Rattle.std.specs.Prelude.{◌≡◌, ℕ, ◌<◌, ◌≤◌, length, IfErr};
ghost use Rattle.bindings.specs.Tables.{Empty};
ghost use Rattle.arena.specs.Cells.{cells, Reference};
ghost use Rattle.arena.specs.Rows.{column};
ghost use Rattle.bindings.specs.Promises.{Free, Tells};
ghost use Rattle.bindings.specs.Checking.{entered, TrailEntered, GoodValue, TrailChecked};

use super::StoredBindings;
use super::tables::{enter, undo};
use arena::{Terms, is_argument};

// Enters the variables of the trail as marks; the error is how many stand before one that is out of use, or unbound, or entered already.
fn enter_trail(bindings: StoredBindings, marks: &mut [[u32; 2]], variables: u32) -> Result<(), u32>
    requires fact_1 { (bindings.bound ≤ length bindings.rows.now) × (variables ≤ length bindings.rows.now) × (variables ≤ length marks.old) }
    requires fact_2 { Empty marks.old }
    ensures told { TrailEntered bindings.entry.rows.now marks.old marks.new variables bindings.entry.bound (entered result bindings.entry.bound) }
    ensures fewer { IfErr result (λ n. n < bindings.entry.bound) }
{
    for i in 0..bindings.bound {
        let key = bindings.rows[i as usize][1];
        if variables <= key {
            return Err(i);
        }
        if bindings.rows[key as usize][0] == 0 {
            return Err(i);
        }
        if marks[key as usize][0] != 0 {
            return Err(i);
        }
        enter(marks, i, key, 1);
    }
    Ok(())
}

// Whether a reference is in form: a variable in use, or a node whose address is before `used`.
pub fn is_reference(terms: Terms, r: u32) -> bool
    requires { terms.used ≤ length terms.words.now }
    ensures { Tells result (Reference terms.entry.room (cells terms.entry.words.now) terms.entry.variables terms.entry.used r) }
{
    is_argument(terms, 0, r)
}

// Whether the value of v is 0 or in form.
// Stays: `v` is the number of the variable that is asked about; it says nothing of how many marks are in use.
fn good_value(terms: Terms, rows: &[[u32; 2]], marks: &[[u32; 2]], v: usize) -> bool
    requires { (terms.used ≤ length terms.words.now) × (v < length rows.now) × (terms.variables ≤ length marks.now) }
    ensures { Tells result (GoodValue terms.entry.room terms.entry.words.now rows.now marks.now terms.entry.variables terms.entry.used v) }
{
    let Some(value) = rows[v][0].checked_sub(1) else {
        return true;
    };
    if (terms.variables as usize) <= v {
        return false;
    }
    if marks[v][0] == 0 {
        return false;
    }
    is_reference(terms, value)
}

// Whether all values are 0 or in form.
// Stays: rows may outnumber marks, and a `zip` of the two would end at the last mark; `good_value` needs the variable's number too.
fn check_values(terms: Terms, rows: &[[u32; 2]], marks: &[[u32; 2]]) -> bool
    requires { (terms.used ≤ length terms.words.now) × (terms.variables ≤ length marks.now) }
    ensures { Tells result ((v : ℕ) → GoodValue terms.entry.room terms.entry.words.now rows.now marks.now terms.entry.variables terms.entry.used v) }
{
    (0..rows.len()).all(|v| good_value(terms, rows, marks, v))
}

// Whether the trail is 0 behind its entries.
pub fn check_rest(bindings: StoredBindings) -> bool
    ensures { Tells result ((i : ℕ) → bindings.entry.bound ≤ i → column 1 bindings.entry.rows.now i ≡ 0) }
{
    let bound = bindings.bound as usize;
    bindings.rows.iter().skip(bound).all(|row| row[1] == 0)
}

// Whether the entries of the trail are the bound variables, each once, and their values are in form.
pub fn check_trail(terms: Terms, bindings: StoredBindings, marks: &mut [[u32; 2]]) -> bool
    requires fact_1 { (terms.used ≤ length terms.words.now) × (bindings.bound ≤ length bindings.rows.now) × (terms.variables ≤ length bindings.rows.now) × (terms.variables ≤ terms.room) }
    requires fact_2 { Free terms.room terms.used marks.old }
    ensures { TrailChecked terms.entry.room terms.entry.words.now bindings.entry.rows.now marks.old marks.new
        terms.entry.variables terms.entry.used bindings.entry.bound result }
{
    match enter_trail(bindings, marks, terms.variables) {
        Err(before) => {
            undo(marks, before, 0);
            false
        }
        Ok(()) => {
            let answer = check_values(terms, bindings.rows, marks);
            undo(marks, bindings.bound, 0);
            answer
        }
    }
}
