// The rows of names: each in form, no name twice, variables that rise.
ghost use Rattle.std.specs.Prelude.{◌≤◌, length};
ghost use Rattle.bindings.specs.Promises.{Tells};
ghost use Rattle.sessions.specs.Storage.{NameFormed};
ghost use Rattle.session_check.specs.Parts.{NameKind, NameNumbersFormed, NamesFormed, Rising, PlacesDistinct, NamesListed};

use super::lengths::NAMES;
use names::Word;
use sessions::{NAME_START, NAME_VARIABLE, NameRow};

// Is it the kind of a name or of a metavariable?
fn is_name_kind(kind: u32) -> bool
    ensures { Tells result (NameKind kind) }
{
    kind == words::NAME || kind == words::METAVARIABLE
}

// How many sorts there are, and how many variables were made.
#[derive(Clone, Copy)]
pub struct NameBounds {
    pub sorts: u32,
    pub variables: u32,
}

// Are a name's sort and variable in form?
fn are_numbers_formed(sort: u32, variable: u32, bounds: NameBounds) -> bool
    ensures { Tells result (NameNumbersFormed sort variable bounds.sorts bounds.variables) }
{
    sort != 0 && sort <= bounds.sorts && variable < bounds.variables
}

// Is a name's row in form?
fn is_name_formed(text: &[u8], row: &NameRow, bounds: NameBounds) -> bool
    ensures { Tells result (NameFormed text.now bounds.sorts bounds.variables row.now) }
{
    let [kind, start, size, sort, variable] = *row;
    is_name_kind(kind)
        && names::is_word_place(text, Word { start, size })
        && are_numbers_formed(sort, variable, bounds)
}

// Are the rows of names in form?
fn are_names_formed(text: &[u8], names: &[NameRow], bounds: NameBounds) -> bool
    ensures { Tells result (NamesFormed text.now bounds.sorts bounds.variables names.now (length names.now)) }
{
    names.iter().all(|row| is_name_formed(text, row, bounds))
}

// Do the variables of names rise?
fn are_rising(names: &[NameRow]) -> bool
    ensures { Tells result (Rising names.now (length names.now)) }
{
    names.is_sorted_by(|a, b| a[NAME_VARIABLE] < b[NAME_VARIABLE])
}

// Do the words of names all differ? Their places are sorted by their words.
fn are_places_distinct(text: &[u8], names: &[NameRow]) -> bool
    requires { length names.now ≤ 64 }
    ensures { Tells result (PlacesDistinct text.now names.now (length names.now)) }
{
    let mut places = [[0u32; 2]; NAMES];
    let mut spare = [[0u32; 2]; NAMES];
    signature::put_parts(names, NAME_START, &mut places);
    distinct::are_distinct_by_merging(text, &mut places[..names.len()], &mut spare)
}

// Are names in form, all different, with variables that rise?
pub fn are_names_listed(text: &[u8], names: &[NameRow], bounds: NameBounds) -> bool
    requires { length names.now ≤ 64 }
    ensures { Tells result (NamesListed text.now bounds.sorts bounds.variables names.now (length names.now)) }
{
    if !are_names_formed(text, names, bounds) {
        return false;
    }
    if !are_rising(names) {
        return false;
    }
    are_places_distinct(text, names)
}
