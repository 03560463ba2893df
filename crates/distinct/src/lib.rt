// Are all names of a table distinct? The places of the names are sorted by merging, and a merge that meets the same name twice says no.
//
// The entry points are `are_distinct_by_merging`, for which a caller lends spare places, and `are_distinct`, for which none are lent: there the library sorts,
// and neighbours are compared.
#![tactic(auto)]

ghost use Rattle.std.specs.Prelude.{◌≡◌, ℕ, ◌+◌, ◌≤◌, ◌<◌, length};
ghost use Rattle.std.specs.Ordering.{nat_cmp};
ghost use Rattle.std.specs.Cmp.Lexicographic.{slice_cmp};
ghost use Rattle.unifier.specs.Promises.{Tells};
ghost use Rattle.names.specs.Names.{Distinct};
ghost use Rattle.names.specs.Symbols.{row_at, sort_of, sorts_of};
ghost use Rattle.distinct.specs.Sorting.{name_at, Ascending, Joins, Next, Sorted};

use names::{SortRow, Word};
use std::cmp::Ordering;

// The name at a place.
fn name<'a>(text: &'a [u8], place: &SortRow) -> &'a [u8]
    ensures { result.now ≡ sort_of text.now place.now }
{
    names::part(text, Word::at_start(place))
}

// How the names at two places stand to each other: as in a dictionary, byte by byte.
fn compare(text: &[u8], a: &SortRow, b: &SortRow) -> Ordering
    ensures { result ≡ slice_cmp nat_cmp (sort_of text.now a.now) (sort_of text.now b.now) }
{
    name(text, a).cmp(name(text, b))
}

// Which of two runs has the next name: the first, left from i on and before `middle` (`Less`), the second, left from j on and before `to` (`Greater`),
// or both (`Equal`)?
fn next_run(text: &[u8], rows: &[SortRow], i: usize, middle: usize, j: usize, to: usize) -> Ordering
    requires { (i ≤ middle) × (j ≤ to) × (i + j < middle + to) × (middle ≤ length rows.now) × (to ≤ length rows.now) }
    ensures { Next (name_at text.now rows.now) i middle j to result }
{
    if i == middle {
        return Ordering::Greater;
    }
    if j == to {
        return Ordering::Less;
    }
    compare(text, &rows[i], &rows[j])
}

// Copies the rows from `from` on and before `to`.
fn copy(rows: &[SortRow], spare: &mut [SortRow], from: usize, to: usize)
    requires { (from ≤ to) × (to ≤ length rows.now) × (to ≤ length spare.old) }
    ensures { (i : ℕ) → from ≤ i → i < to → row_at spare.new i ≡ row_at rows.now i }
{
    slices::copy(&mut spare[from..to], &rows[from..to]);
}

// Merges two ascending runs of `spare` into `places`: one before `middle`, one from there on. Where both have a name, the answer is no.
fn merge(
    text: &[u8],
    spare: &[SortRow],
    places: &mut [SortRow],
    from: usize,
    middle: usize,
    to: usize,
) -> bool
    requires { (from ≤ middle) × (middle ≤ to) × (to ≤ length spare.now) × (to ≤ length places.old) × Ascending (name_at text.now spare.now) from middle × Ascending (name_at text.now spare.now) middle to }
    ensures { Sorted (name_at text.now spare.now) (name_at text.now places.old) (name_at text.now places.new) from to result }
{
    let mut i = from;
    let mut j = middle;
    for k in from..to {
        match next_run(text, spare, i, middle, j, to) {
            Ordering::Equal => return false,
            Ordering::Less => {
                places[k] = spare[i];
                i += 1;
            }
            Ordering::Greater => {
                places[k] = spare[j];
                j += 1;
            }
        }
    }
    true
}

// Are the halves of a part to be merged? Not where the last name of the first half stands before the first of the second. Of two names the merge tells.
fn is_split(text: &[u8], places: &[SortRow], from: usize, middle: usize, to: usize) -> bool
    requires { (from < middle) × (middle < to) × (to ≤ length places.now) }
    ensures { Joins (name_at text.now places.now) middle result }
{
    to - from == 2 || compare(text, &places[middle - 1], &places[middle]).is_ge()
}

// Sorts the places from `from` on and before `to` by their names; where a name stands twice, the answer is no.
// Stays: std's sort takes more than n times log2 n comparisons, twice as many where names stand in runs, and tells no name that stands twice.
fn sort(text: &[u8], places: &mut [SortRow], spare: &mut [SortRow], from: usize, to: usize) -> bool
    requires { (from ≤ to) × (to ≤ length places.old) × (to ≤ length spare.old) }
    ensures { Sorted (name_at text.now places.old) (name_at text.now places.old) (name_at text.now places.new) from to result }
{
    if to - from < 2 {
        return true;
    }
    let middle = from + (to - from) / 2;
    if !sort(text, places, spare, from, middle) {
        return false;
    }
    if !sort(text, places, spare, middle, to) {
        return false;
    }
    if is_split(text, places, from, middle, to) {
        copy(places, spare, from, to);
        return merge(text, spare, places, from, middle, to);
    }
    true
}

// Do the names whose places are listed all differ? The places are sorted by their names: at most n times log2 n comparisons of n names, each of which reads
// no more bytes than the shorter name has.
pub fn are_distinct_by_merging(text: &[u8], places: &mut [SortRow], spare: &mut [SortRow]) -> bool
    requires { length places.old ≤ length spare.old }
    ensures { Tells result (Distinct (sorts_of text.now places.old (length places.old))) }
{
    let count = places.len();
    sort(text, places, spare, 0, count)
}

// The same without spare places: the library's sort takes some n times log2 n comparisons of n names, which can be more than merging takes, and then each
// name has to stand before the next. A comparison reads no more bytes than the shorter name has.
pub fn are_distinct(text: &[u8], places: &mut [SortRow]) -> bool
    ensures { Tells result (Distinct (sorts_of text.now places.old (length places.old))) }
{
    places.sort_unstable_by(|a, b| compare(text, a, b));
    places.is_sorted_by(|a, b| compare(text, a, b).is_lt())
}

#[cfg(test)]
mod tests {
    use super::{SortRow, are_distinct, are_distinct_by_merging};

    // The names `b`, `bc`, `a`, an empty one, and `b` again.
    static TEXT: &[u8] = b"b bc a b";

    const PLACES: [SortRow; 5] = [[0, 1], [2, 2], [5, 1], [4, 0], [7, 1]];

    // Of the first places of the list, as many as are asked for.
    fn told(count: usize) -> [bool; 2] {
        let mut places = PLACES;
        let mut others = PLACES;
        let mut spare = [[0; 2]; PLACES.len()];
        let n = count.min(PLACES.len());
        [
            are_distinct(TEXT, &mut places[..n]),
            are_distinct_by_merging(TEXT, &mut others[..n], &mut spare),
        ]
    }

    #[test]
    fn of_none_one_and_more(rt: HostRuntime) {
        assert_eq!(rt; told(0), [true; 2]);
        assert_eq!(rt; told(1), [true; 2]);
        assert_eq!(rt; told(4), [true; 2]);
    }

    #[test]
    fn of_a_name_that_stands_twice(rt: HostRuntime) {
        assert_eq!(rt; told(5), [false; 2]);
    }
}
