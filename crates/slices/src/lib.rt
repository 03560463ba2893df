// Slices: a part of one; and of any type that is copied, an item put at a place, all items copied, and the items from a place on cleared, or compared
// with a value.
//
// None but `copy` asks anything of its caller.
#![tactic(auto)]

ghost use Rattle.std.specs.Prelude.{◌≡◌, ◌&&◌, ◌++◌, ◌-◌, nat_le, length, take, drop, replicate, set};
ghost use Rattle.std.specs.List.{list_all};
ghost use Rattle.slices.specs.Parts.{part_of};

// The part of so many items from a place on, whole; none where there are not as many.
// It is cut at once: cutting off the rest first takes two tests, and loading a text of many symbols 9 to 17 % more time.
pub fn part<'a, T>(items: &'a [T], start: usize, count: usize) -> &'a [T]
    ensures { result.now ≡ part_of items.now start count }
{
    start
        .checked_add(count)
        .and_then(|end| items.get(start..end))
        .unwrap_or(&[])
}

// Puts an item at a place; where there is no such place, nothing changes.
pub fn put<T: Copy>(items: &mut [T], at: usize, item: T)
    ensures { items.new ≡ set items.old at item }
{
    if at < items.len() {
        items[at] = item;
    }
}

// Copies all items of `source`, which is as long.
// Stays: where a length is known at run time alone, `copy_from_slice` can become a call of `memmove`, which the archives for C would ask of their hosts.
pub fn copy<T: Copy>(items: &mut [T], source: &[T])
    requires { length items.old ≡ length source.now }
    ensures after { items.new ≡ source.now }
{
    for (i, &item) in source.iter().enumerate() {
        items[i] = item;
    }
}

// Clears the items from a place on: sets each to `zero`.
pub fn clear_from<T: Copy>(items: &mut [T], from: usize, zero: T)
    ensures { items.new ≡ take from items.old ++ replicate (length items.old - from) zero }
{
    let start = from.min(items.len());
    items[start..].fill_with(|| zero);
}

// Is a place within the items or their end, and each item from there on the value?
pub fn are_all<T: Copy + PartialEq>(items: &[T], from: usize, value: T) -> bool
    ensures { result ≡ nat_le from (length items.now) && list_all (λ item. T.eq item value) (drop from items.now) }
{
    from <= items.len() && items[from..].iter().all(|item| *item == value)
}
