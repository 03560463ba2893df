// The buffers that are lent to an evaluation: what they hold before it, and the tests of what they hold afterwards.
ghost use Rattle.evaluator.specs.Storage.{AreLent};

use evaluator::{Buffers, Query};
use function_calls::{Outcome, TreeRow};
use refusals::Refusal;
use signature_tests::buffers;

// Evaluates a term into buffers that hold junk.
pub fn evaluate(query: Query, storage: &mut Buffers) -> Result<Outcome, Refusal>
    ensures { AreLent storage.old storage.new }
{
    storage.fill(buffers::JUNK);
    evaluator::evaluate(query, storage)
}

// Tests that the words past those used and the rows past those of the calls hold the value, and the links throughout.
// Stays: a count past the end is one of the faults that the test tells, so that the used part cannot be lent.
// Stays: `Buffers` has them to be written, which would ask more; a struct to read them would be made for each call and taken apart in it.
pub fn test(
    words: &[u32],
    used: usize,
    links: &[u32],
    trees: &[TreeRow],
    calls: usize,
    value: u32,
) {
    buffers::expect(
        slices::are_all(words, used, value),
        b"words of values as lent or zero",
    );
    buffers::expect(slices::are_all(links, 0, value), b"links as lent or zero");
    buffers::expect(
        slices::are_all(trees, calls, [value; 8]),
        b"rows of trees as lent or zero",
    );
}
