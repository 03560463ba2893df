// Calls that must be refused by 1 and write nothing: one buffer is too short by one, a signature is damaged, or no term stands at the place.
ghost use Rattle.std.specs.Prelude.{◌≡◌};
ghost use Rattle.evaluation_tests_kit.specs.Refusals.{is_refused, damaged};
ghost use Rattle.evaluator.specs.Storage.{AreLent};
ghost use Rattle.signature.specs.Storage.{store_of};

use crate::lent;
use evaluator::{Buffers, Query};
use function_calls::TreeRow;
use names::Source;
use refusals::Refusal;
use signature::{Counts, StoredSignature};
use signature_tests::buffers;

// Is an answer refusal 1?
pub fn is_refused<T: Copy>(answer: Result<T, Refusal>) -> bool
    ensures { result ≡ is_refused answer }
{
    answer.err() == Some(Refusal::Storage)
}

// Tests that the buffers are as they were.
fn test_kept(storage: &Buffers) {
    lent::test(
        storage.words,
        0,
        storage.links,
        storage.trees,
        0,
        buffers::JUNK,
    );
}

// Tests that an evaluation is refused by 1, and that the buffers are as they were.
fn test_evaluation(query: Query, storage: &mut Buffers, claim: &[u8])
    ensures { AreLent storage.old storage.new }
{
    let answer = lent::evaluate(query, storage);
    buffers::expect(is_refused(answer), claim);
    test_kept(storage);
}

// Tests that a term is refused by 1 where it is asked whether it is evaluated.
fn test_forward(signature: StoredSignature, term: Source, claim: &[u8]) {
    let answer = evaluator::is_forward_call(signature, term);
    buffers::expect(is_refused(answer), claim);
}

// Lends each buffer one too short: a word, a link and a row of trees less than is asked.
// Stays: tried with one `Buffers`: the check does not cover a part of one field lent beside another; each field lent first would be three lines more.
pub fn test_short(query: Query, words: &mut [u32], links: &mut [u32], trees: &mut [TreeRow]) {
    if let Some(last) = words.len().checked_sub(1) {
        let mut short = Buffers {
            words: &mut words[..last],
            links,
            trees,
        };
        test_evaluation(query, &mut short, b"refused with a word too few");
    }
    if let Some(last) = links.len().checked_sub(1) {
        let mut short = Buffers {
            words,
            links: &mut links[..last],
            trees,
        };
        test_evaluation(query, &mut short, b"refused with a link too few");
    }
    if let Some(last) = trees.len().checked_sub(1) {
        let mut short = Buffers {
            words,
            links,
            trees: &mut trees[..last],
        };
        test_evaluation(query, &mut short, b"refused with a row of trees too few");
    }
}

// A signature of one word less, whose rules do not end where its words do.
pub fn damaged(signature: StoredSignature) -> StoredSignature
    ensures { store_of result ≡ damaged (store_of signature.entry) }
{
    let counts = signature.counts;
    StoredSignature {
        counts: Counts {
            words: counts.words.wrapping_sub(1),
            ..counts
        },
        ..signature
    }
}

// The place past the rows, where no term stands.
fn past(term: Source) -> Source {
    term.from_row(term.rows.len())
}

// Lends a damaged signature, and asks for a term past the rows.
pub fn test_unlisted(query: Query, storage: &mut Buffers)
    ensures { AreLent storage.old storage.new }
{
    let less = Query {
        signature: damaged(query.signature),
        ..query
    };
    test_evaluation(less, storage, b"refused with a damaged signature");
    let behind = Query {
        term: past(query.term),
        ..query
    };
    test_evaluation(behind, storage, b"refused past the rows");
}

// The same where it is asked whether a term is evaluated.
pub fn test_unlisted_forward(signature: StoredSignature, term: Source) {
    test_forward(
        damaged(signature),
        term,
        b"no forward call in a damaged signature",
    );
    test_forward(signature, past(term), b"no forward call past the rows");
}
