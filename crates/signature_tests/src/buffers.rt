// The lent buffers: what they hold before a call, and the tests of what they hold afterwards.
ghost use Rattle.std.specs.Prelude.{◌≡◌};
ghost use Rattle.load_storage.specs.Lent.{buffers_of, IsLent};
ghost use Rattle.signature.specs.Storage.{store_of};
ghost use Rattle.signature_tests.specs.Damage.{stored_in};
ghost use Rattle.signature_tests.specs.Rows.{AllFilled};

pub use listing::recorded::JUNK;
use listing::write;
use load_storage::LentBuffers;
use names::{SORTS, SYMBOLS};
use rules::{PREMISES, RULES};
use signature::{Counts, StoredSignature};
use slices::are_all;

// Fills all that a load is lent.
pub fn fill(lent: &mut LentBuffers)
    ensures filled { AllFilled (buffers_of lent.old) (buffers_of lent.new) }
    ensures lent { IsLent lent.old lent.new }
{
    lent.fill(JUNK);
}

// How many bytes a text may have for which `with_buffers` lends, and how many nodes.
const TEXT: usize = 16384;

const NODES: usize = 4096;

// Hands on buffers that are exactly enough for texts of 16,384 bytes and for 4,096 nodes.
pub fn with_buffers<F: FnMut(&mut LentBuffers)>(mut each: F)
    requires { F.IsAlwaysCallable each }
{
    let mut tokens = [[0; 4]; TEXT];
    let mut rows = [[0; 4]; TEXT];
    let mut calls = [[0; 4]; TEXT + 2 * PREMISES];
    let mut sorts = [[0; 2]; SORTS];
    let mut symbols = [[0; 24]; SYMBOLS];
    let mut rules = [[0; 154]; RULES];
    let mut words = [0; 2 * NODES];
    let mut evals = [[0; 2]; TEXT / 2];
    each(&mut LentBuffers {
        tokens: &mut tokens,
        rows: &mut rows,
        calls: &mut calls,
        sorts: &mut sorts,
        symbols: &mut symbols,
        rules: &mut rules,
        words: &mut words,
        evals: &mut evals,
    });
}

// The signature in what is lent.
pub fn stored_in<'a>(lent: &'a LentBuffers, counts: Counts) -> StoredSignature<'a>
    ensures { store_of result ≡ stored_in (buffers_of lent.now) counts }
{
    StoredSignature {
        sorts: lent.sorts,
        symbols: lent.symbols,
        rules: lent.rules,
        words: lent.words,
        counts,
    }
}

// Writes that a test failed, where it did.
pub fn expect(holds: bool, claim: &[u8]) {
    if holds {
        return;
    }
    write(b"wrong: not so: ");
    write(claim);
    write(b"\n");
}

// Tests that the declarations' rows past so many and those of `#eval` past so many hold the value, and the other scratch throughout.
// Stays: a count past the end is one of the faults that the test tells, so that the used part cannot be lent.
// Stays: `LentBuffers` has them to be written, which would ask more; a struct to read them would be made for each call and taken apart in it.
pub fn test_scratch(
    tokens: &[[u32; 4]],
    rows: &[[u32; 4]],
    used: usize,
    calls: &[[u32; 4]],
    evals: &[[u32; 2]],
    waiting: usize,
    value: u32,
) {
    expect(are_all(tokens, 0, [value; 4]), b"tokens as lent or zero");
    expect(are_all(rows, used, [value; 4]), b"rows as lent or zero");
    expect(are_all(calls, 0, [value; 4]), b"calls as lent or zero");
    expect(
        are_all(evals, waiting, [value; 2]),
        b"evals as lent or zero",
    );
}

// Tests that a signature's storage past the counts holds the value.
pub fn test_signature(stored: StoredSignature, value: u32) {
    let counts = stored.counts;
    expect(
        are_all(stored.sorts, counts.sorts as usize, [value; 2]),
        b"sorts as lent or zero",
    );
    expect(
        are_all(stored.symbols, counts.symbols as usize, [value; 24]),
        b"symbols as lent or zero",
    );
    expect(
        are_all(stored.rules, counts.rules as usize, [value; 154]),
        b"rules as lent or zero",
    );
    expect(
        are_all(stored.words, counts.words as usize, value),
        b"words as lent or zero",
    );
}
