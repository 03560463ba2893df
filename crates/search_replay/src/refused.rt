// Calls that must be refused by 1 and write nothing: one buffer is too short by one, a word of the session is damaged, or the signature is.
use super::lent::{self, Lent};
use evaluation_tests_kit::refused::{damaged, is_refused};
use listing::recorded::JUNK;
use prover::Query;
use search_machine::Store;
use session_check::Lengths;
use sessions::{NameRow, SessionCounts};
use signature_tests::buffers::expect;

// Tests that a goal is refused by 1 where so much is lent.
fn test_lent(
    query: Query,
    names: &mut [NameRow],
    store: &mut Store,
    session: SessionCounts,
    lent: Lent,
    claim: &[u8],
) {
    let answer = lent::prove_in(query, names, store, session, lent);
    expect(is_refused(answer), claim);
}

// Lends each buffer one too short, where a session has nothing in use.
pub fn test_short(query: Query, names: &mut [NameRow], store: &mut Store, session: SessionCounts) {
    let lent = Lent::by_limits(query.limits, session);
    let lengths = lent.session;
    for short in [
        Lengths {
            names: lengths.names.saturating_sub(1),
            ..lengths
        },
        Lengths {
            words: lengths.words.saturating_sub(1),
            ..lengths
        },
        Lengths {
            bindings: lengths.bindings.saturating_sub(1),
            ..lengths
        },
        Lengths {
            links: lengths.links.saturating_sub(1),
            ..lengths
        },
        Lengths {
            marks: lengths.marks.saturating_sub(1),
            ..lengths
        },
        Lengths {
            stack: lengths.stack.saturating_sub(1),
            ..lengths
        },
    ] {
        let less = Lent {
            session: short,
            ..lent
        };
        test_lent(
            query,
            names,
            store,
            session,
            less,
            b"refused with a session's buffer too short",
        );
    }
    let less = Lent {
        rows: lent.rows.saturating_sub(1),
        ..lent
    };
    test_lent(
        query,
        names,
        store,
        session,
        less,
        b"refused with a row of the proof too few",
    );
}

// Damages a word that is in use, by a number that is neither a header nor a reference, and puts it right again.
fn test_word(
    query: Query,
    names: &mut [NameRow],
    store: &mut Store,
    session: SessionCounts,
    at: usize,
) {
    let lent = Lent::by_limits(query.limits, session);
    let word = store.words.get(at).copied().unwrap_or(0);
    slices::put(store.words, at, JUNK);
    test_lent(
        query,
        names,
        store,
        session,
        lent,
        b"refused with a damaged word",
    );
    slices::put(store.words, at, word);
}

// Damages each word that is in use, one at a time, and lends a damaged signature.
pub fn test_damaged(
    query: Query,
    names: &mut [NameRow],
    store: &mut Store,
    session: SessionCounts,
) {
    for at in 0..session.words {
        test_word(query, names, store, session, at as usize);
    }
    let lent = Lent::by_limits(query.limits, session);
    let less = Query {
        signature: damaged(query.signature),
        ..query
    };
    test_lent(
        less,
        names,
        store,
        session,
        lent,
        b"refused with a damaged signature",
    );
}
