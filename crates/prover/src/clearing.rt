// What lies past the counts is cleared.
ghost use Rattle.std.specs.Prelude.{◌≡◌};
ghost use Rattle.load_storage.specs.Storage.{cleared_from};
ghost use Rattle.sessions.specs.Storage.{zero_name};
ghost use Rattle.search_machine.specs.Groups.{IsLent};
ghost use Rattle.prover.specs.Clearing.{ClearsPast};

use search_machine::Store;
use sessions::{NameRow, SessionCounts};

// Zeroes the names and words past the counts.
pub fn clear_session(names: &mut [NameRow], words: &mut [u32], session: SessionCounts)
    ensures names { names.new ≡ cleared_from zero_name session.names names.old }
    ensures words { words.new ≡ cleared_from 0 session.words words.old }
{
    slices::clear_from(names, session.names as usize, [0; 5]);
    slices::clear_from(words, session.words as usize, 0);
}

// Zeroes the names and words past the counts, and the proof.
pub fn clear_past(names: &mut [NameRow], store: &mut Store, session: SessionCounts)
    ensures cleared { ClearsPast session names.old store.old names.new store.new }
    ensures lent { IsLent store.old store.new }
{
    clear_session(names, store.words, session);
    store.frames.fill([0; 8]);
}
