// Lengths and counts.
ghost use Rattle.std.specs.Prelude.{◌≡◌, length};
ghost use Rattle.bindings.specs.Promises.{Tells};
ghost use Rattle.words.specs.Lexer.{capped_of};
ghost use Rattle.sessions.specs.Storage.{is_short};
ghost use Rattle.session_check.specs.Parts.{SessionCounted};

use arena::TERM_ROOM;
use sessions::{NameRow, StoredSession};

// A session's names are variables of its goals, each of which is a rule. The limit on its variables is `arena::TERM_ROOM`, that on words `words::WORDS`.
pub const NAMES: usize = patterns::VARIABLES;

// The lengths of the buffers that are lent with a session.
#[derive(Clone, Copy)]
pub struct Lengths {
    pub names: usize,
    pub words: usize,
    pub bindings: usize,
    pub links: usize,
    pub marks: usize,
    pub stack: usize,
}

impl Lengths {
    // Those of these buffers.
    // Stays: C lends each buffer by itself; `session_open::open` has all six apart, and `check_session` the scratch beside a `StoredSession`.
    pub fn of(
        names: &[NameRow],
        words: &[u32],
        bindings: &[[u32; 2]],
        links: &[[u32; 2]],
        marks: &[[u32; 2]],
        stack: &[[u32; 3]],
    ) -> Lengths
        ensures { result ≡ record {
          names = length names.now;
          words = length words.now;
          bindings = length bindings.now;
          links = length links.now;
          marks = length marks.now;
          stack = length stack.now;
        } }
    {
        Lengths {
            names: names.len(),
            words: words.len(),
            bindings: bindings.len(),
            links: links.len(),
            marks: marks.len(),
            stack: stack.len(),
        }
    }

    // Are the buffers shorter than the limits ask?
    pub fn are_short(self, limits: words::Limits) -> bool
        ensures { result ≡ is_short (capped_of limits).variables (capped_of limits).words self.names self.words self.bindings
            self.links self.marks self.stack }
    {
        let capped = limits.capped();
        let most = capped.words as usize;
        let references = TERM_ROOM as usize + most;
        self.names < NAMES
            || self.words < most
            || self.bindings < capped.variables as usize
            || self.links < references
            || self.marks < references
            || self.stack < most
    }
}

// Are the counts of a session within the limits, and are so many words lent?
pub fn is_counted(session: StoredSession) -> bool
    ensures { Tells result (SessionCounted session.entry.counts (length session.entry.words.now)) }
{
    let counts = session.counts;
    counts.names as usize <= NAMES
        && counts.variables <= TERM_ROOM
        && counts.bound <= counts.variables
        && counts.words <= words::WORDS
        && counts.words as usize <= session.words.len()
}
