// Clauses of functions: flattened and entered as rules. The Rust's `Sig::clause`, with the refusals of `rules`, and 28 for a 17th call.
//
// All functions here serve the crates above: they ask for storage of the listed sizes.
#![tactic(auto)]

ghost use Rattle.std.specs.Prelude.{◌+◌, ◌-◌, ◌≤◌, ◌<◌, length};
ghost use Rattle.names.specs.Named.{symbols_named};
ghost use Rattle.clauses.specs.Promises.{Skipped, HeadingAsked, Headed, ClauseAsked, ClauseEntered};

use flattening::Place;
use names::{SourceTerms, TermRow, Word};
use refusals::Refusal;
use rules::{RulePlace, RuleRow, SourceRule, Space, Title};
use term_parser::APPLICATION;

// A clause of a function: source terms, among which its n patterns stand from the row `at` on, with the right side behind them.
#[derive(Clone, Copy)]
pub struct SourceClause<'a> {
    pub source: SourceTerms<'a>,
    pub at: usize,
    pub n: usize,
}

// A rule that is entered: the row behind it, and the space left then.
// Stays: one `Ended<T>` of `Progress`, `EnteredRule`, `Expressed` and `Decimal` would call `item` what is `state`, `space`, `outcome` and `value`.
#[derive(Clone, Copy)]
pub struct EnteredRule {
    pub next: usize,
    pub space: Space,
}

// The row behind n terms.
// Stays: no caller asks where fewer terms stand, so any answer serves; of an `Option` each would first have to show that there is one.
pub fn skip(rows: &[TermRow], at: usize, n: usize) -> usize
    requires { (length rows.now ≤ 65536) × (n ≤ 65536) }
    ensures { Skipped rows.now at n result }
{
    // How many terms are still to be passed at the row p.
    let mut left = n;
    for p in at..rows.len() {
        let Some(rest) = left.checked_sub(1) else {
            return p;
        };
        left = rest + flattening::arity(&rows[p]);
    }
    rows.len().max(at)
}

// Writes the beginning of a clause's conclusion: its function, whose name stands at a place, and its n patterns. The row of the right side is answered.
fn heading(rows: &[TermRow], at: usize, n: usize, word: Word, out: &mut [TermRow]) -> usize
    requires { HeadingAsked rows.now at n out.old }
    ensures { Headed rows.now at n word.start word.size out.old result out.new }
{
    let end = skip(rows, at, n);
    out[0] = [APPLICATION, word.start, word.size, n as u32 + 1];
    slices::copy(&mut out[1..1 + (end - at)], &rows[at..end]);
    end
}

// Enters a clause as a rule at a place. Its rows are flattened in `out` and `calls`, which are scratch.
// Stays: words, rules and scratch go apart from the place; of a struct that lends them, each contract up to `declarations` would say that they come back.
pub fn clause(
    written: SourceClause,
    title: Title,
    words: &mut [u32],
    rules: &mut [RuleRow],
    place: RulePlace,
    out: &mut [TermRow],
    calls: &mut [TermRow],
) -> Result<EnteredRule, Refusal>
    requires { ClauseAsked written.source.text.now written.source.rows.now written.at written.n written.source.symbols.now (length written.source.symbols.now) words.old place.space.used place.space.room rules.old out.old calls.old }
    ensures { ClauseEntered written.entry.source.text.now written.entry.source.rows.now written.entry.at written.entry.n (symbols_named written.entry.source) title words.old place.space.used place.space.room rules.old place.number result words.new rules.new }
{
    let SourceClause { source, at, n } = written;
    let right = heading(source.rows, at, n, title.word, out);
    let from = Place {
        next: right,
        top: right - at + 1,
        end: 0,
        number: 0,
    };
    let flat = flattening::flatten(source, out, calls, from).ok_or(Refusal::Full)?;
    let rule = SourceRule {
        premises: SourceTerms {
            rows: calls,
            ..source
        },
        at: 0,
        n: flat.number,
        conclusions: out,
        here: 0,
    };
    let left = rules::rule(rule, title, words, rules, place)?;
    Ok(EnteredRule {
        next: flat.next,
        space: left,
    })
}
