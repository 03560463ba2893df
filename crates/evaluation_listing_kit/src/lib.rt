// Answers of the evaluator and of the search, listed as the recorded ones are: a line for the value, a line `HEIGHT RULE GOAL` for each node of the
// trees, and a line `?vN = TERM` for a binding.
//
// A line is made in a lent buffer, and written to standard output from there. A line for which the buffer, or the stack of open nodes, is too short is
// listed as `wrong`.
// Stays: names are bytes, which `write!` cannot write, and std's writer to standard output needs the handle that std's `main` is given.
#![tactic(auto)]

mod output; // bytes and numbers, where there is room
mod prefix; // terms in prefix form
mod printer; // the open nodes of a term

ghost use Rattle.evaluation_listing_kit.specs.Printing.{Moved};

use byte_output::Output;
use function_calls::TreeRow;
use names::Word;
use output::{NoRoom, put, put_byte, put_decimal};
pub use prefix::{OpenRow, StoredTerms};
use prefix::{put_name, put_term, put_variable};
use rules::RuleRow;
use signature::columns::CLAUSE;

// Makes a line in the buffer, and writes it to standard output, if there was room for it.
fn write_line<F: FnOnce(&mut Output) -> Result<(), NoRoom>>(out: &mut [u8], make: F)
    requires { F.IsAlwaysCallable make }
{
    let mut line = Output { bytes: out, at: 0 };
    let made = make(&mut line);
    let Output { bytes, at, .. } = line;
    match made {
        Ok(()) => listing::write(&bytes[..at]),
        Err(NoRoom) => listing::write(b"wrong: no room for the line\n"),
    }
}

// Writes the start of the line of an `#eval`.
pub fn write_eval(line: u32) {
    listing::write(b"eval ");
    listing::write_number(line);
    listing::write(b" ");
}

// Makes the line of a value.
fn put_value(
    terms: StoredTerms,
    value: u32,
    stack: &mut [OpenRow],
    line: &mut Output,
) -> Result<(), NoRoom> {
    put(b"value ", line)?;
    put_term(terms, value, stack, line)?;
    put_byte(line, b'\n')
}

// Writes the line of a value.
// Stays: terms, stack and buffer are apart, since each line makes an output of the whole buffer, and each term a printer of terms and stack alone.
pub fn list_value(terms: StoredTerms, value: u32, stack: &mut [OpenRow], out: &mut [u8]) {
    write_line(out, |line| put_value(terms, value, stack, line));
}

// Writes a rule's name into the line, that of a clause with its number.
// Stays: `signature_listing` and `printing` write where nothing fails; of any sink it would be a trait with three `impl`s, for this and `put_symbol`.
fn put_rule(text: &[u8], rules: &[RuleRow], number: u32, out: &mut Output) -> Result<(), NoRoom>
    ensures { Moved out.old out.new }
{
    let Some(row) = rules.get(number as usize) else {
        return put(b"wrong: no such rule", out);
    };
    put_name(text, Word::at_start(row), out)?;
    let Some(clause) = row[CLAUSE].checked_sub(1) else {
        return Ok(());
    };
    put_byte(out, b'.')?;
    put_decimal(clause, out)
}

// Makes the line of a call.
fn put_call(
    terms: StoredTerms,
    rules: &[RuleRow],
    row: TreeRow,
    stack: &mut [OpenRow],
    line: &mut Output,
) -> Result<(), NoRoom> {
    let [height, _, rule, goal, ..] = row;
    put_decimal(height, line)?;
    put_byte(line, b' ')?;
    put_rule(terms.text, rules, rule, line)?;
    put_byte(line, b' ')?;
    put_term(terms, goal, stack, line)?;
    put_byte(line, b'\n')
}

// Writes the lines of calls.
pub fn list_calls(
    terms: StoredTerms,
    rules: &[RuleRow],
    trees: &[TreeRow],
    stack: &mut [OpenRow],
    out: &mut [u8],
) {
    for row in trees {
        write_line(out, |line| put_call(terms, rules, *row, stack, line));
    }
}

// Makes the line of a binding.
fn put_binding(
    terms: StoredTerms,
    variable: u32,
    value: u32,
    stack: &mut [OpenRow],
    line: &mut Output,
) -> Result<(), NoRoom> {
    put_variable(variable, line)?;
    put(b" = ", line)?;
    put_term(terms, value, stack, line)?;
    put_byte(line, b'\n')
}

// Writes the line of a binding: a variable, and the reference of its value.
pub fn list_binding(
    terms: StoredTerms,
    variable: u32,
    value: u32,
    stack: &mut [OpenRow],
    out: &mut [u8],
) {
    write_line(out, |line| put_binding(terms, variable, value, stack, line));
}
