// The lines of a listing: of a verdict, of a value, and of a node of a tree.
ghost use Rattle.std.specs.Prelude.{◌+◌, ◌≤◌, ◌<◌, length, get_or};
ghost use Rattle.byte_output.specs.Output.{IsWritten};
ghost use Rattle.names.specs.Symbols.{column};
ghost use Rattle.printing.specs.Listing.{line_start, entry_line};
ghost use Rattle.arena.specs.Cells.{cells, Reference};
ghost use Rattle.printing.specs.Terms.{most_nodes, printed_nodes};
ghost use Rattle.printing.specs.Lines.{rule_name, rule_names, verdict_word, verdict_line, value_line, entry_in, RuleAsked};
ghost use Rattle.printing.specs.Stored.{term_in, Printable};
ghost use Rattle.printing.specs.Written.{symbols_in};

use super::printed::PrintedTerms;
use super::walk::OpenRow;
use super::writing::write_term;
use byte_output::Output;
use names::Word;
use refusals::Refusal;
use rules::RuleRow;
use sessions::Verdict;
use signature::columns::CLAUSE;
use tree_rows::TreeRow;

// The most bytes of a line (`line_size` of specs/SizeLaws), where names are as long as a word at most.
pub const LINE: usize = 274_560;

// Writes `line L ` in front of a verdict.
fn write_line_start(line: u32, out: &mut Output)
    requires { out.old.at + length (line_start line) ≤ length out.old.bytes.now }
    ensures { IsWritten out.old out.new (line_start line) }
{
    out.write(b"line ");
    out.write_decimal(line);
    out.write_byte(b' ');
}

// Writes a verdict.
fn write_verdict(verdict: Result<Verdict, Refusal>, out: &mut Output)
    requires { out.old.at + length (verdict_word verdict) ≤ length out.old.bytes.now }
    ensures { IsWritten out.old out.new (verdict_word verdict) }
{
    match verdict {
        Ok(Verdict::Proved { .. }) => out.write(b"proved"),
        Ok(Verdict::Nothing { .. }) => out.write(b"none"),
        Ok(Verdict::Undecided { .. }) => out.write(b"undecided"),
        Err(refusal) => {
            out.write(b"refused ");
            out.write_decimal(u32::from(refusal));
        }
    }
}

// Writes the line of a verdict that has no term.
pub fn write_verdict_line(line: u32, verdict: Result<Verdict, Refusal>, out: &mut Output)
    requires { out.old.at + length (verdict_line line verdict) ≤ length out.old.bytes.now }
    ensures { IsWritten out.old out.new (verdict_line line verdict) }
{
    write_line_start(line, out);
    write_verdict(verdict, out);
    out.write_byte(b'\n');
}

// Writes the name of a rule: its word, or the word of a clause's function, a dot and the clause's number.
fn write_rule_name(text: &[u8], row: &RuleRow, out: &mut Output)
    requires short { column row.now 2 ≤ 99999999 }
    requires room { out.old.at + length (rule_name text.now row.now) ≤ length out.old.bytes.now }
    ensures { IsWritten out.old out.new (rule_name text.now row.now) }
{
    out.write(names::part(text, Word::at_start(row)));
    if let Some(clause) = row[CLAUSE].checked_sub(1) {
        out.write_byte(b'.');
        out.write_decimal(clause);
    }
}

// Writes the line of a value.
pub fn write_value_line(
    printed: PrintedTerms,
    line: u32,
    reference: u32,
    stack: &mut [OpenRow],
    out: &mut Output,
)
    requires printable { Printable printed }
    requires stored { Reference printed.terms.room (cells printed.terms.words.now) printed.terms.variables printed.terms.used reference }
    requires small { printed_nodes (term_in printed reference) ≤ most_nodes }
    requires rows { most_nodes < length stack.old }
    requires room { out.old.at + length (value_line (symbols_in printed) line (term_in printed reference)) ≤ length out.old.bytes.now }
    ensures { IsWritten out.old out.new (value_line (symbols_in printed.entry) line (term_in printed.entry reference)) }
{
    write_line_start(line, out);
    out.write(b"value ");
    write_term(printed, reference, stack, out);
    out.write_byte(b'\n');
}

// Writes the line of a node: its height, its rule and its goal.
pub fn write_node_line(
    printed: PrintedTerms,
    rules: &[RuleRow],
    row: TreeRow,
    stack: &mut [OpenRow],
    out: &mut Output,
)
    requires printable { Printable printed }
    requires rule { RuleAsked rules.now (get_or row 2 0) }
    requires stored { Reference printed.terms.room (cells printed.terms.words.now) printed.terms.variables printed.terms.used (get_or row 3 0) }
    requires small { printed_nodes (term_in printed (get_or row 3 0)) ≤ most_nodes }
    requires rows { most_nodes < length stack.old }
    requires room { out.old.at + length (entry_line (symbols_in printed) (rule_names printed.text.now rules.now) (entry_in (term_in printed) row)) ≤ length out.old.bytes.now }
    ensures { IsWritten out.old out.new (entry_line (symbols_in printed.entry) (rule_names printed.entry.text.now rules.now) (entry_in (term_in printed.entry) row)) }
{
    let [height, _, rule, goal, ..] = row;
    out.write_decimal(height);
    out.write_byte(b' ');
    write_rule_name(printed.text, &rules[rule as usize], out);
    out.write_byte(b' ');
    write_term(printed, goal, stack, out);
    out.write_byte(b'\n');
}
