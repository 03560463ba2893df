// Replays a recorded list of texts: lists the declarations' rows of each, for comparison with the recorded answers, and tests what the lent rows hold
// afterwards. A test that fails writes a line that begins with `wrong`.
#![tactic(auto)]

use listing::recorded::{self, JUNK, Recorded};
use listing::{write, write_number};
use parser::Parsed;
use slices::are_all;
use words::{Limits, Row};

// Tests that the rows from a place on hold the value.
fn expect_all(name: &[u8], rows: &[Row], from: usize, value: u32) {
    if are_all(rows, from, [value; 4]) {
        return;
    }
    write(b"wrong: not every number of the ");
    write(name);
    write(b" rows from ");
    write_number(u32::try_from(from).unwrap_or(u32::MAX));
    write(b" on is ");
    write_number(value);
    write(b"\n");
}

// Writes the four numbers of a row.
fn list_row(row: Row) {
    write_number(row[0]);
    for number in &row[1..] {
        write(b" ");
        write_number(*number);
    }
    write(b"\n");
}

// Lists the declarations, and their rows.
fn list_declarations(parsed: Parsed, rows: &[Row]) {
    write(b"declarations ");
    write_number(parsed.declarations);
    write(b"\n");
    for row in rows.iter().take(parsed.rows) {
        list_row(*row);
    }
}

// Parses a text, lists the answer, and tests the rows: zero past the tokens and past the declarations, zero throughout after a refusal,
// and after refusal 1 as they were.
fn list(text: &[u8], limits: Limits, tokens: &mut [Row], rows: &mut [Row]) {
    // A refused text has no tokens.
    let count = words::lex(text, limits, tokens).unwrap_or(0);
    tokens.fill([JUNK; 4]);
    rows.fill([JUNK; 4]);
    match parser::parse_text(text, limits, tokens, rows) {
        Ok(parsed) => {
            list_declarations(parsed, rows);
            expect_all(b"token", tokens, count, 0);
            expect_all(b"declaration", rows, parsed.rows, 0);
        }
        Err(rejection) => {
            listing::write_refusal(u32::from(rejection.refusal), rejection.line);
            let value = recorded::value_after(rejection.refusal);
            expect_all(b"token", tokens, 0, value);
            expect_all(b"declaration", rows, 0, value);
        }
    }
}

// Lists a text with the first rows of each kind lent, as many as the list says.
fn list_lent(text: &[u8], recorded: Recorded, tokens: &mut [Row], rows: &mut [Row]) {
    let Some(tokens) = tokens.get_mut(..recorded.rows) else {
        write(b"wrong: too few token rows to lend\n");
        return;
    };
    let Some(rows) = rows.get_mut(..recorded.rows) else {
        write(b"wrong: too few rows to lend\n");
        return;
    };
    list(text, recorded.limits, tokens, rows);
}

fn main() {
    let mut tokens = [[0u32; 4]; 1024];
    let mut rows = [[0u32; 4]; 1024];
    recorded::replay_input::<131072, _, _>(recorded::read, |text, recorded| {
        list_lent(text, recorded, &mut tokens, &mut rows);
    });
}
