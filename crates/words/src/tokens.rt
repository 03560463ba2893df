// One item, one line, all lines.
ghost use Rattle.std.specs.Prelude.{◌≡◌, ◌+◌, ◌≤◌, ◌<◌, length, drop};
ghost use Rattle.source_text.specs.Characters.{class_number};
ghost use Rattle.source_text.specs.Lines.{lines};
ghost use Rattle.source_text.specs.Utf8.{positive};
ghost use Rattle.words.specs.Items.{item};
ghost use Rattle.words.specs.Rows.{Room, Read};
ghost use Rattle.words.specs.Tokens.{is_word, word_of, item_of, read_after, read_lines, outside_line};

use super::names::word_item;
use super::signs::sign_item;
use refusals::{Refusal, Rejection};
use source_text::characters::{Class, character_at, has_outside};
use source_text::lines::{Code, Lines};

pub type Row = [u32; 4];

// A token's kind and its length in bytes.
// Stays: the kind is only written into a row, which C reads; an enum would have 23 cases beside the constants by which rows are read, for one conversion.
#[derive(Clone, Copy)]
pub struct Lexeme {
    pub kind: u32,
    pub length: usize,
}

// The length of the word with which a rest of a line starts.
fn word_length(rest: &[u8]) -> usize
    ensures { result ≡ length (word_of rest.now) }
{
    (0..rest.len())
        .find(|i| !in_word(character_at(rest, *i).class))
        .unwrap_or(rest.len())
}

// Do characters of a class make words?
fn in_word(class: Class) -> bool
    ensures { result ≡ is_word (class_number class) }
{
    matches!(class, Class::Letter | Class::Digit)
}

// What stands where a rest of a line starts: a token, or nothing at a blank.
// Stays: a `match` on the six classes becomes a table of jumps, and lexing takes one jump through it at each token and each blank.
fn item_at(rest: &[u8]) -> Result<Option<Lexeme>, Refusal>
    requires { 0 < length rest.now }
    ensures { item result ≡ item_of rest.now }
{
    let class = character_at(rest, 0).class;
    if let Class::Blank = class {
        return Ok(None);
    }
    if in_word(class) {
        return Ok(Some(word_item(&rest[..word_length(rest)])?));
    }
    if let Class::Sign = class {
        return Ok(Some(sign_item(rest)?));
    }
    Err(Refusal::UnexpectedCharacter)
}

// Reads the code of a line; its tokens go to the rows from 0 on.
fn read_code(code: Code, rows: &mut [Row]) -> Result<usize, Rejection>
    requires { Room code.bytes.now code.start rows.old }
    ensures { Read (read_after code.entry.bytes.now 0 code.entry.start code.entry.line) (length code.entry.bytes.now) 0 rows.old result rows.new }
{
    let Code { bytes, start, line } = code;
    let mut at = 0;
    let mut n = 0;
    // Stays: a step is as long as a token, and one byte only at a blank.
    while at < bytes.len() {
        let item = item_at(&bytes[at..]).map_err(|refusal| Rejection { refusal, line })?;
        match item {
            None => {
                at += 1;
            }
            Some(lexeme) => {
                rows[n] = [lexeme.kind, (start + at) as u32, lexeme.length as u32, line];
                n += 1;
                at += lexeme.length;
            }
        }
    }
    Ok(n)
}

// Reads lines of a text; their tokens go to the rows from 0 on.
pub fn read_lines(all: Lines, rows: &mut [Row]) -> Result<usize, Rejection>
    requires { length all.text.now ≤ length rows.old }
    ensures { Read (read_lines (lines (drop all.entry.at all.entry.text.now)) all.entry.at all.entry.line) (length all.entry.text.now) 0 rows.old result rows.new }
{
    let mut count = 0;
    for code in all {
        let read = read_code(code, &mut rows[count..])?;
        count += read;
    }
    Ok(count)
}

// The first line with a character outside the domain and not in a comment.
pub fn outside_line(mut all: Lines) -> Option<u32>
    requires { 0 < all.line }
    ensures { result ≡ positive (outside_line (lines (drop all.entry.at all.entry.text.now)) all.entry.line) }
{
    all.find(|code| has_outside(code.bytes))
        .map(|code| code.line)
}
