// Term parser: from tokens to terms, to names, and to lists of them, as rows. The Rust's `Parser` without its declarations, with the refusals 7 to 12.
//
// A reader starts at a token's place with some rows in use. It asks for a row for each token, and its contract fixes what it answers and writes.
// What comes in lists is an item of a kind, which says how it is read.
#![tactic(auto)]

ghost use Rattle.std.specs.Prelude.{◌≡◌, [], ◌∷◌, ◌+◌, ◌<◌};
ghost use Rattle.term_parser.specs.Parsing.{token_of};

pub mod tokens; // reading tokens and writing rows
pub mod terms; // terms: the cycle of calls
pub mod items; // what lists are made of, and how they are read
pub mod lists; // names, and lists of items

// The kind of an application's row, beside the kinds of tokens.
// Stays: C callers lend the rows, so a kind is a number there, and may be none of these; a type of kinds would be converted at each read and write.
pub const APPLICATION: u32 = 24;

// How many parentheses may be open together.
pub const PARENTHESES: u32 = 64;

// A token: the numbers of its row.
// Stays: the row that it is read from is lent, of any kind, and past the end its kind is 0; an enum would be made at each `peek`, to be compared once.
#[derive(Clone, Copy)]
pub struct Token {
    pub kind: u32,
    pub start: u32,
    pub length: u32,
    pub line: u32,
}

impl From<[u32; 4]> for Token {
    ghost from_gives = { λ row token. token ≡ token_of (row ∷ []) };

    fn from(row: [u32; 4]) -> Token {
        let [kind, start, length, line] = row;
        Token {
            kind,
            start,
            length,
            line,
        }
    }
}

// What is read: a text, and its tokens.
// Stays: with input and position as one `Reader`, each `Read` would hold one, and each contract say besides that its input is the one that was given.
#[derive(Clone, Copy)]
pub struct Input<'a> {
    pub text: &'a [u8],
    pub tokens: &'a [[u32; 4]],
}

// Where a reader stands: the place of the next token, and how many rows are in use.
// Stays: with the rows in one struct, which is lent to be written, each contract would say besides that input and rows are the same ones afterwards.
// Stays: that there is room for what is read (`Room`) is asked beside it: it tells of the rows too, which are lent to be written.
#[derive(Clone, Copy)]
pub struct Position {
    pub at: usize,
    pub used: usize,
}

impl Position {
    // The place behind a token that is taken.
    pub fn past_token(self) -> Position
        requires { self.at < 65536 }
        ensures { result ≡ record { at = self.at + 1; used = self.used } }
    {
        Position {
            at: self.at + 1,
            ..self
        }
    }

    // The place behind a token that is taken and a row that is written.
    pub fn past_row(self) -> Position
        requires { (self.used < 65536) × (self.at < 65536) }
        ensures { result ≡ record { at = self.at + 1; used = self.used + 1 } }
    {
        Position {
            at: self.at + 1,
            used: self.used + 1,
        }
    }
}

// Where a reader came to, and how many items it read.
// Stays: the count stands first: in a `Result` a place there would share the bytes of a `Rejection` in part, so that each `?` would cut it in two and put
// it together in memory.
#[derive(Clone, Copy)]
pub struct Read {
    pub count: u32,
    pub position: Position,
}
