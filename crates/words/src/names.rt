// Keywords, and the tokens that words make.
ghost use Rattle.std.specs.Prelude.{◌≡◌, ◌<◌, length};
ghost use Rattle.words.specs.Items.{lexeme_item};
ghost use Rattle.words.specs.Names.{keyword_of, number_if, hash_keyword_of, word_item};

use super::tokens::Lexeme;
use refusals::Refusal;
use source_text::bytes::same;
use source_text::numerals::{all_digits, value};

// The kinds of words: the eleven keywords.
// Stays: C callers lend the rows, so a kind is a number there, and may be none of these; a type of kinds would be converted at each read and write.
pub const SORT: u32 = 1;

pub const CTOR: u32 = 2;

pub const PRED: u32 = 3;

pub const RULE: u32 = 4;

pub const DEF: u32 = 5;

pub const THEOREM: u32 = 6;

pub const BY: u32 = 7;

pub const AUTO: u32 = 8;

pub const INDUCTION: u32 = 9;

pub const EVAL: u32 = 10;

pub const CHECK: u32 = 11;

// The kinds of other words.
// Stays: C callers lend the rows, so a kind is a number there, and may be none of these; a type of kinds would be converted at each read and write.
pub const NAME: u32 = 12;

pub const METAVARIABLE: u32 = 13;

pub const NUMERAL: u32 = 14;

// The most bytes that a word may have: document 01's 64.
pub const LONGEST: usize = 64;

// k where w is the keyword v, else the number of a name.
// Stays: k is the number of a keyword, and no length of v.
fn number_if(w: &[u8], v: &[u8], k: u32) -> u32
    ensures { result ≡ number_if w.now v.now k }
{
    if same(w, v) {
        return k;
    }
    NAME
}

// The number of a keyword that starts with `#`, or that of a name.
fn hash_keyword(w: &[u8]) -> u32
    ensures { result ≡ hash_keyword_of w.now }
{
    if same(w, b"#eval") {
        return EVAL;
    }
    number_if(w, b"#check", CHECK)
}

// The number of a keyword, in the Rust's order, or that of a name. The first byte leaves at most two to compare with.
// Stays: a `match` on the eleven words was tried: it has a goal at each byte where words part, and the search left over thirty of them open.
fn keyword(w: &[u8]) -> u32
    requires { 0 < length w.now }
    ensures { result ≡ keyword_of w.now }
{
    let first = w[0];
    match first {
        b's' => number_if(w, b"sort", SORT),
        b'c' => number_if(w, b"ctor", CTOR),
        b'p' => number_if(w, b"pred", PRED),
        b'r' => number_if(w, b"rule", RULE),
        b'd' => number_if(w, b"def", DEF),
        b't' => number_if(w, b"theorem", THEOREM),
        b'b' => number_if(w, b"by", BY),
        b'a' => number_if(w, b"auto", AUTO),
        b'i' => number_if(w, b"induction", INDUCTION),
        b'#' => hash_keyword(w),
        _ => NAME,
    }
}

// The token that a word makes: its length is tested first, so that 6 comes before 5.
pub fn word_item(w: &[u8]) -> Result<Lexeme, Refusal>
    requires { 0 < length w.now }
    ensures { lexeme_item result ≡ word_item w.now }
{
    let length = w.len();
    if LONGEST < length {
        return Err(Refusal::WordTooLong);
    }
    let kind = if w[0] == b'?' {
        METAVARIABLE
    } else if all_digits(w) {
        value(w).ok_or(Refusal::NumeralTooLarge)?;
        NUMERAL
    } else {
        keyword(w)
    };
    Ok(Lexeme { kind, length })
}
