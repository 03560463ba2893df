// Declarations.
ghost use Rattle.std.specs.Prelude.{◌≡◌, ◌⊎◌, [], ◌≤◌, ◌<◌, length, drop, get_or, set};
ghost use Rattle.source_text.specs.Bytes.{same_bytes};
ghost use Rattle.source_text.specs.Parts.{part_of};
ghost use Rattle.parser.specs.Source.{Clause, Binders};
ghost use Rattle.parser.specs.Rows.{clause_rows, binders_rows, tactic_rows, single_rows, titled_rows, declaration_rows, declared_rows, numbered};
ghost use Rattle.parser.specs.Declarations.{Declared, prop_name, binders_of, tactic_of, titled_of, sort_of, ctor_of, clause_of, pred_of, rule_of, def_of, theorem_of, asked_of, body_of, declaration_of, parse_of};
ghost use Rattle.term_parser.specs.Lists.{separated};
ghost use Rattle.term_parser.specs.Steps.{step};
ghost use Rattle.term_parser.specs.Promises.{Room, Reads, Lists};
ghost use Rattle.parser.specs.Promises.{Declares};

use super::{BINDERS, CLAUSE};
use refusals::{Refusal, Rejection};
use term_parser::items::{Item, Judgment, Name, Repeated, all, list, present};
use term_parser::lists::{arrows, judgments, name, names, patterns, title};
use term_parser::terms::app;
use term_parser::tokens::{name_token, peek, rejection, sign};
use term_parser::{Input, PARENTHESES, Position, Read, Token};
use words::{
    AUTO, BAR, BY, CHECK, CLOSE, COLON, CTOR, DEF, DEFINES, DOUBLE_ARROW, EVAL, INDUCTION, OPEN,
    PRED, RULE, SORT, THEOREM,
};

// `| p, p => t`
pub struct Clause;

impl Repeated for Clause {
    ghost Of = { Clause };

    ghost rows = { clause_rows };

    ghost grammar = { clause_of };

    fn read(input: Input, from: Position, out: &mut [[u32; 4]]) -> Result<Option<Read>, Rejection> {
        if peek(input.tokens, from.at).kind != BAR {
            return Ok(None);
        }
        let behind = from.past_row();
        let list = patterns(input, behind, out)?;
        let arrow = sign(input, DOUBLE_ARROW, list.position)?;
        let body = app(input, arrow.position, PARENTHESES, out)?;
        out[from.used] = [CLAUSE, 0, 0, list.count];
        Ok(Some(Read { count: 1, ..body }))
    }
}

// `(x y z : S)`
pub struct Binders;

impl Repeated for Binders {
    ghost Of = { Binders };

    ghost rows = { binders_rows };

    ghost grammar = { λ text last. binders_of last };

    fn read(input: Input, from: Position, out: &mut [[u32; 4]]) -> Result<Option<Read>, Rejection> {
        if peek(input.tokens, from.at).kind != OPEN {
            return Ok(None);
        }
        let behind = from.past_row();
        let bound = names(input, behind, out)?;
        let colon = sign(input, COLON, bound.position)?;
        let t = name_token(input.tokens, colon.position.at)?;
        let sort = colon.position.past_token();
        let close = sign(input, CLOSE, sort)?;
        out[from.used] = [BINDERS, t.start, t.length, bound.count];
        Ok(Some(Read { count: 1, ..close }))
    }
}

// `:= by auto`, `:= by induction x`, or nothing
pub fn tactic(input: Input, from: Position, out: &mut [[u32; 4]]) -> Result<Read, Rejection>
    requires { Room input.tokens.now from.at from.used out.old }
    ensures { Reads 0 tactic_rows (λ _. tactic_of) input.entry from out.old (step result) out.new }
{
    if peek(input.tokens, from.at).kind != DEFINES {
        return Ok(Read {
            position: from,
            count: 0,
        });
    }
    if peek(input.tokens, from.at + 1).kind != BY {
        return Err(rejection(Refusal::ByForm, input.tokens, from.at + 1));
    }
    let behind = Position {
        at: from.at + 3,
        ..from
    };
    // Stays: the kind is a number in a token's row and may be that of a name or a sign; an enum would be made by the same `match`, only to be matched again.
    match peek(input.tokens, from.at + 2).kind {
        AUTO => Ok(Read {
            position: behind,
            count: 0,
        }),
        INDUCTION => name(input, behind, out),
        _ => Err(rejection(Refusal::ByForm, input.tokens, from.at + 1)),
    }
}

// An item behind a keyword whose number is `kind`, from the keyword on, which is in this line, as each declaration below.
// Stays: what these ask for speaks of the rows too, which they write: a struct of input, place and rows would be lent to be written, input and all.
// Stays: that a token is left is asked beside it, as a `Position` does not know the tokens.
pub fn single<I: Item>(
    input: Input,
    from: Position,
    out: &mut [[u32; 4]],
    kind: u32,
    line: u32,
) -> Result<Read, Rejection>
    requires fact_1 { Room input.tokens.now from.at from.used out.old }
    requires fact_2 { from.at < length input.tokens.now }
    ensures { Declares (single_rows I.rows kind line) I.grammar input.entry from out.old (step result) out.new }
{
    let behind = from.past_row();
    let item = I::read(input, behind, out)?;
    out[from.used] = [kind, line, 0, 0];
    Ok(Read { count: 1, ..item })
}

// `sort n`
pub fn sort(
    input: Input,
    from: Position,
    out: &mut [[u32; 4]],
    line: u32,
) -> Result<Read, Rejection>
    requires fact_1 { Room input.tokens.now from.at from.used out.old }
    requires fact_2 { from.at < length input.tokens.now }
    ensures { Declares (declaration_rows line) (λ _. sort_of) input.entry from out.old (step result) out.new }
{
    single::<Name>(input, from, out, SORT, line)
}

// `n : A → B`, from the keyword on, whose number is `kind`.
// Stays: `kind` and `line` are two of a `Token`'s four numbers; `ctor` and `rule` know their kinds, and would have to ask that the token has it.
pub fn titled<I: Item>(
    input: Input,
    from: Position,
    out: &mut [[u32; 4]],
    kind: u32,
    line: u32,
) -> Result<Read, Rejection>
    requires fact_1 { Room input.tokens.now from.at from.used out.old }
    requires fact_2 { from.at < length input.tokens.now }
    ensures { Declares (titled_rows I.rows kind line) (λ text last. titled_of last (separated I.SIGN (I.grammar text last)))
        input.entry from out.old (step result) out.new }
{
    let behind = from.past_row();
    let n = title(input, behind, out)?;
    let items = list::<I>(input, n.position, out)?;
    out[from.used] = [kind, line, items.count, 0];
    Ok(Read { count: 1, ..items })
}

// `ctor n : A → B`
pub fn ctor(
    input: Input,
    from: Position,
    out: &mut [[u32; 4]],
    line: u32,
) -> Result<Read, Rejection>
    requires fact_1 { Room input.tokens.now from.at from.used out.old }
    requires fact_2 { from.at < length input.tokens.now }
    ensures { Declares (declaration_rows line) (λ _. ctor_of) input.entry from out.old (step result) out.new }
{
    titled::<Name>(input, from, out, CTOR, line)
}

// Is a name's row that of `Prop`?
pub fn is_prop(text: &[u8], row: [u32; 4]) -> bool
    ensures { result ≡ same_bytes (part_of text.now (get_or row 1 0) (get_or row 2 0)) prop_name }
{
    let word = words::word(text, row[1] as usize, row[2] as usize);
    words::same(word, b"Prop")
}

// `pred n : A → Prop`
pub fn pred(
    input: Input,
    from: Position,
    out: &mut [[u32; 4]],
    line: u32,
) -> Result<Read, Rejection>
    requires fact_1 { Room input.tokens.now from.at from.used out.old }
    requires fact_2 { from.at < length input.tokens.now }
    ensures { Declares (declaration_rows line) pred_of input.entry from out.old (step result) out.new }
{
    let behind = from.past_row();
    let n = title(input, behind, out)?;
    let sorts = arrows(input, n.position, out)?;
    let last = sorts.position.used - 1;
    let row = out[last];
    if is_prop(input.text, row) {
        out[from.used] = [PRED, line, sorts.count - 1, 0];
        return Ok(Read {
            position: Position {
                used: last,
                ..sorts.position
            },
            count: 1,
        });
    }
    Err(rejection(Refusal::NoProp, input.tokens, sorts.position.at))
}

// `rule n : J → J`
pub fn rule(
    input: Input,
    from: Position,
    out: &mut [[u32; 4]],
    line: u32,
) -> Result<Read, Rejection>
    requires fact_1 { Room input.tokens.now from.at from.used out.old }
    requires fact_2 { from.at < length input.tokens.now }
    ensures { Declares (declaration_rows line) rule_of input.entry from out.old (step result) out.new }
{
    titled::<Judgment>(input, from, out, RULE, line)
}

// `def n : A → B`, and its clauses
pub fn def(input: Input, from: Position, out: &mut [[u32; 4]], line: u32) -> Result<Read, Rejection>
    requires fact_1 { Room input.tokens.now from.at from.used out.old }
    requires fact_2 { from.at < length input.tokens.now }
    ensures { Declares (declaration_rows line) def_of input.entry from out.old (step result) out.new }
{
    let behind = from.past_row();
    let n = title(input, behind, out)?;
    let sorts = arrows(input, n.position, out)?;
    let clauses = all::<Clause>(input, sorts.position, out)?;
    out[from.used] = [DEF, line, sorts.count, clauses.count];
    Ok(Read {
        count: 1,
        ..clauses
    })
}

// Puts a number at the end of a row.
pub fn mark(out: &mut [[u32; 4]], at: usize, last: u32)
    requires { at < length out.old }
    ensures { out.new ≡ set out.old at (numbered (get_or out.old at []) last) }
{
    out[at][3] = last;
}

// `theorem n (x : S) : J → J := by …`
pub fn theorem(
    input: Input,
    from: Position,
    out: &mut [[u32; 4]],
    line: u32,
) -> Result<Read, Rejection>
    requires fact_1 { Room input.tokens.now from.at from.used out.old }
    requires fact_2 { from.at < length input.tokens.now }
    ensures { Declares (declaration_rows line) theorem_of input.entry from out.old (step result) out.new }
{
    let behind = from.past_row();
    let n = name(input, behind, out)?;
    let bound = all::<Binders>(input, n.position, out)?;
    let colon = sign(input, COLON, bound.position)?;
    let terms = judgments(input, colon.position, out)?;
    let proof = tactic(input, terms.position, out)?;
    mark(
        out,
        from.used + 1,
        (proof.position.used - terms.position.used) as u32,
    );
    out[from.used] = [THEOREM, line, bound.count, terms.count];
    Ok(Read { count: 1, ..proof })
}

// `#eval t` or `#check t`, from the keyword on, which says which.
pub fn asked(
    input: Input,
    from: Position,
    out: &mut [[u32; 4]],
    token: Token,
) -> Result<Read, Rejection>
    requires fact_1 { Room input.tokens.now from.at from.used out.old }
    requires fact_2 { from.at < length input.tokens.now }
    requires kinds { (token.kind ≡ EVAL) ⊎ (token.kind ≡ CHECK) }
    ensures { Declares (declaration_rows token.line) (λ text last. asked_of text last token.kind) input.entry from out.old (step result) out.new }
{
    single::<Judgment>(input, from, out, token.kind, token.line)
}

// What a token starts, from it on: its kind says which declaration.
// Stays: the kind is a number in a token's row and may be that of a name or a sign; an enum would be made by the same `match`, only to be matched again.
pub fn body(
    input: Input,
    from: Position,
    out: &mut [[u32; 4]],
    token: Token,
) -> Result<Read, Rejection>
    requires fact_1 { Room input.tokens.now from.at from.used out.old }
    requires fact_2 { from.at < length input.tokens.now }
    ensures { Declares (declaration_rows token.line) (λ text last. body_of text last token.kind (drop from.at input.entry.tokens.now)) input.entry from out.old (step result) out.new }
{
    match token.kind {
        SORT => sort(input, from, out, token.line),
        CTOR => ctor(input, from, out, token.line),
        PRED => pred(input, from, out, token.line),
        RULE => rule(input, from, out, token.line),
        DEF => def(input, from, out, token.line),
        THEOREM => theorem(input, from, out, token.line),
        BY | AUTO | INDUCTION => Err(rejection(Refusal::OtherKeyword, input.tokens, from.at + 1)),
        EVAL | CHECK => asked(input, from, out, token),
        _ => Err(rejection(Refusal::DeclarationExpected, input.tokens, from.at)),
    }
}

// A declaration, if there are tokens left.
pub struct Declaration;

impl Repeated for Declaration {
    ghost Of = { Declared };

    ghost rows = { declared_rows };

    ghost grammar = { declaration_of };

    fn read(input: Input, from: Position, out: &mut [[u32; 4]]) -> Result<Option<Read>, Rejection> {
        if from.at == input.tokens.len() {
            return Ok(None);
        }
        let t = peek(input.tokens, from.at);
        present(body(input, from, out, t))
    }
}

// All declarations.
pub fn declarations(input: Input, out: &mut [[u32; 4]]) -> Result<Read, Rejection>
    requires { (length input.tokens.now ≤ length out.old) × (length input.tokens.now ≤ 65536) }
    ensures { Lists 0 declared_rows (parse_of input.entry.text.now input.entry.tokens.now) input.entry.tokens.now 0 0 out.old (step result) out.new }
{
    all::<Declaration>(input, Position { at: 0, used: 0 }, out)
}
