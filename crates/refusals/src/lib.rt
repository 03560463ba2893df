// Refusals: why a text, an expression, a session or a goal is refused, each a case of one type; docs/REFUSALS.md has the table.
#![tactic(auto)]

ghost use Rattle.std.specs.Prelude.{◌≡◌};
ghost use Rattle.refusals.specs.Refusals.{number_of};

// Why something is refused. The number of a case in the table is `u32::from`.
#[derive(Clone, Copy, Debug, PartialEq, Eq)]
pub enum Refusal {
    // 0: rows that are no declaration's. No text gives it.
    NoDeclaration,
    // 1: a lent buffer is too short, or what it holds is not in form.
    Storage,
    // 2: the text has more bytes than the limit.
    TextLength,
    // 3: the bytes are not UTF-8.
    NotUtf8,
    // 3: a character outside comments is neither ASCII nor the arrow U+2192.
    OutsideDomain,
    // 4: a character that starts no token, as a lone `-`.
    UnexpectedCharacter,
    // 5: a numeral of 2^64 or more, as 18446744073709551616.
    NumeralTooLarge,
    // 6: a word of more than 64 bytes.
    WordTooLong,
    // 7: a 65th parenthesis would be open.
    ParenthesisLimit,
    // 8: a sign was expected.
    SignExpected,
    // 9: a name was expected.
    NameExpected,
    // 10: a term was expected.
    TermExpected,
    // 11: only a name can be applied.
    OnlyNames,
    // 12: the left of `=` is neither a name nor an application.
    LeftOfEquals,
    // 13: a declaration was expected.
    DeclarationExpected,
    // 14: a predicate's type does not end in `Prop`.
    NoProp,
    // 15: `by auto` or `by induction x` was expected.
    ByForm,
    // 16: another keyword where a declaration starts.
    OtherKeyword,
    // 17: the name is declared already.
    AlreadyDeclared,
    // 18: no sort has the name.
    UnknownSort,
    // 19: no predicate has the name.
    UnknownPredicate,
    // 20: no symbol has the name.
    UnknownSymbol,
    // 21: a symbol with another number of arguments.
    ArgumentCount,
    // 22: a function inside a term.
    FunctionInTerm,
    // 23: a symbol of another sort than its place has.
    CannotStand,
    // 24: a variable at places of two sorts.
    TwoSorts,
    // 25: a variable whose sort is not known.
    SortNotKnown,
    // 26: a numeral where `zero` and `succ` are not both constructors.
    NoNumerals,
    // 27: a declaration that is not loaded, as a theorem.
    NotLoaded,
    // 28: more of something than there is room for.
    Full,
    // 29: calls or terms nested too deep.
    TooDeep,
    // 30: too many calls.
    TooManyCalls,
    // 31: a metavariable in an expression.
    NotGround,
    // 32: a symbol that has no value.
    NoExpression,
    // 33: an argument of another sort.
    WrongSort,
    // 34: no clause matches.
    NoClause,
    // 35: clauses of a call that give different values.
    Inconsistent,
    // 36: a variable of a clause without a value.
    Unbound,
    // 37: more variables or words than the limit.
    OverLimit,
    // 38: more steps or depth than the limit.
    TooMuch,
}

impl From<Refusal> for u32 {
    ghost from_gives = { λ refusal number. number ≡ number_of refusal };

    fn from(refusal: Refusal) -> u32 {
        match refusal {
            Refusal::NoDeclaration => 0,
            Refusal::Storage => 1,
            Refusal::TextLength => 2,
            Refusal::NotUtf8 | Refusal::OutsideDomain => 3,
            Refusal::UnexpectedCharacter => 4,
            Refusal::NumeralTooLarge => 5,
            Refusal::WordTooLong => 6,
            Refusal::ParenthesisLimit => 7,
            Refusal::SignExpected => 8,
            Refusal::NameExpected => 9,
            Refusal::TermExpected => 10,
            Refusal::OnlyNames => 11,
            Refusal::LeftOfEquals => 12,
            Refusal::DeclarationExpected => 13,
            Refusal::NoProp => 14,
            Refusal::ByForm => 15,
            Refusal::OtherKeyword => 16,
            Refusal::AlreadyDeclared => 17,
            Refusal::UnknownSort => 18,
            Refusal::UnknownPredicate => 19,
            Refusal::UnknownSymbol => 20,
            Refusal::ArgumentCount => 21,
            Refusal::FunctionInTerm => 22,
            Refusal::CannotStand => 23,
            Refusal::TwoSorts => 24,
            Refusal::SortNotKnown => 25,
            Refusal::NoNumerals => 26,
            Refusal::NotLoaded => 27,
            Refusal::Full => 28,
            Refusal::TooDeep => 29,
            Refusal::TooManyCalls => 30,
            Refusal::NotGround => 31,
            Refusal::NoExpression => 32,
            Refusal::WrongSort => 33,
            Refusal::NoClause => 34,
            Refusal::Inconsistent => 35,
            Refusal::Unbound => 36,
            Refusal::OverLimit => 37,
            Refusal::TooMuch => 38,
        }
    }
}

// The refusal of a text, and the line that it is about; 0: no line.
// Stays: document 01 and programs in C have 0 for no line; each of the six places that tell a line would turn an `Option` back into that number.
#[derive(Clone, Copy, Debug, PartialEq, Eq)]
pub struct Rejection {
    pub refusal: Refusal,
    pub line: u32,
}

// A refusal that is about no line.
impl From<Refusal> for Rejection {
    ghost from_gives = { λ refusal rejection. rejection ≡ record { refusal = refusal; line = 0 } };

    fn from(refusal: Refusal) -> Rejection {
        Rejection { refusal, line: 0 }
    }
}
