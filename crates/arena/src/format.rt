// The numbers of the word format.

// The room for variables in patterns: a rule has at most 64 (document 01, refusal 28).
pub const PATTERN_ROOM: u32 = 64;

// The room for variables in the words of a session (document 01, refusal 37). A call's own lower limit does not change it: the same words denote the
// same terms under every limit.
pub const TERM_ROOM: u32 = 65536;

// The least header; references are below it. The header of a symbol with its arity is HEADERS + SYMBOL_STEP * symbol + arity.
pub const HEADERS: u32 = 1048576;

// The distance between the headers of two symbols.
pub const SYMBOL_STEP: u32 = 32;

// The most inputs that a symbol has (document 01, refusal 28).
pub const INPUTS: u32 = 16;
