// The columns of the rows in which a signature is stored (docs/STORAGE.md).

// Of sorts, symbols and rules: the place of the name; of symbols, the others of a symbol's row.
pub use names::columns::{
    ARITY, CLAUSES, FIRST_CLAUSE, FIRST_INPUT, FREE, MARK, OUTPUT, SIZE, START,
};

// Of rules: the others of a rule's row.
pub use rules::columns::{
    CLAUSE, CONCLUSION, CONCLUSION_WORDS, FIRST_PLACE, FIRST_PREMISE, FIRST_SORT, FIRST_WORD, MET,
    PREMISE_WORDS, PREMISES, VARIABLES,
};
