// The columns of the rows of sorts, symbols and variables (docs/STORAGE.md).

// Of sorts, symbols and rules: where the name starts, and how long it is.
pub const START: usize = 0;

pub const SIZE: usize = 1;

// Of symbols: the output, the function mark, the first clause, how many clauses and inputs there are, a free column, and where the inputs start.
pub const OUTPUT: usize = 2;

pub const MARK: usize = 3;

pub const FIRST_CLAUSE: usize = 4;

pub const CLAUSES: usize = 5;

pub const ARITY: usize = 6;

pub const FREE: usize = 7;

pub const FIRST_INPUT: usize = 8;

// Of variables: the sort, behind kind, start and length.
pub const SORT: usize = 3;
