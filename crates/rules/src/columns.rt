// The columns of a rule's row (docs/STORAGE.md, "A rule's row"), behind the place of its name.

// The clause number + 1, how many variables and premises there are, the reference of the conclusion, the first word, how many words premises and
// conclusion have, how many variables are met in the conclusion, where the references of the premises, the sorts and the places start, and how many columns
// there are.
pub const CLAUSE: usize = 2;

pub const VARIABLES: usize = 3;

pub const PREMISES: usize = 4;

pub const CONCLUSION: usize = 5;

pub const FIRST_WORD: usize = 6;

pub const PREMISE_WORDS: usize = 7;

pub const CONCLUSION_WORDS: usize = 8;

pub const MET: usize = 9;

pub const FIRST_PREMISE: usize = 10;

pub const FIRST_SORT: usize = 26;

pub const FIRST_PLACE: usize = 90;

pub const END: usize = FIRST_PLACE + patterns::VARIABLES;
