// Kinds by name: of the nodes that have a text of their own, and of quantifiers.
pub const NUMBER: usize = 10;

pub const CONSTANT: usize = 11;

pub const MAXC: usize = 12;

pub const SUM: usize = 13;

pub const DIFFERENCE: usize = 14;

pub const MULTIPLE: usize = 15;

pub const EQUAL: usize = 20;

pub const LESS: usize = 21;

pub const DIVIDES: usize = 22;

pub const AND: usize = 25;

pub const OR: usize = 26;

pub const NOT: usize = 27;

pub const ALL_INTEGERS: usize = 2;

pub const SOME_SET: usize = 3;

pub const ALL_SETS: usize = 4;

pub const SOME_COUNT: usize = 5;

pub const ALL_COUNTS: usize = 6;
