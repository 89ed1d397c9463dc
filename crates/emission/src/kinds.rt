// Kinds by name: of nodes, and of the quantifiers that bind sets.
pub const SET: usize = 1;

pub const EMPTY: usize = 2;

pub const WHOLE: usize = 3;

pub const UNION: usize = 4;

pub const INTERSECTION: usize = 5;

pub const COMPLEMENT: usize = 6;

pub const NUMBER: usize = 10;

pub const CONSTANT: usize = 11;

pub const MAXC: usize = 12;

pub const SUM: usize = 13;

pub const MULTIPLE: usize = 15;

pub const CARDINALITY: usize = 16;

pub const EQUAL: usize = 20;

pub const DIVIDES: usize = 22;

pub const SET_EQUAL: usize = 23;

pub const SUBSET: usize = 24;

pub const AND: usize = 25;

pub const OR: usize = 26;

pub const NOT: usize = 27;

pub const SOME_SET: usize = 3;

pub const ALL_SETS: usize = 4;
