// What a kind of node or quantifier is, and what a node's fields must be.
ghost use Rattle.std.specs.Prelude.{◌≡◌};
ghost use Rattle.checker.specs.Kinds.{sort_of, range_of, row_of};

use crate::{Need, Range, Row, Sort};

#[tactic(auto, unfolding(crate::specs::Kinds::sort_of))]
pub fn sort_of(kind: usize) -> Option<Sort>
    ensures { result ≡ sort_of kind }
{
    match kind {
        1..=6 => Some(Sort::ASet),
        10..=16 => Some(Sort::ATerm),
        20..=27 => Some(Sort::AFormula),
        _ => None,
    }
}

// By their kinds from 0, of which there is none.
const RANGES: [Option<Range>; 7] = [
    None,
    Some(Range::Numbers),
    Some(Range::Numbers),
    Some(Range::Sets),
    Some(Range::Sets),
    Some(Range::Numbers),
    Some(Range::Numbers),
];

#[tactic(auto, unfolding(crate::specs::Kinds::range_of))]
pub fn range_of(kind: usize) -> Option<Range>
    ensures { result ≡ range_of kind }
{
    *RANGES.get(kind)?
}

// What the rows of the table require in a and in b.
const LEAF: Option<Row> = Some(Row {
    a: Need::Unused,
    b: Need::Unused,
});

const SET_NAME: Option<Row> = Some(Row {
    a: Need::Name(Range::Sets),
    b: Need::Unused,
});

const NUMBER_NAME: Option<Row> = Some(Row {
    a: Need::Name(Range::Numbers),
    b: Need::Unused,
});

const WORD: Option<Row> = Some(Row {
    a: Need::Word,
    b: Need::Unused,
});

const SET: Option<Row> = Some(Row {
    a: Need::Child(Sort::ASet),
    b: Need::Unused,
});

const TWO_SETS: Option<Row> = Some(Row {
    a: Need::Child(Sort::ASet),
    b: Need::Child(Sort::ASet),
});

const TWO_TERMS: Option<Row> = Some(Row {
    a: Need::Child(Sort::ATerm),
    b: Need::Child(Sort::ATerm),
});

const WORD_TERM: Option<Row> = Some(Row {
    a: Need::Word,
    b: Need::Child(Sort::ATerm),
});

const FORMULA: Option<Row> = Some(Row {
    a: Need::Child(Sort::AFormula),
    b: Need::Unused,
});

const TWO_FORMULAS: Option<Row> = Some(Row {
    a: Need::Child(Sort::AFormula),
    b: Need::Child(Sort::AFormula),
});

// The sort table, one row per kind.
const ROWS: [Option<Row>; 28] = [
    None, // 0
    SET_NAME, // 1: set variable
    LEAF, // 2: empty set
    LEAF, // 3: whole set
    TWO_SETS, // 4: union
    TWO_SETS, // 5: intersection
    SET, // 6: complement
    None, // 7
    None, // 8
    None, // 9
    NUMBER_NAME, // 10: number variable
    WORD, // 11: constant
    LEAF, // 12: MAXC
    TWO_TERMS, // 13: sum
    TWO_TERMS, // 14: difference
    WORD_TERM, // 15: multiple
    SET, // 16: cardinality
    None, // 17
    None, // 18
    None, // 19
    TWO_TERMS, // 20: equal
    TWO_TERMS, // 21: less
    WORD_TERM, // 22: C divides T
    TWO_SETS, // 23: set equal
    TWO_SETS, // 24: subset
    TWO_FORMULAS, // 25: and
    TWO_FORMULAS, // 26: or
    FORMULA, // 27: not
];

#[tactic(auto, using(std::proofs::lemmas::Bool::Decides::nat_tests), unfolding(crate::specs::Kinds::row_of))]
pub fn row_of(kind: usize) -> Option<Row>
    ensures { result ≡ row_of kind }
{
    *ROWS.get(kind)?
}
