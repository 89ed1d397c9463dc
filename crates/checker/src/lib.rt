// The table checker: a run of signed words is accepted as a claim, or refused with the document's number and place.
#![tactic(auto)]

ghost use Rattle.std.specs.Prelude.{◌≡◌, [], ◌+◌, ◌*◌, ◌-◌, length};
ghost use Rattle.checker.specs.Words.{word_at};
ghost use Rattle.checker.specs.Stored.{table_of};
ghost use Rattle.checker.specs.Check.{check_as, check_of, parts_of};

mod dialects; // the limits of each dialect, and the kinds that it takes
mod kinds; // what a kind of node or quantifier is and requires
pub mod names; // the limits by name
mod refusals; // what a refusal says
mod table; // the checks of the quantifiers and the nodes

pub use refusals::Refusal;
use table::StoredTable;

const MARK: usize = 2005;

// What a negative word reads as: over every limit.
const NO_NUMBER: usize = 4294967295;

// Which tables are taken: claims over sets, or emitted ones, larger and without sets.
#[derive(Clone, Copy)]
pub enum Dialect {
    SetClaims,
    Emitted,
}

// What the layers above need of an accepted table.
#[derive(Clone, Copy)]
pub struct Shape {
    pub nodes: usize,
    pub quantifiers: usize,
    pub sets: usize,
    pub root: usize,
}

// What a node is.
#[derive(Clone, Copy, PartialEq, Eq)]
pub enum Sort {
    ASet,
    ATerm,
    AFormula,
}

// What a quantifier ranges over.
#[derive(Clone, Copy, PartialEq, Eq)]
pub enum Range {
    Sets,
    Numbers,
}

// What a field of a node must be: nothing, any word, the number of an earlier node of a sort, or that of a quantifier over a range.
#[derive(Clone, Copy)]
pub enum Need {
    Unused,
    Word,
    Child(Sort),
    Name(Range),
}

#[derive(Clone, Copy)]
pub struct Row {
    pub a: Need,
    pub b: Need,
}

// A word as a number, 0 past the end.
#[tactic(auto, unfolding(crate::specs::Words::word_at, crate::specs::Kinds::number))]
pub fn word(words: &[i32], at: usize) -> usize
    ensures { result ≡ word_at words.now at }
{
    words
        .get(at)
        .map_or(0, |w| usize::try_from(*w).unwrap_or(NO_NUMBER))
}

// Refusals 4 to 7.
#[tactic(auto, using(crate::proofs::Verdict::in_order), unfolding(crate::specs::Check::verdict))]
fn check_parts(table: &StoredTable) -> Result<Shape, Refusal>
    ensures { result ≡ parts_of table.now.dialect (table_of table.now) (3 * table.now.nodes) 3 (length table.now.words.now - 4) [] }
{
    if let Some(bad) = table.first_bad_quantifier() {
        return Err(Refusal::UnknownQuantifier(3 * table.nodes + bad));
    }
    let sets = match table.sets() {
        Ok(sets) => sets,
        Err(over) => return Err(Refusal::TooManySets(3 * table.nodes + over)),
    };
    if let Some(broken) = table.first_bad_node() {
        return Err(Refusal::BadNode(3 * broken));
    }
    if !table.root_good() {
        return Err(Refusal::BadRoot(table.words.len() - 4));
    }
    Ok(Shape {
        nodes: table.nodes,
        quantifiers: table.quantifiers,
        sets,
        root: table.root(),
    })
}

#[tactic(auto, using(crate::proofs::Verdict::in_order), unfolding(crate::specs::Check::check_as, crate::specs::Check::verdict))]
pub fn check_as(words: &[i32], dialect: Dialect) -> Result<Shape, Refusal>
    ensures { result ≡ check_as dialect words.now }
{
    let length = words.len();
    if length < 4 || word(words, length - 1) != MARK {
        return Err(Refusal::Unmarked);
    }
    let nodes = word(words, length - 3);
    let limits = dialect.limits();
    if nodes < 1 || limits.nodes < nodes {
        return Err(Refusal::Count(length - 3));
    }
    let quantifiers = word(words, length - 2);
    if limits.quantifiers < quantifiers {
        return Err(Refusal::Count(length - 2));
    }
    if length != 3 * nodes + quantifiers + 4 {
        return Err(Refusal::Length);
    }
    check_parts(&StoredTable {
        words,
        dialect,
        nodes,
        quantifiers,
    })
}

#[tactic(auto, unfolding(crate::specs::Check::check_of))]
pub fn check(words: &[i32]) -> Result<Shape, Refusal>
    ensures { result ≡ check_of words.now }
{
    check_as(words, Dialect::SetClaims)
}
