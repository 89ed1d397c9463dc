// The tests of refusals 4 to 7, on a table in words that hold all of it.
ghost use Rattle.std.specs.Prelude.{◌≡◌, ◌<◌, ◌≤◌, ◌+◌, ◌*◌, length};

use crate::kinds::{range_of, row_of, sort_of};
use crate::{Dialect, Need, Range, Sort, word};

// Three words a node, one a quantifier, and the trailer.
#[derive(Clone, Copy)]
pub struct StoredTable<'a> {
    pub words: &'a [i32],
    pub dialect: Dialect,
    pub nodes: usize,
    pub quantifiers: usize,
    ghost room: { 3 * nodes + quantifiers + 4 ≤ length words.now },
}

impl StoredTable<'_> {
    ghost use Rattle.checker.specs.Search.{found};
    ghost use Rattle.checker.specs.Table.{child_sort, name_range, field_good, node_taken, bad_node, root_good, bad_quantifier, binds_set, sets_within};
    ghost use Rattle.checker.specs.Dialect.{most_sets};
    ghost use Rattle.checker.specs.Stored.{table_of};

    fn kind(&self, i: usize) -> usize
        requires { i < self.now.nodes }
        ensures { result ≡ (table_of self.now).kind i }
    {
        word(self.words, 3 * i)
    }

    fn quantifier(&self, i: usize) -> usize
        requires { i < self.now.quantifiers }
        ensures { result ≡ (table_of self.now).quantifier i }
    {
        word(self.words, 3 * self.nodes + i)
    }

    pub fn root(&self) -> usize
        ensures { result ≡ (table_of self.now).root }
    {
        word(self.words, self.words.len() - 4)
    }

    // The sort of v as a child of node i.
    fn child_sort(&self, i: usize, v: usize) -> Option<Sort>
        requires { i ≤ self.now.nodes }
        ensures { result ≡ child_sort (table_of self.now).kind i v }
    {
        if v < i { sort_of(self.kind(v)) } else { None }
    }

    // What v ranges over as a quantifier's number.
    fn name_range(&self, v: usize) -> Option<Range>
        ensures { result ≡ name_range (table_of self.now).quantifier (table_of self.now).quantifiers v }
    {
        if v < self.quantifiers {
            range_of(self.quantifier(v))
        } else {
            None
        }
    }

    // Whether v may stand in a field of node i that requires `need`.
    fn field_good(&self, i: usize, need: Need, v: usize) -> bool
        requires { i < self.now.nodes }
        ensures { result ≡ field_good (table_of self.now) i need v }
    {
        match need {
            Need::Unused => v == 0,
            Need::Word => true,
            Need::Child(sort) => self.child_sort(i, v) == Some(sort),
            Need::Name(range) => self.name_range(v) == Some(range),
        }
    }

    // Whether the dialect takes the kind of node i, and its fields are as the row of that kind requires.
    fn node_taken(&self, i: usize) -> bool
        requires { i < self.now.nodes }
        ensures { result ≡ node_taken self.now.dialect (table_of self.now) i }
    {
        let kind = self.kind(i);
        let Some(row) = row_of(kind) else {
            return false;
        };
        self.dialect.takes_kind(kind)
            && self.field_good(i, row.a, word(self.words, 3 * i + 1))
            && self.field_good(i, row.b, word(self.words, 3 * i + 2))
    }

    // The first node that breaks the sort table.
    pub fn first_bad_node(&self) -> Option<usize>
        ensures { result ≡ found (bad_node self.now.dialect (table_of self.now)) self.now.nodes }
    {
        (0..self.nodes).find(|i| !self.node_taken(*i))
    }

    pub fn root_good(&self) -> bool
        ensures { result ≡ root_good (table_of self.now) }
    {
        self.child_sort(self.nodes, self.root()) == Some(Sort::AFormula)
    }

    // The first quantifier of no known kind, or of one that the dialect does not take.
    pub fn first_bad_quantifier(&self) -> Option<usize>
        ensures { result ≡ found (bad_quantifier self.now.dialect (table_of self.now)) self.now.quantifiers }
    {
        (0..self.quantifiers).find(|i| !self.dialect.takes_quantifier(self.quantifier(*i)))
    }

    fn binds_set(&self, i: usize) -> bool
        requires { i < self.now.quantifiers }
        ensures { result ≡ binds_set (table_of self.now) i }
    {
        range_of(self.quantifier(i)) == Some(Range::Sets)
    }

    // How many quantifiers bind sets, or the first that is one too many.
    #[tactic(auto, using(crate::proofs::Search::searches))]
    pub fn sets(&self) -> Result<usize, usize>
        ensures { result ≡ sets_within (most_sets self.now.dialect) (table_of self.now) }
    {
        let most = self.dialect.limits().sets;
        let mut sets = 0;
        for i in 0..self.quantifiers {
            if self.binds_set(i) {
                if sets == most {
                    return Err(i);
                }
                sets += 1;
            }
        }
        Ok(sets)
    }
}
