// The patterns of set nodes.
ghost use Rattle.std.specs.Prelude.{◌+◌, ◌≤◌, ◌<◌};
ghost use Rattle.checker.specs.Words.{claim_of};
ghost use Rattle.checker.specs.Check.{kind_in};
ghost use Rattle.emission.specs.Runs.{Patterned};

use crate::kinds::{EMPTY, INTERSECTION, SET, UNION, WHOLE};
use crate::source::{Node, Source};

impl Source<'_> {
    // The pattern of node i, which is a set.
    pub fn put_pattern(&self, i: usize, patterns: &mut [u64])
        requires { (i < self.now.shape.nodes) × Patterned (claim_of self.now.words.now) patterns.old i × (kind_in self.now.words.now i ≤ 6) }
        ensures { Patterned (claim_of self.now.words.now) patterns.new (i + 1) }
    {
        let sets = self.shape.sets;
        let Node { kind, a, b, .. } = self.node(i);
        match kind {
            SET => {
                let outside = crate::plan::frame_at(self.plan, a);
                region::put_variable(patterns, i, sets - 1 - outside.level, sets);
            }
            EMPTY => region::put_empty(patterns, i),
            WHOLE => region::put_whole(patterns, i, sets),
            UNION => region::put_union(patterns, i, a, b),
            INTERSECTION => region::put_intersection(patterns, i, a, b),
            _ => region::put_complement(patterns, i, a, sets),
        }
    }
}
