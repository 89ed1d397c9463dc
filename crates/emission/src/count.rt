// How many nodes the run of a node takes.
ghost use Rattle.std.specs.Prelude.{◌≡◌, List, ℕ, ◌+◌, ◌-◌, ◌*◌, ◌≤◌, ◌<◌, length};
ghost use Rattle.checker.specs.Words.{claim_of};
ghost use Rattle.region.specs.Pattern.{pattern_bits, entries};
ghost use Rattle.emission.specs.Emission.{Place, card_run, empty_run};
ghost use Rattle.emission.specs.Runs.{run_at, Patterned, without, Spared};

use crate::kinds::{CARDINALITY, COMPLEMENT, SET_EQUAL, SUBSET};
use crate::source::{Node, Source};

// Of a cardinality over n regions: a count of each and a sum with each but the first, or the constant 0.
fn card_length(n: usize) -> usize
    requires { n ≤ pattern_bits }
    ensures { ((p : Place) (at : ℕ) (rs : List ℕ) → n ≡ length rs → result ≡ length (card_run p at rs)) × (result ≤ 2 * pattern_bits - 1) }
{
    2 * n.max(1) - 1
}

// Of the run that says that entry a is within entry b. Entry i takes the difference.
fn within_length(patterns: &mut [u64], i: usize, a: usize, b: usize) -> usize
    requires { (i < entries patterns.old) × (a < entries patterns.old) × (b < entries patterns.old) }
    ensures upper_bound { ((p : Place) (at : ℕ) → result ≡ length (empty_run p at (without patterns.old a b))) × (result ≤ 2 * pattern_bits + 1) }
    ensures spared { Spared patterns.old i patterns.new }
{
    region::put_difference(patterns, i, a, b);
    card_length(region::size(patterns, i)) + 2
}

impl Source<'_> {
    // Of node i. Its pattern is noted if it is a set.
    pub fn run_length(&self, i: usize, patterns: &mut [u64]) -> usize
        requires { (i < self.now.shape.nodes) × Patterned (claim_of self.now.words.now) patterns.old i }
        ensures value { (result ≡ length (run_at (claim_of self.now.words.now) i)) × (result ≤ 4 * pattern_bits + 3) }
        ensures patterned { Patterned (claim_of self.now.words.now) patterns.new (i + 1) }
    {
        let Node { kind, a, b, .. } = self.node(i);
        if kind <= COMPLEMENT {
            self.put_pattern(i, patterns);
            return 0;
        }
        match kind {
            CARDINALITY => card_length(region::size(patterns, a)),
            SET_EQUAL => within_length(patterns, i, a, b) + within_length(patterns, i, b, a) + 1,
            SUBSET => within_length(patterns, i, a, b),
            _ => 1,
        }
    }
}
