// The run of a node, written.
ghost use Rattle.std.specs.Prelude.{◌≡◌, [], ◌∷◌, ◌+◌, ◌-◌, ◌≤◌, ◌<◌, length};
ghost use Rattle.checker.specs.Claim.{sum};
ghost use Rattle.checker.specs.Words.{claim_of};
ghost use Rattle.checker.specs.Check.{kind_in};
ghost use Rattle.region.specs.Pattern.{pattern_bits, entries, regions_from};
ghost use Rattle.emission.specs.Emission.{region_node, card_run, empty_run, both_run};
ghost use Rattle.emission.specs.Plan.{place_in};
ghost use Rattle.emission.specs.Runs.{emitted_to, run_at, Patterned, Standing, Single, without, Spared};
ghost use Rattle.emission.specs.Write.{max_number, Room, WroteNodes};

use crate::Frame;
use crate::kinds::{
    AND, CARDINALITY, COMPLEMENT, CONSTANT, DIVIDES, EQUAL, MAXC, MULTIPLE, NOT, NUMBER, SET_EQUAL,
    SUBSET, SUM,
};
use crate::plan::frame_at;
use crate::source::{Node, Source};
use crate::write::{put_node, put_region, put_words, word};

// The count of region r, and its sum with the node before.
fn put_summand(out: &mut [i32], at: usize, frame: Frame, r: usize) -> usize
    requires { Room out.old at 2 × (1 ≤ at) × (frame.first + r ≤ max_number) }
    ensures { WroteNodes out.old at (region_node (place_in frame) r ∷ sum (at - 1) at ∷ []) out.new result }
{
    let next = put_region(out, at, frame, r);
    put_node(out, next, SUM, at - 1, at)
}

// How many ports are in the regions that entry i covers.
fn put_cardinality(patterns: &[u64], i: usize, frame: Frame, out: &mut [i32], at: usize) -> usize
    requires i_bound { (i < entries patterns.now) × (frame.first + pattern_bits ≤ max_number) }
    requires room { Room out.old at (length (card_run (place_in frame) at (regions_from patterns.now i 0))) }
    ensures { WroteNodes out.old at (card_run (place_in frame) at (regions_from patterns.now i 0)) out.new result }
{
    let n = region::size(patterns, i);
    if n == 0 {
        return put_node(out, at, CONSTANT, 0, 0);
    }
    let first = region::next(patterns, i, 0);
    let mut here = put_region(out, at, frame, first);
    let mut from = first + 1;
    for _done in 1..n {
        let r = region::next(patterns, i, from);
        here = put_summand(out, here, frame, r);
        from = r + 1;
    }
    here
}

// That no port is in the regions that entry i covers.
fn put_emptiness(patterns: &[u64], i: usize, frame: Frame, out: &mut [i32], at: usize) -> usize
    requires i_bound { (i < entries patterns.now) × (frame.first + pattern_bits ≤ max_number) }
    requires room { Room out.old at (length (empty_run (place_in frame) at (regions_from patterns.now i 0))) }
    ensures { WroteNodes out.old at (empty_run (place_in frame) at (regions_from patterns.now i 0)) out.new result }
{
    let zero = put_cardinality(patterns, i, frame, out, at);
    let equal = put_node(out, zero, CONSTANT, 0, 0);
    put_node(out, equal, EQUAL, zero - 1, zero)
}

// That every port of the set of entry a is in that of entry b. Entry i takes the difference.
fn put_within(
    patterns: &mut [u64],
    i: usize,
    a: usize,
    b: usize,
    frame: Frame,
    out: &mut [i32],
    at: usize,
) -> usize
    requires i_bound { (i < entries patterns.old) × (a < entries patterns.old) × (b < entries patterns.old) × (frame.first + pattern_bits ≤ max_number) }
    requires room { Room out.old at (length (empty_run (place_in frame) at (without patterns.old a b))) }
    ensures wrote_nodes { WroteNodes out.old at (empty_run (place_in frame) at (without patterns.old a b)) out.new result }
    ensures spared { Spared patterns.old i patterns.new }
{
    region::put_difference(patterns, i, a, b);
    put_emptiness(patterns, i, frame, out, at)
}

// That two sets are equal: each is within the other.
fn put_equality(
    patterns: &mut [u64],
    i: usize,
    a: usize,
    b: usize,
    frame: Frame,
    out: &mut [i32],
    at: usize,
) -> usize
    requires i_bound { (i < entries patterns.old) × (a < i) × (b < i) × (frame.first + pattern_bits ≤ max_number) }
    requires room { Room out.old at (length (both_run (place_in frame) at (without patterns.old a b) (without patterns.old b a))) }
    ensures wrote_nodes { WroteNodes out.old at (both_run (place_in frame) at (without patterns.old a b) (without patterns.old b a)) out.new result }
    ensures spared { Spared patterns.old i patterns.new }
{
    let second = put_within(patterns, i, a, b, frame, out, at);
    let join = put_within(patterns, i, b, a, frame, out, second);
    put_node(out, join, AND, second - 1, join - 1)
}

impl Source<'_> {
    // Node i, which becomes one node: its child and quantifier numbers are renewed.
    fn put_renewed(&self, i: usize, stands: &[usize], out: &mut [i32], at: usize) -> usize
        requires standing { (i < self.now.shape.nodes) × Standing (claim_of self.now.words.now) stands.now i × (at ≡ length (emitted_to (claim_of self.now.words.now) i).nodes) }
        requires single { Single (kind_in self.now.words.now i) × Room out.old at 1 }
        ensures { WroteNodes out.old at (run_at (claim_of self.now.words.now) i) out.new result }
    {
        let Node {
            kind,
            a,
            b,
            constant,
        } = self.node(i);
        match kind {
            NUMBER => {
                let outside = frame_at(self.plan, a);
                put_node(out, at, NUMBER, outside.next, 0)
            }
            CONSTANT => put_words(out, at, word(CONSTANT), constant, 0),
            MAXC => put_node(out, at, MAXC, 0, 0),
            MULTIPLE | DIVIDES => put_words(out, at, word(kind), constant, word(stands[b])),
            NOT => put_node(out, at, NOT, stands[a], 0),
            _ => put_node(out, at, kind, stands[a], stands[b]),
        }
    }

    // The run of node i. Its pattern is noted if it is a set.
    pub fn put_run(
        &self,
        i: usize,
        patterns: &mut [u64],
        stands: &[usize],
        out: &mut [i32],
        at: usize,
    ) -> usize
        requires patterned { (i < self.now.shape.nodes) × Patterned (claim_of self.now.words.now) patterns.old i × Standing (claim_of self.now.words.now) stands.now i }
        requires at_value { (at ≡ length (emitted_to (claim_of self.now.words.now) i).nodes) × Room out.old at (length (run_at (claim_of self.now.words.now) i)) }
        ensures wrote_nodes { WroteNodes out.old at (run_at (claim_of self.now.words.now) i) out.new result }
        ensures patterned { Patterned (claim_of self.now.words.now) patterns.new (i + 1) }
    {
        let Node { kind, a, b, .. } = self.node(i);
        if kind <= COMPLEMENT {
            self.put_pattern(i, patterns);
            return at;
        }
        let frame = frame_at(self.plan, self.shape.quantifiers);
        match kind {
            CARDINALITY => put_cardinality(patterns, a, frame, out, at),
            SET_EQUAL => put_equality(patterns, i, a, b, frame, out, at),
            SUBSET => put_within(patterns, i, a, b, frame, out, at),
            _ => self.put_renewed(i, stands, out, at),
        }
    }
}
