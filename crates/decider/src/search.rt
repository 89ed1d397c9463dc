// The search: the splits of regions in order, and at each the inside counts that are tried.
ghost use Rattle.std.specs.Prelude.{◌≡◌, ◌+◌, ◌-◌, ◌^◌, ◌<◌, ◌≤◌, max, length, take, get_or};
ghost use Rattle.checker.specs.Words.{claim_of};
ghost use Rattle.matrix.specs.Known.{Known, Kept};
ghost use Rattle.decider.specs.Rule.{split};
ghost use Rattle.decider.specs.Answer.{reply};
ghost use Rattle.decider.specs.Decision.{admission};
ghost use Rattle.checker.specs.Check.{check_of};
ghost use Rattle.region.specs.Pattern.{Roomy};
ghost use Rattle.decider.specs.Standing.{finals, Passed};
ghost use Rattle.decider.specs.Setting.{Stands, ruling_from};

use crate::allowance::{Allowance, Found, Reply, Spent};
use crate::somes;
use checker::Shape;
use std::marker::Model;

// Region h is split, and k of its ports are inside: 2 h is outside, 2 h + 1 inside.
#[tactic(auto, using(crate::proofs::Heap::placed))]
fn children(counts: &mut [u32], h: usize, k: u32)
    requires h_nonzero { (0 < h) × (h + h + 2 ≤ length counts.old) }
    requires k_bound { k ≤ get_or counts.old h 0 }
    ensures { take (h + 1 + (h + 1)) counts.new ≡ split (take (h + h) counts.old) h k }
{
    counts[h + h] = counts[h] - k;
    counts[h + h + 1] = k;
}

// Passes over the regions from h on that have no ports: the only split of such a region is into two without ports. The first region left.
fn pass(counts: &mut [u32], regions: usize, h: usize) -> usize
    requires { (0 < h) × (h ≤ regions) × (regions + regions ≤ length counts.old) }
    ensures { Passed regions h counts.old result counts.new }
{
    for here in h..regions {
        if 0 < counts[here] {
            return here;
        }
        children(counts, here, 0);
    }
    regions
}

// A claim at a size, with what is settled before a search: the patterns, an order of `rows` nodes, how many places of it the first final regions
// settle, and which splits belong to an exists.
#[derive(Drop)]
pub struct Search<'a> {
    words: &'a [i32],
    patterns: &'a [u64],
    order: &'a [usize],
    upto: &'a [usize],
    somes: &'a [bool],
    rows: usize,
    regions: usize,
    root: usize,
    size: u32,
}

impl<'a> Model for Search<'a> {
    ghost use Rattle.decider.specs.Setting.{Setting, Settles};

    ghost Value = { Setting };

    ghost use Rattle.decider.specs.Held.{setting_of};

    ghost view = { setting_of };

    ghost invariant = { λ s. Settles (setting_of s) };
}

impl<'a> Search<'a> {
    // Settles all of that in lent arrays.
    #[tactic(auto, using(crate::proofs::Admitted::known))]
    pub fn prepare(
        words: &'a [i32],
        size: u32,
        shape: Shape,
        patterns: &'a mut [u64],
        order: &'a mut [usize],
        upto: &'a mut [usize],
        somes: &'a mut [bool],
    ) -> Search<'a>
        requires words_value { (admission size (claim_of words.now) (check_of words.now) ≡ Ok shape) × Roomy shape patterns.old }
        requires nodes_in_bounds { (shape.nodes ≤ length order.old) × (2 ^ shape.sets < length upto.old) × (2 ^ shape.sets ≤ length somes.old) }
        ensures { (result.words ≡ words.now) × (result.size ≡ size) × (result.regions ≡ 2 ^ shape.sets) }
    {
        matrix::patterns::prepare(words, shape, patterns);
        let rows = matrix::order::arrange(words, shape, patterns, order, upto);
        let regions = somes::fill_somes(words, shape, somes);
        Search {
            words,
            patterns,
            order,
            upto,
            somes,
            rows,
            regions,
            root: shape.root,
            size,
        }
    }
}

impl Search<'_> {
    // One step: an evaluation of the matrix, paid for. The nodes before place `known` of the order stand already.
    fn step(&self, counts: &[u32], values: &mut [i32], known: usize, a: Allowance) -> Reply
        requires stands { Stands self.now self.now.regions known counts.now values.old }
        requires taken_bound { a.left + a.taken < 2 ^ 64 }
        ensures value { result ≡ reply (ruling_from self.now self.now.regions counts.now) a }
        ensures kept { Kept self.now.order known values.old values.new }
    {
        if a.left == 0 {
            return Err(Spent { taken: a.taken });
        }
        let rest = a.spend();
        let stop = self.regions + self.regions;
        let truth = matrix::holds(
            self.words,
            self.patterns,
            self.order,
            self.rows,
            self.root,
            self.size,
            &counts[self.regions..stop],
            values,
            known,
        );
        Ok(Found { truth, rest })
    }

    // Works out the nodes of the order that the final regions which stand before split h settle. How many stand then.
    fn advance(&self, counts: &[u32], values: &mut [i32], known: usize, h: usize) -> usize
        requires stands { Stands self.now h known counts.now values.old }
        requires h_lt_regions { h < self.now.regions }
        ensures value { result ≡ max known (get_or self.now.upto (h + h - self.now.regions) 0) }
        ensures known_2 { Known (claim_of self.now.words) self.now.size (finals self.now.regions h counts.now) self.now.order result values.new }
        ensures kept { Kept self.now.order known values.old values.new }
    {
        let stop = h + h;
        let start = stop.min(self.regions);
        let to = self.upto[stop - start];
        if to <= known {
            return known;
        }
        matrix::evaluate(
            self.words,
            self.patterns,
            self.order,
            self.size,
            &counts[start..stop],
            values,
            known,
            to,
        );
        to
    }

    // Split h and all after it, the inside count of each region tried from 0 up.
    #[cycle(search)]
    fn splits(
        &self,
        counts: &mut [u32],
        values: &mut [i32],
        known: usize,
        h: usize,
        a: Allowance,
    ) -> Reply
        requires stands { Stands self.now h known counts.old values.old }
        requires h_lt_regions { h < self.now.regions }
        requires taken_bound { a.left + a.taken < 2 ^ 64 }
        ensures value { result ≡ reply (ruling_from self.now h counts.old) a }
        ensures counts_unchanged { take (h + h) counts.new ≡ take (h + h) counts.old }
        ensures kept { Kept self.now.order known values.old values.new }
    {
        let next = self.advance(counts, values, known, h);
        let some = self.somes[h];
        let mut rest = a;
        for k in 0..=counts[h] {
            children(counts, h, k);
            let found = self.search(counts, values, next, h + 1, rest)?;
            if found.truth == some {
                return Ok(found);
            }
            rest = found.rest;
        }
        Ok(Found { truth: !some, rest })
    }

    // The rule from split h on. The nodes before place `known` of the order stand already.
    #[cycle(search)]
    #[inline(always)]
    pub fn search(
        &self,
        counts: &mut [u32],
        values: &mut [i32],
        known: usize,
        h: usize,
        a: Allowance,
    ) -> Reply
        requires stands { Stands self.now h known counts.old values.old }
        requires taken_bound { a.left + a.taken < 2 ^ 64 }
        ensures value { result ≡ reply (ruling_from self.now h counts.old) a }
        ensures counts_unchanged { take (h + h) counts.new ≡ take (h + h) counts.old }
        ensures kept { Kept self.now.order known values.old values.new }
    {
        let first = pass(counts, self.regions, h);
        if first == self.regions {
            self.step(counts, values, known, a)
        } else {
            self.splits(counts, values, known, first, a)
        }
    }
}
