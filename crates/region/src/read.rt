// The routines that read.
ghost use Rattle.std.specs.Prelude.{◌≡◌, true, false, ◌∷◌, ℕ, ◌+◌, ◌^◌, ◌<◌, ◌≤◌, length};
ghost use Rattle.region.specs.Regions.{over};
ghost use Rattle.region.specs.Pattern.{covers, pattern_bits, entries, covers_at, regions_from, Counted, End};

use crate::table::{BITS, word_at, words_in};

// How many regions entry i covers.
pub fn size(patterns: &[u64], i: usize) -> usize
    requires { i < entries patterns.now }
    ensures { (result ≡ length (regions_from patterns.now i 0)) × (result ≤ pattern_bits) }
{
    (0..words_in(patterns))
        .map(|j| word_at(patterns, i, j).count_ones() as usize)
        .sum()
}

// The first region from `from` on that entry i covers. A caller that knows how many are left walks over all of them.
pub fn next(patterns: &[u64], i: usize, from: usize) -> usize
    requires { 0 < length (regions_from patterns.now i from) }
    ensures { (result < pattern_bits) × (from ≤ result) × (regions_from patterns.now i from ≡ result ∷ regions_from patterns.now i (result + 1)) }
{
    // The first word counts from a bit on, the others whole: a loop over words as a range would need the search twice.
    let mut r = from;
    let mut left = word_at(patterns, i, r / BITS) >> (r % BITS);
    while left == 0 {
        r = BITS * (r / BITS + 1);
        left = word_at(patterns, i, r / BITS);
    }
    r + left.trailing_zeros() as usize
}

// One past the last region that entry i covers; 0 if it covers none.
pub fn end(patterns: &[u64], i: usize) -> usize
    requires { i < entries patterns.now }
    ensures { End (covers_at patterns.now i) result × (result ≤ pattern_bits) }
{
    for j in (0..words_in(patterns)).rev() {
        let word = word_at(patterns, i, j);
        if word != 0 {
            return BITS * (j + 1) - word.leading_zeros() as usize;
        }
    }
    0
}

// How many ports are in the regions that a word covers, its lowest bit being the region of the first count.
fn ports_of(word: u64, counts: &[u32]) -> u32
    requires counts_bound { over (λ r. true) counts.now < 2 ^ 32 }
    requires by_index { (r : ℕ) → length counts.now ≤ r → covers word r ≡ false }
    ensures { result ≡ over (covers word) counts.now }
{
    // The lowest bit is counted and struck off while any is left.
    let mut left = word;
    let mut ports = 0;
    while left != 0 {
        ports += counts[left.trailing_zeros() as usize];
        left &= left - 1;
    }
    ports
}

// How many ports are in the regions that entry i covers. This is where a decision spends its time: only covered regions are visited, and no
// word past those that have a count.
pub fn ports_in(patterns: &[u64], i: usize, counts: &[u32]) -> u32
    requires { Counted patterns.now i counts.now }
    ensures { result ≡ over (covers_at patterns.now i) counts.now }
{
    // Mostly the first word is all: in the loop with the others it was measured to take a tenth longer.
    let mut ports = ports_of(word_at(patterns, i, 0), counts);
    for j in 1..counts.len().div_ceil(BITS) {
        ports += ports_of(word_at(patterns, i, j), &counts[BITS * j..]);
    }
    ports
}
