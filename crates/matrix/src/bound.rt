// The bounds of terms, and the first node whose bound is too large.
ghost use Rattle.std.specs.Prelude.{◌≡◌, ℕ, ◌+◌, ◌*◌, ◌≤◌, ◌<◌, nat_abs, length, get_or};
ghost use Rattle.checker.specs.Words.{node_at, claim_of};
ghost use Rattle.checker.specs.Check.{check_of};
ghost use Rattle.matrix.specs.Bound.{max_bound, bound_of, first_over};

use checker::Shape;

const MAX_BOUND: u64 = 1000000000;

pub fn magnitude(w: i32) -> u64
    ensures { result ≡ nat_abs w }
{
    u64::from(w.unsigned_abs())
}

// The bound of an earlier node, 0 where there is none.
pub fn bound_at(bounds: &[u64], a: usize) -> u64
    ensures { result ≡ get_or bounds.now a 0 }
{
    bounds.get(a).copied().unwrap_or(0)
}

// The bound of node i, from those of the nodes before it. None of these is too large, so that no sum or product is.
#[tactic(auto, using(std::proofs::lemmas::Bool::Decides::nat_tests, crate::proofs::Kindwise::bound_is))]
pub fn bound_of(words: &[i32], bounds: &[u64], i: usize, size: u32) -> u64
    requires i_in_bounds { 3 * i + 3 ≤ length words.now }
    requires by_index { (j : ℕ) → get_or bounds.now j 0 ≤ max_bound }
    ensures { result ≡ bound_of size bounds.now (node_at words.now i) }
{
    let kind = checker::word(words, 3 * i);
    let a = checker::word(words, 3 * i + 1);
    let b = checker::word(words, 3 * i + 2);
    match kind {
        11 => magnitude(words[3 * i + 1]),
        12 | 16 => u64::from(size),
        13 | 14 => bound_at(bounds, a) + bound_at(bounds, b),
        15 => magnitude(words[3 * i + 1]) * bound_at(bounds, b),
        _ => 0,
    }
}

// The first node whose bound is too large, or the number of nodes. It stops there: the bounds of later nodes may not fit.
pub fn first_over(words: &[i32], shape: Shape, size: u32) -> usize
    requires { check_of words.now ≡ Ok shape }
    ensures { result ≡ first_over size (claim_of words.now) }
{
    let mut bounds = [0u64; 1024];
    for i in 0..shape.nodes {
        let b = bound_of(words, &bounds[..i], i, size);
        if MAX_BOUND < b {
            return i;
        }
        bounds[i] = b;
    }
    shape.nodes
}
