// The table of patterns: one entry a node, filled once.
ghost use Rattle.std.specs.Prelude.{◌≡◌, true, ◌+◌, ◌*◌, ◌<◌, get_or, drop};
ghost use Rattle.checker.specs.Claim.{int_q};
ghost use Rattle.checker.specs.Words.{claim_of};
ghost use Rattle.checker.specs.Sorts.{is_set_q, sets};
ghost use Rattle.checker.specs.Check.{check_of};
ghost use Rattle.region.specs.Pattern.{Roomy};
ghost use Rattle.matrix.specs.Entry.{Filled, Next, Beyond};

use checker::Shape;

// Whether quantifier j ranges over sets.
#[tactic(auto, using(std::proofs::lemmas::Bool::Decides::nat_tests, crate::proofs::Positions::set_words))]
pub fn over_sets(words: &[i32], shape: Shape, j: usize) -> bool
    requires words_value { check_of words.now ≡ Ok shape }
    requires j_lt_quantifiers { j < shape.quantifiers }
    ensures { result ≡ is_set_q (get_or (claim_of words.now).quantifiers j (int_q true)) }
{
    matches!(checker::word(words, 3 * shape.nodes + j), 3 | 4)
}

// The bit of a quantifier's set in a region's number: how many sets stand inside it.
fn position(words: &[i32], shape: Shape, q: usize) -> usize
    requires words_value { check_of words.now ≡ Ok shape }
    requires q_lt_quantifiers { q < shape.quantifiers }
    ensures { result ≡ sets (drop (q + 1) (claim_of words.now).quantifiers) }
{
    (q + 1..shape.quantifiers)
        .filter(|&j| over_sets(words, shape, j))
        .count()
}

// Fills the entry of node i, where those of the nodes before it stand.
fn put_entry(words: &[i32], shape: Shape, patterns: &mut [u64], i: usize)
    requires { Next words.now shape i patterns.old }
    ensures filled { Filled (claim_of words.now) (i + 1) patterns.new }
    ensures beyond { Beyond (i + 1) patterns.old patterns.new }
{
    let kind = checker::word(words, 3 * i);
    let a = checker::word(words, 3 * i + 1);
    let b = checker::word(words, 3 * i + 2);
    let s = shape.sets;
    match kind {
        1 => region::put_variable(patterns, i, position(words, shape, a), s),
        3 => region::put_whole(patterns, i, s),
        4 => region::put_union(patterns, i, a, b),
        5 => region::put_intersection(patterns, i, a, b),
        6 => region::put_complement(patterns, i, a, s),
        16 => region::put_union(patterns, i, a, a),
        23 => region::put_exclusive(patterns, i, a, b),
        24 => region::put_difference(patterns, i, a, b),
        _ => region::put_empty(patterns, i),
    }
}

// Fills the entries of all nodes.
pub fn prepare(words: &[i32], shape: Shape, patterns: &mut [u64])
    requires words_value { check_of words.now ≡ Ok shape }
    requires roomy { Roomy shape patterns.old }
    ensures filled { Filled (claim_of words.now) shape.nodes patterns.new }
    ensures beyond { Beyond shape.nodes patterns.old patterns.new }
{
    for i in 0..shape.nodes {
        put_entry(words, shape, patterns, i);
    }
}
