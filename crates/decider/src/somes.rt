// Whether each split belongs to an exists, filled once before the search.
ghost use Rattle.std.specs.Prelude.{◌≡◌, ◌^◌, ◌≤◌, T, length};
ghost use Rattle.checker.specs.Words.{claim_of};
ghost use Rattle.checker.specs.Sorts.{sets};
ghost use Rattle.checker.specs.Check.{check_of};
ghost use Rattle.decider.specs.Plan.{only_sets};
ghost use Rattle.decider.specs.Standing.{Somes};

use checker::Shape;

// The kind of a quantifier "exists set".
const EXISTS: usize = 3;

// The first set splits region 1, the next one regions 2 and 3, and so on. How many regions there are then.
pub fn fill_somes(words: &[i32], shape: Shape, somes: &mut [bool]) -> usize
    requires words_value { check_of words.now ≡ Ok shape }
    requires t { T (only_sets (claim_of words.now).quantifiers) }
    requires quantifiers_in_bounds { 2 ^ shape.quantifiers ≤ length somes.old }
    ensures value { result ≡ 2 ^ sets (claim_of words.now).quantifiers }
    ensures somes { Somes somes.new (claim_of words.now).quantifiers result }
{
    let first = 3 * shape.nodes;
    let mut regions = 1;
    for q in 0..shape.quantifiers {
        let some = checker::word(words, first + q) == EXISTS;
        somes[regions..regions + regions].fill(some);
        regions += regions;
    }
    regions
}
