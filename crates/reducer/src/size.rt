// How much is emitted, counted without writing.
ghost use Rattle.std.specs.Prelude.{◌≡◌, ◌+◌, ◌*◌, ◌-◌, ◌≤◌, ◌<◌, length};
ghost use Rattle.checker.specs.Words.{claim_of};
ghost use Rattle.checker.specs.Check.{check_of};
ghost use Rattle.emission.specs.Emission.{body, emission};
ghost use Rattle.emission.specs.Sizes.{all_sets};
ghost use Rattle.reducer.specs.Reduced.{numbers};
ghost use Rattle.reducer.specs.Sizes.{constraint_part};
ghost use Rattle.reducer.specs.Closing.{Prepared};

use checker::Shape;
use emission::kinds::ALL_SETS;
use emission::plan::frame_at;

// How many nodes and quantifiers there are.
#[derive(Clone, Copy)]
pub struct Size {
    pub nodes: usize,
    pub quantifiers: usize,
}

impl Size {
    pub fn words(self) -> usize
        requires { (self.nodes ≤ numbers) × (self.quantifiers ≤ numbers) }
        ensures { result ≡ 3 * self.nodes + self.quantifiers + 4 }
    {
        3 * self.nodes + self.quantifiers + 4
    }
}

// How many of the quantifiers are for-all quantifiers over sets.
#[tactic(auto, using(checker::proofs::Claims::sound))]
fn for_alls(words: &[i32], shape: Shape) -> usize
    requires { check_of words.now ≡ Ok shape }
    ensures { result ≡ all_sets (claim_of words.now).quantifiers }
{
    let start = 3 * shape.nodes;
    let kinds = &words[start..start + shape.quantifiers];
    kinds
        .iter()
        .filter(|kind| **kind == ALL_SETS as i32)
        .count()
}

// The nodes of the constraints: each region but the first was split off with six, and a for-all takes one more.
fn constraint_nodes(words: &[i32], shape: Shape) -> usize
    requires { check_of words.now ≡ Ok shape }
    ensures { result ≡ length (constraint_part (claim_of words.now)) }
{
    let regions = 1usize << shape.sets;
    6 * (regions - 1) + for_alls(words, shape)
}

// The size of the whole, the nodes' runs taking `runs` nodes.
pub fn emitted(words: &[i32], shape: Shape, plan: &[usize], runs: usize) -> Size
    requires { Prepared words.now shape plan.now × (runs ≡ length (body (claim_of words.now)).nodes) }
    ensures nodes_value { result.nodes ≡ length (emission (claim_of words.now)).nodes }
    ensures quantifiers_value { result.quantifiers ≡ length (emission (claim_of words.now)).quantifiers }
{
    let all = frame_at(plan, shape.quantifiers);
    Size {
        nodes: runs + constraint_nodes(words, shape),
        quantifiers: all.next,
    }
}
