// The runs of all nodes: how many nodes they take, and the runs themselves.
ghost use Rattle.std.specs.Prelude.{◌≡◌, ◌+◌, ◌-◌, ◌*◌, ◌≤◌, length};
ghost use Rattle.checker.specs.Words.{claim_of};
ghost use Rattle.checker.specs.Check.{max_nodes, check_of};
ghost use Rattle.region.specs.Pattern.{pattern_bits, Roomy};
ghost use Rattle.emission.specs.Emission.{body};
ghost use Rattle.emission.specs.Plan.{Planned};
ghost use Rattle.emission.specs.Write.{Room, WroteNodes};

use crate::Body;
use crate::source::Source;
use checker::Shape;

// How many nodes the runs take, and the node that stands for the root.
pub fn count(words: &[i32], shape: Shape, plan: &[usize], patterns: &mut [u64]) -> Body
    requires words_value { (check_of words.now ≡ Ok shape) × Planned plan.now (claim_of words.now).quantifiers }
    requires roomy { Roomy shape patterns.old }
    ensures nodes_value { (result.nodes ≡ length (body (claim_of words.now)).nodes) × (result.root ≡ (body (claim_of words.now)).root) }
    ensures nodes_bound { result.nodes ≤ (4 * pattern_bits + 3) * max_nodes }
{
    let source = Source { words, shape, plan };
    let mut body = Body { nodes: 0, root: 0 };
    for i in 0..shape.nodes {
        body.nodes += source.run_length(i, patterns);
        if i == shape.root {
            body.root = body.nodes.saturating_sub(1);
        }
    }
    body
}

// The runs of all nodes, from the start of `out` on.
pub fn put_all(
    words: &[i32],
    shape: Shape,
    plan: &[usize],
    patterns: &mut [u64],
    out: &mut [i32],
) -> usize
    requires words_value { (check_of words.now ≡ Ok shape) × Planned plan.now (claim_of words.now).quantifiers }
    requires roomy { Roomy shape patterns.old }
    requires room { Room out.old 0 (length (body (claim_of words.now)).nodes) }
    ensures { WroteNodes out.old 0 (body (claim_of words.now)).nodes out.new result }
{
    let source = Source { words, shape, plan };
    let mut stands = [0; 1024];
    let mut at = 0;
    for i in 0..shape.nodes {
        at = source.put_run(i, patterns, &stands, out, at);
        stands[i] = at.saturating_sub(1);
    }
    at
}
