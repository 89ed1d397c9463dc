// The whole emission: the nodes' runs and what follows them.
ghost use Rattle.std.specs.Prelude.{◌*◌, ◌≤◌, length};
ghost use Rattle.checker.specs.Words.{claim_of, words_of};
ghost use Rattle.region.specs.Pattern.{Roomy};
ghost use Rattle.emission.specs.Emission.{body, emission};
ghost use Rattle.lent.specs.Write.{Wrote};
ghost use Rattle.reducer.specs.Closing.{Prepared, Tells, closing};

use crate::constraint::put_constraints;
use crate::quantifiers::put_quantifiers;
use crate::trailer::put_trailer;
use checker::Shape;
use emission::Body;

// The constraints, the quantifiers and the trailer.
fn put_closing(words: &[i32], shape: Shape, plan: &[usize], out: &mut [i32], first: Body) -> usize
    requires prepared { Prepared words.now shape plan.now × Tells (body (claim_of words.now)) first }
    requires words_in_bounds { length (words_of (emission (claim_of words.now))) ≤ length out.old }
    ensures { Wrote out.old (3 * first.nodes) (closing (claim_of words.now)) out.new result }
{
    let last = put_constraints(words, shape, plan, out, first);
    let nodes = last.nodes;
    let at = 3 * nodes;
    let end = put_quantifiers(words, shape, plan, out, at);
    put_trailer(out, end, last.root, nodes, end - at)
}

// All words, from the start of `out` on. The first body is what the nodes' runs come to.
pub fn put_emission(
    words: &[i32],
    shape: Shape,
    plan: &[usize],
    patterns: &mut [u64],
    out: &mut [i32],
    first: Body,
) -> usize
    requires prepared { Prepared words.now shape plan.now × Tells (body (claim_of words.now)) first × Roomy shape patterns.old }
    requires words_in_bounds { length (words_of (emission (claim_of words.now))) ≤ length out.old }
    ensures { Wrote out.old 0 (words_of (emission (claim_of words.now))) out.new result }
{
    emission::nodes::put_all(words, shape, plan, patterns, out);
    put_closing(words, shape, plan, out, first)
}
