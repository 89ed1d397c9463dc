// The emitted quantifiers: a number stays, and a set becomes a count for each region.
ghost use Rattle.std.specs.Prelude.{◌+◌, ◌≤◌, ◌<◌, map, length};
ghost use Rattle.checker.specs.Words.{claim_of, quantifier_word};
ghost use Rattle.emission.specs.Emission.{emission};
ghost use Rattle.lent.specs.Write.{Wrote};
ghost use Rattle.reducer.specs.Closing.{Prepared, becomes_at};

use checker::Shape;
use emission::kinds::{ALL_SETS, SOME_SET};
use emission::plan::frame_at;
use emission::write::word;
use lent::{put, put_repeated};

const SOME_COUNT: usize = 5;

const ALL_COUNTS: usize = 6;

// What quantifier j becomes.
#[tactic(auto, using(checker::proofs::Claims::sound))]
fn put_quantifier(
    words: &[i32],
    shape: Shape,
    plan: &[usize],
    j: usize,
    out: &mut [i32],
    at: usize,
) -> usize
    requires { Prepared words.now shape plan.now × (j < shape.quantifiers) × (at + length (becomes_at (claim_of words.now) j) ≤ length out.old) }
    ensures { Wrote out.old at (becomes_at (claim_of words.now) j) out.new result }
{
    let frame = frame_at(plan, j);
    match checker::word(words, 3 * shape.nodes + j) {
        SOME_SET => put_repeated(out, at, word(SOME_COUNT), 2 << frame.level),
        ALL_SETS => put_repeated(out, at, word(ALL_COUNTS), 2 << frame.level),
        kind => put(out, at, word(kind)),
    }
}

pub fn put_quantifiers(
    words: &[i32],
    shape: Shape,
    plan: &[usize],
    out: &mut [i32],
    at: usize,
) -> usize
    requires { Prepared words.now shape plan.now × (at + length (emission (claim_of words.now)).quantifiers ≤ length out.old) }
    ensures { Wrote out.old at (map quantifier_word (emission (claim_of words.now)).quantifiers) out.new result }
{
    let mut here = at;
    for j in 0..shape.quantifiers {
        here = put_quantifier(words, shape, plan, j, out, here);
    }
    here
}
