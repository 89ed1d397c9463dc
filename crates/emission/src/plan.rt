// What the quantifiers give to what is inside them, noted for each quantifier in a lent table.
ghost use Rattle.std.specs.Prelude.{◌≡◌, List, [], ◌∷◌, ◌++◌, ◌+◌, ◌*◌, ◌≤◌, ◌<◌, pos, length, drop};
ghost use Rattle.std.proofs.lemmas.List.Edits.{sets};
ghost use Rattle.checker.specs.Claim.{Quantifier};
ghost use Rattle.checker.specs.Kinds.{quantifier_of};
ghost use Rattle.checker.specs.Words.{claim_of};
ghost use Rattle.checker.specs.Check.{max_sets, check_of};
ghost use Rattle.emission.specs.Plan.{Says, frame_at, Planned};
ghost use Rattle.emission.specs.Write.{max_number};

use crate::Frame;
use crate::kinds::{ALL_SETS, SOME_SET};
use checker::Shape;

// The frame inside one more quantifier.
fn inside(frame: Frame, kind: usize) -> Frame
    requires { (frame.next ≤ max_number) × (frame.level ≤ max_sets) }
    ensures { (qs : List Quantifier) → Says qs frame → Says (qs ++ quantifier_of (pos kind) ∷ []) result }
{
    match kind {
        SOME_SET | ALL_SETS => Frame {
            next: frame.next + (2 << frame.level),
            level: frame.level + 1,
            first: frame.next,
        },
        _ => Frame {
            next: frame.next + 1,
            ..frame
        },
    }
}

fn put_frame(plan: &mut [usize], j: usize, frame: Frame)
    requires { 3 * j + 3 ≤ length plan.old }
    ensures { plan.new ≡ sets plan.old (3 * j) (frame.next ∷ frame.level ∷ frame.first ∷ []) }
{
    lent::put_all(plan, 3 * j, &[frame.next, frame.level, frame.first]);
}

// What the quantifiers outside quantifier j give.
pub fn frame_at(plan: &[usize], j: usize) -> Frame
    requires { 3 * j + 3 ≤ length plan.now }
    ensures { result ≡ frame_at plan.now j }
{
    let i = 3 * j;
    Frame {
        next: plan[i],
        level: plan[i + 1],
        first: plan[i + 2],
    }
}

// Notes what the quantifiers outside each quantifier give, and then what all of them give.
pub fn make(words: &[i32], shape: Shape, plan: &mut [usize])
    requires { (check_of words.now ≡ Ok shape) × (3 * shape.quantifiers + 3 ≤ length plan.old) }
    ensures planned { Planned plan.new (claim_of words.now).quantifiers }
    ensures plan_unchanged { drop (3 * shape.quantifiers + 3) plan.new ≡ drop (3 * shape.quantifiers + 3) plan.old }
{
    let mut frame = Frame {
        next: 0,
        level: 0,
        first: 0,
    };
    for j in 0..shape.quantifiers {
        put_frame(plan, j, frame);
        frame = inside(frame, checker::word(words, 3 * shape.nodes + j));
    }
    put_frame(plan, shape.quantifiers, frame);
}
