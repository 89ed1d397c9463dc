// The constraints: that each region is the sum of the two that a set splits it into, joined with the body.
ghost use Rattle.std.specs.Prelude.{◌≡◌, [], ◌∷◌, ◌++◌, ◌+◌, ◌*◌, ◌-◌, ◌≤◌, ◌<◌, pos, length};
ghost use Rattle.checker.specs.Claim.{conj, disj, neg};
ghost use Rattle.checker.specs.Words.{claim_of};
ghost use Rattle.emission.specs.Emission.{counts, last, five, body, emission};
ghost use Rattle.emission.specs.Plan.{place_in};
ghost use Rattle.emission.specs.Write.{max_number, Room, WroteNodes};
ghost use Rattle.lent.specs.Write.{Wrote};
ghost use Rattle.reducer.specs.Sizes.{constraint_part};
ghost use Rattle.reducer.specs.Closing.{Prepared, constraint_in, Within, closed_from, added, Tells};

use checker::Shape;
use emission::kinds::{ALL_SETS, AND, EQUAL, NOT, NUMBER, OR, SOME_SET, SUM};
use emission::plan::frame_at;
use emission::write::{put_node, put_region};
use emission::{Body, Frame};

// That parent region r is the sum of its parts, the one without the set and the one within it. Each node but the first is written where the node
// before it ends.
fn put_five(out: &mut [i32], at: usize, frame: Frame, r: usize) -> usize
    requires { Room out.old at 5 × (frame.first + r ≤ max_number) × (frame.next + (2 * r + 1) ≤ max_number) }
    ensures { WroteNodes out.old at (five (place_in frame) (counts frame.next) at r) out.new result }
{
    let without = frame.next + 2 * r;
    let within = without + 1;
    let outside = put_region(out, at, frame, r);
    let inside = put_node(out, outside, NUMBER, without, 0);
    let sum = put_node(out, inside, NUMBER, within, 0);
    let equal = put_node(out, sum, SUM, outside, inside);
    put_node(out, equal, EQUAL, at, sum)
}

// The same of a further region, joined with the result so far, which is the node before.
fn put_further(out: &mut [i32], at: usize, frame: Frame, r: usize) -> usize
    requires { Room out.old at 6 × (1 ≤ at) × (frame.first + r ≤ max_number) × (frame.next + (2 * r + 1) ≤ max_number) }
    ensures { WroteNodes out.old at (five (place_in frame) (counts frame.next) at r ++ conj (at - 1) (at + 4) ∷ []) out.new result }
{
    let and = put_five(out, at, frame, r);
    put_node(out, and, AND, at - 1, and - 1)
}

// The constraint of a set quantifier, for each parent region of its frame.
fn put_constraint(out: &mut [i32], at: usize, frame: Frame) -> usize
    requires { Room out.old at (length (constraint_in frame at)) × Within frame }
    ensures { WroteNodes out.old at (constraint_in frame at) out.new result }
{
    let regions = 1usize << frame.level;
    let mut here = put_five(out, at, frame, 0);
    for r in 1..regions {
        here = put_further(out, here, frame, r);
    }
    here
}

// A node of a kind, of the node before and the body, which is the new body.
fn put_join(out: &mut [i32], at: usize, kind: usize, root: usize) -> Body
    requires { Room out.old at 1 × (1 ≤ at) × (kind ≤ max_number) × (root ≤ max_number) }
    ensures wrote { Wrote out.old (3 * at) (pos kind ∷ pos (at - 1) ∷ pos root ∷ []) out.new (3 * result.nodes) }
    ensures root_value { result.root ≡ at }
{
    Body {
        nodes: put_node(out, at, kind, at - 1, root),
        root: at,
    }
}

// exists: and(constraint, body), which is the new body
fn put_some(out: &mut [i32], body: Body, frame: Frame) -> Body
    requires { Room out.old body.nodes (length (constraint_in frame body.nodes) + 1) × Within frame × (body.root ≤ max_number) }
    ensures wrote_nodes { WroteNodes out.old body.nodes (constraint_in frame body.nodes ++ conj (last body.nodes (constraint_in frame body.nodes)) body.root ∷ []) out.new result.nodes }
    ensures root_value { result.root ≡ result.nodes - 1 }
{
    let and = put_constraint(out, body.nodes, frame);
    put_join(out, and, AND, body.root)
}

// for all: not(constraint), and or(that, body), which is the new body
fn put_all(out: &mut [i32], body: Body, frame: Frame) -> Body
    requires { Room out.old body.nodes (length (constraint_in frame body.nodes) + 2) × Within frame × (body.root ≤ max_number) }
    ensures wrote_nodes { WroteNodes out.old body.nodes (constraint_in frame body.nodes ++ neg (last body.nodes (constraint_in frame body.nodes)) ∷ disj (body.nodes + length (constraint_in frame body.nodes)) body.root ∷ []) out.new result.nodes }
    ensures root_value { result.root ≡ result.nodes - 1 }
{
    let not = put_constraint(out, body.nodes, frame);
    let or = put_node(out, not, NOT, not - 1, 0);
    put_join(out, or, OR, body.root)
}

// The constraint of quantifier j, if it binds a set, joined with the body, which is handed back anew.
#[tactic(auto, using(checker::proofs::Claims::sound))]
fn put_joined(
    words: &[i32],
    shape: Shape,
    plan: &[usize],
    j: usize,
    out: &mut [i32],
    body: Body,
) -> Body
    requires prepared { Prepared words.now shape plan.now × (j < shape.quantifiers) × Tells (closed_from (claim_of words.now) (j + 1)) body }
    requires room { Room out.old body.nodes (length (added (closed_from (claim_of words.now) (j + 1)) (closed_from (claim_of words.now) j))) }
    ensures tells { Tells (closed_from (claim_of words.now) j) result }
    ensures wrote_nodes { WroteNodes out.old body.nodes (added (closed_from (claim_of words.now) (j + 1)) (closed_from (claim_of words.now) j)) out.new result.nodes }
{
    let frame = frame_at(plan, j);
    match checker::word(words, 3 * shape.nodes + j) {
        SOME_SET => put_some(out, body, frame),
        ALL_SETS => put_all(out, body, frame),
        _ => body,
    }
}

// The constraints of all set quantifiers, from the innermost to the outermost. The first body is the node that stands for the input's root, and the
// last one is handed back.
pub fn put_constraints(
    words: &[i32],
    shape: Shape,
    plan: &[usize],
    out: &mut [i32],
    first: Body,
) -> Body
    requires prepared { Prepared words.now shape plan.now × Tells (body (claim_of words.now)) first }
    requires room { Room out.old first.nodes (length (constraint_part (claim_of words.now))) }
    ensures wrote_nodes { WroteNodes out.old first.nodes (constraint_part (claim_of words.now)) out.new result.nodes }
    ensures root_value { result.root ≡ (emission (claim_of words.now)).root }
{
    let mut body = first;
    for j in (0..shape.quantifiers).rev() {
        body = put_joined(words, shape, plan, j, out, body);
    }
    body
}
