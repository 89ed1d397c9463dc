// The reducer: a claim is emitted as a counting claim, which has no sets and is true at the same sizes.
#![tactic(auto)]

ghost use Rattle.std.specs.Prelude.{◌≡◌, ◌≤◌, length, replicate};
ghost use Rattle.checker.specs.Claim.{Claim};
ghost use Rattle.checker.specs.Words.{claim_of};
ghost use Rattle.checker.specs.Check.{verdict, check_of};
ghost use Rattle.region.specs.Pattern.{Roomy};
ghost use Rattle.emission.specs.Emission.{emission};
ghost use Rattle.reducer.specs.Reduced.{reducer_tests, answer, reduced_of, out_after, held_after};

use checker::{Refusal, Shape};
use region::{NARROW, NARROW_SETS, WIDE};
use size::Size;

mod closing; // what follows the nodes' runs
mod constraint; // the constraints of the set quantifiers
mod quantifiers; // the emitted quantifiers
mod size; // how much is emitted
mod trailer; // the trailer

// How many numbers a word has for nodes or for quantifiers, from 0 on.
const NUMBERS: usize = 2147483648;

// The plan of 32 quantifiers.
const PLAN: usize = 99;

// Refusals 12 and 8, of an emission of this size into `room` words.
#[tactic(auto, using(crate::proofs::Admitted::in_order), unfolding(crate::specs::Reduced::reducer_tests, checker::specs::Check::verdict))]
fn admit(size: Size, room: usize, shape: Shape) -> Result<Shape, Refusal>
    ensures { (c : Claim) → size.nodes ≡ length c.nodes → size.quantifiers ≡ length c.quantifiers → result ≡ verdict (reducer_tests room c) (Ok shape) }
{
    if NUMBERS < size.nodes || NUMBERS < size.quantifiers {
        return Err(Refusal::LargeNumber);
    }
    let needed = size.words();
    if room < needed {
        return Err(Refusal::TooShort(needed));
    }
    Ok(shape)
}

// With a table of patterns of N words. What is emitted is counted first, so that a refusal writes nothing.
#[tactic(auto, unfolding(crate::specs::Reduced::answer, crate::specs::Reduced::held_after))]
fn reduce_with<const N: usize>(
    words: &[i32],
    shape: Shape,
    out: &mut [i32],
) -> Result<usize, Refusal>
    requires accepted { check_of words.now ≡ Ok shape }
    requires few { N ≤ WIDE }
    requires roomy { Roomy shape (replicate N 0) }
    ensures value { result ≡ answer (emission (claim_of words.now)) (verdict (reducer_tests (length out.old) (emission (claim_of words.now))) (Ok shape)) }
    ensures out_after { out.new ≡ held_after result (emission (claim_of words.now)) out.old }
{
    let mut plan = [0usize; PLAN];
    let mut patterns = [0u64; N];
    emission::plan::make(words, shape, &mut plan);
    let first = emission::nodes::count(words, shape, &plan, &mut patterns);
    let size = size::emitted(words, shape, &plan, first.nodes);
    admit(size, out.len(), shape)?;
    Ok(closing::put_emission(words, shape, &plan, &mut patterns, out, first))
}

// Writes the emission of the claim from the start of `out` on, and says how many words that takes. The table of patterns is as long as the sets of
// the claim ask for: clearing it is a good part of a short call.
#[tactic(auto, unfolding(crate::specs::Reduced::reduced_of, crate::specs::Reduced::admission, crate::specs::Reduced::answer, crate::specs::Reduced::out_after, crate::specs::Reduced::held_after))]
pub fn reduce(words: &[i32], out: &mut [i32]) -> Result<usize, Refusal>
    ensures value { result ≡ reduced_of words.now (length out.old) }
    ensures out_after { out.new ≡ out_after words.now out.old }
{
    let shape = checker::check(words)?;
    if shape.sets <= NARROW_SETS {
        reduce_with::<NARROW>(words, shape, out)
    } else {
        reduce_with::<WIDE>(words, shape, out)
    }
}
