// The decider: whether a claim is true at a size, by trying the splits of regions, within an allowance of steps.

#![tactic(auto)]

ghost use Rattle.std.specs.Prelude.{◌≡◌, ◌+◌, ◌^◌, ◌<◌, length, replicate};
ghost use Rattle.checker.specs.Words.{claim_of};
ghost use Rattle.checker.specs.Check.{check_of};
ghost use Rattle.decider.specs.Plan.{ruling};
ghost use Rattle.decider.specs.Answer.{reply};
ghost use Rattle.decider.specs.Decision.{admission, said, decision_of};
ghost use Rattle.region.specs.Pattern.{Roomy};
ghost use Rattle.decider.specs.Standing.{Frame};

use allowance::{Allowance, Reply};
use checker::{Refusal, Shape};
use search::Search;

mod admission; // refusals 9 to 11
mod allowance; // steps, paid for one at a time
mod search; // what is settled before, and the splits in order
mod somes; // which splits belong to an exists

// True or false with the steps taken; or the allowance is spent, all of it.
#[derive(Clone, Copy, PartialEq, Eq)]
pub enum Decision {
    True(u64),
    False(u64),
    Spent(u64),
}

// What a reply says, with the steps taken.
fn decision_of(x: Reply) -> Decision
    ensures { result ≡ said x }
{
    match x {
        Ok(found) if found.truth => Decision::True(found.rest.taken),
        Ok(found) => Decision::False(found.rest.taken),
        Err(spent) => Decision::Spent(spent.taken),
    }
}

// The rule's reply, from one region of all ports, worked out in lent arrays.
#[tactic(auto, using(crate::proofs::Admitted::known))]
fn rule_in(
    words: &[i32],
    size: u32,
    shape: Shape,
    a: Allowance,
    patterns: &mut [u64],
    order: &mut [usize],
    upto: &mut [usize],
    somes: &mut [bool],
    values: &mut [i32],
    counts: &mut [u32],
) -> Reply
    requires words_value { admission size (claim_of words.now) (check_of words.now) ≡ Ok shape }
    requires taken_bound { a.left + a.taken < 2 ^ 64 }
    requires roomy { Roomy shape patterns.old × Frame shape (length order.old) (length upto.old) (length somes.old) (length values.old) (length counts.old) }
    ensures { result ≡ reply (ruling size (claim_of words.now)) a }
{
    let search = Search::prepare(words, size, shape, patterns, order, upto, somes);
    counts[0] = 0;
    counts[1] = size;
    search.search(counts, values, 0, 1, a)
}

// The same in arrays with room for so many regions: clearing larger ones is a good part of a short call.
fn rule_within<
    const PATTERNS: usize,
    const PLACES: usize,
    const REGIONS: usize,
    const COUNTS: usize,
>(words: &[i32], size: u32, shape: Shape, a: Allowance) -> Reply
    requires words_value { admission size (claim_of words.now) (check_of words.now) ≡ Ok shape }
    requires taken_bound { a.left + a.taken < 2 ^ 64 }
    requires small { PATTERNS + PLACES + REGIONS + COUNTS < 2 ^ 32 }
    requires roomy { Roomy shape (replicate PATTERNS 0) × Frame shape 1024 PLACES REGIONS 1024 COUNTS }
    ensures { result ≡ reply (ruling size (claim_of words.now)) a }
{
    let mut patterns = [0u64; PATTERNS];
    let mut order = [0usize; 1024];
    let mut upto = [0usize; PLACES];
    let mut somes = [false; REGIONS];
    let mut values = [0i32; 1024];
    let mut counts = [0u32; COUNTS];
    rule_in(
        words,
        size,
        shape,
        a,
        &mut patterns,
        &mut order,
        &mut upto,
        &mut somes,
        &mut values,
        &mut counts,
    )
}

fn rule_on(words: &[i32], size: u32, shape: Shape, a: Allowance) -> Reply
    requires words_value { admission size (claim_of words.now) (check_of words.now) ≡ Ok shape }
    requires taken_bound { a.left + a.taken < 2 ^ 64 }
    ensures { result ≡ reply (ruling size (claim_of words.now)) a }
{
    if shape.sets <= region::NARROW_SETS {
        rule_within::<{ region::NARROW }, 65, 64, 128>(words, size, shape, a)
    } else {
        rule_within::<{ region::WIDE }, 257, 256, 512>(words, size, shape, a)
    }
}

// Whether the claim is true at size n, in at most `allowance` evaluations of its matrix.
#[tactic(auto, using(crate::proofs::Answer::said_is), unfolding(crate::specs::Decision::decided, crate::specs::Decision::decision_of))]
pub fn decide(words: &[i32], n: u32, allowance: u64) -> Result<Decision, Refusal>
    ensures { result ≡ decision_of words.now n allowance }
{
    let shape = admission::admit(words, n)?;
    let a = Allowance {
        left: allowance,
        taken: 0,
    };
    Ok(decision_of(rule_on(words, n, shape, a)))
}
