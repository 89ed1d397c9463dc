// What the decider takes: refusals 9 to 11, after those of the checker.
ghost use Rattle.std.specs.Prelude.{◌≡◌, ◌<◌};
ghost use Rattle.checker.specs.Words.{claim_of};
ghost use Rattle.checker.specs.Search.{found};
ghost use Rattle.checker.specs.Check.{verdict, check_of};
ghost use Rattle.decider.specs.Decision.{binds_number, decider_tests, admission};

use checker::{Refusal, Shape};

const MAX_SIZE: u32 = 4096;

// The first quantifier over numbers, if there is one.
#[tactic(auto, unfolding(crate::specs::Decision::binds_number))]
fn first_number(words: &[i32], shape: Shape) -> Option<usize>
    requires { check_of words.now ≡ Ok shape }
    ensures { result ≡ found (binds_number (claim_of words.now)) shape.quantifiers }
{
    (0..shape.quantifiers).find(|i| !matrix::patterns::over_sets(words, shape, *i))
}

// Refusals 9 to 11, of a claim that the checker accepts.
#[tactic(auto, using(crate::proofs::Admitted::in_order), unfolding(crate::specs::Decision::decider_tests, checker::specs::Check::verdict))]
fn admit_claim(words: &[i32], size: u32, shape: Shape) -> Result<Shape, Refusal>
    requires { check_of words.now ≡ Ok shape }
    ensures { result ≡ verdict (decider_tests size (claim_of words.now)) (Ok shape) }
{
    if MAX_SIZE < size {
        return Err(Refusal::LargeSize);
    }
    let nodes = shape.nodes;
    if let Some(number) = first_number(words, shape) {
        return Err(Refusal::OverNumbers(3 * nodes + number));
    }
    let over = matrix::bound::first_over(words, shape, size);
    if over < nodes {
        return Err(Refusal::LargeBound(3 * over));
    }
    Ok(shape)
}

// Refusals 1 to 7, then 9 to 11.
#[tactic(auto, unfolding(crate::specs::Decision::admission))]
pub fn admit(words: &[i32], size: u32) -> Result<Shape, Refusal>
    ensures { result ≡ admission size (claim_of words.now) (check_of words.now) }
{
    let shape = checker::check(words)?;
    admit_claim(words, size, shape)
}
