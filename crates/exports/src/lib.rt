// The checker, the reducer and the decider for C: an answer is put into a lent row of seven numbers (zuccarvento.h).
#![tactic(auto)]

ghost use Rattle.std.specs.Prelude.{◌≡◌, length};
ghost use Rattle.checker.specs.Check.{check_of};
ghost use Rattle.reducer.specs.Reduced.{reduced_of, out_after};
ghost use Rattle.decider.specs.Decision.{decision_of};
ghost use Rattle.exports.specs.Rows.{refused_row, value_row, check_row, reduce_row, decide_row, with_row};

use checker::Refusal;
use decider::Decision;

// As many of the values as there is room for.
fn put_row(values: &[u64], row: &mut [u64])
    ensures { row.new ≡ with_row values.now row.old }
{
    let n = values.len().min(row.len());
    row[..n].copy_from_slice(&values[..n]);
}

fn put_refusal(refusal: Refusal, row: &mut [u64])
    ensures { row.new ≡ with_row (refused_row refusal) row.old }
{
    let number = refusal.number() as u64;
    let place = refusal.place() as u64;
    put_row(&[0, number, place, 0, 0, 0, 0], row)
}

// An outcome with one value.
fn put_value(outcome: u64, n: u64, row: &mut [u64])
    ensures { row.new ≡ with_row (value_row outcome n) row.old }
{
    put_row(&[outcome, 0, 0, n, 0, 0, 0], row)
}

#[unsafe(no_mangle)]
pub extern "C" fn zuccarvento_check(words: &[i32], row: &mut [u64])
    ensures { row.new ≡ with_row (check_row (check_of words.now)) row.old }
{
    match checker::check(words) {
        Ok(s) => {
            let nodes = s.nodes as u64;
            let quantifiers = s.quantifiers as u64;
            let sets = s.sets as u64;
            let root = s.root as u64;
            put_row(&[1, 0, 0, nodes, quantifiers, sets, root], row)
        }
        Err(r) => put_refusal(r, row),
    }
}

#[unsafe(no_mangle)]
pub extern "C" fn zuccarvento_reduce(words: &[i32], out: &mut [i32], row: &mut [u64])
    ensures row_after { row.new ≡ with_row (reduce_row (reduced_of words.now (length out.old))) row.old }
    ensures out_after { out.new ≡ out_after words.now out.old }
{
    match reducer::reduce(words, out) {
        Ok(n) => put_value(1, n as u64, row),
        Err(r) => put_refusal(r, row),
    }
}

#[unsafe(no_mangle)]
pub extern "C" fn zuccarvento_decide(words: &[i32], size: u32, allowance: u64, row: &mut [u64])
    ensures { row.new ≡ with_row (decide_row (decision_of words.now size allowance)) row.old }
{
    match decider::decide(words, size, allowance) {
        Ok(Decision::True(n)) => put_value(1, n, row),
        Ok(Decision::False(n)) => put_value(2, n, row),
        Ok(Decision::Spent(n)) => put_value(3, n, row),
        Err(r) => put_refusal(r, row),
    }
}
