// The value of a claim's matrix at the counts of its final regions: bounds of its terms, the patterns of its sets, and the evaluation.

#![tactic(auto)]

ghost use Rattle.std.specs.Prelude.{◌≡◌, ◌<◌, ◌≤◌, length};
ghost use Rattle.checker.specs.Words.{node_at, claim_of};
ghost use Rattle.checker.specs.Meaning.{matrix};
ghost use Rattle.region.specs.Regions.{over, regions};
ghost use Rattle.region.specs.Pattern.{covers_at, Counted};
ghost use Rattle.matrix.specs.Final.{final_values};
ghost use Rattle.matrix.specs.Entry.{Filled};
ghost use Rattle.matrix.specs.Work.{work};
ghost use Rattle.matrix.specs.Order.{Has, Order};
ghost use Rattle.matrix.specs.Known.{Ready, Counts, Open, Known, Settled, Kept, Workable};

use numbers::{child, divided, yes};

pub mod bound;
mod numbers;
pub mod order;
pub mod patterns;

// The number of node i, from those of its children.
fn value(
    words: &[i32],
    patterns: &[u64],
    size: u32,
    counts: &[u32],
    values: &[i32],
    i: usize,
) -> i32
    requires workable { Workable words.now size (over (covers_at patterns.now i) counts.now) values.now i }
    requires counted { Counted patterns.now i counts.now }
    ensures { result ≡ work size (over (covers_at patterns.now i) counts.now) values.now (node_at words.now i) }
{
    let kind = words[3 * i];
    let a = words[3 * i + 1];
    let b = words[3 * i + 2];
    match kind {
        11 => a,
        12 => size as i32,
        13 => child(values, a) + child(values, b),
        14 => child(values, a) - child(values, b),
        15 => a * child(values, b),
        16 => region::ports_in(patterns, i, counts) as i32,
        20 => i32::from(child(values, a) == child(values, b)),
        21 => i32::from(child(values, a) < child(values, b)),
        22 => i32::from(divided(a, child(values, b))),
        // Two arms, since `23 | 24` is told by comparisons after the jump: a decision takes an eighth longer.
        23 => i32::from(region::ports_in(patterns, i, counts) == 0),
        24 => i32::from(region::ports_in(patterns, i, counts) == 0),
        // Both operands are there already, so that neither needs a branch.
        25 => i32::from(yes(values, a) & yes(values, b)),
        26 => i32::from(yes(values, a) | yes(values, b)),
        27 => i32::from(!yes(values, a)),
        _ => 0,
    }
}

// Works out the nodes of the order from place `known` up to place `to`, whose entries the counts of the first regions settle. The values of those
// before stand already, and stay.
pub fn evaluate(
    words: &[i32],
    patterns: &[u64],
    order: &[usize],
    size: u32,
    counts: &[u32],
    values: &mut [i32],
    known: usize,
    to: usize,
)
    requires ready { Ready words.now size }
    requires filled { Filled (claim_of words.now) (length (claim_of words.now).nodes) patterns.now }
    requires order { Order (claim_of words.now) order.now to }
    requires known_le_to { (known ≤ to) × (length (claim_of words.now).nodes ≤ length values.old) }
    requires fact { Open (claim_of words.now) size counts.now }
    requires settled { Settled patterns.now (length counts.now) order.now known to }
    requires known { Known (claim_of words.now) size counts.now order.now known values.old }
    ensures known_2 { Known (claim_of words.now) size counts.now order.now to values.new }
    ensures kept { Kept order.now known values.old values.new }
{
    // By the place: a loop over `&order[known..to]` takes a tenth longer.
    for k in known..to {
        let i = order[k];
        values[i] = value(words, patterns, size, counts, values, i);
    }
}

// Whether the matrix holds at these counts of the final regions. The nodes before place `known` of the order stand already.
pub fn holds(
    words: &[i32],
    patterns: &[u64],
    order: &[usize],
    rows: usize,
    root: usize,
    size: u32,
    counts: &[u32],
    values: &mut [i32],
    known: usize,
) -> bool
    requires ready { Ready words.now size }
    requires filled { Filled (claim_of words.now) (length (claim_of words.now).nodes) patterns.now }
    requires order { Order (claim_of words.now) order.now rows × Has order.now rows root × (root ≡ (claim_of words.now).root) }
    requires known_le_rows { (known ≤ rows) × (length (claim_of words.now).nodes ≤ length values.old) }
    requires counts { Counts (claim_of words.now) size counts.now }
    requires known { Known (claim_of words.now) size counts.now order.now known values.old }
    ensures value { result ≡ matrix (regions counts.now) (claim_of words.now) (final_values (claim_of words.now).quantifiers) }
    ensures kept { Kept order.now known values.old values.new }
{
    evaluate(words, patterns, order, size, counts, values, known, rows);
    values[root] == 1
}
