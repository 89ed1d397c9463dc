// The order in which nodes are worked out: those that the root needs, children first, and among them those first that few regions settle.
ghost use Rattle.std.specs.Prelude.{◌≡◌, ◌↔◌, IsTrue, true, ℕ, ◌+◌, ◌*◌, ◌^◌, ◌≤◌, ◌<◌, length, get_or};
ghost use Rattle.checker.specs.Words.{node_at, claim_of};
ghost use Rattle.checker.specs.Check.{max_sets, check_of};
ghost use Rattle.region.specs.Pattern.{entries, covers_at, End};
ghost use Rattle.matrix.specs.Entry.{Filled};
ghost use Rattle.matrix.specs.Work.{children, Every};
ghost use Rattle.matrix.specs.Order.{Has, Order};
ghost use Rattle.matrix.specs.Arranged.{listed, marked, Marked, Closed, Placed, Placeable, Passed, Ranked};
ghost use Rattle.matrix.specs.Known.{Scheduled};

use checker::Shape;

// The nodes whose numbers a node's own is worked out from.
#[derive(Drop)]
pub enum Operands {
    Nothing,
    One(usize),
    Two(usize, usize),
}

// The children of node i.
#[tactic(auto, using(std::proofs::lemmas::Bool::Decides::nat_tests, crate::proofs::Kindwise::children_at))]
fn operands_of(words: &[i32], i: usize) -> Operands
    requires { 3 * i + 3 ≤ length words.now }
    ensures { listed result ≡ children (node_at words.now i) }
{
    let kind = checker::word(words, 3 * i);
    let a = checker::word(words, 3 * i + 1);
    let b = checker::word(words, 3 * i + 2);
    match kind {
        13 | 14 | 20 | 21 | 25 | 26 => Operands::Two(a, b),
        15 | 22 => Operands::One(b),
        27 => Operands::One(a),
        _ => Operands::Nothing,
    }
}

// Marks operands.
fn mark(marks: &mut [bool], operands: Operands)
    requires { Every (λ x. x < length marks.old) (listed operands) }
    ensures { Marked marks.old (listed operands) marks.new }
{
    match operands {
        Operands::Nothing => {}
        Operands::One(a) => marks[a] = true,
        Operands::Two(a, b) => {
            marks[a] = true;
            marks[b] = true;
        }
    }
}

// Marks the nodes that the root needs, from the last node down.
fn mark_needed(words: &[i32], shape: Shape, marks: &mut [bool])
    requires words_value { check_of words.now ≡ Ok shape }
    requires nodes_in_bounds { shape.nodes ≤ length marks.old }
    ensures { Closed (claim_of words.now) marks.new }
{
    marks[shape.root] = true;
    for i in (0..shape.nodes).rev() {
        if marks[i] {
            mark(marks, operands_of(words, i));
        }
    }
}

// Whether operands are all marked.
fn all_marked(marks: &[bool], operands: Operands) -> bool
    requires { Every (λ x. x < length marks.now) (listed operands) }
    ensures { IsTrue result ↔ Every (λ x. marked marks.now x ≡ true) (listed operands) }
{
    match operands {
        Operands::Nothing => true,
        Operands::One(a) => marks[a],
        Operands::Two(a, b) => marks[a] && marks[b],
    }
}

// How many of the first regions settle each of the first n entries: one more than the last that it covers.
fn fill_reach(patterns: &[u64], n: usize, reach: &mut [usize])
    requires { (n ≤ entries patterns.now) × (n ≤ length reach.old) }
    ensures { (i : ℕ) → i < n → End (covers_at patterns.now i) (get_or reach.new i 0) }
{
    for i in 0..n {
        reach[i] = region::end(patterns, i);
    }
}

// Whether node i can be placed next.
fn placeable(
    words: &[i32],
    shape: Shape,
    needed: &[bool],
    placed: &[bool],
    reach: &[usize],
    m: usize,
    i: usize,
) -> bool
    requires words_value { check_of words.now ≡ Ok shape }
    requires i_lt_nodes { (i < shape.nodes) × (i < length needed.now) × (i < length placed.now) × (i < length reach.now) }
    ensures { IsTrue result ↔ Placeable (claim_of words.now) needed.now placed.now reach.now m i }
{
    needed[i] && !placed[i] && reach[i] <= m && all_marked(placed, operands_of(words, i))
}

// Places the nodes that can be, in node order. How many are placed then.
fn place(
    words: &[i32],
    shape: Shape,
    needed: &[bool],
    reach: &[usize],
    m: usize,
    placed: &mut [bool],
    order: &mut [usize],
    rows: usize,
) -> usize
    requires words_value { check_of words.now ≡ Ok shape }
    requires nodes_in_bounds { (shape.nodes ≤ length needed.now) × (shape.nodes ≤ length reach.now) × (shape.nodes ≤ length placed.old) × (shape.nodes ≤ length order.old) }
    requires closed { Closed (claim_of words.now) needed.now }
    requires placed { Placed (claim_of words.now) placed.old order.old rows }
    ensures placed_2 { Placed (claim_of words.now) placed.new order.new result }
    ensures passed { Passed (claim_of words.now) needed.now reach.now m order.old rows placed.new order.new result }
{
    let mut n = rows;
    for i in 0..shape.nodes {
        if placeable(words, shape, needed, placed, reach, m, i) {
            order[n] = i;
            placed[i] = true;
            n += 1;
        }
    }
    n
}

// How many regions s sets make.
fn regions_of(s: usize) -> usize
    requires { s ≤ max_sets }
    ensures { result ≡ 2 ^ s }
{
    1usize << s
}

// One pass for each number of first regions, so that what few regions settle comes first. How many are placed then.
fn place_all(
    words: &[i32],
    shape: Shape,
    needed: &[bool],
    reach: &[usize],
    placed: &mut [bool],
    order: &mut [usize],
    upto: &mut [usize],
) -> usize
    requires words_value { check_of words.now ≡ Ok shape }
    requires nodes_in_bounds { (shape.nodes ≤ length needed.now) × (shape.nodes ≤ length reach.now) × (shape.nodes ≤ length placed.old) × (shape.nodes ≤ length order.old) }
    requires sets_in_bounds { 2 ^ shape.sets < length upto.old }
    requires closed { Closed (claim_of words.now) needed.now }
    requires placed { Placed (claim_of words.now) placed.old order.old 0 }
    ensures placed_2 { Placed (claim_of words.now) placed.new order.new result }
    ensures ranked { Ranked (claim_of words.now) needed.now placed.new reach.now order.new result upto.new (2 ^ shape.sets) }
{
    let mut n = 0;
    for m in 0..=regions_of(shape.sets) {
        n = place(words, shape, needed, reach, m, placed, order, n);
        upto[m] = n;
    }
    n
}

// The order of a claim's nodes, and for each number of first regions how many places these settle. How many places there are.
pub fn arrange(
    words: &[i32],
    shape: Shape,
    patterns: &[u64],
    order: &mut [usize],
    upto: &mut [usize],
) -> usize
    requires words_value { check_of words.now ≡ Ok shape }
    requires filled { Filled (claim_of words.now) shape.nodes patterns.now }
    requires nodes_in_bounds { (shape.nodes ≤ length order.old) × (2 ^ shape.sets < length upto.old) }
    ensures order { Order (claim_of words.now) order.new result × Has order.new result (claim_of words.now).root × (result ≤ shape.nodes) }
    ensures scheduled { Scheduled patterns.now (2 ^ shape.sets) order.new result upto.new }
{
    let mut needed = [false; 1024];
    let mut placed = [false; 1024];
    let mut reach = [0usize; 1024];
    mark_needed(words, shape, &mut needed);
    fill_reach(patterns, shape.nodes, &mut reach);
    place_all(words, shape, &needed, &reach, &mut placed, order, upto)
}
