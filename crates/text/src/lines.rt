// The lines of a table, an outcome and a refusal.
ghost use Rattle.std.specs.Prelude.{◌≡◌, ◌+◌, ◌*◌, ◌≤◌, length};
ghost use Rattle.lent.specs.Write.{Wrote};
ghost use Rattle.checker.specs.Words.{claim_of, words_of};
ghost use Rattle.text.specs.Answer.{mark, refused_text, unread, steps_text, table_text, Printed};
ghost use Rattle.text.specs.Lines.{node_lines};

// Bytes, and then a number, which has at most twenty digits.
fn put_mark(out: &mut [u8], at: usize, s: &[u8], n: u64) -> usize
    requires { at + length s.now + 20 ≤ length out.old }
    ensures wrote { Wrote out.old at (mark s.now n) out.new result }
    ensures upper_bound { result ≤ at + length s.now + 20 }
{
    let number = lent::put_all(out, at, s);
    decimal::put_decimal(out, number, n)
}

pub fn put_refusal(out: &mut [u8], number: usize, place: usize) -> usize
    requires { 50 ≤ length out.old }
    ensures { Printed out.old (refused_text number place) out.new result }
{
    let space = put_mark(out, 0, b"refused ", number as u64);
    let end = put_mark(out, space, b" ", place as u64);
    lent::put(out, end, b'\n')
}

// Refusal 0.
#[tactic(auto, unfolding(crate::specs::Answer::unread, checker::specs::Refusals::number_of, checker::specs::Refusals::place_of))]
pub fn put_unread(out: &mut [u8]) -> usize
    requires { 50 ≤ length out.old }
    ensures { Printed out.old unread out.new result }
{
    put_refusal(out, 0, 0)
}

// An outcome's word and its steps.
pub fn put_steps(out: &mut [u8], s: &[u8], n: u64) -> usize
    requires { length s.now + 21 ≤ length out.old }
    ensures { Printed out.old (steps_text s.now n) out.new result }
{
    let end = put_mark(out, 0, s, n);
    lent::put(out, end, b'\n')
}

fn put_nodes(out: &mut [u8], words: &[i32], nodes: usize) -> usize
    requires nodes_in_bounds { 3 * nodes ≤ length words.now }
    requires nodes_in_bounds_2 { 36 * nodes ≤ length out.old }
    ensures wrote { Wrote out.old 0 (node_lines nodes words.now) out.new result }
    ensures upper_bound { result ≤ 36 * nodes }
{
    let mut here = 0;
    for node in words[..3 * nodes].chunks(3) {
        here = decimal::put_line(out, here, node);
    }
    here
}

// A table, from the words of its claim.
#[tactic(auto, using(crate::proofs::Tables::tables))]
pub fn put_table(out: &mut [u8], words: &[i32]) -> usize
    requires words_value { words_of (claim_of words.now) ≡ words.now }
    requires words_in_bounds { 12 * length words.now ≤ length out.old }
    ensures { Printed out.old (table_text (claim_of words.now)) out.new result }
{
    let nodes = checker::word(words, words.len() - 3);
    let trailer = words.len() - 4;
    let quantifiers = put_nodes(out, words, nodes);
    let last = decimal::put_line(out, quantifiers, &words[3 * nodes..trailer]);
    decimal::put_line(out, last, &words[trailer..])
}
