// Bytes with one or two numbers between them.
ghost use Rattle.solver.specs.Pieces.{one_text, two_text, pair_text, count_text};

use crate::sinks::Sink;

pub fn put_one<S: Sink>(sink: &mut S, s: &[u8], n: u64, t: &[u8])
    ensures { S.took sink.old (one_text s.now n t.now) sink.new }
{
    sink.put(s);
    sink.put_number(n);
    sink.put(t);
}

pub fn put_two<S: Sink>(sink: &mut S, s: &[u8], a: u64, m: &[u8], b: u64, t: &[u8])
    ensures { S.took sink.old (two_text s.now a m.now b t.now) sink.new }
{
    put_one(sink, s, a, m);
    sink.put_number(b);
    sink.put(t);
}

// An operator, given with its bracket and the first n, and two nodes.
pub fn put_pair<S: Sink>(sink: &mut S, s: &[u8], a: u64, b: u64)
    ensures { S.took sink.old (pair_text s.now a b) sink.new }
{
    put_two(sink, s, a, b" n", b, b")");
}

// A quantifier's line, and the one that says of its variable that it is at least 0.
pub fn put_count<S: Sink>(sink: &mut S, s: &[u8], g: &[u8], n: u64)
    ensures { S.took sink.old (count_text s.now g.now n) sink.new }
{
    put_one(sink, s, n, b" Int))\n");
    put_one(sink, g, n, b" 0)\n");
}
