// The routines that write: entry i becomes what the name says, and every other entry stays. Entries a and b may be entry i.
ghost use Rattle.std.specs.Prelude.{false, not, ◌&&◌, ◌||◌, ◌^◌, ◌<◌, ◌≤◌, ltb};
ghost use Rattle.std.specs.Bool.{xor};
ghost use Rattle.region.specs.Regions.{minus};
ghost use Rattle.region.specs.Pattern.{covers, entries, room_in, covers_at, covering, Asks, Put};

use crate::form::{Form, word};
use crate::table::{STRIDE, word_at, words_in};

// Entry i takes a form, of the entries a and b.
#[tactic(auto, unfolding(crate::specs::Pattern::words_in))]
fn put(patterns: &mut [u64], i: usize, form: Form, a: usize, b: usize)
    requires { (i < entries patterns.old) × (a < entries patterns.old) × (b < entries patterns.old) × Asks form (room_in patterns.old) }
    ensures { let before = patterns.old in Put before i (covering form (covers_at before a) (covers_at before b)) patterns.new }
{
    for j in 0..words_in(patterns) {
        let new = word(form, j, word_at(patterns, a, j), word_at(patterns, b, j));
        patterns[STRIDE * j + i] = new;
    }
}

pub fn put_empty(patterns: &mut [u64], i: usize)
    requires { i < entries patterns.old }
    ensures { Put patterns.old i (λ r. false) patterns.new }
{
    put(patterns, i, Form::Nothing, i, i)
}

pub fn put_whole(patterns: &mut [u64], i: usize, s: usize)
    requires { (i < entries patterns.old) × (2 ^ s ≤ room_in patterns.old) }
    ensures { Put patterns.old i (λ r. ltb r (2 ^ s)) patterns.new }
{
    put(patterns, i, Form::Whole(s), i, i)
}

// The set at `position`.
pub fn put_variable(patterns: &mut [u64], i: usize, position: usize, s: usize)
    requires { (i < entries patterns.old) × (2 ^ s ≤ room_in patterns.old) }
    ensures { Put patterns.old i (λ r. ltb r (2 ^ s) && covers r position) patterns.new }
{
    put(patterns, i, Form::Inside(position, s), i, i)
}

pub fn put_union(patterns: &mut [u64], i: usize, a: usize, b: usize)
    requires { (i < entries patterns.old) × (a < entries patterns.old) × (b < entries patterns.old) }
    ensures { let before = patterns.old in Put before i (λ r. covers_at before a r || covers_at before b r) patterns.new }
{
    put(patterns, i, Form::Union, a, b)
}

pub fn put_intersection(patterns: &mut [u64], i: usize, a: usize, b: usize)
    requires { (i < entries patterns.old) × (a < entries patterns.old) × (b < entries patterns.old) }
    ensures { let before = patterns.old in Put before i (λ r. covers_at before a r && covers_at before b r) patterns.new }
{
    put(patterns, i, Form::Intersection, a, b)
}

// In a and not in b.
pub fn put_difference(patterns: &mut [u64], i: usize, a: usize, b: usize)
    requires { (i < entries patterns.old) × (a < entries patterns.old) × (b < entries patterns.old) }
    ensures { let before = patterns.old in Put before i (minus (covers_at before a) (covers_at before b)) patterns.new }
{
    put(patterns, i, Form::Difference, a, b)
}

// In exactly one of a and b.
pub fn put_exclusive(patterns: &mut [u64], i: usize, a: usize, b: usize)
    requires { (i < entries patterns.old) × (a < entries patterns.old) × (b < entries patterns.old) }
    ensures { let before = patterns.old in Put before i (λ r. xor (covers_at before a r) (covers_at before b r)) patterns.new }
{
    put(patterns, i, Form::Exclusive, a, b)
}

pub fn put_complement(patterns: &mut [u64], i: usize, a: usize, s: usize)
    requires { (i < entries patterns.old) × (a < entries patterns.old) × (2 ^ s ≤ room_in patterns.old) }
    ensures { let before = patterns.old in Put before i (λ r. ltb r (2 ^ s) && not (covers_at before a r)) patterns.new }
{
    put(patterns, i, Form::Complement(s), a, a)
}
