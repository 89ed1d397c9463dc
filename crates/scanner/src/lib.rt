// A solver's text taken apart: the numbers that stand in it, and the few bytes that tell two forms apart. All other bytes are passed over.
// Each function takes what is left of the text.

#![tactic(auto)]

ghost use Rattle.std.specs.Prelude.{◌≡◌, drop};

mod expressions; // what a let binds
mod lines; // the lines of nodes and of quantifiers
mod numbers; // bytes and numbers

pub use lines::{node, quantifier, quantifies};
pub use numbers::{byte_is, number, past};

// What was found at the front of a text, and what follows it.
#[derive(Clone, Copy)]
pub struct Found<'a, T> {
    pub value: T,
    pub rest: &'a [u8],
}

impl<'a, T> Found<'a, T> {
    fn map<U, F: FnOnce(T) -> U>(self, f: F) -> Found<'a, U>
        requires { F.pre f self.value }
        ensures value { F.post f self.entry.value result.value }
        ensures rest { result.rest.now ≡ self.entry.rest.now }
    {
        let Found { value, rest } = self;
        Found {
            value: f(value),
            rest,
        }
    }

    // The same, and k bytes more are passed over.
    fn past(self, k: usize) -> Found<'a, T>
        ensures value { result.value ≡ self.entry.value }
        ensures rest { result.rest.now ≡ drop k self.entry.rest.now }
    {
        let Found { value, rest } = self;
        Found {
            value,
            rest: past(rest, k),
        }
    }
}

// The kind of a node and its fields a and b.
#[derive(Clone, Copy)]
pub struct Fields {
    pub kind: i64,
    pub a: i64,
    pub b: i64,
}
