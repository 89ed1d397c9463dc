// The claim that is emitted, by its words, with what the check and the plan say of it.
ghost use Rattle.std.specs.Prelude.{◌≡◌, ◌+◌, ◌*◌, ◌<◌, Ok};
ghost use Rattle.checker.specs.Words.{word, word_at, claim_of};
ghost use Rattle.checker.specs.Check.{check_of};
ghost use Rattle.emission.specs.Plan.{Planned};

use checker::Shape;

#[derive(Clone, Copy)]
pub struct Source<'a> {
    pub words: &'a [i32],
    pub shape: Shape,
    pub plan: &'a [usize],
    ghost accepted: { check_of words.now ≡ Ok shape },
    ghost planned: { Planned plan.now (claim_of words.now).quantifiers },
}

// A node by its words: as numbers, and the first field also as it stands, since a constant may be negative.
#[derive(Clone, Copy)]
pub struct Node {
    pub kind: usize,
    pub a: usize,
    pub b: usize,
    pub constant: i32,
}

impl Source<'_> {
    // Node i.
    pub fn node(&self, i: usize) -> Node
        requires { i < self.now.shape.nodes }
        ensures kind { result.kind ≡ word_at self.now.words.now (3 * i) }
        ensures a { result.a ≡ word_at self.now.words.now (3 * i + 1) }
        ensures b { result.b ≡ word_at self.now.words.now (3 * i + 2) }
        ensures constant { result.constant ≡ word self.now.words.now (3 * i + 1) }
    {
        let at = 3 * i;
        Node {
            kind: checker::word(self.words, at),
            a: checker::word(self.words, at + 1),
            b: checker::word(self.words, at + 2),
            constant: self.words[at + 1],
        }
    }
}
