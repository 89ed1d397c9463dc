// A text held against what the writer would write.
ghost use Rattle.std.specs.Prelude.{◌≡◌};
ghost use Rattle.checker.specs.Words.{claim_of};
ghost use Rattle.sentence.specs.Text.{text_of};
ghost use Rattle.solver.specs.Laid.{Laid};
ghost use Rattle.reader.specs.Same.{same};
ghost use Rattle.reader.specs.Left.{LeftTook, left_none, left_joined};

use checker::Shape;
use solver::Sink;

// What is left of a text behind the bytes that were put, if it begins with them.
#[derive(Drop)]
pub struct Left<'a> {
    pub rest: Option<&'a [u8]>,
}

impl Sink for Left<'_> {
    ghost took = { LeftTook };

    ghost none = { left_none };

    ghost joined = { left_joined };

    fn put(&mut self, bytes: &[u8]) {
        if let Some(rest) = self.rest {
            self.rest = rest.strip_prefix(bytes);
        }
    }
}

// Whether the text is that of the claim in these words.
pub fn same_text(text: &[u8], words: &[i32], shape: Shape) -> bool
    requires { Laid words.now shape }
    ensures { result ≡ same (text_of (claim_of words.now)) text.now }
{
    let mut left = Left { rest: Some(text) };
    solver::put_text(words, shape, &mut left);
    left.rest.is_some_and(|rest| rest.is_empty())
}
