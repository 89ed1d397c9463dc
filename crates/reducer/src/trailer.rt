// The trailer, which points back.
ghost use Rattle.std.specs.Prelude.{[], ◌∷◌, ◌+◌, ◌≤◌, pos, length};
ghost use Rattle.checker.specs.Words.{mark};
ghost use Rattle.lent.specs.Write.{Wrote};
ghost use Rattle.emission.specs.Write.{max_number};

use emission::write::word;

const MARK: usize = 2005;

pub fn put_trailer(
    out: &mut [i32],
    at: usize,
    root: usize,
    nodes: usize,
    quantifiers: usize,
) -> usize
    requires { (at + 4 ≤ length out.old) × (root ≤ max_number) × (nodes ≤ max_number) × (quantifiers ≤ max_number) }
    ensures { Wrote out.old at (pos root ∷ pos nodes ∷ pos quantifiers ∷ pos mark ∷ []) out.new result }
{
    let words = [word(root), word(nodes), word(quantifiers), word(MARK)];
    lent::put_all(out, at, &words)
}
