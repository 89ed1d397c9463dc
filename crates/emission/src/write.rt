// Numbers as words, and single nodes written into a lent slice.
ghost use Rattle.std.specs.Prelude.{◌≡◌, [], ◌∷◌, ◌+◌, ◌*◌, ◌≤◌, pos};
ghost use Rattle.emission.specs.Emission.{region_node};
ghost use Rattle.lent.specs.Write.{Wrote};
ghost use Rattle.emission.specs.Write.{max_number, Room, WroteNodes};
ghost use Rattle.emission.specs.Plan.{place_in};

use crate::Frame;
use crate::kinds::{MAXC, NUMBER};

// A number as a word.
pub fn word(n: usize) -> i32
    requires { n ≤ max_number }
    ensures { result ≡ pos n }
{
    n as i32
}

// Three words as node `at`. The number of the next node is handed back, here and below.
pub fn put_words(out: &mut [i32], at: usize, kind: i32, a: i32, b: i32) -> usize
    requires { Room out.old at 1 }
    ensures { Wrote out.old (3 * at) (kind ∷ a ∷ b ∷ []) out.new (3 * result) }
{
    // Word by word: through `lent::put_all` a reduction was measured to take up to two and a half times as long.
    let i = 3 * at;
    out[i] = kind;
    out[i + 1] = a;
    out[i + 2] = b;
    at + 1
}

// A node of a kind and two numbers.
pub fn put_node(out: &mut [i32], at: usize, kind: usize, a: usize, b: usize) -> usize
    requires { Room out.old at 1 × (kind ≤ max_number) × (a ≤ max_number) × (b ≤ max_number) }
    ensures { Wrote out.old (3 * at) (pos kind ∷ pos a ∷ pos b ∷ []) out.new (3 * result) }
{
    put_words(out, at, word(kind), word(a), word(b))
}

// The count of region r.
pub fn put_region(out: &mut [i32], at: usize, frame: Frame, r: usize) -> usize
    requires { Room out.old at 1 × (frame.first + r ≤ max_number) }
    ensures { WroteNodes out.old at (region_node (place_in frame) r ∷ []) out.new result }
{
    if frame.level == 0 {
        return put_node(out, at, MAXC, 0, 0);
    }
    put_node(out, at, NUMBER, frame.first + r, 0)
}
