// Writing into lent slices: what there is room for, what was written, and how writes join. Each function answers the place after what it put.

#![tactic(auto)]

ghost use Rattle.std.specs.Prelude.{[], ◌∷◌, replicate};
ghost use Rattle.lent.specs.Write.{Room, Wrote};

pub fn put<T: Copy>(out: &mut [T], at: usize, x: T) -> usize
    requires { Room out.old at (x ∷ []) }
    ensures { Wrote out.old at (x ∷ []) out.new result }
{
    out[at] = x;
    at + 1
}

pub fn put_all<T: Copy>(out: &mut [T], at: usize, xs: &[T]) -> usize
    requires { Room out.old at xs.now }
    ensures { Wrote out.old at xs.now out.new result }
{
    let end = at + xs.len();
    out[at..end].copy_from_slice(xs);
    end
}

// The same element `times` times.
pub fn put_repeated<T: Copy>(out: &mut [T], at: usize, x: T, times: usize) -> usize
    requires { Room out.old at (replicate times x) }
    ensures { Wrote out.old at (replicate times x) out.new result }
{
    let end = at + times;
    for place in &mut out[at..end] {
        *place = x;
    }
    end
}
