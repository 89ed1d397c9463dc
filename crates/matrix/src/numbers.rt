// The numbers of earlier nodes, and what divides them.
ghost use Rattle.std.specs.Prelude.{◌≡◌, ◌<◌, ◌≤◌, nat_abs, length};
ghost use Rattle.checker.specs.Kinds.{no_number, number};
ghost use Rattle.checker.specs.Words.{word};
ghost use Rattle.checker.specs.Meaning.{divides};
ghost use Rattle.matrix.specs.Bound.{max_bound};
ghost use Rattle.matrix.specs.Work.{says};

// The sign of c does not matter, and 0 divides nothing.
pub fn divided(c: i32, t: i32) -> bool
    requires { nat_abs t ≤ max_bound }
    ensures { result ≡ divides c t }
{
    c != 0 && t % c == 0
}

// The number of an earlier node.
pub fn child(values: &[i32], c: i32) -> i32
    requires { (number c < length values.now) × (number c < no_number) }
    ensures { result ≡ word values.now (number c) }
{
    values[c as usize]
}

// Whether an earlier formula is true.
pub fn yes(values: &[i32], c: i32) -> bool
    requires { (number c < length values.now) × (number c < no_number) }
    ensures { result ≡ says values.now (number c) }
{
    child(values, c) == 1
}
