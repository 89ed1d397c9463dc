// Reads a claim from standard input, and prints whether it is true at the size that the first argument says, within as many steps as
// the second allows, or why it is refused.
#![tactic(auto)]

ghost use Rattle.std.specs.Prelude.{◌≡◌, ◌≤◌, length, take};

use std::env::FillError;
use std::rt::Env;

// Whether there is an argument with that number. What it begins with may be put into `buf`.
fn is_given(rt: &impl Env, i: usize, buf: &mut [u8]) -> bool {
    !matches!(rt.arg(i, buf), Err(FillError::NotPresent))
}

// An argument as text: empty if there is no such argument, or if there are not two. No argument is longer than this on Linux.
fn read_argument(rt: &impl Env, i: usize, buf: &mut [u8; 131072]) -> usize
    ensures within { result ≤ length buf.new }
    ensures front { result ≡ length (take result buf.new) }
{
    if is_given(rt, 2, buf) && !is_given(rt, 3, buf) {
        return rt.arg(i, buf).unwrap_or(0);
    }
    0
}

fn main(rt: HostRuntime) {
    let mut size = [0u8; 131072];
    let size_count = read_argument(&rt, 1, &mut size);
    let mut allowance = [0u8; 131072];
    let allowance_count = read_argument(&rt, 2, &mut allowance);
    // One byte more than an input text may have.
    let mut input = [0u8; 65536];
    let Ok(count) = streams::read_input(&mut rt.stdin(), &rt, &mut input) else {
        return;
    };
    let mut out = [0u8; 64];
    let n = text::answer_decide(
        &size[..size_count],
        &allowance[..allowance_count],
        &input[..count],
        &mut out,
    );
    let _ = streams::write_output(&mut rt.stdout(), &rt, &out[..n]);
}
