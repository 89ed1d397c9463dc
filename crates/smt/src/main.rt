// Reads a claim from standard input, and prints the text for a solver of the claim that it is reduced to, or why it is refused.
#![tactic(auto)]

fn main(rt: HostRuntime) {
    // One byte more than an input text may have.
    let mut input = [0u8; 65536];
    let Ok(count) = streams::read_input(&mut rt.stdin(), &rt, &mut input) else {
        return;
    };
    let mut out = [0u8; 393216];
    let n = smt_text::answer_smt(&input[..count], &mut out);
    let _ = streams::write_output(&mut rt.stdout(), &rt, &out[..n]);
}
