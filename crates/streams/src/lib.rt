// A program's standard input, read whole, and its standard output. Both are passed in: what a reader or a writer over memory gives or gets
// is proved, and a system's own streams are read and written by the same code. An error is told on standard error before it is returned.
#![tactic(auto)]

ghost use Rattle.std.specs.Prelude.{◌<◌, ◌≤◌, length, take, IfOk, OnOk};
ghost use Rattle.std.specs.Io.KnownBytes.{Appends, Consumes, IsAtEnd};

use std::io;
use std::io::{Read, Write};

// One line to standard error, if that takes it: which stream failed, and why.
fn say(rt: &impl Eprint, stream: &str, error: &io::Error) {
    let _ = eprintln!(rt; "{stream}: {error}");
}

// Standard input from its start on, until it ends or `buf` is full.
pub fn read_input<R: Read>(stdin: &mut R, rt: &impl Eprint, buf: &mut [u8]) -> io::Result<usize>
    ensures within { IfOk result (λ n. n ≤ length buf.new) }
    ensures bytes { IfOk result (λ n. Consumes (R.remaining stdin.old) (R.remaining stdin.new) (take n buf.new)) }
    ensures end { IfOk result (λ n. n < length buf.new → IsAtEnd (R.remaining stdin.new)) }
{
    let mut done = 0;
    // A `while`: how many bytes a read gives is the reader's to say.
    while done < buf.len() {
        let more = stdin
            .read(&mut buf[done..])
            .inspect_err(|error| say(rt, "standard input", error))?;
        if more == 0 {
            return Ok(done);
        }
        done += more;
    }
    Ok(done)
}

// Puts all of the bytes to standard output.
pub fn write_output<W: Write>(stdout: &mut W, rt: &impl Eprint, bytes: &[u8]) -> io::Result<()>
    ensures { OnOk result (Appends (W.contents stdout.old) (W.contents stdout.new) bytes.now) }
{
    stdout
        .write_all(bytes)
        .inspect_err(|error| say(rt, "standard output", error))
}
