// Reads a job on standard input and writes its report on standard output.
#![tactic(auto)]

ghost use Rattle.std.specs.Prelude.{IfOk, ◌<◌, length, take};
ghost use Rattle.std.specs.Io.{ReadsAtMost};
ghost use Rattle.std.specs.Io.KnownBytes.{Consumes, IsAtEnd};

use std::io;
use std::io::{Read, Write};

fn main(rt: HostRuntime) -> io::Result<()> {
    let mut input = [0u8; job_output::JOB_BUFFER];
    let n = read_full(&mut rt.stdin(), &mut input)?;
    let mut out = [0u8; job_output::MAX_REPORT];
    let k = job_output::report(&input[..n], &mut out);
    rt.stdout().write_all(&out[..k])
}

// Reads until the buffer is full or the input ends, and answers how many bytes that are. Of std, read_to_end takes a heap and read_exact gives no count.
fn read_full<R: Read>(reader: &mut R, buf: &mut [u8]) -> io::Result<usize>
    ensures within { ReadsAtMost result buf.new }
    ensures bytes { IfOk result (λ n. Consumes (R.remaining reader.old) (R.remaining reader.new) (take n buf.new)) }
    ensures whole { IfOk result (λ n. n < length buf.new → IsAtEnd (R.remaining reader.new)) }
{
    let mut done = 0;
    while done < buf.len() {
        let n = reader.read(&mut buf[done..])?;
        if n == 0 {
            break;
        }
        done += n;
    }
    Ok(done)
}
