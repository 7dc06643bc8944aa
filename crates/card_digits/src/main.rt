#![tactic(auto)]
// The program: standard input is read, and its report is written. All that matters is in `report`.
ghost use Rattle.std.specs.Prelude.{◌≤◌, length, IfSome};

use std::io;
use std::io::{ErrorKind, Read};

// One read into what is left of a buffer: how many bytes it brought. A read that a signal interrupted brings none and is tried again;
// at the end of the input, or where a read fails, nothing more comes.
fn step<R: Read>(reader: &mut R, rest: &mut [u8]) -> Option<usize>
    ensures { IfSome result (λ n. n ≤ length rest.new) }
{
    match reader.read(rest) {
        Ok(0) => None,
        Ok(n) => Some(n),
        Err(e) if e.kind() == ErrorKind::Interrupted => Some(0),
        Err(_) => None,
    }
}

// Reads until the buffer is full or the input ends, a thousand times at most: a pipe may bring a byte at a time.
fn fill<R: Read>(reader: &mut R, buf: &mut [u8]) -> usize
    ensures { result ≤ length buf.new }
{
    let mut n: usize = 0;
    for _ in 0..1000 {
        if n == buf.len() {
            break;
        }
        let Some(got) = step(reader, &mut buf[n..]) else {
            break;
        };
        n += got;
    }
    n
}

fn main(rt: HostRuntime) -> io::Result<()> {
    let mut input = [0u8; 35];
    let mut reader = rt.reader();
    let n = fill(&mut reader, &mut input);
    let r = report::report(&input[..n]);
    rt.write_all(&r.bytes[..r.len])
}
