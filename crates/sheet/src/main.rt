// The printing program of 01: a job from standard input, and its sheet, or its refusal, on standard output.
#![tactic(auto)]

use std::io;
use std::io::Write;

fn main(rt: HostRuntime) -> io::Result<()> {
    // A job has at most 1,024 bytes. What is longer is refused, however long: 1,040 bytes of it are enough to tell.
    let mut input = [0u8; 1040];
    let n = streams::read_full(&mut rt.reader(), &mut input)?;
    let mut text = [0u8; 5424];
    let k = printed::sheet(&input[..n], &mut text);
    io::writer(&rt).write_all(&text[..k])
}
