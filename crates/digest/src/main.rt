//! Reads lines of hexadecimal digits, and prints SHA3-256 and SHA3-512 of the bytes of each, or `no` for a line that is not such.
//!
//! Two lower-case digits are a byte, and an empty line is the empty message.
#![tactic(auto)]

mod answer;

use answer::answer;
use std::io;
use std::io::{BufRead, BufReader, Write};

fn main(rt: HostRuntime) -> io::Result<()> {
    let heap = rt.alloc();
    let mut out = rt.stdout();
    for line in BufReader::new(heap, rt.stdin())?.split(heap, b'\n') {
        let line = line?;
        let mut text = answer(heap, &line)?;
        text.push(b'\n')?;
        out.write_all(&text)?;
    }
    Ok(())
}
