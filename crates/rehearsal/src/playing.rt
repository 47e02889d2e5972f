// A script, from its input to what is printed.
use crate::committee::Committee;
use crate::script::{Player, Reply};
use book::{Book, Entry, MAX_BLOCKS, MAX_LOAD, MAX_PARENTS};
use lines::reader::LineReader;
use members::Faults;
use std::io;
use std::io::{Read, Write};

/// Prints what a line is answered with.
fn print(rt: &HostRuntime, reply: Reply) -> io::Result<()> {
    match reply {
        Reply::Nothing => Ok(()),
        Reply::No => rt.stdout().write_all(b"no\n"),
        Reply::Line(mut line) => {
            line.push(b'\n')?;
            rt.stdout().write_all(line.as_slice())
        }
    }
}

/// Plays a script to its end, with a book that has room for all the blocks that a book may hold.
pub fn play<R: Read + Drop>(rt: &HostRuntime, faults: Faults, input: R) -> io::Result<()> {
    let heap = rt.alloc();
    let mut entries = vec![in heap; Entry::EMPTY; MAX_BLOCKS]?;
    let mut parents = vec![in heap; 0u32; MAX_BLOCKS * MAX_PARENTS]?;
    let mut loads = vec![in heap; 0u8; MAX_BLOCKS * MAX_LOAD]?;
    let book = Book::new(
        entries.as_mut_slice(),
        parents.as_mut_slice(),
        loads.as_mut_slice(),
    );
    let mut player = Player::new(Committee::new(heap, faults, book)?);
    let mut reader = LineReader::new(heap, input);
    // counted, since each loop is proved to end, and nothing says how long an input is
    for _ in 0..u64::MAX {
        let Some(line) = reader.next_line()? else {
            break;
        };
        let reply = player.hear(line)?;
        print(rt, reply)?;
    }
    Ok(())
}
