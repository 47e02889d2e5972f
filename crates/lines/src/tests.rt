// What no contract says: that there is memory for small things, and what a line of an input is, by example.
use crate::buffer::{LONGEST, TooLong};
use crate::hex;
use crate::reader::LineReader;
use crate::words::Words;
use std::test::Fail;

#[test]
fn digits_and_bytes(rt: HostRuntime) -> Result<(), Fail> {
    let heap = rt.alloc();
    let bytes = hex::decode(heap, b"00ff7a")?;
    assert!(rt; bytes.as_deref() == Some([0, 255, 122].as_slice()));
    let none = hex::decode(heap, b"")?;
    assert!(rt; none.as_deref() == Some([].as_slice()));
    let odd = hex::decode(heap, b"00f")?;
    assert!(rt; odd.is_none());
    let capital = hex::decode(heap, b"FF")?;
    assert!(rt; capital.is_none());
    let empty = hex::bytes_of(heap, b"")?;
    assert!(rt; empty.is_none());
    assert_eq!(rt; hex::array_of(b"00ff7a"), Some([0, 255, 122]));
    assert_eq!(rt; hex::array_of::<2>(b"00ff7a"), None);
    let mut text = hex::digits_of(heap, &[0, 255])?;
    hex::append(&mut text, &[122])?;
    assert!(rt; text.as_slice() == b"00ff7a".as_slice());
    Ok(())
}

#[test]
fn words_between_spaces(rt: HostRuntime) {
    let mut words = Words::of(b"one  two ");
    assert!(rt; words.next() == Some(b"one".as_slice()));
    assert!(rt; words.next() == Some(b"".as_slice()));
    assert!(rt; words.next() == Some(b"two".as_slice()));
    assert!(rt; !words.is_done());
    assert!(rt; words.next() == Some(b"".as_slice()));
    assert!(rt; words.is_done());
    assert!(rt; words.next().is_none());
}

#[test]
fn lines_of_an_input(rt: HostRuntime) -> Result<(), Fail> {
    let heap = rt.alloc();
    let mut input = vec![in heap; b'x'; LONGEST + 1]?;
    input.extend_from_slice(b"\nab\n\n")?;
    input.extend_from_slice(vec![in heap; b'y'; LONGEST]?.as_slice())?;
    let mut lines = LineReader::new(heap, input.as_slice());
    assert!(rt; lines.next_line()? == Some(Err(TooLong)));
    assert!(rt; lines.next_line()? == Some(Ok(b"ab".as_slice())));
    assert!(rt; lines.next_line()? == Some(Ok(b"".as_slice())));
    let last = lines.next_line()?.transpose()?;
    assert_eq!(rt; last.map(<[u8]>::len), Some(LONGEST));
    assert!(rt; lines.next_line()?.is_none());
    Ok(())
}
