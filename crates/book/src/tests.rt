// A few blocks in a small book.
use crate::library::{Library, parents_of};
use crate::{Block, Book, Entry, Refusal};

fn block<'a>(author: u32, round: u32, parents: &'a [u32], load: &'a [u8]) -> Block<'a> {
    Block {
        author,
        round,
        parents,
        load,
    }
}

#[test]
fn a_block_met_twice_has_one_name(rt: HostRuntime) {
    let mut entries = [Entry::EMPTY; 4];
    let mut parents = [0; 4];
    let mut loads = [0; 4];
    let mut book = Book::new(&mut entries, &mut parents, &mut loads);
    assert_eq!(rt; book.meet(block(0, 0, &[], b"a")), Ok(0));
    assert_eq!(rt; book.meet(block(1, 0, &[], b"a")), Ok(1));
    assert_eq!(rt; book.meet(block(0, 1, &[0, 1], b"b")), Ok(2));
    assert_eq!(rt; book.meet(block(1, 0, &[], b"a")), Ok(1));
    assert!(rt; book.view().load(2) == b"b".as_slice());
    assert_eq!(rt; book.view().block(2), block(0, 1, &[0, 1], b"b"));
    assert_eq!(rt; book.view().find(block(1, 0, &[], b"a")), Some(1));
    assert_eq!(rt; book.view().find(block(1, 0, &[], b"b")), None);
}

#[test]
fn parents_come_in_order(rt: HostRuntime) {
    let mut entries = [Entry::EMPTY; 4];
    let mut parents = [0; 4];
    let mut loads = [0; 4];
    let mut book = Book::new(&mut entries, &mut parents, &mut loads);
    assert_eq!(rt; book.meet(block(0, 0, &[], b"")), Ok(0));
    assert_eq!(rt; book.meet(block(1, 0, &[], b"")), Ok(1));
    assert_eq!(rt; book.meet(block(0, 1, &[1, 0], b"")), Ok(2));
    let view = book.view();
    assert_eq!(rt; in_decimal(&view, 2), 10);
    assert_eq!(rt; in_decimal(&view, 0), 0);
}

// the parents' names, as the digits of a number
fn in_decimal<B: Library>(book: &B, name: u32) -> u32 {
    parents_of(book, name).fold(0, |digits: u32, parent| {
        digits.saturating_mul(10).saturating_add(parent)
    })
}

#[test]
fn what_cannot_be_kept_is_refused(rt: HostRuntime) {
    let mut entries = [Entry::EMPTY; 2];
    let mut parents = [0; 4];
    let mut loads = [0; 4];
    let mut book = Book::new(&mut entries, &mut parents, &mut loads);
    assert_eq!(rt;
        book.meet(block(0, 0, &[0; 65], b"")),
        Err(Refusal::TooManyParents)
    );
    assert_eq!(rt;
        book.meet(block(0, 0, &[], &[0; 257])),
        Err(Refusal::LoadTooLong)
    );
    assert_eq!(rt;
        book.meet(block(0, 0, &[0], b"")),
        Err(Refusal::NoSuchParent)
    );
    assert_eq!(rt; book.meet(block(0, 0, &[], b"bytes")), Err(Refusal::NoRoom));
    assert_eq!(rt; book.len(), 0);
}
