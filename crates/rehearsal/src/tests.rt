// What no contract says: that there is memory for a small committee, and that its calls then succeed.
use crate::{Act, Committee, Player, Reply};
use book::{Book, Entry};
use lines::words::Words;
use members::Faults;
use std::test::Fail;

#[test]
fn one_member_orders_its_block(rt: HostRuntime) -> Result<(), Fail> {
    let heap = rt.alloc();
    let mut entries = [Entry::EMPTY; 2];
    let mut parents = [0; 2];
    let mut loads = [0; 2];
    let book = Book::new(&mut entries, &mut parents, &mut loads);
    let mut committee = Committee::new(heap, Faults::try_from(0)?, book)?;
    let mut no_parents = Words::of(b"");
    let _ = no_parents.next();
    assert_eq!(rt;
        committee.name_block(b"a", 0, 0, b"x", no_parents)?,
        Some(0)
    );
    assert!(rt; committee.book().view().load(0) == b"x".as_slice());
    assert!(rt; committee.step(Act::Makes, 0, b"a").is_ok());
    assert!(rt; committee.step(Act::Makes, 0, b"a").is_err());
    let mut player = Player::new(committee);
    let reply = player.respond(b"block b 0 1 - a")?;
    assert!(rt; matches!(reply, Reply::Nothing));
    assert_eq!(rt; player.book().len(), 2);
    Ok(())
}
