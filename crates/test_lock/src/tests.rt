// Rows and tests.
use crate::notes::Notes;
use crate::passes::{count, halves, opened, write, write_in_threads};
use std::alloc::Global;
use std::sync::Wait;
use std::test::Fail;
use turn_lock::LockFault;

// Two entries, then a split, one entry by the new pass, and a join: the entries, and how many of
// them the joined pass has seen.
fn split_and_joined<W: Wait>(
    rt: &W,
    alloc: Global,
    ticket: u64,
    keeps_first: bool,
) -> Result<(Notes, u64), LockFault> {
    let (lock, pass) = opened(alloc, ticket)?;
    let pass = write(&lock, rt, pass, 0, 3, 2);
    let (mut pass, other) = halves(&lock, pass, 0, 9, 8);
    let mut other = write(&lock, rt, other, 9, 9, 1);
    if keeps_first {
        lock.join(&mut pass, other);
        let entries = count(&lock, rt, &mut pass);
        return Ok((lock.close(pass)?, entries));
    }
    lock.join(&mut other, pass);
    let entries = count(&lock, rt, &mut other);
    Ok((lock.close(other)?, entries))
}

// A pass that speaks for 9 of the actors closes the lock.
fn closed_by_fewer<W: Wait>(rt: &W, alloc: Global) -> Result<Notes, LockFault> {
    let (lock, pass) = opened(alloc, 0)?;
    let (pass, other) = halves(&lock, pass, 0, 9, 8);
    let other = write(&lock, rt, other, 9, 16, 5);
    drop(other);
    lock.close(pass)
}

#[test]
fn entries_stand_in_order(rt: HostRuntime) -> Result<(), Fail> {
    let alloc: Global = rt.alloc();
    for ticket in [0, u64::MAX - 2, u64::MAX] {
        for keeps_first in [true, false] {
            let (notes, entries) = split_and_joined(&rt, alloc, ticket, keeps_first)?;
            assert_eq!(rt; entries, 3, "from ticket {ticket}");
            assert!(rt;
                notes.are(&[(3, 0), (3, 1), (9, 0)]),
                "from ticket {ticket}"
            );
        }
    }
    Ok(())
}

#[test]
fn a_pass_of_fewer_actors_closes(rt: HostRuntime) -> Result<(), Fail> {
    let alloc: Global = rt.alloc();
    let notes = closed_by_fewer(&rt, alloc)?;
    assert!(rt;
        notes.are(&[(16, 0), (16, 1), (16, 2), (16, 3), (16, 4)]),
        "five entries"
    );
    Ok(())
}

#[test]
fn every_entry_of_many_threads(rt: HostRuntime) -> Result<(), Fail> {
    let alloc: Global = rt.alloc();
    let (lock, pass) = opened(alloc, u64::MAX - 5000)?;
    let pass = write_in_threads(&lock, &rt, pass, 0, 17, 1000);
    let notes = lock.close(pass)?;
    assert!(rt;
        notes.has_all(1000),
        "each actor's entries stand once and in order"
    );
    Ok(())
}
