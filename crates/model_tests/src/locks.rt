//! Locks in rows: who takes what, and who stands against it.
use record_locks::{Locks, TakeRefused};
use tmf_model::{Key, Transid};

/// The first attempt at the first item of a worker.
fn of_worker(worker: u16) -> Transid {
    Transid {
        epoch: 1,
        worker,
        ordinal: 1,
        attempt: 1,
    }
}

/// Worker 1 has the record `k1` of file 3, worker 2 asks for more and more.
fn records_and_files(locks: &mut Locks, k1: Key, k2: Key) -> bool {
    let (first, second) = (of_worker(1), of_worker(2));
    locks.take(3, k1, first) == Ok(())
        && locks.take(3, k1, first) == Ok(())
        && locks.take(3, k1, second) == Err(TakeRefused::Holder(first))
        && locks.take(3, k2, second) == Ok(())
        && locks.take_file(3, second) == Err(TakeRefused::Holder(first))
        && locks.take_file(4, second) == Ok(())
        && locks.take(4, k1, second) == Ok(())
        && locks.take(4, k2, first) == Err(TakeRefused::Holder(second))
}

/// Worker 1 releases, and all but what worker 2 has is free.
fn released(locks: &mut Locks, k1: Key, k2: Key) -> bool {
    let (first, second) = (of_worker(1), of_worker(2));
    locks.mark(3, &k2);
    locks.release(first);
    locks.held(3, &k1).is_none()
        && locks.held(3, &k2) == Some(second)
        && locks.held(4, &k1) == Some(second)
        && locks.take_file(3, second) == Ok(())
}

#[test]
fn locks_are_taken_and_released(rt: HostRuntime) {
    let mut locks = Locks::new(rt.alloc());
    match (Key::new(b"k1"), Key::new(b"k2")) {
        (Ok(k1), Ok(k2)) => {
            assert!(rt; records_and_files(&mut locks, k1, k2));
            assert!(rt; released(&mut locks, k1, k2));
            match locks.kept(3, 0, 1) {
                Ok(kept) => assert!(rt; kept.len() == 1 && kept[0] == k2),
                Err(_) => assert!(rt; false),
            }
        }
        _ => assert!(rt; false),
    }
}
