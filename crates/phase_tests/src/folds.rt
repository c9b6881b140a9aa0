//! Many transactions over a cache of two blocks.
use crate::nodes::{Free, disks, done, formatted, listed, recovered, script};
use std::process::Abort;
use std::test::Fail;

/// One volume with a file of 16 blocks, two of which may be in memory.
const SMALL_CACHE: &[u8] = b"trail A\nvolume $D A\nfile F $D 16\ncache 2\ncar 4 2\nroll 4096\n";

/// How many items each worker has.
const ITEMS: u8 = 50;

/// How many keys each worker has.
const KEYS: u8 = 20;

fn push_digits(text: &mut Vec<u8>, number: u8) -> Result<(), Fail> {
    text.push(48u8.saturating_add(number / 10 % 10))?;
    text.push(48u8.saturating_add(number % 10))?;
    Ok(())
}

fn push_key(text: &mut Vec<u8>, worker: u8, key: u8) -> Result<(), Fail> {
    text.extend_from_slice(b"k")?;
    push_digits(text, worker)?;
    push_digits(text, key)
}

/// A worker's items: each puts its own number at one of the worker's keys.
fn push_worker(text: &mut Vec<u8>, worker: u8) -> Result<(), Fail> {
    text.extend_from_slice(b"worker\n")?;
    for item in 0..ITEMS {
        text.extend_from_slice(b"begin\nput F ")?;
        push_key(text, worker, item % KEYS)?;
        text.extend_from_slice(b" ")?;
        push_digits(text, item)?;
        text.extend_from_slice(b"\ncommit\n")?;
    }
    Ok(())
}

/// The last item that puts this key.
fn last_of(key: u8) -> u8 {
    let mut last = 0;
    for item in 0..ITEMS {
        if item % KEYS == key {
            last = item;
        }
    }
    last
}

/// The list that a worker's items leave.
fn push_fold(text: &mut Vec<u8>, worker: u8) -> Result<(), Fail> {
    for key in 0..KEYS {
        push_key(text, worker, key)?;
        text.extend_from_slice(b"=")?;
        push_digits(text, last_of(key))?;
        text.extend_from_slice(b" ")?;
    }
    Ok(())
}

#[test]
fn a_small_cache_loses_nothing(rt: HostRuntime) -> Result<(), Fail> {
    let alloc = rt.alloc();
    let mut workers = Vec::new(alloc);
    let mut fold = Vec::new(alloc);
    for worker in 1..5 {
        push_worker(&mut workers, worker)?;
        push_fold(&mut fold, worker)?;
    }
    let script = script(alloc, SMALL_CACHE, &workers)?;
    let bay = formatted(alloc, &script.config, disks(alloc)?)?;
    let (outcomes, mut bay) = done(&rt, alloc, &script, &Free, bay)?;
    assert_eq!(rt; outcomes.len(), 200);
    assert_eq!(rt; recovered(alloc, &mut bay, &script.config)?, 201);
    let list = listed(alloc, &mut bay, &script.config, 1)?;
    assert!(rt; list.as_str().as_bytes() == fold.as_slice());
    Ok(())
}
