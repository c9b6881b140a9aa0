//! What no clause says: a block's records before and after its changes, written by hand.
ghost use Rattle.std.specs.Prelude.{◌≡◌, Some, true, IfOk};
ghost use Rattle.keyed_file.specs.BlockFormat.{is_at_home};

use keyed_file::{Block, Home};
use std::alloc::Global;
use std::collections::BTreeMap;
use std::test::Fail;
use tmf_model::{Key, Value, place_of};
use trail_replay::Found;
use volume_restore::{found_by_block, recovered_block};

/// The one block of file 3.
const HOME: Home = Home {
    file: 3,
    number: 0,
    blocks: 1,
};

/// A key of one letter.
fn key(letter: u8) -> Result<Key, Fail> {
    match Key::new(&[letter]) {
        Ok(key) => Ok(key),
        Err(_) => Err(Fail::new("no key")),
    }
}

/// Changes of keys of one letter, each with the letter that is its value, of which 0 is none.
fn changes(alloc: Global, told: &[(u8, u8)]) -> Result<Found, Fail> {
    let mut found = BTreeMap::new(alloc);
    for (letter, value) in told {
        let value = match Value::new(&[*value]) {
            Ok(value) => Some(value),
            Err(_) => None,
        };
        found.insert(key(*letter)?, value)?;
    }
    Ok(found)
}

/// The block with these changes made, behind this position.
fn changed(alloc: Global, block: &Block, told: &[(u8, u8)], position: u64) -> Result<Block, Fail>
    requires { is_at_home (Some (record { file = 3; number = 0; blocks = 1 })) block.now ≡ true }
    ensures { IfOk result (λ made. is_at_home (Some (record { file = 3; number = 0; blocks = 1 })) made ≡ true) }
{
    let found = changes(alloc, told)?;
    match recovered_block(alloc, block, HOME, &found, position) {
        Ok(made) => Ok(made),
        Err(_) => Err(Fail::new("no block")),
    }
}

/// Whether the block has at this key a value of this letter, of which 0 is none.
fn has(block: &Block, letter: u8, value: u8) -> Result<bool, Fail> {
    let wanted = match Value::new(&[value]) {
        Ok(value) => Some(value),
        Err(_) => None,
    };
    Ok(block.get(&key(letter)?) == wanted)
}

#[test]
fn changes_are_made_in_a_block(rt: HostRuntime) -> Result<(), Fail> {
    let alloc = rt.alloc();
    let Ok(empty) = Block::empty(alloc, 3, 0) else {
        return Err(Fail::new("no block"));
    };
    let first = changed(
        alloc,
        &empty,
        &[(b'a', b'1'), (b'b', b'5'), (b'c', b'6')],
        3,
    )?;
    let second = changed(
        alloc,
        &first,
        &[(b'a', b'2'), (b'b', 0), (b'd', b'9'), (b'e', 0)],
        7,
    )?;
    let third = changed(alloc, &second, &[], 9)?;
    assert!(rt; third.position() == 7 && third.records() == second.records());
    let gone = changed(alloc, &third, &[(b'a', 0), (b'c', 0), (b'd', 0)], 11)?;
    let kept = changed(alloc, &gone, &[], 13)?;
    assert!(rt; kept.position() == 11 && kept.records().is_empty());
    assert!(rt; first.position() == 3 && first.records().len() == 3);
    assert!(rt; second.position() == 7 && second.records().len() == 3);
    assert!(rt; has(&second, b'a', b'2')? && has(&second, b'b', 0)?);
    assert!(rt; has(&second, b'c', b'6')? && has(&second, b'd', b'9')?);
    Ok(())
}

#[test]
fn what_was_found_of_a_file_goes_to_its_blocks(rt: HostRuntime) -> Result<(), Fail> {
    let alloc = rt.alloc();
    let found = changes(
        alloc,
        &[(b'a', b'1'), (b'b', 0), (b'c', b'3'), (b'd', b'4')],
    )?;
    let parts = found_by_block(alloc, &found, 2)?;
    assert!(rt; parts.len() == 2 && parts[0].len() + parts[1].len() == 4);
    for letter in [b'a', b'b', b'c', b'd'] {
        let key = key(letter)?;
        let part = &parts[usize::from(place_of(&key, 2))];
        assert!(rt; part.get(&key) == found.get(&key));
    }
    Ok(())
}
