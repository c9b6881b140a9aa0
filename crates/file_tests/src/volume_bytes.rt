//! Blocks and labels byte by byte, from bytes that were written by hand.
ghost use Rattle.std.specs.Prelude.{◌<◌};

use keyed_file::{
    BLOCK_BYTES, BadBlock, BadLabel, Block, BlockFault, DumpLabel, Full, Home, Label, LabelFault,
};
use std::alloc::Global;
use tmf_model::{BadWord, Key, Sequence, Value};

/// The bytes with some of them changed.
fn changed<const N: usize>(bytes: &[u8; N], changes: &[(usize, u8)]) -> [u8; N] {
    let mut all = *bytes;
    for &(at, byte) in changes {
        if let Some(place) = all.get_mut(at) {
            *place = byte;
        }
    }
    all
}

/// The bytes with a row of them put in at an offset.
fn with_bytes<const N: usize>(bytes: &[u8; N], at: usize, row: &[u8]) -> [u8; N] {
    let mut all = *bytes;
    for (place, &byte) in all.iter_mut().skip(at).zip(row) {
        *place = byte;
    }
    all
}

/// An empty block of file 3, with number 258.
fn empty_bytes() -> [u8; BLOCK_BYTES] {
    with_bytes(&[0; BLOCK_BYTES], 0, &[1, 0, 3, 0, 1, 2])
}

/// The same with position 0x0102030405060708 and two records.
fn two_records() -> [u8; BLOCK_BYTES] {
    let head = with_bytes(&empty_bytes(), 8, &[1, 2, 3, 4, 5, 6, 7, 8, 0, 2]);
    let first = with_bytes(&with_bytes(&head, 128, &[2, 2]), 136, b"k1");
    let second = with_bytes(&with_bytes(&first, 152, b"v1"), 192, &[3, 40]);
    with_bytes(&with_bytes(&second, 200, b"k10"), 216, &[b'9'; 40])
}

/// Puts the value where there is room, and tells whether there was.
fn put(block: &mut Block, key: &[u8], value: &[u8], position: u64) -> Result<bool, BadWord> {
    let key = Key::new(key)?;
    let value = Value::new(value)?;
    match block.room(&key, &[]) {
        Ok(()) => {
            block.set(&key, Some(value), position);
            Ok(true)
        }
        Err(Full) => Ok(false),
    }
}

/// Whether the key has room beside one that is kept.
fn room_beside(block: &Block, key: &Key, kept: Key) -> Result<(), Full> {
    block.room(key, &[kept])
}

/// The key `k` and two digits.
fn numbered(number: u8) -> [u8; 3]
    requires { number < 100 }
{
    [b'k', b'0' + number / 10, b'0' + number % 10]
}

/// Where the bytes are refused; 65,535 where they are taken.
fn wrong_offset(alloc: Global, home: Option<Home>, bytes: &[u8; BLOCK_BYTES]) -> u16 {
    let found = match home {
        Some(home) if 1 <= home.blocks && home.blocks <= 256 => {
            Block::decode_at(alloc, home, bytes.as_slice())
        }
        _ => Block::decode(alloc, bytes.as_slice()),
    };
    match found {
        Ok(_) => 65535,
        Err(BlockFault::Bad(BadBlock { at })) => at,
        Err(BlockFault::NoMemory) => 65534,
    }
}

#[test]
fn blocks_have_these_bytes(rt: HostRuntime) {
    let mut block = Block::empty(rt.alloc(), 3, 258).expect(&rt, "memory");
    let mut bytes = [0xFF; BLOCK_BYTES];
    block.encode(&mut bytes);
    assert!(rt; bytes == empty_bytes());
    assert!(rt; put(&mut block, b"k10", &[b'9'; 40], 1) == Ok(true));
    assert!(rt; put(&mut block, b"k1", b"v1", 0x0102_0304_0506_0708) == Ok(true));
    block.encode(&mut bytes);
    assert!(rt; bytes == two_records());
    let again = Block::decode(rt.alloc(), bytes.as_slice()).expect(&rt, "a block");
    assert!(rt; again.file() == 3 && again.number() == 258);
    assert!(rt; again.position() == 0x0102_0304_0506_0708);
    assert!(rt; again.records() == block.records() && again.records().len() == 2);
}

#[test]
fn full_block_has_62_records(rt: HostRuntime) {
    let mut block = Block::empty(rt.alloc(), 1, 0).expect(&rt, "memory");
    let mut bytes = with_bytes(&[0; BLOCK_BYTES], 0, &[1, 0, 1, 0, 0, 0, 0, 0]);
    bytes = with_bytes(&bytes, 15, &[1, 0, 62]);
    for number in 1..63 {
        let key = numbered(number);
        assert!(rt; put(&mut block, &key, b"v", 1) == Ok(true));
        let at = 64 + 64 * usize::from(number);
        let slot = with_bytes(&with_bytes(&bytes, at, &[3, 1]), at + 8, &key);
        bytes = with_bytes(&slot, at + 24, b"v");
    }
    let mut written = [0; BLOCK_BYTES];
    block.encode(&mut written);
    assert!(rt; written == bytes);
    assert!(rt; put(&mut block, b"k63", b"v", 2) == Ok(false));
    let last = Key::new(b"k62").expect(&rt, "a key");
    let next = Key::new(b"k63").expect(&rt, "a key");
    block.set(&last, None, 2);
    assert!(rt; block.get(&last) == None && block.position() == 2);
    assert!(rt; room_beside(&block, &next, last) == Err(Full));
    assert!(rt; room_beside(&block, &last, last) == Ok(()));
    assert!(rt; put(&mut block, b"k63", b"w", 3) == Ok(true));
    assert!(rt; block.get(&next) == Value::new(b"w").ok());
}

#[test]
fn each_byte_of_a_block_is_checked(rt: HostRuntime) {
    let table: [(usize, u8, u16); 37] = [
        (0, 2, 0),
        (1, 1, 1),
        (2, 9, 65535),
        (3, 1, 3),
        (4, 9, 65535),
        (5, 9, 65535),
        (6, 1, 6),
        (7, 1, 7),
        (8, 9, 65535),
        (15, 9, 65535),
        (16, 1, 16),
        (17, 63, 16),
        (17, 3, 256),
        (17, 1, 192),
        (18, 1, 18),
        (127, 1, 127),
        (128, 0, 128),
        (128, 17, 128),
        (128, 3, 138),
        (129, 0, 129),
        (129, 41, 129),
        (130, 1, 130),
        (135, 1, 135),
        (136, 0x20, 136),
        (136, b'l', 200),
        (137, 0x7F, 137),
        (138, b'x', 138),
        (151, 1, 151),
        (152, 0, 152),
        (154, 1, 154),
        (191, 1, 191),
        (192, 2, 200),
        (200, b'a', 200),
        (201, b'0', 200),
        (255, 0, 255),
        (256, 1, 256),
        (4095, 1, 4095),
    ];
    for (at, byte, want) in table {
        let bytes = changed(&two_records(), &[(at, byte)]);
        assert!(rt; wrong_offset(rt.alloc(), None, &bytes) == want);
    }
    assert!(rt; wrong_offset(rt.alloc(), None, &[0; BLOCK_BYTES]) == 0);
    assert!(rt; wrong_offset(rt.alloc(), None, &[0xFF; BLOCK_BYTES]) == 0);
    let one = with_bytes(&with_bytes(&empty_bytes(), 4, &[0, 2]), 17, &[1]);
    let bytes = with_bytes(&with_bytes(&one, 128, &[2, 1]), 136, b"k1");
    let bytes = with_bytes(&bytes, 152, b"v");
    let homes: [(u8, u16, u16, u16); 4] = [
        (3, 2, 4, 65535),
        (4, 2, 4, 2),
        (3, 1, 4, 4),
        (3, 2, 8, 136),
    ];
    for (file, number, blocks, want) in homes {
        let home = Home {
            file,
            number,
            blocks,
        };
        assert!(rt; wrong_offset(rt.alloc(), Some(home), &bytes) == want);
    }
}

/// The label of volume 1 on trail 2, with low position 5 and the files 1, of 4 blocks, and 16, of 256.
fn label_bytes() -> [u8; 256] {
    let head = with_bytes(&[0; 256], 0, &[1, 1, 2, 2, 0, 0, 0, 0]);
    with_bytes(&head, 15, &[5, 1, 0, 0, 4, 16, 0, 1, 0])
}

#[test]
fn each_byte_of_a_label_is_checked(rt: HostRuntime) {
    let label = Label {
        volume: 1,
        trail: 2,
        low: 5,
        files: Sequence::new(vec![in rt.alloc(); (1, 4), (16, 256)].expect(&rt, "memory")),
    };
    let found = Label::decode(rt.alloc(), label_bytes().as_slice()).expect(&rt, "a label");
    assert!(rt; found.volume == 1 && found.trail == 2 && found.low == 5);
    assert!(rt; found.files.as_slice() == label.files.as_slice());
    let table: [(usize, u8, u16); 22] = [
        (0, 2, 0),
        (1, 0, 1),
        (1, 9, 1),
        (1, 8, 65535),
        (2, 5, 2),
        (3, 17, 3),
        (3, 1, 20),
        (3, 3, 24),
        (4, 1, 4),
        (7, 1, 7),
        (8, 0x41, 8),
        (15, 0, 8),
        (16, 0, 16),
        (16, 16, 20),
        (17, 1, 17),
        (18, 1, 18),
        (19, 0, 18),
        (20, 17, 20),
        (22, 2, 22),
        (24, 1, 24),
        (80, 1, 80),
        (255, 1, 255),
    ];
    for (at, byte, want) in table {
        let bytes = changed(&label_bytes(), &[(at, byte)]);
        let wrong = match Label::decode(rt.alloc(), bytes.as_slice()) {
            Ok(_) => 65535,
            Err(LabelFault::Bad(BadLabel { at })) => at,
            Err(LabelFault::NoMemory) => 65534,
        };
        assert!(rt; wrong == want);
    }
    for byte in [0, 0xFF] {
        let found = Label::decode(rt.alloc(), [byte; 256].as_slice());
        assert!(rt; matches!(&found, Err(LabelFault::Bad(BadLabel { at: 0 }))));
    }
}

#[test]
fn each_byte_of_a_dump_label_is_checked(rt: HostRuntime) {
    let dump = DumpLabel {
        volume: 8,
        body: 3,
        start: 5,
        sequence: 0x0102_0304_0506_0708,
    };
    let head = with_bytes(&[0; 256], 0, &[1, 8, 3]);
    let hand = with_bytes(&head, 15, &[5, 1, 2, 3, 4, 5, 6, 7, 8]);
    assert!(rt; DumpLabel::decode(hand.as_slice()) == Ok(dump));
    let table: [(usize, u8, u16); 12] = [
        (0, 0, 0),
        (1, 0, 1),
        (1, 9, 1),
        (2, 1, 2),
        (2, 4, 2),
        (3, 1, 3),
        (7, 1, 7),
        (8, 0x41, 8),
        (15, 0, 8),
        (16, 9, 65535),
        (24, 1, 24),
        (255, 1, 255),
    ];
    for (at, byte, want) in table {
        let bytes = changed(&hand, &[(at, byte)]);
        let wrong = match DumpLabel::decode(bytes.as_slice()) {
            Ok(_) => 65535,
            Err(BadLabel { at }) => at,
        };
        assert!(rt; wrong == want);
    }
    let first = with_bytes(&hand, 16, &[0; 8]);
    assert!(rt; DumpLabel::decode(first.as_slice()) == Err(BadLabel { at: 16 }));
    for byte in [0, 0xFF] {
        let found = DumpLabel::decode([byte; 256].as_slice());
        assert!(rt; found == Err(BadLabel { at: 0 }));
    }
}

#[test]
fn labels_are_written_as_they_are_read(rt: HostRuntime) {
    let label = Label::decode(rt.alloc(), label_bytes().as_slice()).expect(&rt, "a label");
    let mut bytes = [0xFF; 256];
    label.encode(&mut bytes);
    assert!(rt; bytes == label_bytes());
    let head = with_bytes(&[0; 256], 0, &[1, 8, 3]);
    let hand = with_bytes(&head, 15, &[5, 1, 2, 3, 4, 5, 6, 7, 8]);
    let dump = DumpLabel::decode(hand.as_slice()).expect(&rt, "a dump label");
    dump.encode(&mut bytes);
    assert!(rt; bytes == hand);
}

#[test]
fn labels_are_compared_with_the_wanted_one(rt: HostRuntime) {
    let wanted = Label::decode(rt.alloc(), label_bytes().as_slice()).expect(&rt, "a label");
    let table: [(usize, u8, u16); 9] = [
        (1, 2, 1),
        (2, 9, 2),
        (3, 1, 3),
        (15, 9, 65535),
        (15, 0, 8),
        (16, 2, 16),
        (19, 5, 19),
        (19, 0, 18),
        (255, 1, 255),
    ];
    for (at, byte, want) in table {
        let bytes = changed(&label_bytes(), &[(at, byte)]);
        let wrong = match Label::decode_at(rt.alloc(), &wanted, bytes.as_slice()) {
            Ok(_) => 65535,
            Err(LabelFault::Bad(BadLabel { at })) => at,
            Err(LabelFault::NoMemory) => 65534,
        };
        assert!(rt; wrong == want);
    }
    let head = with_bytes(&[0; 256], 0, &[1, 8, 3]);
    let hand = with_bytes(&head, 15, &[5, 1, 2, 3, 4, 5, 6, 7, 8]);
    assert!(rt; DumpLabel::decode_at(8, hand.as_slice()).is_ok());
    assert!(rt; DumpLabel::decode_at(7, hand.as_slice()) == Err(BadLabel { at: 1 }));
    let bad = changed(&hand, &[(0, 2)]);
    assert!(rt; DumpLabel::decode_at(7, bad.as_slice()) == Err(BadLabel { at: 0 }));
}

#[test]
fn a_block_is_read_again_in_its_room(rt: HostRuntime) {
    let mut block = Block::empty(rt.alloc(), 1, 0).expect(&rt, "memory");
    assert!(rt; block.refill(two_records().as_slice()) == Ok(()));
    let bad = changed(&two_records(), &[(136, 0x20)]);
    assert!(rt; block.refill(bad.as_slice()) == Err(BadBlock { at: 136 }));
    let mut bytes = [0; BLOCK_BYTES];
    block.encode(&mut bytes);
    assert!(rt; bytes == two_records());
}
