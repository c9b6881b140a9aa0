//! Names, keys, values and identifiers by tables: which bytes are one, how they are ordered, and where a key lives.
use std::cmp::Ordering;
use tmf_model::{BadWord, Key, Name, Transid, Value, place_of};

#[test]
fn names_have_two_forms(rt: HostRuntime) {
    let table: [(&[u8], bool, bool); 14] = [
        (b"A", true, false),
        (b"ACCT", true, false),
        (b"MAT", true, false),
        (b"A1234567", true, false),
        (b"A12345678", false, false),
        (b"1A", false, false),
        (b"Acct", false, false),
        (b"", false, false),
        (b"$D", true, true),
        (b"$DATA1", true, true),
        (b"$A123456", true, true),
        (b"$A1234567", false, false),
        (b"$", false, false),
        (b"$1", false, false),
    ];
    for (bytes, want, volume) in table {
        match Name::new(bytes) {
            Ok(name) => assert!(rt;
                want && name.as_bytes() == bytes && name.is_volume() == volume && name == name
            ),
            Err(BadWord) => assert!(rt; !want),
        }
    }
}

#[test]
fn keys_are_words_of_16_bytes(rt: HostRuntime) {
    let table: [(&[u8], bool); 10] = [
        (b"k", true),
        (b"!~", true),
        (b"0123456789abcdef", true),
        (b"0123456789abcdefg", false),
        (b"", false),
        (b"a b", false),
        (b"a\tb", false),
        (b"a\x7f", false),
        (b"\xc3\xa9", false),
        (b"k\0", false),
    ];
    for (bytes, want) in table {
        match Key::new(bytes) {
            Ok(key) => assert!(rt; want && key.as_bytes() == bytes),
            Err(BadWord) => assert!(rt; !want),
        }
    }
}

#[test]
fn values_are_words_of_40_bytes(rt: HostRuntime) {
    let longest = [b'9'; 41];
    for (len, want) in [(0, false), (1, true), (40, true), (41, false)] {
        match Value::new(&longest[..len]) {
            Ok(value) => assert!(rt; want && value.as_bytes() == &longest[..len] && value == value),
            Err(BadWord) => assert!(rt; !want),
        }
    }
}

#[test]
fn keys_are_ordered_by_bytes(rt: HostRuntime) {
    let table: [(&[u8], &[u8], Ordering); 5] = [
        (b"a", b"ab", Ordering::Less),
        (b"ab", b"b", Ordering::Less),
        (b"Z", b"a", Ordering::Less),
        (b"k9", b"k10", Ordering::Greater),
        (b"key", b"key", Ordering::Equal),
    ];
    for (left, right, want) in table {
        if let (Ok(left), Ok(right)) = (Key::new(left), Key::new(right)) {
            assert!(rt; left.cmp(&right) == want);
            assert!(rt; (left == right) == (want == Ordering::Equal));
        } else {
            assert!(rt; false);
        }
    }
}

/// Whether the key's sum is this one: a sum below 65,521 is told by its rests at 253, 255 and 256, which have no factor in common.
fn has_sum(key: &Key, sum: u32) -> bool {
    u32::from(place_of(key, 253)) == sum % 253
        && u32::from(place_of(key, 255)) == sum % 255
        && u32::from(place_of(key, 256)) == sum % 256
}

#[test]
fn keys_live_in_the_block_of_their_sum(rt: HostRuntime) {
    let table: [(&[u8], u32, u16, u16); 5] = [
        (b"k1", 3366, 4, 2),
        (b"zz", 3904, 16, 0),
        (b"zzz", 55625, 16, 9),
        (b"zzz", 55625, 1, 0),
        (b"zzz", 55625, 256, 73),
    ];
    for (bytes, sum, blocks, place) in table {
        match Key::new(bytes) {
            Ok(key) => assert!(rt; has_sum(&key, sum) && place_of(&key, blocks) == place),
            Err(_) => assert!(rt; false),
        }
    }
}

#[test]
fn identifiers_are_ordered_by_epoch_first(rt: HostRuntime) {
    let first = Transid {
        epoch: 1,
        worker: 16,
        ordinal: 4096,
        attempt: 8,
    };
    let second = Transid {
        epoch: 2,
        worker: 1,
        ordinal: 1,
        attempt: 1,
    };
    assert!(rt; first < second && first == first && first != second);
}
