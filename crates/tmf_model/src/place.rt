//! Which block of its file a key lives in.
ghost use Rattle.std.specs.Prelude.{◌≡◌, ◌<◌};
ghost use Rattle.tmf_model.specs.Config.{IsWithin};
ghost use Rattle.tmf_model.specs.Place.{block_of, key_sum};

use crate::word::Key;

/// The number of the key's block, from 0, in a file of 1 to 256 blocks.
pub fn place_of(key: &Key, blocks: u16) -> u16
    requires { IsWithin 1 256 blocks }
    ensures place { result ≡ block_of key.now blocks }
    ensures within { result < blocks }
{
    (sum_of(key) % u32::from(blocks)) as u16
}

/// The key's bytes as digits to base 31, modulo 65,521.
fn sum_of(key: &Key) -> u32
    ensures sum { result ≡ key_sum key.now }
    ensures below { result < 65521 }
{
    let mut sum: u32 = 0;
    for &byte in key.as_bytes() {
        sum = (31 * sum + u32::from(byte)) % 65_521;
    }
    sum
}
