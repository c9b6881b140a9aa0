//! The name of a block.
ghost use Rattle.std.specs.Prelude.{◌≡◌, ◌≤◌};
ghost use Rattle.tmf_model.specs.Config.{IsWithin};
ghost use Rattle.keyed_file.specs.declared.label.Label.{Label};
ghost use Rattle.keyed_file.specs.Dump.{blocks_in_all};
ghost use Rattle.keyed_file.specs.LabelFormat.{IsLabel};
ghost use Rattle.keyed_file.specs.Volume.{blocks_of};
ghost use Rattle.block_cache.specs.Cache.{frames_of};

use keyed_file::Label;

/// A block of a volume: its file and its number in it, from 0.
#[derive(Clone, Copy, Debug, PartialEq, Eq)]
pub struct BlockNo {
    pub file: u8,
    pub number: u16,
}

/// How many blocks a file has on a volume with these files.
pub fn blocks_in(files: &[(u8, u16)], file: u8) -> u16
    ensures { result ≡ blocks_of files.now file }
{
    let mut rest = files;
    while let Some(((number, blocks), more)) = rest.split_first() {
        if file == *number {
            return *blocks;
        }
        rest = more;
    }
    0
}

/// How many blocks a volume's files have.
fn count_blocks(label: &Label) -> u32
    requires { IsLabel label.now }
    ensures count { result ≡ blocks_in_all label.now.files }
    ensures few { result ≤ 4096 }
{
    let mut blocks = 0;
    for (_, count) in label.files.as_slice() {
        blocks += u32::from(*count);
    }
    blocks
}

/// How many frames serve the blocks of a volume, of so many that it may have.
pub fn frames_for(label: &Label, cache: u32) -> u16
    requires label { IsLabel label.now }
    requires cache { 1 ≤ cache }
    ensures count { result ≡ frames_of (blocks_in_all label.now.files) cache }
    ensures within { IsWithin 1 4096 result }
{
    let blocks = count_blocks(label);
    if blocks == 0 {
        1
    } else if cache < blocks {
        cache as u16
    } else {
        blocks as u16
    }
}
