//! Where the blocks of a volume stand in the body of a dump.
ghost use Rattle.std.specs.Prelude.{◌≤◌, IfNone, IfSome};
ghost use Rattle.tmf_model.specs.Config.{IsValidConfig};
ghost use Rattle.keyed_file.specs.Dump.{blocks_in_all};
ghost use Rattle.keyed_file.specs.Volume.{files_on};
ghost use Rattle.online_dump.specs.Places.{StandsIn};

use block_cache::BlockNo;
use tmf_model::Config;

/// The block at a place of the body of a dump of this volume. There is none behind the last.
pub fn block_at(config: &Config, volume: u8, place: u32) -> Option<BlockNo>
    requires { IsValidConfig config.now }
    ensures some { IfSome result (λ n. StandsIn (files_on volume 1 config.now.files) place n.file n.number) }
    ensures none { IfNone result (blocks_in_all (files_on volume 1 config.now.files) ≤ place) }
{
    let mut file = 1;
    let mut left = place;
    for line in config.files.as_slice() {
        if line.volume == volume {
            if left < u32::from(line.blocks) {
                return Some(BlockNo {
                    file,
                    number: left as u16,
                });
            }
            left -= u32::from(line.blocks);
        }
        file += 1;
    }
    None
}
