//! What the records of each trail keep to.
ghost use Rattle.std.specs.Prelude.{◌≡◌, ◌≤◌, ◌<◌, [], length, IfOk};
ghost use Rattle.std.specs.List.{enumerate_from};
ghost use Rattle.tmf_model.specs.Config.{IsValidConfig};
ghost use Rattle.trail_replay.specs.Rules.{discs_among, files_among, rules_of};

use std::alloc::{AllocError, Global};
use tmf_model::{Config, FileLine, Sequence, Volume};
use trail_files::Rules;

/// The number of the monitor trail, and of its device.
pub const MONITOR: u8 = 0;

/// The numbers of the volumes that are audited to the trail.
fn discs_of(alloc: Global, volumes: &[Volume], trail: u8) -> Result<Vec<u8>, AllocError>
    requires { length volumes.now < 255 }
    ensures { IfOk result (λ discs. discs.items ≡ discs_among trail (enumerate_from 1 volumes.now)) }
{
    let mut discs = Vec::new(alloc);
    let mut rest = volumes;
    let mut number = 1;
    while let Some((volume, more)) = rest.split_first() {
        if volume.trail == trail {
            discs.push(number)?;
        }
        rest = more;
        number += 1;
    }
    Ok(discs)
}

/// The files that lie on one of the volumes, each with its volume.
fn files_of(alloc: Global, files: &[FileLine], discs: &[u8]) -> Result<Vec<(u8, u8)>, AllocError>
    requires { length files.now < 255 }
    ensures { IfOk result (λ pairs. pairs.items ≡ files_among discs.now (enumerate_from 1 files.now)) }
{
    let mut pairs = Vec::new(alloc);
    let mut rest = files;
    let mut number = 1;
    while let Some((file, more)) = rest.split_first() {
        if discs.contains(&file.volume) {
            pairs.push((number, file.volume))?;
        }
        rest = more;
        number += 1;
    }
    Ok(pairs)
}

/// What the records of an auxiliary trail keep to.
pub fn rules_of_trail(alloc: Global, config: &Config, trail: u8) -> Result<Rules, AllocError>
    requires { IsValidConfig config.now }
    ensures { IfOk result (λ rules. rules ≡ rules_of config.now trail) }
{
    let discs = discs_of(alloc, config.volumes.as_slice(), trail)?;
    let files = files_of(alloc, config.files.as_slice(), &discs)?;
    Ok(Rules {
        roll: config.roll,
        trail,
        discs: Sequence::new(discs),
        files: Sequence::new(files),
    })
}

/// What the records of the monitor trail keep to, which has no audit.
pub fn rules_of_monitor(alloc: Global, roll: u64) -> Rules
    ensures { result ≡ record { roll = roll; trail = 0; discs = []; files = [] } }
{
    Rules {
        roll,
        trail: MONITOR,
        discs: Sequence::new(Vec::new(alloc)),
        files: Sequence::new(Vec::new(alloc)),
    }
}
