//! The places of a volume's blocks, in the order of a dump's body.
ghost use Rattle.std.specs.Prelude.{◌≡◌, ◌++◌, IfOk, OnOk};
ghost use Rattle.rollforward.specs.Body.{homes_below, homes_in};

use keyed_file::Home;
use std::alloc::{AllocError, Global};

/// Puts the places of a file's blocks behind the others.
fn push_homes(homes: &mut Vec<Home>, file: u8, blocks: u16) -> Result<(), AllocError>
    ensures { OnOk result (homes.new.items ≡ homes.old.items ++ homes_below file blocks blocks) }
{
    for number in 0..blocks {
        homes.push(Home {
            file,
            number,
            blocks,
        })?;
    }
    Ok(())
}

/// The places of all blocks of these files, one file behind the other.
pub fn homes_of(alloc: Global, files: &[(u8, u16)]) -> Result<Vec<Home>, AllocError>
    ensures { IfOk result (λ homes. homes.items ≡ homes_in files.now) }
{
    let mut homes = Vec::new(alloc);
    for (file, blocks) in files {
        push_homes(&mut homes, *file, *blocks)?;
    }
    Ok(homes)
}
