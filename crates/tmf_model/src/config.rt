//! The configuration of a node: its trails, volumes and files, and its limits.
ghost use Rattle.std.specs.Prelude.{◌≡◌};
ghost use Rattle.std.specs.Option.{option_map};
ghost use Rattle.tmf_model.specs.Commits.{numbered};

use crate::name::Name;
use crate::sequence::Sequence;

/// A volume and the trail of its audit.
#[derive(Clone, Copy, PartialEq, Eq)]
pub struct Volume {
    pub name: Name,
    /// The trail's number, from 1.
    pub trail: u8,
}

/// A file and the volume that it lies on.
#[derive(Clone, Copy, PartialEq, Eq)]
pub struct FileLine {
    pub name: Name,
    /// The volume's number, from 1.
    pub volume: u8,
    /// How many blocks it has, 1 to 256.
    pub blocks: u16,
}

/// The configuration of a node. Trails, volumes and files are numbered from 1 in their order here.
#[derive(Drop)]
pub struct Config {
    pub trails: Sequence<Name>,
    pub volumes: Sequence<Volume>,
    pub files: Sequence<FileLine>,
    /// The blocks that each volume's cache holds.
    pub cache: u32,
    /// The most commit requests of one boxcar, a write of several commit records.
    pub car_count: u32,
    /// How many turns a boxcar waits for more requests.
    pub car_holds: u32,
    /// The length in bytes at which a trail goes on in a new file.
    pub roll: u64,
    /// The most events of one part in one run.
    pub steps: u64,
}

/// The item with this number, from 1, where there is one.
fn numbered<T: Copy>(items: &[T], number: u8) -> Option<T>
    ensures { result ≡ numbered items.now number }
{
    let before = number.checked_sub(1)?;
    items.get(usize::from(before)).copied()
}

impl Config {
    /// The name of the trail with this number, where it is declared.
    pub fn trail(&self, number: u8) -> Option<Name>
        ensures { result ≡ numbered self.now.trails number }
    {
        numbered(self.trails.as_slice(), number)
    }

    /// The volume with this number, where it is declared.
    pub fn volume(&self, number: u8) -> Option<Volume>
        ensures { result ≡ numbered self.now.volumes number }
    {
        numbered(self.volumes.as_slice(), number)
    }

    /// The file with this number, where it is declared.
    pub fn file(&self, number: u8) -> Option<FileLine>
        ensures { result ≡ numbered self.now.files number }
    {
        numbered(self.files.as_slice(), number)
    }

    /// The number of the trail that a volume is audited to, where the volume is declared.
    pub fn trail_of(&self, volume: u8) -> Option<u8>
        ensures { result ≡ option_map (λ v. v.trail) (numbered self.now.volumes volume) }
    {
        let volume = self.volume(volume)?;
        Some(volume.trail)
    }
}
