//! Where a file lies.
ghost use Rattle.std.specs.Prelude.{◌≡◌, ◌<◌};
ghost use Rattle.tmf_model.specs.Config.{IsDeclared, IsValidConfig};
ghost use Rattle.trail_replay.specs.Home.{LiesOn};

use tmf_model::Config;

/// A file's number, with that of its volume and that of the volume's trail.
#[derive(Clone, Copy)]
pub struct FileLocation {
    pub file: u8,
    pub volume: u8,
    pub trail: u8,
}

/// Where a file lies.
pub fn home_of(config: &Config, file: u8) -> FileLocation
    requires valid { IsValidConfig config.now }
    requires declared { IsDeclared config.now.files file }
    ensures file { result.file ≡ file }
    ensures lies { LiesOn config.now file result.volume result.trail }
    ensures few { result.trail < 21 }
{
    let volume = config.file(file).unwrap().volume;
    let trail = config.trail_of(volume).unwrap();
    FileLocation {
        file,
        volume,
        trail,
    }
}
