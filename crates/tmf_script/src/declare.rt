//! The lines of the head: what they declare.
ghost use Rattle.std.specs.Prelude.{◌≡◌, ◌<◌, ◌≤◌, length, IfSome};
ghost use Rattle.tmf_script.specs.Checks.{Leaves};
ghost use Rattle.tmf_script.specs.State.{IsSmall, declared_trail, declared_volume, declared_file, with_trail, with_volume, with_file, with_cache, with_car, with_roll, with_steps};

use crate::fault::{LineError, Why};
use crate::keyword::is_same;
use crate::state::State;
use tmf_model::{FileLine, Name, Volume};

const MOST_TRAILS: usize = 4;

const MOST_VOLUMES: usize = 8;

const MOST_FILES: usize = 16;

impl State {
    /// The number of the trail with this name, if it is declared.
    pub fn trail_number(&self, name: &Name) -> Option<u8>
        requires { IsSmall self.now.config }
        ensures { result ≡ declared_trail self.now name.now }
    {
        let mut rest = self.config.trails.as_slice();
        let mut number = 1;
        while let [trail, others @ ..] = rest {
            if is_same(trail.as_bytes(), name.as_bytes()) {
                return Some(number);
            }
            rest = others;
            number += 1;
        }
        None
    }

    /// The number of the volume with this name, if it is declared.
    pub fn volume_number(&self, name: &Name) -> Option<u8>
        requires { IsSmall self.now.config }
        ensures { result ≡ declared_volume self.now name.now }
    {
        let mut rest = self.config.volumes.as_slice();
        let mut number = 1;
        while let [volume, others @ ..] = rest {
            if is_same(volume.name.as_bytes(), name.as_bytes()) {
                return Some(number);
            }
            rest = others;
            number += 1;
        }
        None
    }

    /// The number of the file with this name, if it is declared.
    pub fn file_number(&self, name: &Name) -> Option<u8>
        requires { IsSmall self.now.config }
        ensures { result ≡ declared_file self.now name.now }
    {
        let mut rest = self.config.files.as_slice();
        let mut number = 1;
        while let [file, others @ ..] = rest {
            if is_same(file.name.as_bytes(), name.as_bytes()) {
                return Some(number);
            }
            rest = others;
            number += 1;
        }
        None
    }

    /// A line `trail`.
    #[tactic(auto, unfolding(crate::specs::State::with_trail))]
    pub fn add_trail(&mut self, name: Name) -> Result<(), LineError>
        requires { IsSmall self.old.config }
        ensures { Leaves result self.new (with_trail self.old name) }
    {
        if self.trail_number(&name).is_some() {
            return Err(LineError::Refused(Why::SameName));
        }
        if self.config.trails.len() >= MOST_TRAILS {
            return Err(LineError::Refused(Why::TooMany));
        }
        self.config.trails.push(name)?;
        Ok(())
    }

    /// A line `volume`.
    #[tactic(auto, unfolding(crate::specs::State::with_volume))]
    pub fn add_volume(&mut self, name: Name, on: &Name) -> Result<(), LineError>
        requires { IsSmall self.old.config }
        ensures { Leaves result self.new (with_volume self.old name on.now) }
    {
        let Some(trail) = self.trail_number(on) else {
            return Err(LineError::Refused(Why::UnknownName));
        };
        if self.volume_number(&name).is_some() {
            return Err(LineError::Refused(Why::SameName));
        }
        if self.config.volumes.len() >= MOST_VOLUMES {
            return Err(LineError::Refused(Why::TooMany));
        }
        self.config.volumes.push(Volume { name, trail })?;
        Ok(())
    }

    /// A line `file`.
    #[tactic(auto, unfolding(crate::specs::State::with_file))]
    pub fn add_file(&mut self, name: Name, on: &Name, blocks: u16) -> Result<(), LineError>
        requires { IsSmall self.old.config }
        ensures { Leaves result self.new (with_file self.old name on.now blocks) }
    {
        let Some(volume) = self.volume_number(on) else {
            return Err(LineError::Refused(Why::UnknownName));
        };
        if self.file_number(&name).is_some() {
            return Err(LineError::Refused(Why::SameName));
        }
        if self.config.files.len() >= MOST_FILES {
            return Err(LineError::Refused(Why::TooMany));
        }
        self.config.files.push(FileLine {
            name,
            volume,
            blocks,
        })?;
        Ok(())
    }

    /// A line `cache`.
    #[tactic(auto, unfolding(crate::specs::State::with_cache))]
    pub fn set_cache(&mut self, blocks: u32) -> Result<(), LineError>
        ensures { Leaves result self.new (with_cache self.old blocks) }
    {
        if self.given.cache {
            return Err(LineError::Refused(Why::SameName));
        }
        self.config.cache = blocks;
        self.given.cache = true;
        Ok(())
    }

    /// A line `car`.
    #[tactic(auto, unfolding(crate::specs::State::with_car))]
    pub fn set_car(&mut self, requests: u32, holds: u32) -> Result<(), LineError>
        ensures { Leaves result self.new (with_car self.old requests holds) }
    {
        if self.given.car {
            return Err(LineError::Refused(Why::SameName));
        }
        self.config.car_count = requests;
        self.config.car_holds = holds;
        self.given.car = true;
        Ok(())
    }

    /// A line `roll`.
    #[tactic(auto, unfolding(crate::specs::State::with_roll))]
    pub fn set_roll(&mut self, bytes: u64) -> Result<(), LineError>
        ensures { Leaves result self.new (with_roll self.old bytes) }
    {
        if self.given.roll {
            return Err(LineError::Refused(Why::SameName));
        }
        self.config.roll = bytes;
        self.given.roll = true;
        Ok(())
    }

    /// A line `steps`.
    #[tactic(auto, unfolding(crate::specs::State::with_steps))]
    pub fn set_steps(&mut self, events: u64) -> Result<(), LineError>
        ensures { Leaves result self.new (with_steps self.old events) }
    {
        if self.given.steps {
            return Err(LineError::Refused(Why::SameName));
        }
        self.config.steps = events;
        self.given.steps = true;
        Ok(())
    }
}
