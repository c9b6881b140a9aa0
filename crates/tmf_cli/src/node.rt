//! What the program knows of the node between two actions.
ghost use Rattle.std.specs.Prelude.{◌≡◌, ◌≤◌, max, length, Some, None, false, true};
ghost use Rattle.volume_restore.specs.Bases.{volume_on};
ghost use Rattle.tmf_cli.specs.Lost.{is_lost_volume, lost_flags, none_lost, unless, up_for, with_volume};
ghost use Rattle.tmf_cli.specs.OutputLaw.{unrolled_state};

use crate::lost::{is_lost_volume, lost_flags, volume_on, workers_name_lost};
use rollforward::RollError;
use tmf_model::{Config, Phase};

/// A node that is up.
#[derive(Clone, Copy, Debug, PartialEq, Eq)]
pub struct Up {
    /// The epoch of the next run.
    pub epoch: u32,
    /// Of the volumes 1 to 8, whether each is lost; one that no volume has is not.
    pub lost: [bool; 8],
}

/// The node as the script's actions have left it.
#[derive(Clone, Copy, Debug, PartialEq, Eq)]
pub struct NodeState {
    /// Whether it is up.
    pub up: Option<Up>,
    /// Whether the last `format` so far, if any, has succeeded.
    pub formatted: bool,
    /// How many records of the monitor trail, from the first place on, were printed since the last `format` that succeeded, or since the call began.
    pub printed: u64,
}

impl NodeState {
    /// Before the first action.
    pub fn new() -> NodeState
        ensures { result ≡ record { up = None; formatted = true; printed = 0 } }
    {
        NodeState {
            up: None,
            formatted: true,
            printed: 0,
        }
    }

    /// Behind a format.
    pub fn formatted() -> NodeState
        ensures { result ≡ record { up = Some (record { epoch = 1; lost = none_lost }); formatted = true; printed = 0 } }
    {
        NodeState {
            up: Some(Up {
                epoch: 1,
                lost: lost_flags(&[]),
            }),
            formatted: true,
            printed: 0,
        }
    }

    /// Behind a format that was refused.
    pub fn unformatted(self) -> NodeState
        ensures { result ≡ record { up = None; formatted = false; printed = self.printed } }
    {
        NodeState {
            up: None,
            formatted: false,
            printed: self.printed,
        }
    }

    /// Behind a recovery that has read so many records, and has found these volumes lost.
    pub fn recovered(self, records: u64, lost: &[u8], epoch: u32) -> NodeState
        ensures { result ≡ record { up = Some (record { epoch = epoch; lost = lost_flags lost.now }); formatted = self.formatted; printed = max self.printed records } }
    {
        NodeState {
            up: Some(Up {
                epoch,
                lost: lost_flags(lost),
            }),
            formatted: self.formatted,
            printed: self.printed.max(records),
        }
    }

    /// The node for a run: where it is up, and each volume that an item of the run names.
    pub fn up_for(self, config: &Config, phase: &Phase) -> Option<Up>
        ensures { result ≡ up_for config.now phase.now self }
    {
        match self.up {
            Some(up) => {
                if workers_name_lost(config, &up.lost, phase.workers.as_slice()) {
                    return None;
                }
                Some(up)
            }
            None => None,
        }
    }

    /// The node for a listing of this file: where it is up, and the file's volume.
    pub fn up_with(self, config: &Config, file: u8) -> Option<Up>
        ensures { result ≡ unless (λ up. is_lost_volume up.lost (volume_on config.now file)) self.up }
    {
        match self.up {
            Some(up) => {
                if is_lost_volume(&up.lost, volume_on(config, file)) {
                    return None;
                }
                Some(up)
            }
            None => None,
        }
    }

    /// The same, with this volume, which is no longer lost.
    pub fn with_volume(self, volume: u8) -> NodeState
        requires above { 1 ≤ volume }
        requires below { volume ≤ 8 }
        ensures { result ≡ with_volume volume self }
    {
        match self.up {
            Some(mut up) => {
                up.lost[usize::from(volume) - 1] = false;
                NodeState {
                    up: Some(up),
                    ..self
                }
            }
            None => self,
        }
    }

    /// Behind a rollforward that was refused: down, where a device has failed, or is damaged.
    pub fn unrolled(self, error: RollError) -> NodeState
        ensures { result ≡ unrolled_state error self }
    {
        match error {
            RollError::Failed(_) | RollError::Damaged(_, _) => self.down(),
            RollError::NotLost | RollError::NoDump | RollError::NoMemory => self,
        }
    }

    /// The same, down.
    pub fn down(self) -> NodeState
        ensures { result ≡ record self { up = None } }
    {
        NodeState { up: None, ..self }
    }
}
