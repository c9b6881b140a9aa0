//! What has been read of a script.
use crate::fault::Why;
use crate::keyword::Place;
use std::alloc::Global;
use tmf_model::{Action, Config, Item, Script, Sequence, Step};

/// Which limits have a line of their own.
#[derive(Clone, Copy)]
pub struct Given {
    pub cache: bool,
    pub car: bool,
    pub roll: bool,
    pub steps: bool,
}

/// What the lines so far say, and where the next one stands.
#[derive(Drop)]
pub struct State {
    pub config: Config,
    pub given: Given,
    /// The actions that have ended.
    pub actions: Sequence<Action>,
    pub place: Place,
    /// After how many device calls the open run is cut off, if it is.
    pub kill: Option<u64>,
    /// The workers of the open run that have ended.
    pub workers: Sequence<Sequence<Item>>,
    /// The items of the open worker that have ended.
    pub items: Sequence<Item>,
    /// How often the open transaction may be attempted.
    pub attempts: u8,
    /// The steps of the open transaction.
    pub steps: Sequence<Step>,
}

impl State {
    ghost use Rattle.std.specs.Prelude.{◌≡◌};
    ghost use Rattle.tmf_script.specs.State.{start};

    /// Nothing has been read.
    pub fn new(alloc: Global) -> State
        ensures { result ≡ start }
    {
        State {
            config: Config {
                trails: Sequence::new(Vec::new(alloc)),
                volumes: Sequence::new(Vec::new(alloc)),
                files: Sequence::new(Vec::new(alloc)),
                cache: 64,
                car_count: 64,
                car_holds: 0,
                roll: 65_536,
                steps: 1_000_000,
            },
            given: Given {
                cache: false,
                car: false,
                roll: false,
                steps: false,
            },
            actions: Sequence::new(Vec::new(alloc)),
            place: Place::Head,
            kill: None,
            workers: Sequence::new(Vec::new(alloc)),
            items: Sequence::new(Vec::new(alloc)),
            attempts: 1,
            steps: Sequence::new(Vec::new(alloc)),
        }
    }
}

impl State {
    ghost use Rattle.std.specs.Prelude.{◌≡◌};
    ghost use Rattle.tmf_script.specs.Checks.{Gives};
    ghost use Rattle.tmf_script.specs.Reading.{has_volume, after_end};

    /// Whether a volume is declared.
    pub fn has_volume(&self) -> bool
        ensures { result ≡ has_volume self.now }
    {
        self.config.volumes.len() > 0
    }

    /// The script, where the text may end here.
    #[tactic(auto, unfolding(crate::specs::Reading::after_end))]
    pub fn end(self) -> Result<Script, Why>
        ensures { Gives (λ script. script) result (after_end self) }
    {
        match self.place {
            Place::Head | Place::Body => {}
            _ => return Err(Why::WrongPlace),
        }
        if !self.has_volume() {
            return Err(Why::NoVolume);
        }
        Ok(Script {
            config: self.config,
            actions: self.actions,
        })
    }
}
