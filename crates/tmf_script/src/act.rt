//! The lines of actions, a run's aside.
ghost use Rattle.std.specs.Prelude.{◌≡◌};
ghost use Rattle.tmf_script.specs.Checks.{Leaves};
ghost use Rattle.tmf_script.specs.State.{IsSmall, with_action, with_lose, with_rollforward, with_list};

use crate::fault::{LineError, Why};
use crate::keyword::Place;
use crate::state::State;
use tmf_model::{Action, Name};

impl State {
    /// A line of one action.
    #[tactic(auto, unfolding(crate::specs::State::with_action))]
    pub fn act(&mut self, action: Action) -> Result<(), LineError>
        ensures { Leaves result self.new (with_action self.old action) }
    {
        self.actions.push(action)?;
        self.place = Place::Body;
        Ok(())
    }

    /// A line `lose`.
    #[tactic(auto, unfolding(crate::specs::State::with_lose))]
    pub fn lose(&mut self, name: &Name) -> Result<(), LineError>
        requires { IsSmall self.old.config }
        ensures { Leaves result self.new (with_lose self.old name.now) }
    {
        let Some(volume) = self.volume_number(name) else {
            return Err(LineError::Refused(Why::UnknownName));
        };
        self.act(Action::Lose(volume))
    }

    /// A line `rollforward`.
    #[tactic(auto, unfolding(crate::specs::State::with_rollforward))]
    pub fn rollforward(&mut self, name: &Name, kill: Option<u64>) -> Result<(), LineError>
        requires { IsSmall self.old.config }
        ensures { Leaves result self.new (with_rollforward self.old name.now kill) }
    {
        let Some(volume) = self.volume_number(name) else {
            return Err(LineError::Refused(Why::UnknownName));
        };
        self.act(Action::Rollforward(volume, kill))
    }

    /// A line `list`.
    #[tactic(auto, unfolding(crate::specs::State::with_list))]
    pub fn list(&mut self, name: &Name) -> Result<(), LineError>
        requires { IsSmall self.old.config }
        ensures { Leaves result self.new (with_list self.old name.now) }
    {
        let Some(file) = self.file_number(name) else {
            return Err(LineError::Refused(Why::UnknownName));
        };
        self.act(Action::List(file))
    }
}
