//! The lines of runs: their workers, items and steps.
ghost use Rattle.std.specs.Prelude.{◌≡◌, OnOk};
ghost use Rattle.tmf_script.specs.Checks.{Leaves};
ghost use Rattle.tmf_script.specs.State.{IsSmall, with_run, closed_worker, with_worker, with_end, with_control, with_dump, with_begin, with_step, with_close};

use crate::fault::{LineError, Why};
use crate::keyword::Place;
use crate::state::State;
use std::alloc::{AllocError, Global};
use std::mem;
use tmf_model::{Action, Close, Item, Key, Name, Op, Phase, Sequence, Step, Transaction};

const MOST_WORKERS: usize = 16;

const MOST_ITEMS: usize = 4096;

const MOST_STEPS: usize = 64;

impl State {
    /// A line `run`.
    #[tactic(auto, unfolding(crate::specs::State::with_run))]
    pub fn begin_run(&mut self, kill: Option<u64>)
        ensures { self.new ≡ with_run self.old kill }
    {
        self.place = Place::Run;
        self.kill = kill;
    }

    /// Ends the open worker, if one is open.
    #[tactic(auto, unfolding(crate::specs::State::closed_worker))]
    fn close_worker(&mut self, alloc: Global) -> Result<(), AllocError>
        ensures { OnOk result (self.new ≡ closed_worker self.old) }
    {
        if self.place == Place::Worker {
            let items = mem::replace(&mut self.items, Sequence::new(Vec::new(alloc)));
            self.workers.push(items)?;
        }
        Ok(())
    }

    /// A line `worker`.
    #[tactic(auto, unfolding(crate::specs::State::with_worker))]
    pub fn begin_worker(&mut self, alloc: Global) -> Result<(), LineError>
        ensures { Leaves result self.new (with_worker self.old) }
    {
        self.close_worker(alloc)?;
        if self.workers.len() >= MOST_WORKERS {
            return Err(LineError::Refused(Why::TooMany));
        }
        self.place = Place::Worker;
        Ok(())
    }

    /// A line `end`.
    #[tactic(auto, unfolding(crate::specs::State::with_end))]
    pub fn end_run(&mut self, alloc: Global) -> Result<(), LineError>
        ensures { Leaves result self.new (with_end self.old) }
    {
        self.close_worker(alloc)?;
        let workers = mem::replace(&mut self.workers, Sequence::new(Vec::new(alloc)));
        let kill = self.kill;
        self.act(Action::Run(Phase { kill, workers }))
    }

    /// A line `control`.
    #[tactic(auto, unfolding(crate::specs::State::with_control))]
    pub fn control(&mut self, name: &Name) -> Result<(), LineError>
        requires { IsSmall self.old.config }
        ensures { Leaves result self.new (with_control self.old name.now) }
    {
        let Some(volume) = self.volume_number(name) else {
            return Err(LineError::Refused(Why::UnknownName));
        };
        if self.items.len() >= MOST_ITEMS {
            return Err(LineError::Refused(Why::TooMany));
        }
        self.items.push(Item::Control(volume))?;
        Ok(())
    }

    /// A line `dump`.
    #[tactic(auto, unfolding(crate::specs::State::with_dump))]
    pub fn dump(&mut self, name: &Name) -> Result<(), LineError>
        requires { IsSmall self.old.config }
        ensures { Leaves result self.new (with_dump self.old name.now) }
    {
        let Some(volume) = self.volume_number(name) else {
            return Err(LineError::Refused(Why::UnknownName));
        };
        if self.items.len() >= MOST_ITEMS {
            return Err(LineError::Refused(Why::TooMany));
        }
        self.items.push(Item::Dump(volume))?;
        Ok(())
    }

    /// A line `begin`.
    #[tactic(auto, unfolding(crate::specs::State::with_begin))]
    pub fn begin(&mut self, attempts: u8) -> Result<(), LineError>
        ensures { Leaves result self.new (with_begin self.old attempts) }
    {
        if self.items.len() >= MOST_ITEMS {
            return Err(LineError::Refused(Why::TooMany));
        }
        self.place = Place::Transaction;
        self.attempts = attempts;
        Ok(())
    }

    /// A line of one step.
    #[tactic(auto, unfolding(crate::specs::State::with_step))]
    pub fn step(&mut self, name: &Name, key: Key, op: Op) -> Result<(), LineError>
        requires { IsSmall self.old.config }
        ensures { Leaves result self.new (with_step self.old name.now key op) }
    {
        let Some(file) = self.file_number(name) else {
            return Err(LineError::Refused(Why::UnknownName));
        };
        if self.steps.len() >= MOST_STEPS {
            return Err(LineError::Refused(Why::TooMany));
        }
        self.steps.push(Step { file, key, op })?;
        Ok(())
    }

    /// A line `commit` or `abort`.
    #[tactic(auto, unfolding(crate::specs::State::with_close))]
    pub fn close(&mut self, alloc: Global, close: Close) -> Result<(), LineError>
        ensures { Leaves result self.new (with_close self.old close) }
    {
        let steps = mem::replace(&mut self.steps, Sequence::new(Vec::new(alloc)));
        let transaction = Transaction {
            attempts: self.attempts,
            steps,
            close,
        };
        self.items.push(Item::Transaction(transaction))?;
        self.place = Place::Worker;
        Ok(())
    }
}
