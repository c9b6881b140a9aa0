//! What a line does to what has been read.
ghost use Rattle.std.specs.Prelude.{◌≡◌};
ghost use Rattle.tmf_script.specs.Checks.{Leaves};
ghost use Rattle.tmf_script.specs.State.{IsSmall, taken};
ghost use Rattle.tmf_script.specs.Text.{words_of};
ghost use Rattle.tmf_script.specs.Reading.{after_line, after_words};

use crate::fault::{LineError, Why};
use crate::keyword::{Keyword, Place};
use crate::line::Line;
use crate::state::State;
use crate::words::{is_printable_line, next_word};
use std::alloc::Global;
use tmf_model::{Action, Close, Op};

impl State {
    /// Reads one line of the text, without its end.
    #[tactic(auto, unfolding(crate::specs::Reading::after_line))]
    pub fn read_line(&mut self, alloc: Global, line: &[u8]) -> Result<(), LineError>
        requires { IsSmall self.old.config }
        ensures { Leaves result self.new (after_line self.old line.now) }
    {
        if !is_printable_line(line) {
            return Err(LineError::Refused(Why::BadByte));
        }
        match next_word(line) {
            None => Ok(()),
            Some(([b'#', ..], _)) => Ok(()),
            Some((first, rest)) => self.read_words(alloc, first, rest),
        }
    }

    /// Reads a line that says something, by its first word and what follows it.
    #[tactic(auto, unfolding(crate::specs::Reading::after_words))]
    fn read_words(&mut self, alloc: Global, first: &[u8], rest: &[u8]) -> Result<(), LineError>
        requires { IsSmall self.old.config }
        ensures { Leaves result self.new (after_words self.old first.now (words_of rest.now)) }
    {
        let Some(keyword) = Keyword::of(first) else {
            return Err(LineError::Refused(Why::UnknownWord));
        };
        let home = keyword.home();
        if !self.place.allows(home) {
            return Err(LineError::Refused(Why::WrongPlace));
        }
        if home == Place::Body && !self.has_volume() {
            return Err(LineError::Refused(Why::NoVolume));
        }
        match Line::read(keyword, rest) {
            Ok(line) => self.take(alloc, line),
            Err(why) => Err(LineError::Refused(why)),
        }
    }

    /// Takes a line that stands here.
    #[tactic(auto, unfolding(crate::specs::State::taken))]
    fn take(&mut self, alloc: Global, line: Line) -> Result<(), LineError>
        requires { IsSmall self.old.config }
        ensures { Leaves result self.new (taken self.old line) }
    {
        match line {
            Line::Trail(name) => self.add_trail(name),
            Line::Volume(name, on) => self.add_volume(name, &on),
            Line::File(name, on, blocks) => self.add_file(name, &on, blocks),
            Line::Cache(blocks) => self.set_cache(blocks),
            Line::Car(requests, holds) => self.set_car(requests, holds),
            Line::Roll(bytes) => self.set_roll(bytes),
            Line::Steps(events) => self.set_steps(events),
            Line::Format => self.act(Action::Format),
            Line::Recover(kill) => self.act(Action::Recover(kill)),
            Line::Lose(volume) => self.lose(&volume),
            Line::Rollforward(volume, kill) => self.rollforward(&volume, kill),
            Line::List(file) => self.list(&file),
            Line::Run(kill) => {
                self.begin_run(kill);
                Ok(())
            }
            Line::Worker => self.begin_worker(alloc),
            Line::End => self.end_run(alloc),
            Line::Control(volume) => self.control(&volume),
            Line::Dump(volume) => self.dump(&volume),
            Line::Begin(attempts) => self.begin(attempts),
            Line::Put(file, key, value) => self.step(&file, key, Op::Put(value)),
            Line::Add(file, key, number) => self.step(&file, key, Op::Add(number)),
            Line::Del(file, key) => self.step(&file, key, Op::Del),
            Line::Read(file, key) => self.step(&file, key, Op::Read),
            Line::Commit => self.close(alloc, Close::Commit),
            Line::Abort => self.close(alloc, Close::Abort),
        }
    }
}
