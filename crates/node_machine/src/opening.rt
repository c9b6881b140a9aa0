//! The opening of a run, as a value that names it.
ghost use Rattle.std.specs.Coded.{coded_ℕ};
ghost use Rattle.node_machine.specs.Only.{TheOnly, only_prop, IsHalf, one_half};

use crate::machine::NodeMachine;
use chronicle::Opens;
use tmf_model::Config;

/// What a run has found of its devices when it begins.
pub trait Finds {
    ghost use Rattle.node_machine.specs.Opening.{Found};

    ghost found: { Self → Found };
}

/// The opening of a run that has found this.
#[derive(Clone, Copy)]
pub struct Opening<'a, F: Finds> {
    pub from: &'a F,
}

impl<'a, F: Finds> Opens<NodeMachine> for Opening<'a, F> {
    ghost use Rattle.node_machine.specs.Opening.{opening_parts};

    ghost opening = { λ o. opening_parts (F.found o.from.now) };
}

/// A sample of what a run finds: no trail and no volume, and a number that stands in the proof alone.
pub struct Sample<'a> {
    pub config: &'a Config,
    pub epoch: u32,
    ghost places: { TheOnly (IsHalf epoch) } by { only_prop coded_ℕ (IsHalf epoch) (one_half epoch) },
}

impl<'a> Finds for Sample<'a> {
    ghost use Rattle.std.specs.Prelude.{[]};
    ghost use Rattle.node_machine.specs.Opening.{Found};

    ghost found = { λ s. record {
      config = s.config.now;
      epoch = s.epoch;
      places = s.places.0;
      trails = [];
      volumes = [];
    } };
}
