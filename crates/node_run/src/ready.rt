//! The devices of a run as they were opened, with the list of the monitor trail.
ghost use Rattle.std.specs.Prelude.{◌≡◌, map};
ghost use Rattle.node_run.specs.Listed.{Listing, listing_prop};
ghost use Rattle.node_run.specs.Named.{AreAllKept};
ghost use Rattle.run_opening.specs.Found.{IsOnlyList};
ghost use Rattle.run_opening.specs.Kept.{device_kept};
ghost use Rattle.run_outcomes.specs.Devices.{told_in};
ghost use Rattle.run_states.specs.Begun.{device_in};
ghost use Rattle.tmf_model.specs.declared.config.Config.{Config};

use disk_model::Disk;
use run_opening::{Kept, Opened, close};
use std::marker::Model;

/// The devices as they were opened. Contracts see the list that the monitor trail spells, too: this stands in a proof alone.
#[derive(Drop)]
pub struct Ready<D: Disk> {
    opened: Opened<D>,
    ghost listed: { Listing (told_in D.Disk (device_in opened.kept.items) 0) } by { listing_prop (told_in D.Disk (device_in opened.kept.items) 0) },
}

impl<D: Disk> Model for Ready<D> {
    ghost use Rattle.node_run.specs.Listed.{ReadyView, list_of};
    ghost use Rattle.run_outcomes.specs.Devices.{told_in};
    ghost use Rattle.run_states.specs.Begun.{device_in};

    ghost Value = { ReadyView D };

    ghost view = { λ r. record { opened = r.opened; list = list_of (told_in D.Disk (device_in r.opened.kept.items) 0) r.listed } };
}

impl<D: Disk> Ready<D> {
    /// The devices, with the list that the monitor trail spells, if it tells one.
    pub fn new(opened: Opened<D>) -> Ready<D>
        requires { Listing (told_in D.Disk (device_in opened.kept.items) 0) }
        ensures opened { result.opened ≡ opened }
        ensures list { (config : Config) → IsOnlyList config (told_in D.Disk (device_in opened.kept.items)) result.list }
    {
        Ready { opened }
    }

    /// What is kept of the devices, in the order of their numbers.
    pub fn kept(&self) -> &[Kept<D>]
        ensures { result.now ≡ self.now.opened.kept.items }
    {
        self.opened.kept.as_slice()
    }

    /// The devices as they were opened.
    pub fn into_opened(self) -> Opened<D>
        ensures { result ≡ self.opened }
    {
        let Ready { opened, .. } = self;
        opened
    }

    /// The devices as they were opened, in the order of their numbers.
    pub fn close(self) -> Vec<D>
        requires { AreAllKept self.opened }
        ensures { result.items ≡ map device_kept self.opened.kept.items }
    {
        close(self.into_opened())
    }
}
