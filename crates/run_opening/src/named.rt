//! The volumes that a run names.
ghost use Rattle.std.specs.Prelude.{◌≡◌, ◌==◌};
ghost use Rattle.std.specs.List.{list_any};
ghost use Rattle.node_machine.specs.Made.{volume_of};
ghost use Rattle.run_opening.specs.Named.{is_named, item_names, items_name};

use tmf_model::{Config, Item, Phase, Step};

/// The number of the volume that a file lies on; 0 where there is none.
fn volume_of(config: &Config, file: u8) -> u8
    ensures { result ≡ volume_of config.now file }
{
    match config.file(file) {
        Some(line) => line.volume,
        None => 0,
    }
}

/// Whether one of the steps is on a file of the volume.
fn steps_name(config: &Config, steps: &[Step], volume: u8) -> bool
    ensures { result ≡ list_any (λ step. volume_of config.now step.file == volume) steps.now }
{
    steps
        .iter()
        .any(|step| volume_of(config, step.file) == volume)
}

/// Whether the item names the volume.
fn item_names(config: &Config, item: &Item, volume: u8) -> bool
    ensures { result ≡ item_names config.now volume item.now }
{
    match item {
        Item::Transaction(transaction) => {
            steps_name(config, transaction.steps.as_slice(), volume)
        }
        Item::Control(named) | Item::Dump(named) => *named == volume,
    }
}

/// Whether one of the items names the volume.
fn items_name(config: &Config, items: &[Item], volume: u8) -> bool
    ensures { result ≡ items_name config.now volume items.now }
{
    items.iter().any(|item| item_names(config, item, volume))
}

/// Whether the run names the volume.
pub fn is_named(config: &Config, phase: &Phase, volume: u8) -> bool
    ensures { result ≡ is_named config.now volume phase.now }
{
    phase
        .workers
        .as_slice()
        .iter()
        .any(|items| items_name(config, items.as_slice(), volume))
}
