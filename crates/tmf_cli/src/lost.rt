//! Which volumes of a node that is up are lost, and what needs them.
ghost use Rattle.std.specs.Prelude.{◌≡◌};
ghost use Rattle.std.specs.List.{list_any};
ghost use Rattle.volume_restore.specs.Bases.{volume_on};
ghost use Rattle.tmf_cli.specs.Lost.{is_among, is_lost_volume, item_names_lost, lost_flags, names_lost, workers_name_lost};

use tmf_model::{Config, Item, Sequence, Step};

/// Whether the number is among these.
fn is_among(numbers: &[u8], volume: u8) -> bool
    ensures { result ≡ is_among numbers.now volume }
{
    numbers.iter().any(|number| *number == volume)
}

/// Of the volumes 1 to 8, whether each is among these.
pub fn lost_flags(lost: &[u8]) -> [bool; 8]
    ensures { result ≡ lost_flags lost.now }
{
    [
        is_among(lost, 1),
        is_among(lost, 2),
        is_among(lost, 3),
        is_among(lost, 4),
        is_among(lost, 5),
        is_among(lost, 6),
        is_among(lost, 7),
        is_among(lost, 8),
    ]
}

/// Whether the volume with this number is lost, by such flags.
pub fn is_lost_volume(lost: &[bool], volume: u8) -> bool
    ensures { result ≡ is_lost_volume lost.now volume }
{
    match lost.get(usize::from(volume).saturating_sub(1)) {
        Some(is_lost) => *is_lost,
        None => false,
    }
}

/// The number of the volume that a file lies on; 0 where there is no such file.
pub fn volume_on(config: &Config, file: u8) -> u8
    ensures { result ≡ volume_on config.now file }
{
    match config.file(file) {
        Some(line) => line.volume,
        None => 0,
    }
}

/// Whether one of the steps is on a file that lies on a lost volume.
fn steps_name_lost(config: &Config, lost: &[bool], steps: &[Step]) -> bool
    ensures { result ≡ list_any (λ step. is_lost_volume lost.now (volume_on config.now step.file)) steps.now }
{
    steps
        .iter()
        .any(|step| is_lost_volume(lost, volume_on(config, step.file)))
}

/// Whether the item needs a lost volume.
fn item_names_lost(config: &Config, lost: &[bool], item: &Item) -> bool
    ensures { result ≡ item_names_lost config.now lost.now item.now }
{
    match item {
        Item::Transaction(transaction) => {
            steps_name_lost(config, lost, transaction.steps.as_slice())
        }
        Item::Control(volume) | Item::Dump(volume) => is_lost_volume(lost, *volume),
    }
}

/// Whether one of the items does so.
fn names_lost(config: &Config, lost: &[bool], items: &[Item]) -> bool
    ensures { result ≡ names_lost config.now lost.now items.now }
{
    items.iter().any(|item| item_names_lost(config, lost, item))
}

/// Whether one of the items of any worker does so.
pub fn workers_name_lost(config: &Config, lost: &[bool], workers: &[Sequence<Item>]) -> bool
    ensures { result ≡ workers_name_lost config.now lost.now workers.now }
{
    workers
        .iter()
        .any(|items| names_lost(config, lost, items.as_slice()))
}
