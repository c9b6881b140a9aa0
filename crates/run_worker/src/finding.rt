//! The disc of a file among those of a run.
ghost use Rattle.std.specs.Prelude.{◌≡◌, ◌==◌};
ghost use Rattle.std.specs.List.{find};
ghost use Rattle.std.specs.Option.{option_copied};
ghost use Rattle.node_machine.specs.Made.{volume_of};
ghost use Rattle.disc_lock.specs.Locks.{number_of};
ghost use Rattle.phase_one.specs.Stopped.{HasDisc};

use audit_writer::DeviceRun;
use disc_lock::DiscProcess;
use disk_model::Disk;
use tmf_model::Config;

/// The number of the volume that a file lies on; 0 where there is none.
pub(crate) fn volume_of(config: &Config, file: u8) -> u8
    ensures { result ≡ volume_of config.now file }
{
    match config.file(file) {
        Some(line) => line.volume,
        None => 0,
    }
}

/// The first disc that has this number, if there is one.
fn found<'b, 'a, D: Disk, J: DeviceRun<D>>(
    discs: &'b [DiscProcess<'a, D, J>],
    number: u8,
) -> Option<&'b DiscProcess<'a, D, J>>
    ensures { option_copied result ≡ find (λ p. number_of p == number) discs.now }
{
    discs.iter().find(|disc| disc.number() == number)
}

/// The disc of the volume with this number, which there is.
pub(crate) fn disc_of<'b, 'a, D: Disk, J: DeviceRun<D>>(
    discs: &'b [DiscProcess<'a, D, J>],
    number: u8,
) -> &'b DiscProcess<'a, D, J>
    requires { HasDisc discs.now number }
    ensures { number_of result.now ≡ number }
{
    match found(discs, number) {
        Some(disc) => disc,
        None => unreachable!(),
    }
}
