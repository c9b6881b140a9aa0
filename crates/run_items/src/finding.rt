//! The disc and the dump device of a volume among those of a run.
ghost use Rattle.std.specs.Prelude.{◌≡◌, ◌==◌};
ghost use Rattle.std.specs.List.{find};
ghost use Rattle.std.specs.Option.{option_copied};
ghost use Rattle.disc_lock.specs.Locks.{number_of};
ghost use Rattle.online_dump.specs.Locks.{dumper_number};
ghost use Rattle.run_items.specs.Volumes.{HasDisc, HasDumper};

use audit_writer::DeviceRun;
use disc_lock::DiscProcess;
use disk_model::Disk;
use online_dump::Dumper;

/// The first disc that has this number, if there is one.
fn found<'b, 'a, D: Disk, J: DeviceRun<D>>(
    discs: &'b [DiscProcess<'a, D, J>],
    number: u8,
) -> Option<&'b DiscProcess<'a, D, J>>
    ensures { option_copied result ≡ find (λ p. number_of p == number) discs.now }
{
    discs.iter().find(|disc| disc.number() == number)
}

/// The disc of the volume with this number, which there is.
pub(crate) fn disc_of<'b, 'a, D: Disk, J: DeviceRun<D>>(
    discs: &'b [DiscProcess<'a, D, J>],
    number: u8,
) -> &'b DiscProcess<'a, D, J>
    requires { HasDisc discs.now number }
    ensures { number_of result.now ≡ number }
{
    match found(discs, number) {
        Some(disc) => disc,
        None => unreachable!(),
    }
}

/// The first dump device that is of the volume with this number, if there is one.
fn found_dumper<'b, 'a, D: Disk, J: DeviceRun<D>>(
    dumpers: &'b [Dumper<'a, D, J>],
    number: u8,
) -> Option<&'b Dumper<'a, D, J>>
    ensures { option_copied result ≡ find (λ p. dumper_number p == number) dumpers.now }
{
    dumpers.iter().find(|dumper| dumper.number() == number)
}

/// The dump device of the volume with this number, which there is.
pub(crate) fn dumper_of<'b, 'a, D: Disk, J: DeviceRun<D>>(
    dumpers: &'b [Dumper<'a, D, J>],
    number: u8,
) -> &'b Dumper<'a, D, J>
    requires { HasDumper dumpers.now number }
    ensures { dumper_number result.now ≡ number }
{
    match found_dumper(dumpers, number) {
        Some(dumper) => dumper,
        None => unreachable!(),
    }
}
