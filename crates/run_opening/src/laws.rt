//! What is spelled is spelled in one way.
ghost use Rattle.run_opening.specs.Found.{BasedLaw, FoundLaw, ListLaw, ValuesLaw};
ghost use Rattle.run_opening.specs.Laws.{Laws, ListLaws, UnfitLaw};

use disk_model::Disk;
use keyed_file::spelling_length_law;
use trail_files::{AuditRecord, MonitorRecord, Trail};

/// Says that what a trail spells is spelled in one way, and is not damaged, and how long a label is. It does nothing.
pub fn spelling_laws<D: Disk>()
    ensures { Laws }
{
    list_laws::<D>();
    Trail::<D, AuditRecord>::one_spelling();
    spelling_length_law();
}

/// Says so of the monitor trail. It does nothing.
fn list_laws<D: Disk>()
    ensures { ListLaws }
{
    Trail::<D, MonitorRecord>::one_spelling();
}

/// Says of the devices of a node that one that is fit is not unfit, and that one is unfit in one way. It does nothing.
pub fn unfit_law<D: Disk>()
    ensures { UnfitLaw }
{
    spelling_laws::<D>();
}

/// Says of what is kept of the devices that it is what they told, and so the opening of a history; that each volume that was found has its records, where it told a base, and that its blocks
/// hold them; and that there is one list that the monitor trail told, if any. It does nothing.
pub fn found_law<D: Disk>()
    ensures over { FoundLaw D.Disk }
    ensures based { BasedLaw D.Disk }
    ensures values { ValuesLaw D.Disk }
    ensures list { ListLaw D.Disk }
{
    spelling_laws::<D>();
}
