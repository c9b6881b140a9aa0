//! What the images of a dump device say, by the history.
ghost use Rattle.std.specs.Prelude.{List, Option};
ghost use Rattle.disk_model.specs.Held.{Held};
ghost use Rattle.trail_files.specs.StandsFor.{Base};
ghost use Rattle.chronicle.specs.Seats.{Knows, Sight};
ghost use Rattle.node_machine.specs.declared.event.Event.{Event as TheEvent};
ghost use Rattle.node_machine.specs.Made.{map_of};
ghost use Rattle.node_machine.specs.Node.{node};
ghost use Rattle.node_machine.specs.Opening.{Found};
ghost use Rattle.node_machine.specs.Parts.{DiscPart, DumpPart, Entry, PartState};
ghost use Rattle.online_dump.specs.Dumper.{ShowsCopies, ShowsOpening};
ghost use Rattle.online_dump.specs.Seen.{HasAllowedDump, IsFirstDump, IsSeenDisc};
ghost use Rattle.online_dump.specs.declared.sealed.SealedDump.{SealedDump};

/// An image of a dump device, as `into_parts` tells it, has a dump that the device's part and the disc's part allow: one of this run, or what the device had when it was handed in.
pub fn shown_law()
    ensures opening { (part : DumpPart) (disc : DiscPart) (first : Held) (old : Option Base) (found : Option SealedDump) (image : Held) → IsFirstDump part first old found → ShowsOpening part first found image
        → HasAllowedDump part disc old image }
    ensures own { (opening : List PartState) (found : Found) (v : Sight TheEvent) (part : DumpPart) (disc : DiscPart) (entries : List Entry) (old : Option Base) (image : Held) → IsSeenDisc opening found v part disc entries
        → ShowsCopies (Knows node opening v) part (map_of entries) image → HasAllowedDump part disc old image }
{}
