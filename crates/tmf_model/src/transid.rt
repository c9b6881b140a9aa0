//! The identifier of one attempt at a transaction.
use std::fmt;

/// One attempt at one item of one worker, in the run of one epoch. All four are numbered from 1.
#[derive(Clone, Copy, Debug, PartialEq, Eq, PartialOrd, Ord, Hash)]
pub struct Transid {
    /// The run's epoch, 1 to 4,294,967,295.
    pub epoch: u32,
    /// The worker's number in its run, 1 to 16.
    pub worker: u16,
    /// The item's number in its worker, 1 to 4,096.
    pub ordinal: u16,
    /// The attempt at the item, 1 to 8.
    pub attempt: u8,
}

impl fmt::Display for Transid {
    ghost use Rattle.std.specs.Prelude.{Some};
    ghost use Rattle.tmf_model.specs.Transid.{transid_text};

    ghost output = { λ transid. Some (transid_text transid) };

    fn fmt<W: fmt::Write>(&self, f: &mut fmt::Formatter<W>) -> fmt::Result {
        let Transid {
            epoch,
            worker,
            ordinal,
            attempt,
        } = *self;
        write!(f, "{epoch}.{worker}.{ordinal}.{attempt}")
    }
}
