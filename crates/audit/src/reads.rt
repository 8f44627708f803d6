//! What is so of all sectors that a check reads.
ghost use Rattle.audit.specs.Order.{ReadsBelow};

/// Each is below the device's count, if that has both header sectors. Its contract says so.
#[tactic(auto, using(crate::proofs::Below::reads_below))]
pub fn of_all_reads()
    ensures { ReadsBelow }
{}
