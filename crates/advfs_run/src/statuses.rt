//! The statuses of runs over a domain.
ghost use Rattle.std.specs.Prelude.{◌≡◌};
ghost use Rattle.advfs_run.specs.Statuses.{status_of_attach, status_of_make, status_of_settle, status_of_unfit};

use domain_attaching::{AttachFault, MakeFault, SettleFault, SlotFault, Unfit};
use run_parts::{Status, Unattached};

/// The status for a domain without a fault that is not attached.
fn status_of_fitting(why: &Unfit) -> Status
    ensures { result ≡ status_of_unfit why.now }
{
    match why {
        Unfit::Cloned => Status::Unfit {
            why: Unattached::Cloned,
        },
        Unfit::ReadThrough => Status::Unfit {
            why: Unattached::ReadThrough,
        },
        Unfit::WrongQuotas => Status::Unfit {
            why: Unattached::WrongQuotas,
        },
        Unfit::RemovedFile => Status::Unfit {
            why: Unattached::RemovedFile,
        },
        Unfit::CutDirectory => Status::Unfit {
            why: Unattached::CutDirectory,
        },
        Unfit::OutOfMemory => Status::OutOfMemory,
    }
}

/// The status for a log that was not settled.
fn status_of_settling(why: &SettleFault) -> Status
    ensures { result ≡ status_of_settle why.now }
{
    match why {
        SettleFault::NoNumbers => Status::Unfit {
            why: Unattached::NoNumbers,
        },
        SettleFault::Slot(SlotFault::Read { vol }) => Status::VolumeFault { vol: vol.number() },
        SettleFault::Slot(SlotFault::Write { vol }) => Status::VolumeFault { vol: vol.number() },
        SettleFault::Write { vol } => Status::VolumeFault { vol: vol.number() },
    }
}

/// The status for a domain that was not attached.
pub(crate) fn status_of_attaching(fault: &AttachFault) -> Status
    ensures { result ≡ status_of_attach fault.now }
{
    match fault {
        AttachFault::NotADomain { vol, at } => Status::NotADomain { vol: *vol, at: *at },
        AttachFault::Fault { vol } => Status::VolumeFault { vol: vol.number() },
        AttachFault::Unfit { why } => status_of_fitting(why),
        AttachFault::NotSettled { why } => status_of_settling(why),
        AttachFault::OutOfMemory => Status::OutOfMemory,
    }
}

/// The status for a domain that was not made.
pub(crate) fn status_of_making(fault: &MakeFault) -> Status
    ensures { result ≡ status_of_make fault.now }
{
    match fault {
        MakeFault::VolumeSmall { pages } => Status::VolumeSmall { pages: *pages },
        MakeFault::Fault { vol } => Status::VolumeFault { vol: vol.number() },
        MakeFault::OutOfMemory => Status::OutOfMemory,
    }
}
