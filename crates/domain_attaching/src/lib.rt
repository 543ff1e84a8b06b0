//! A domain that is attached: its memory, brought from the volumes of a rack, and its log settled;
//! or why it is not; and closing a domain, which brings its pages home.
#![tactic(auto)]

mod attaching;
mod bringing;
mod closing;
mod closing_room;
mod fault;
mod homeward;
mod laws;
mod row;
mod settling;
mod standing;
mod tables;

pub use attaching::attach;
pub use bringing::{BroughtMemory, bring_memory};
pub use closing::{Closed, close};
pub use closing_room::ClosingRoom;
pub use fault::AttachFault;
pub use laws::{a_closed_domain_is_attachable, a_made_domain_is_attachable};
pub use standing::{
    a_domain_stands_with_another_anchor, bits_are_kept_with_another_anchor,
    files_stand_alone_with_another_anchor, parents_stay_with_another_anchor,
    soundness_stays_with_another_anchor,
};

// What stands below and is named above.
pub use attached_domain::from_domain_base::limits;
pub use attached_domain::{
    Actor, Anchor, CellAt, CellLinks, Command, DomainFrame, DomainMemory, Entry, FilesetSlot,
    Filesets, Home, Limits, MakeFault, Member, MemoryPages, MetaPages, Name, Node, OutOfMemory,
    Owner, Page, PageMap, Path, Rack, Role, SettleFault, SlotFault, SlotFiles, TableRead, Told,
    Unfit, Version, VolIx, apply, has_quotas_to_go, has_readers, read_filesets, read_links,
    read_list, read_table, read_tables, write_blocks,
};
pub use domain_bringing::{
    BringFault, Brought, FaultRow, Meaning, bring_domain, faults, load, read_image,
};
pub use domain_state::{Attached, Domain, Opening, make};
