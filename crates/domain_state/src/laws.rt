//! Laws of a domain's history, and of changes that are laid over the domain.
ghost use Rattle.std.specs.Prelude.{ℕ, List, Option};
ghost use Rattle.no_faults.specs.page_store.Pages.{Pages};
ghost use Rattle.no_faults.specs.domain_layout.Reached.{Frame};
ghost use Rattle.no_faults.specs.domain_memory.Kept.{KeepsKept};
ghost use Rattle.no_faults.specs.domain_memory.declared.memory.DomainMemory.{DomainMemory};
ghost use Rattle.no_faults.specs.fileset_values.declared.command.Command.{Command};
ghost use Rattle.no_faults.specs.fileset_values.declared.entry.Entry.{Entry};
ghost use Rattle.no_faults.specs.domain_base.declared.version.Version.{Version};
ghost use Rattle.no_faults.specs.domain_layout.NewDomain.{IsNew};
ghost use Rattle.no_faults.specs.domain_making.Making.{new_frame, pages_in_use};
ghost use Rattle.no_faults.specs.fileset_model.Filesets.{FilesetMap};
ghost use Rattle.no_faults.specs.legal_histories.State.{State, new_domain};
ghost use Rattle.no_faults.specs.page_ways.Frame.{frame_in};
ghost use Rattle.no_faults.specs.staged_pages.Store.{before_of};
ghost use Rattle.no_faults.specs.domain_memory.Memory.{StandsFor};
ghost use Rattle.domain_state.specs.History.{GoesOn};
ghost use Rattle.domain_state.specs.Opening.{IsStartOf};
ghost use Rattle.domain_state.specs.Short.{IsShort, MayLackPages};

/// The history of a domain leads to the filesets for which it stands, whatever change is laid over
/// its memory, as long as what memory keeps stays.
pub fn a_history_goes_on_over_changes()
    ensures { (pages : Pages) (frame : Frame) (sizes : List ℕ) (old new : DomainMemory)
        (entries : List Entry) (job : Option Command) → KeepsKept old new
        → GoesOn pages frame sizes old entries job → GoesOn pages frame sizes new entries job }
{}

/// The pages of a domain that was just made mean the empty state.
pub fn a_new_domain_is_a_start()
    ensures { (version : Version) (sizes : List ℕ) (pages : Pages)
        → IsNew pages (new_frame version (pages_in_use version sizes))
        → IsStartOf pages (new_frame version (pages_in_use version sizes)) sizes
        (new_domain version sizes) }
{}

/// The pages of a domain that stands for some filesets, as it does when it was made or attached,
/// mean a state on each rack: its filesets, members and old pages are told by them.
pub fn an_attached_domain_has_a_start()
    ensures { (memory : DomainMemory) (sizes : List ℕ) (all : FilesetMap) → StandsFor memory all
        → (start : State) × IsStartOf (before_of memory.pages) (frame_in memory.frame) sizes start }
{}

/// If a domain is short of pages, with no change laid over it, the open members have fewer pages
/// than the filesets and the entries of its history may need plus `need`, wherever that history
/// may have led.
pub fn want_of_pages_is_bounded()
    ensures { (pages : Pages) (frame : Frame) (sizes : List ℕ) (memory : DomainMemory)
        (entries : List Entry) (job : Option Command) (all : FilesetMap) (free need : ℕ)
        → ∥ GoesOn pages frame sizes memory entries job ∥₁ → IsShort memory free need
        → MayLackPages pages frame sizes entries job all need }
{}
