//! Laws of what commands on filesets mean for a domain, and of how its history may go on by them.
ghost use Rattle.std.specs.Prelude.{◌≡◌, ◌≤◌, ℕ, false, List, None, Option, Some, count_by};
ghost use Rattle.std.specs.FinMap.{get, insert, len, remove};
ghost use Rattle.std.specs.List.{list_any};
ghost use Rattle.file_commands.specs.page_store.Pages.{Pages};
ghost use Rattle.file_commands.specs.domain_layout.Reached.{Frame};
ghost use Rattle.file_commands.specs.fileset_model.Apply.{Answers, AnswersIfMemory, filesets_full};
ghost use Rattle.file_commands.specs.fileset_model.Filesets.{FilesetMap};
ghost use Rattle.file_commands.specs.fileset_values.Orders.{Name};
ghost use Rattle.file_commands.specs.fileset_values.declared.command.Command.{Command};
ghost use Rattle.file_commands.specs.fileset_values.declared.command.Command.TheVariants as command;
ghost use Rattle.file_commands.specs.fileset_values.declared.command.Owner.{Owner};
ghost use Rattle.file_commands.specs.fileset_values.declared.entry.Entry.{Entry};
ghost use Rattle.file_commands.specs.fileset_model.declared.fileset.FilesetSlot.{FilesetSlot};
ghost use Rattle.file_commands.specs.fileset_model.declared.fileset.Limits.{Limits};
ghost use Rattle.file_commands.specs.fileset_values.declared.reply.Refusal.TheVariants.{FilesetExists, FilesetsFull, NoFileset};
ghost use Rattle.file_commands.specs.fileset_values.declared.reply.Reply.TheVariants.{Done, Refused};
ghost use Rattle.file_commands.specs.fileset_table.Table.{has_name, is_fileset};
ghost use Rattle.file_commands.specs.fileset_table.declared.slot.FilesetEntry.{FilesetEntry};
ghost use Rattle.file_commands.specs.fileset_table.declared.slot.SlotItem.TheVariants.{Original};
ghost use Rattle.file_commands.specs.standing_laws.NewFileset.{empty_slot};
ghost use Rattle.file_commands.specs.standing_laws.SetsQuota.{fileset_limited};
ghost use Rattle.file_commands.specs.domain_standing.Domain.{DomainNow, item_in};
ghost use Rattle.file_commands.specs.domain_standing.Slots.{StandSlots};
ghost use Rattle.file_commands.specs.domain_standing.Standing.{StandsDomain};
ghost use Rattle.file_commands.specs.domain_memory.Staged.{MayBeKept};
ghost use Rattle.file_commands.specs.domain_memory.declared.memory.DomainMemory.{DomainMemory};
ghost use Rattle.file_commands.specs.domain_state.History.{MayCommit};
ghost use Rattle.file_commands.specs.name_commands.Coming.{ComesNext};

/// A change that may be kept may be committed with a client's entry whose command and reply mean
/// it. The reply may be out-of-memory if nothing changes.
pub fn what_a_client_is_answered_may_be_committed()
    ensures { (pages : Pages) (frame : Frame) (sizes : List ℕ) (memory : DomainMemory)
        (entries : List Entry) (job : Option Command) (e : Entry) (all now : FilesetMap)
        → MayBeKept memory now → ComesNext entries e
        → AnswersIfMemory all e.command e.reply now
        → MayCommit pages frame sizes memory entries job e all }
{}

/// A name in the table of a domain is the name of one of its filesets, which is an original. A name
/// that is not in the table is no fileset's. There are as many filesets as slots that hold one.
pub fn what_is_said_of_filesets()
    ensures there { (d : DomainNow) (all : FilesetMap) (number : ℕ) (entry : FilesetEntry)
        → StandSlots d all → item_in d number ≡ Some (Original entry)
        → (fileset : FilesetSlot) × (get all entry.name ≡ Some fileset) }
    ensures missing { (d : DomainNow) (all : FilesetMap) (name : Name)
        → StandSlots d all → list_any (has_name name) d.table.slots ≡ false
        → get all name ≡ None }
    ensures counted { (d : DomainNow) (all : FilesetMap) → StandsDomain d all
        → len all ≡ count_by is_fileset d.table.slots }
{}

/// Removing a fileset that the table has means that it is gone, since no fileset of a domain is a
/// clone. For a name that the table does not have, the answer is no-fileset.
pub fn what_removals_mean()
    ensures there { (d : DomainNow) (all : FilesetMap) (number : ℕ) (entry : FilesetEntry)
        → StandSlots d all → item_in d number ≡ Some (Original entry)
        → Answers all (command.Rmfset entry.name) Done (remove all entry.name) }
    ensures missing { (d : DomainNow) (all : FilesetMap) (name : Name)
        → StandSlots d all → list_any (has_name name) d.table.slots ≡ false
        → Answers all (command.Rmfset name) (Refused NoFileset) all }
{}

/// Setting an owner's limits in a fileset that the table has means that the fileset has them. For a
/// name that the table does not have, the answer is no-fileset.
pub fn what_limits_mean()
    ensures there { (d : DomainNow) (all : FilesetMap) (number : ℕ) (entry : FilesetEntry)
        (fileset : FilesetSlot) (who : Owner) (limits : Limits)
        → StandSlots d all → item_in d number ≡ Some (Original entry)
        → get all entry.name ≡ Some fileset
        → Answers all (command.Setquota entry.name who limits.files limits.blocks) Done
        (insert all entry.name (fileset_limited who limits fileset)) }
    ensures missing { (d : DomainNow) (all : FilesetMap) (name : Name) (who : Owner)
        (files blocks : ℕ) → StandSlots d all
        → list_any (has_name name) d.table.slots ≡ false
        → Answers all (command.Setquota name who files blocks) (Refused NoFileset) all }
{}

/// Making a fileset of a name that the table does not have adds an empty one to the others, as long
/// as these are not 16; otherwise the answer is filesets-full. For a name that the table has, the
/// answer is fileset-exists.
pub fn what_beginnings_mean()
    ensures begun { (d : DomainNow) (all : FilesetMap) (name : Name)
        → StandSlots d all → list_any (has_name name) d.table.slots ≡ false
        → filesets_full all ≡ None
        → Answers all (command.Mkfset name) Done (insert all name empty_slot) }
    ensures taken { (d : DomainNow) (all : FilesetMap) (number : ℕ) (entry : FilesetEntry)
        → StandSlots d all → item_in d number ≡ Some (Original entry)
        → Answers all (command.Mkfset entry.name) (Refused FilesetExists) all }
    ensures full { (d : DomainNow) (all : FilesetMap) (name : Name)
        → StandsDomain d all → list_any (has_name name) d.table.slots ≡ false
        → 16 ≤ count_by is_fileset d.table.slots
        → Answers all (command.Mkfset name) (Refused FilesetsFull) all }
{}
