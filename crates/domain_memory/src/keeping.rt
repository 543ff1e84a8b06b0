//! Keeping a change that is laid over a domain's memory, or taking it back.
ghost use Rattle.std.specs.Prelude.{◌≡◌, None};
ghost use Rattle.standing_laws.specs.fileset_model.Filesets.{FilesetMap};
ghost use Rattle.standing_laws.specs.fileset_table.Table.{IsTable};
ghost use Rattle.standing_laws.specs.free_space.Spaces.{change_volumes};
ghost use Rattle.standing_laws.specs.free_space.VolumeSpace.{keeping};
ghost use Rattle.domain_memory.specs.Going.{KeepsGone};
ghost use Rattle.domain_memory.specs.Memory.{StandsFor, books_in, kept_in, with_was};
ghost use Rattle.domain_memory.specs.Staged.{IsSettled, IsStagedForSome, MayBeKept, MayGoBack};

use crate::memory::{DomainMemory, ReplacedSlot};
use crate::{keep_slots, put_on_list, take_back_slots};
use standing_laws::{FilesetTable, mark_changes};

/// Puts back what the slot that was set anew had, if there is one.
fn put_slot_back(table: &mut FilesetTable, was: &mut Option<ReplacedSlot>)
    requires { ∥ IsTable (with_was was.old table.old) ∥₁ }
    ensures table { table.new ≡ with_was was.old table.old }
    ensures none { was.new ≡ None }
{
    if let Some(slot) = was.take() {
        let Ok(()) = table.try_set_slot(slot.number, slot.item) else {
            unreachable!();
        };
    }
}

impl DomainMemory {
    /// Keeps the change. The domain then stands for the filesets for which it stood with the
    /// change, if with it directories say their parents and books are those of the filesets. The
    /// bits of the bitmaps say which pages are used, and what the change left to be let go of is on
    /// the list. Slots, cells and tags that came free with it are free. It takes no memory. It
    /// takes the time of what the change has changed, and a look through what waits to be let go of
    /// for each file that the change lists.
    pub fn keep(&mut self)
        requires staged { ∥ IsStagedForSome self.old ∥₁ }
        requires back { ∥ MayGoBack self.old ∥₁ }
        ensures stands { (all : FilesetMap) → MayBeKept self.old all → StandsFor self.new all }
        ensures settled { IsSettled self.new }
        ensures back { ∥ MayGoBack self.new ∥₁ }
        ensures space { self.new.space ≡ change_volumes keeping self.old.space }
        ensures gone { KeepsGone self.old self.new }
        ensures frame { self.new.frame ≡ self.old.frame }
    {
        mark_changes(&mut self.pages, &self.space);
        self.pages.keep();
        self.space.keep();
        self.cells.keep();
        keep_slots(&mut self.slots);
        put_on_list(&mut self.list, &mut self.listed);
        self.list.start_over();
        self.was = None;
    }

    /// Takes back the change: all is as it was when it was last kept. It takes no memory, and the
    /// time of what the change has changed.
    pub fn take_back(&mut self)
        requires { ∥ MayGoBack self.old ∥₁ }
        ensures kept { kept_in self.new ≡ kept_in self.old }
        ensures books { books_in self.new ≡ books_in self.old }
        ensures settled { IsSettled self.new }
        ensures back { ∥ MayGoBack self.new ∥₁ }
        ensures frame { self.new.frame ≡ self.old.frame }
    {
        self.pages.take_back();
        self.space.take_back();
        self.cells.take_back();
        take_back_slots(&mut self.slots);
        put_slot_back(&mut self.table, &mut self.was);
        self.listed.clear();
    }
}
