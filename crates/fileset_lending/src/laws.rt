//! Laws of memory whose files were lent, and that has them back as calls have left them.
ghost use Rattle.std.specs.Prelude.{◌≡◌, ◌≤◌, ℕ, Some, length};
ghost use Rattle.std.specs.FinMap.{get, insert};
ghost use Rattle.fileset_lending.specs.declared.parts.CallSettings.{CallSettings};
ghost use Rattle.domain_memory.specs.domain_layout.Shape.{FilesetShape};
ghost use Rattle.domain_memory.specs.Kept.{KeepsKept};
ghost use Rattle.domain_memory.specs.Staged.{IsStaged, MayGoBack, staged_in};
ghost use Rattle.domain_memory.specs.declared.memory.DomainMemory.{DomainMemory};
ghost use Rattle.domain_memory.specs.domain_standing.Domain.{item_in};
ghost use Rattle.domain_memory.specs.fileset_model.Filesets.{FilesetMap};
ghost use Rattle.domain_memory.specs.fileset_model.declared.fileset.FilesetSlot.{FilesetSlot};
ghost use Rattle.domain_memory.specs.fileset_table.declared.slot.FilesetEntry.{FilesetEntry};
ghost use Rattle.domain_memory.specs.fileset_table.declared.slot.SlotItem.TheVariants as slot;
ghost use Rattle.domain_memory.specs.name_space.Changes.{IsOriginal};
ghost use Rattle.set_standing.specs.NamesNodes.{NodesFollow};
ghost use Rattle.set_standing.specs.Around.{StaysAround};
ghost use Rattle.set_standing.specs.Follow.{Said};
ghost use Rattle.domain_memory.specs.standing_laws.Slots.{StandsSlot};
ghost use Rattle.fileset_lending.specs.Chosen.{AreSettingsOf, CallsChange, Lends, files_in};
ghost use Rattle.fileset_lending.specs.declared.chosen.Chosen.{Chosen as ChosenOf};

/// If memory of a domain has lent the files of an original, and has them back as calls on the set
/// have left them, whether these succeeded or not, the domain stands around the original: all that
/// does not belong to it is as it was, and its files keep what they have. What was kept before is
/// kept, and the change can be taken back. If the original then stands for a fileset, and the list
/// has room for what was taken away, memory is that of a domain with this fileset beside the
/// others.
pub fn a_lent_set_is_staged()
    ensures around { (said : Said) (old now : DomainMemory) (number : ℕ)
        (settings settings_now : CallSettings) (chosen after : ChosenOf) (entry : FilesetEntry)
        (all : FilesetMap) → IsStaged old all → MayGoBack old
        → item_in (staged_in old) number ≡ Some (slot.Original entry)
        → AreSettingsOf old settings → Lends old number settings chosen
        → CallsChange said chosen after → Lends now number settings_now after
        → StaysAround said number (staged_in old) (staged_in now) }
    ensures kept { (said : Said) (old now : DomainMemory) (number : ℕ)
        (settings settings_now : CallSettings) (chosen after : ChosenOf) (entry : FilesetEntry)
        (all : FilesetMap) → IsStaged old all → MayGoBack old
        → item_in (staged_in old) number ≡ Some (slot.Original entry)
        → AreSettingsOf old settings → Lends old number settings chosen
        → CallsChange said chosen after → Lends now number settings_now after → KeepsKept old now }
    ensures back { (said : Said) (old now : DomainMemory) (number : ℕ)
        (settings settings_now : CallSettings) (chosen after : ChosenOf) (entry : FilesetEntry)
        (all : FilesetMap) → IsStaged old all → MayGoBack old
        → item_in (staged_in old) number ≡ Some (slot.Original entry)
        → AreSettingsOf old settings → Lends old number settings chosen
        → CallsChange said chosen after → Lends now number settings_now after → MayGoBack now }
    ensures staged { (said : Said) (old now : DomainMemory) (number : ℕ)
        (settings settings_now : CallSettings) (chosen after : ChosenOf) (entry : FilesetEntry)
        (all : FilesetMap) → IsStaged old all → MayGoBack old
        → item_in (staged_in old) number ≡ Some (slot.Original entry)
        → AreSettingsOf old settings → Lends old number settings chosen
        → CallsChange said chosen after → Lends now number settings_now after
        → length now.listed.items ≤ now.list.room → (shape : FilesetShape)
        (fileset : FilesetSlot) → StandsSlot (staged_in now) number entry shape fileset
        → IsStaged now (insert all entry.name fileset) }
{}

/// The fileset for which memory stands is the one that the rows of a lent set make. If the rows
/// make another fileset after calls have changed the set, and each of its files is what it was, or
/// is new, then memory is that of a domain with this fileset beside the others, if there is room on
/// the list.
pub fn a_lent_set_of_new_names_is_staged()
    ensures names { (memory : DomainMemory) (number : ℕ) (settings : CallSettings)
        (chosen : ChosenOf) (entry : FilesetEntry) (all : FilesetMap) → IsStaged memory all
        → MayGoBack memory → item_in (staged_in memory) number ≡ Some (slot.Original entry)
        → Lends memory number settings chosen → (fileset : FilesetSlot)
        → get all entry.name ≡ Some fileset → IsOriginal (files_in chosen) fileset }
    ensures staged { (said : Said) (old now : DomainMemory) (number : ℕ)
        (settings settings_now : CallSettings) (chosen after : ChosenOf) (entry : FilesetEntry)
        (all : FilesetMap) → IsStaged old all → MayGoBack old
        → item_in (staged_in old) number ≡ Some (slot.Original entry)
        → AreSettingsOf old settings → Lends old number settings chosen
        → CallsChange said chosen after → Lends now number settings_now after
        → length now.listed.items ≤ now.list.room → (fileset fileset_now : FilesetSlot)
        → get all entry.name ≡ Some fileset → IsOriginal (files_in after) fileset_now
        → NodesFollow fileset.tree fileset_now.tree
        → IsStaged now (insert all entry.name fileset_now) }
{}
