ghost use Rattle.std.specs.Prelude.{◌+◌, ◌≡◌, ◌≤◌, IfOk, List, None, OnErr, OnOk, Some, length, map as map_each, option_copied, ℕ};
ghost use Rattle.fileset_values.specs.domain_base.declared.limits.TheConstants.{FILE_BYTES};
ghost use Rattle.fileset_model.specs.Apply.{empty_fileset, flagged_node, has_clone, linked, original_of, renamed, truncated_node, with_change, with_clone, with_node, with_tree, without, written_node};
ghost use Rattle.fileset_model.specs.Usage.{with_limits};
ghost use Rattle.fileset_model.specs.declared.fileset.FilesetSlot.{FilesetSlot as SlotOf};
ghost use Rattle.fileset_model.specs.declared.fileset.Role.TheVariants.{Original as OriginalRole};
ghost use Rattle.std.specs.FinMap as map;

use crate::fileset::{FilesetSlot, FilesetTree, Limits, Role};
use crate::node::Node;
use fileset_values::{FilesetItem, FilesetName, OutOfMemory, Owner, Path, Place};
use sorted_sets::entries::{find, place_of, put, take_away};
use std::alloc::Global;
use std::marker::Model;

/// All filesets, without volumes: what the commands of clients read and change.
#[derive(Drop)]
pub struct Filesets {
    pub(crate) slots: Vec<(FilesetName, FilesetSlot)>,
}

impl Model for Filesets {
    ghost use Rattle.std.specs.Prelude.{◌≡◌, IsTrue, List, ℕ};
    ghost use Rattle.std.specs.FinMap as map;
    ghost use Rattle.std.specs.Coded.{coded_ℕ, coded_list};
    ghost use Rattle.fileset_values.specs.Orders.{name_cmp};
    ghost use Rattle.fileset_model.specs.declared.fileset.FilesetSlot.{FilesetSlot};
    ghost use Rattle.fileset_model.specs.contracts.fileset.FilesetSlot.{the_row};

    ghost Value = { map.FinMap name_cmp FilesetSlot };

    ghost coded = { map.code (coded_list coded_ℕ) the_row.coded };

    ghost view = { λ f. map.from_sorted f.slots.items };

    ghost invariant = { λ f. IsTrue (map.is_sorted name_cmp f.slots.items) };
}

impl Filesets {
    /// No filesets.
    pub fn new(alloc: Global) -> Filesets
        ensures { result ≡ map.empty }
    {
        Filesets {
            slots: Vec::new(alloc),
        }
    }

    /// How many filesets there are.
    pub fn len(&self) -> usize
        ensures { result ≡ map.len self.now }
    {
        self.slots.len()
    }

    /// The fileset with a name.
    pub fn slot(&self, name: &FilesetName) -> Option<&FilesetSlot>
        ensures { option_copied result ≡ map.get self.now name.now }
    {
        find(&self.slots, name)
    }

    /// Puts a fileset under a name, in place of any that had the name. After an error the filesets
    /// are as before.
    pub fn insert(&mut self, name: FilesetName, slot: FilesetSlot) -> Result<(), OutOfMemory>
        ensures ok { OnOk result (self.new ≡ map.insert self.old name slot) }
        ensures err { OnErr result (self.new ≡ self.old) }
    {
        put(&mut self.slots, name, slot)?;
        Ok(())
    }

    /// Adds a fileset with an empty root. After an error the filesets are as before.
    pub fn make(&mut self, alloc: Global, name: &FilesetName) -> Result<(), OutOfMemory>
        ensures ok { OnOk result (self.new ≡ map.insert self.old name.now
            (record { tree = empty_fileset 0; role = OriginalRole })) }
        ensures err { OnErr result (self.new ≡ self.old) }
    {
        let tree = FilesetTree::empty(alloc, 0)?;
        let slot = FilesetSlot {
            tree,
            role: Role::Original,
        };
        put(&mut self.slots, name.copy(alloc)?, slot)?;
        Ok(())
    }

    /// A number that no file or directory of any fileset has.
    pub fn unused_number(&self) -> Result<u64, OutOfMemory>
        ensures { IfOk result (λ number.
            (name : List ℕ) (slot : SlotOf) → map.get self.now name ≡ Some slot
            → map.get slot.tree.nodes number ≡ None) }
    {
        let mut number = 1;
        for (_, slot) in &self.slots {
            number = slot.tree.number_above(number)?;
        }
        Ok(number)
    }

    /// Adds a node at a place. If there is no such fileset, nothing changes. After an error the
    /// filesets are as before.
    pub fn add(
        &mut self,
        alloc: Global,
        place: &Place,
        number: u64,
        node: Node,
    ) -> Result<(), OutOfMemory>
        ensures ok { OnOk result (self.new
            ≡ with_tree self.old place.now.fileset (with_node place.now.path number node)) }
        ensures err { OnErr result (self.new ≡ self.old) }
    {
        let Ok(at) = place_of(&self.slots, &place.fileset) else {
            return Ok(());
        };
        let path = place.path.copy(alloc)?;
        self.slots[at].1.tree.add(path, number, node)?;
        Ok(())
    }

    /// Writes the bytes into the file at a place. If there is no such fileset, nothing changes.
    /// After an error the filesets are as before.
    pub fn write(
        &mut self,
        alloc: Global,
        place: &Place,
        offset: u64,
        bytes: &[u8],
    ) -> Result<(), OutOfMemory>
        requires { offset + length bytes.now ≤ FILE_BYTES }
        ensures ok { OnOk result (self.new ≡ with_tree self.old place.now.fileset
            (with_change place.now.path (written_node offset bytes.now))) }
        ensures err { OnErr result (self.new ≡ self.old) }
    {
        let Ok(at) = place_of(&self.slots, &place.fileset) else {
            return Ok(());
        };
        self.slots[at]
            .1
            .tree
            .write(alloc, &place.path, offset, bytes)?;
        Ok(())
    }

    /// Sets the size of the file at a place. If there is no such fileset, nothing changes. After an
    /// error the filesets are as before.
    pub fn truncate(&mut self, alloc: Global, place: &Place, size: u64) -> Result<(), OutOfMemory>
        ensures ok { OnOk result (self.new ≡ with_tree self.old place.now.fileset
            (with_change place.now.path (truncated_node size))) }
        ensures err { OnErr result (self.new ≡ self.old) }
    {
        let Ok(at) = place_of(&self.slots, &place.fileset) else {
            return Ok(());
        };
        self.slots[at].1.tree.truncate(alloc, &place.path, size)?;
        Ok(())
    }

    /// Sets whether the data of the file at a place is logged. If there is no such fileset, nothing
    /// changes.
    pub fn set_logged(&mut self, place: &Place, logged: bool)
        ensures { self.new ≡ with_tree self.old place.now.fileset
            (with_change place.now.path (flagged_node logged)) }
    {
        let Ok(at) = place_of(&self.slots, &place.fileset) else {
            return;
        };
        self.slots[at].1.tree.set_logged(&place.path, logged);
    }

    /// Removes what stands at a place. If there is no such fileset, nothing changes.
    pub fn remove(&mut self, place: &Place)
        ensures { self.new ≡ with_tree self.old place.now.fileset (without place.now.path) }
    {
        let Ok(at) = place_of(&self.slots, &place.fileset) else {
            return;
        };
        self.slots[at].1.tree.remove(&place.path);
    }

    /// Makes a second path lead to the file at a place. If there is no such fileset, nothing
    /// changes. After an error the filesets are as before.
    pub fn link(&mut self, alloc: Global, place: &Place, to: &Path) -> Result<(), OutOfMemory>
        ensures ok { OnOk result
            (self.new ≡ with_tree self.old place.now.fileset (linked place.now.path to.now)) }
        ensures err { OnErr result (self.new ≡ self.old) }
    {
        let Ok(at) = place_of(&self.slots, &place.fileset) else {
            return Ok(());
        };
        let path = to.copy(alloc)?;
        self.slots[at].1.tree.link(&place.path, path)?;
        Ok(())
    }

    /// Moves what stands at a place, and all below it, to another path, in place of what stands
    /// there. If there is no such fileset, or both paths lead to one number, nothing changes. After
    /// an error the filesets are as before.
    pub fn rename(&mut self, alloc: Global, place: &Place, to: &Path) -> Result<(), OutOfMemory>
        ensures ok { OnOk result
            (self.new ≡ with_tree self.old place.now.fileset (renamed place.now.path to.now)) }
        ensures err { OnErr result (self.new ≡ self.old) }
    {
        let Ok(at) = place_of(&self.slots, &place.fileset) else {
            return Ok(());
        };
        self.slots[at].1.tree.rename(alloc, &place.path, to)?;
        Ok(())
    }

    /// Whether a fileset is a clone of the one with this name.
    pub fn has_clone(&self, name: &FilesetName) -> bool
        ensures { result ≡ has_clone self.now name.now }
    {
        for (_, slot) in &self.slots {
            if slot.role.is_clone_of(name) {
                return true;
            }
        }
        false
    }

    /// Removes the fileset with this name. If there is none, nothing changes.
    pub fn remove_fileset(&mut self, name: &FilesetName)
        ensures { self.new ≡ map.remove self.old name.now }
    {
        take_away(&mut self.slots, name);
    }

    /// Adds a frozen copy of a fileset under a new name. If there is no such fileset, nothing
    /// changes. After an error the filesets are as before.
    pub fn add_clone(
        &mut self,
        alloc: Global,
        name: &FilesetName,
        new_name: &FilesetName,
    ) -> Result<(), OutOfMemory>
        ensures ok { OnOk result (self.new ≡ with_clone self.old name.now new_name.now) }
        ensures err { OnErr result (self.new ≡ self.old) }
    {
        let Some(slot) = self.slot(name) else {
            return Ok(());
        };
        let clone = slot.tree.clone_of(alloc, name)?;
        put(&mut self.slots, new_name.copy(alloc)?, clone)?;
        Ok(())
    }

    /// Sets an owner's limits in a fileset. If there is no such fileset, nothing changes. After an
    /// error the filesets are as before.
    pub fn limit(
        &mut self,
        name: &FilesetName,
        who: Owner,
        limits: Limits,
    ) -> Result<(), OutOfMemory>
        ensures ok { OnOk result (self.new ≡ with_tree self.old name.now
            (λ tree. record tree { limits = with_limits tree.limits who limits })) }
        ensures err { OnErr result (self.new ≡ self.old) }
    {
        let Ok(at) = place_of(&self.slots, name) else {
            return Ok(());
        };
        self.slots[at].1.tree.limit(who, limits)?;
        Ok(())
    }

    /// A row for each fileset, in the byte order of their names.
    pub fn items(&self, alloc: Global) -> Result<Vec<FilesetItem>, OutOfMemory>
        ensures { IfOk result (λ v. v.items ≡ map_each
            (λ e. record { fileset = e.0; original = original_of e.1.role })
            (map.entries self.now)) }
    {
        let mut items = Vec::new(alloc);
        for (name, slot) in &self.slots {
            let item = FilesetItem {
                fileset: name.copy(alloc)?,
                original: slot.role.original(alloc)?,
            };
            items.push(item)?;
        }
        Ok(items)
    }
}
