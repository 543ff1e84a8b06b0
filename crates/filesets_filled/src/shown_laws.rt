//! What a set of files shows of a fileset whose shape was read.
ghost use Rattle.std.specs.Prelude.{◌≡◌, ◌⊎◌, [], ℕ, IsSome, Some, slice_get};
ghost use Rattle.fileset_shapes.specs.domain_base.declared.place.Tag.{Tag};
ghost use Rattle.fileset_shapes.specs.page_store.Bitfiles.{IsDirectory};
ghost use Rattle.fileset_shapes.specs.directory_pages.Index.{index_pages};
ghost use Rattle.fileset_shapes.specs.page_store.Pages.{Pages};
ghost use Rattle.fileset_shapes.specs.fileset_table.declared.slot.FilesetEntry.{FilesetEntry};
ghost use Rattle.fileset_shapes.specs.fileset_table.declared.slot.SlotItem.{SlotItem};
ghost use Rattle.fileset_shapes.specs.fileset_table.declared.slot.SlotItem.TheVariants as slot;
ghost use Rattle.fileset_shapes.specs.name_space.Names.{root_tag};
ghost use Rattle.fileset_shapes.specs.domain_layout.Layout.{Layout};
ghost use Rattle.fileset_shapes.specs.domain_layout.Owners.{frame_of};
ghost use Rattle.fileset_shapes.specs.domain_layout.Shape.{FilesetShape, IsShapeOf};
ghost use Rattle.filesets_filled.specs.Showing.{ShowsFileset, ShowsIndex};
ghost use Rattle.fileset_shapes.specs.Files.{IsWhole};
ghost use Rattle.fileset_shapes.specs.Found.{SeesShape};
ghost use Rattle.fileset_shapes.specs.declared.found.FilesetSeen.{FilesetSeen};

/// If no rule is broken and all pages are there, the shape of a fileset that was read has all files
/// that the fileset has, and no others; and its set shows them as they are.
pub fn shows_a_fileset()
    ensures { (pages : Pages) (layout : Layout) (number : ℕ) (item : SlotItem)
        (entry : FilesetEntry) (shape : FilesetShape) (found : FilesetSeen)
        → IsWhole pages layout → slice_get layout.table.slots number ≡ Some item
        → IsShapeOf pages layout.table number item (Some shape)
        → SeesShape pages entry shape found
        → ShowsFileset pages (frame_of layout) layout.table number shape.files shape.shown }
{}

/// If no rule is broken, the index of a directory of an original is shown as its pages are read
/// from the first one on.
pub fn shows_indexes()
    ensures { (pages : Pages) (layout : Layout) (number : ℕ) (entry : FilesetEntry)
        (shape : FilesetShape) (dir : Tag) → IsWhole pages layout
        → slice_get layout.table.slots number ≡ Some (slot.Original entry)
        → IsShapeOf pages layout.table number (slot.Original entry) (Some shape)
        → IsDirectory shape.shown dir → (index_pages shape.shown dir ≡ [])
        ⊎ ShowsIndex pages (frame_of layout) layout.table number dir
        (index_pages shape.shown dir) }
{}

/// If no rule is broken, an original has a root.
pub fn an_original_has_a_root()
    ensures { (pages : Pages) (layout : Layout) (number : ℕ) (entry : FilesetEntry)
        (shape : FilesetShape) → IsWhole pages layout
        → slice_get layout.table.slots number ≡ Some (slot.Original entry)
        → IsShapeOf pages layout.table number (slot.Original entry) (Some shape)
        → IsSome (shape.shown root_tag) }
{}
