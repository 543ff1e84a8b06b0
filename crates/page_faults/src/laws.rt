//! Laws of wrong pages of files and wrong bits of bitmaps.
ghost use Rattle.std.specs.Prelude.{◌↔◌};
ghost use Rattle.tag_faults.specs.domain_base.declared.place.Home.{Home};
ghost use Rattle.tag_faults.specs.page_store.Pages.{Pages};
ghost use Rattle.tag_faults.specs.domain_layout.Faults.{HasNoTablesFault};
ghost use Rattle.tag_faults.specs.domain_layout.Layout.{IsLayout, Layout};
ghost use Rattle.tag_faults.specs.domain_layout.Owners.{frame_of};
ghost use Rattle.tag_faults.specs.domain_layout.PageRules.{IsBitmapFault, IsExtentFault};
ghost use Rattle.page_faults.specs.Files.{HasWrongBit, HasWrongPage};

/// If no rule of tables is broken, the pages whose cells say a wrong page of a file, by the frame
/// and the table, are those with the code 7 in the list of faults.
pub fn wrong_pages_by_layout()
    ensures { (pages : Pages) (layout : Layout) (home : Home) → IsLayout pages layout
        → HasNoTablesFault pages (frame_of layout)
        → (HasWrongPage pages (frame_of layout) layout.table home
        ↔ IsExtentFault pages layout home) }
{}

/// If no rule of tables is broken, the pages of bitmaps with a wrong bit, by the frame and the
/// table, are those with the code 8 in the list of faults.
pub fn wrong_bits_by_layout()
    ensures { (pages : Pages) (layout : Layout) (home : Home) → IsLayout pages layout
        → HasNoTablesFault pages (frame_of layout)
        → (HasWrongBit pages (frame_of layout) layout.table home
        ↔ IsBitmapFault pages layout home) }
{}
