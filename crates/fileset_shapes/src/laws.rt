//! Laws of paths by rows that were read.
ghost use Rattle.std.specs.Prelude.{◌≡◌};
ghost use Rattle.filesets_reading.specs.domain_base.declared.place.Kind.TheVariants.{Directory};
ghost use Rattle.filesets_reading.specs.domain_base.declared.place.Tag.{Tag};
ghost use Rattle.filesets_reading.specs.page_store.Bitfiles.{Bitfiles};
ghost use Rattle.filesets_reading.specs.directory_rows.Directory.{rows_in};
ghost use Rattle.filesets_reading.specs.fileset_values.Orders.{Path};
ghost use Rattle.filesets_reading.specs.name_space.Names.{led_to, root_tag};
ghost use Rattle.filesets_reading.specs.directory_rows.Ways.{RowsBy, led_by};

/// By rows, paths lead to what they lead to in a set of files that has the same rows in each
/// directory.
pub fn rows_lead_as_names()
    ensures { (files : Bitfiles) (rows : RowsBy) → ((tag : Tag) → rows tag ≡ rows_in files tag)
        → (path : Path) → led_by rows (root_tag, Directory) path ≡ led_to files path }
{}
