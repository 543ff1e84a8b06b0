//! What a file becomes by the commands that write to it or cut it.
ghost use Rattle.std.specs.Prelude.{◌≡◌, ◌+◌, ◌/◌, ℕ, Bool, max, List, length, map, Option, None, Some};
ghost use Rattle.standing_laws.specs.domain_base.declared.limits.TheConstants.{PAGE_BYTES};
ghost use Rattle.standing_laws.specs.fileset_model.Apply.{truncated_node, written_node};
ghost use Rattle.standing_laws.specs.fileset_model.Pages.{Pages, page_after, pages_of};
ghost use Rattle.standing_laws.specs.fileset_model.declared.node.Node.TheVariants.{File};
ghost use Rattle.standing_laws.specs.fileset_model.declared.node.Node.{Node};
ghost use Rattle.standing_laws.specs.fileset_files.State.{FileState};
ghost use Rattle.standing_laws.specs.fileset_files.States.{IsStaleFrom, cut};
ghost use Rattle.standing_laws.specs.domain_layout.Filled.{Contents, IsFilled};
ghost use Rattle.standing_laws.specs.domain_layout.Seen.{SeenFile};
ghost use Rattle.set_standing.specs.Commands.{ClearsBehind, WritesFile, page_at, with_each, zeros_behind};
ghost use Rattle.set_standing.specs.Nodes.{cut_to, seen_of, with_page, with_size};

/// A write puts the pages that it touches into the file, one after the other, and gives it a size.
pub fn pages_are_put_in()
    ensures { (uid gid size : ℕ) (logged : Bool) (pages : Pages) (offset : ℕ) (bytes : List ℕ)
        → written_node offset bytes (File uid gid size logged pages)
        ≡ with_size (max size (offset + length bytes)) logged
        (with_each (map (λ q. (q, page_after pages offset bytes q))
        (pages_of offset (length bytes))) (File uid gid size logged pages)) }
{}

/// A file that has been written is the node that a write makes: it reaches to the last byte, and
/// those of its pages that are touched are what the write makes of them.
pub fn a_file_is_written()
    ensures { (contents now : Contents) (seen after : SeenFile) (uid gid size : ℕ) (logged : Bool)
        (pages : Pages) (offset : ℕ) (bytes : List ℕ)
        → WritesFile pages offset bytes contents now seen after
        → IsFilled contents seen (File uid gid size logged pages)
        → IsFilled now after (written_node offset bytes (File uid gid size logged pages)) }
{}

/// A truncation cuts the file to a size, and puts zeros after the end into the page in which the
/// end lies, if the file has that page then.
pub fn the_last_page_is_cleared()
    ensures there { (uid gid size old : ℕ) (logged : Bool) (pages : Pages) (page : List ℕ)
        → page_at (cut_to size (File uid gid old logged pages)) (size / PAGE_BYTES) ≡ Some page
        → truncated_node size (File uid gid old logged pages)
        ≡ with_page (size / PAGE_BYTES) (zeros_behind size (size / PAGE_BYTES) page)
        (cut_to size (File uid gid old logged pages)) }
    ensures none { (uid gid size old : ℕ) (logged : Bool) (pages : Pages)
        → page_at (cut_to size (File uid gid old logged pages)) (size / PAGE_BYTES) ≡ None
        → truncated_node size (File uid gid old logged pages)
        ≡ cut_to size (File uid gid old logged pages) }
{}

/// A file that is cut, with zeros after the end in the page in which the end lies, is the node that
/// a truncation makes.
pub fn a_file_is_truncated()
    ensures { (contents now : Contents) (state : FileState) (size : ℕ) (keep : Option ℕ)
        (node : Node) → IsStaleFrom size state keep
        → ClearsBehind size contents now (seen_of (cut size keep state))
        → IsFilled contents (seen_of state) node
        → IsFilled now (seen_of (cut size keep state)) (truncated_node size node) }
{}
