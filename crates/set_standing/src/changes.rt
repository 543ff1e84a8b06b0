//! One change of a file.
ghost use Rattle.std.specs.Prelude.{◌≡◌, ◌<◌, ℕ, Bool, List, Option, Some};
ghost use Rattle.std.specs.Option.{option_and_then, option_map};
ghost use Rattle.standing_laws.specs.domain_base.declared.place.Home.{Home};
ghost use Rattle.standing_laws.specs.domain_base.declared.place.Tag.{Tag};
ghost use Rattle.standing_laws.specs.extent_maps.declared.run.PagePlace.TheVariants.{At};
ghost use Rattle.standing_laws.specs.fileset_files.declared.attributes.Attributes.{Attributes};
ghost use Rattle.standing_laws.specs.fileset_files.declared.new_cells.NewFile.{NewFile};
ghost use Rattle.standing_laws.specs.fileset_files.Files.{Chains};
ghost use Rattle.standing_laws.specs.fileset_files.State.{FileState, states_of};
ghost use Rattle.standing_laws.specs.fileset_files.States.{IsStaleFrom, cut, described, live_at, new_state, placed};
ghost use Rattle.standing_laws.specs.fileset_model.Apply.{flagged_node};
ghost use Rattle.standing_laws.specs.fileset_model.declared.node.Node.{Node};
ghost use Rattle.standing_laws.specs.name_space.Changes.{new_node};
ghost use Rattle.standing_laws.specs.domain_layout.Filled.{Contents, IsFilled};
ghost use Rattle.standing_laws.specs.domain_layout.Seen.{SeenFile, seen_in};
ghost use Rattle.standing_laws.specs.domain_layout.Agreeing.{AgreeOnFile};
ghost use Rattle.set_standing.specs.Nodes.{AgreeBut, IsSameOwner, cut_to, seen_of, with_page, with_size};

/// What a fileset has at a tag is the live file that the tag names, as its state says.
pub fn live_files_are_seen()
    ensures { (chains : Chains) (tag : Tag) → option_and_then seen_in (chains tag)
        ≡ option_map seen_of (live_at (states_of chains) tag) }
{}

/// A node stays if the same bytes stand at each home of its file.
pub fn files_agree()
    ensures { (one other : Contents) (seen : SeenFile) (node : Node) → AgreeOnFile one other seen
        → IsFilled one seen node → IsFilled other seen node }
{}

/// A file or directory that was just made has no byte and no page.
pub fn a_new_file_is_empty()
    ensures { (contents : Contents) (what : NewFile) (tag : Tag)
        → IsFilled contents (seen_of (new_state what tag)) (new_node what.kind what.uid what.gid) }
{}

/// A file that gets a page at a home, or whose page is put there, has the bytes that stand there as
/// that page; its other pages are as they were.
pub fn a_page_is_placed()
    ensures { (contents now : Contents) (state : FileState) (page : ℕ) (home : Home) (node : Node)
        → page < state.keep → AgreeBut page contents now (seen_of state)
        → IsFilled contents (seen_of state) node
        → IsFilled now (seen_of (placed page (At home) state)) (with_page page (now home) node) }
{}

/// If other bytes stand at the home of one of a file's pages, the file has these as that page.
pub fn a_page_is_written()
    ensures { (contents now : Contents) (seen : SeenFile) (page : ℕ) (home : Home) (node : Node)
        → seen.homes page ≡ Some home → AgreeBut page contents now seen
        → IsFilled contents seen node → IsFilled now seen (with_page page (now home) node) }
{}

/// A file that is described anew, with the same kind and owner, has the size and the flag that were
/// said. How many rows name it is no part of its node.
pub fn a_file_is_described()
    ensures all { (contents : Contents) (state : FileState) (value : Attributes) (node : Node)
        → IsSameOwner state.attributes value → IsFilled contents (seen_of state) node
        → IsFilled contents (seen_of (described value state))
        (with_size value.size value.is_logged node) }
    ensures flag { (contents : Contents) (state : FileState) (flag : Bool) (node : Node)
        → IsFilled contents (seen_of state) node
        → IsFilled contents
        (seen_of (described (record state.attributes { is_logged = flag }) state))
        (flagged_node flag node) }
    ensures links { (contents : Contents) (state : FileState) (links : ℕ) (node : Node)
        → IsFilled contents (seen_of state) node
        → IsFilled contents
        (seen_of (described (record state.attributes { links = links }) state)) node }
{}

/// A file that is cut to a size has that size and those of its pages that begin before it.
pub fn a_file_is_cut()
    ensures { (contents : Contents) (state : FileState) (size : ℕ) (keep : Option ℕ) (node : Node)
        → IsStaleFrom size state keep → IsFilled contents (seen_of state) node
        → IsFilled contents (seen_of (cut size keep state)) (cut_to size node) }
{}
