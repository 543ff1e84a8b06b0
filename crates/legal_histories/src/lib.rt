//! Histories of a domain: what each entry may answer and change, which histories are legal, and
//! what a stop leaves. Definitions, and laws of them, each the contract of a function without a
//! body.
#![tactic(auto)]

mod going_on;
mod laws;
mod legal;
mod points;

pub use going_on::{
    a_history_begins, a_legal_history_goes_on, a_point_has_room_for_its_state,
    states_without_clones_look_like_themselves, the_last_entry_may_be_stamped_anew,
    what_a_command_means_is_a_step,
};
pub use laws::{
    a_cut_leaves_zeros, a_valid_tree_keeps_all_valid, every_answer_keeps_all_valid,
    no_filesets_are_valid, what_was_written_is_read,
};
pub use legal::{
    a_new_domain_is_valid, a_synced_file_outlasts_a_stop, every_legal_history_ends_valid,
    filesets_that_look_alike_answer_alike, legal_answers_are_plain, plain_runs_are_legal,
};
pub use points::{a_stop_may_leave_what_was_synced, chains_join};

// What stands below and is named above.
pub use fileset_model::{
    Actor, Bytes, Command, Entry, ExtentItem, ExtentList, FilesetItem, FilesetList, FilesetName,
    FilesetSlot, FilesetTree, Filesets, Kind, Limits, Name, NameItem, NameList, Node, NumberSet,
    OutOfMemory, Owner, PageMap, Path, Place, Refusal, Reply, Role, Tag, Told, Usage, VolumeItem,
    VolumeList, limits,
};
