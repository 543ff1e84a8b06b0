//! Laws of legal histories. Each is the contract of a function without a body.
ghost use Rattle.std.specs.Prelude.{◌≡◌, ℕ, List, All, Option, None, true};
ghost use Rattle.fileset_model.specs.domain_base.declared.version.Version.{Version};
ghost use Rattle.fileset_model.specs.fileset_values.declared.command.Command.{Command};
ghost use Rattle.fileset_model.specs.LooksLike.{LooksLike};
ghost use Rattle.fileset_model.specs.Filesets.{FilesetMap};
ghost use Rattle.fileset_model.specs.fileset_values.declared.entry.Entry.{Entry};
ghost use Rattle.fileset_model.specs.Apply.{answer_of, refusal_of};
ghost use Rattle.fileset_model.specs.fileset_values.declared.command.Place.{Place};
ghost use Rattle.fileset_model.specs.declared.node.Node.{Node};
ghost use Rattle.legal_histories.specs.AfterStop.{AfterStop};
ghost use Rattle.legal_histories.specs.Legal.{Legal};
ghost use Rattle.legal_histories.specs.Synced.{IsSynced, StandsAt};
ghost use Rattle.legal_histories.specs.PlainRun.{
  IsClients,
  IsInside,
  MarkedRun,
  PlainRun,
  is_of_filesets,
};
ghost use Rattle.legal_histories.specs.State.{State, new_domain};
ghost use Rattle.legal_histories.specs.HistoryValid.{IsValid};

/// A history of clients is legal if its commands are answered in turn as they mean for filesets
/// without volumes, or as out of memory. It ends in the filesets to which the answers lead.
pub fn plain_runs_are_legal()
    ensures { (start : State) (history : List Entry) (all : FilesetMap) (stamp : ℕ)
        → PlainRun start.filesets history all → All IsClients history
        → All (λ e. e.stamp ≡ stamp) history
        → (end : State) × (end ≡ record start { filesets = all; striped = end.striped })
        × Legal start history None end }
{}

/// A legal history of commands on filesets, none of them refused for a cause that lies outside,
/// ends in what the commands mean for filesets without volumes, one after another, except that
/// clones may have lost some of their files for want of pages.
pub fn legal_answers_are_plain()
    ensures { (start end : State) (history : List Entry) (job : Option Command)
        → Legal start history job end
        → All (λ e. is_of_filesets e.command ≡ true) history → All (λ e. IsInside e.reply) history
        → (all : FilesetMap) × MarkedRun start.filesets history all × LooksLike all end.filesets }
{}

/// Filesets that look alike refuse and answer each command alike, so no reply shows what a clone
/// does not show.
pub fn filesets_that_look_alike_answer_alike()
    ensures refusals { (all other : FilesetMap) (command : Command) → LooksLike all other
        → refusal_of other command ≡ refusal_of all command }
    ensures answers { (all other : FilesetMap) (command : Command) → LooksLike all other
        → refusal_of all command ≡ None → answer_of other command ≡ answer_of all command }
{}

/// A domain that was just made, of either version and on volumes of any sizes, is valid.
pub fn a_new_domain_is_valid()
    ensures { (version : Version) (sizes : List ℕ) → IsValid (new_domain version sizes) }
{}

/// The state after each legal history that began in a valid one is valid.
pub fn every_legal_history_ends_valid()
    ensures { (start end : State) (history : List Entry) (job : Option Command)
        → IsValid start → Legal start history job end → IsValid end }
{}

/// A file that a call synced, and that nothing touched since, is found as it was in every state
/// that a stop at or after that call may leave.
pub fn a_synced_file_outlasts_a_stop()
    ensures { (start : State) (history : List Entry) (job : Option Command) (t : ℕ)
        (filesets : FilesetMap) (stop : AfterStop start history job t filesets)
        (place : Place) (node : Node)
        → IsValid start → IsSynced stop.end.past t place node → StandsAt filesets place node }
{}
