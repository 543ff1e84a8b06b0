//! Laws of legal histories that continue with one more entry.
ghost use Rattle.std.specs.Prelude.{◌≡◌, ◌≤◌, ◌++◌, ◌∷◌, [], ℕ, All, List, None, Option, length};
ghost use Rattle.fileset_model.specs.fileset_values.declared.command.Command.{Command};
ghost use Rattle.fileset_model.specs.fileset_values.declared.entry.Entry.{Entry};
ghost use Rattle.legal_histories.specs.Legal.{Legal};
ghost use Rattle.legal_histories.specs.Point.{Point};
ghost use Rattle.legal_histories.specs.Room.{room};
ghost use Rattle.legal_histories.specs.State.{Apply, LooksLikeState, State};
ghost use Rattle.legal_histories.specs.Step.{Step};
ghost use Rattle.legal_histories.specs.GoingOn.{
  ComesTo,
  HaveNoClone,
  MayGoOn,
  MayGoOnFrom,
  job_left,
  stamped,
};

/// No entries are a legal history. It ends where it began, and no command of the mover is running.
pub fn a_history_begins()
    ensures { (start : State) → Legal start [] None start }
{}

/// A legal history stays legal with one more entry that may come next and that leads to a state, at
/// each point to which the history may have come. The mover's own entry ends its job. If no fileset
/// is a clone, the state at that point is the one in which the history ends.
pub fn a_legal_history_goes_on()
    ensures looks_alike { (start now new : State) (history : List Entry) (job : Option Command)
        (e : Entry) → Legal start history job now → MayGoOn start history job now e new
        → Legal start (history ++ e ∷ []) (job_left e.actor job) new }
    ensures without_clones { (start now new : State) (history : List Entry) (job : Option Command)
        (e : Entry) → HaveNoClone now.filesets → Legal start history job now
        → MayGoOnFrom start history job now e new
        → Legal start (history ++ e ∷ []) (job_left e.actor job) new }
{}

/// States that look alike are equal if no fileset of the second is a clone.
pub fn states_without_clones_look_like_themselves()
    ensures { (s other : State) → LooksLikeState s other → HaveNoClone other.filesets
        → s ≡ other }
{}

/// Applying a command on filesets, with its reply and its change, is a step in which no clone loses
/// a file.
pub fn what_a_command_means_is_a_step()
    ensures { (point : Point) (e : Entry) (new : State)
        → Apply point.state e.command e.reply new → Step point e new }
{}

/// The last entry of a legal history may have any stamp that is no smaller than any before.
pub fn the_last_entry_may_be_stamped_anew()
    ensures { (start now : State) (history : List Entry) (job : Option Command) (e : Entry)
        (stamp : ℕ) → Legal start (history ++ e ∷ []) job now
        → All (λ before. before.stamp ≤ stamp) history
        → Legal start (history ++ stamped stamp e ∷ []) job now }
{}

/// At each point to which a history may have come, as many entries were answered as the history
/// has, and the room that the state there may take is at most the greatest that any state has had
/// so far.
pub fn a_point_has_room_for_its_state()
    ensures answered { (start : State) (history : List Entry) (job : Option Command)
        (point : Point) → ComesTo start history job point
        → length point.past ≡ length history }
    ensures room { (start : State) (history : List Entry) (job : Option Command) (point : Point)
        → ComesTo start history job point → room point.state ≤ point.most }
{}
