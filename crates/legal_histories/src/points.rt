//! Histories of a domain: its filesets with the volumes below them, what each entry may answer and
//! change, which histories are legal, and what a stop leaves. The crate has definitions and their
//! first laws. Each law is the contract of a function without a body.
ghost use Rattle.std.specs.Prelude.{◌≢◌, ℕ, List, None};
ghost use Rattle.std.specs.FinMap.{empty};
ghost use Rattle.fileset_model.specs.domain_base.declared.version.Version.{Version};
ghost use Rattle.fileset_model.specs.fileset_values.Orders.{Name};
ghost use Rattle.legal_histories.specs.AfterStop.{AfterStop};
ghost use Rattle.legal_histories.specs.Example.{two_filesets, with_empty};
ghost use Rattle.legal_histories.specs.Legal.{Chain};
ghost use Rattle.legal_histories.specs.Point.{Point};
ghost use Rattle.legal_histories.specs.State.{new_domain};

/// A chain to a point and a chain from that point make one chain.
pub fn chains_join()
    ensures { (first middle last : Point)
        → Chain first middle → Chain middle last → Chain first last }
{}

/// A stop after the sync of a short history may leave the fileset that was synced, without the one
/// made since.
pub fn a_stop_may_leave_what_was_synced()
    ensures { (version : Version) (sizes : List ℕ) (name other : Name) → name ≢ other
        → AfterStop
        (new_domain version sizes) (two_filesets name other) None 1 (with_empty name empty) }
{}
