//! What holds of images and headers, for those who call this crate.
ghost use Rattle.std.specs.Prelude.{ℕ, List};
ghost use Rattle.disk_label.specs.domain_base.declared.place.Home.{Home};
ghost use Rattle.page_store.specs.Pages.{Pages};
ghost use Rattle.log_ring.specs.Laws.{DependsBehindGate, HasOneHeader, JoinsAt, JoinsWell, OverlayInTurn};
ghost use Rattle.log_ring.specs.declared.header.Header.{Header};
ghost use Rattle.log_ring.specs.declared.image.PageImage.{PageImage};

/// Laws of images. Laying images over pages one list after the other is laying them over as one
/// list (`in_turn`). A change that is joined to what is pending has its own pages, and otherwise
/// those that were pending (`at`). Each home is there once, and there are no more than in both
/// (`well`).
pub fn image_laws()
    ensures in_turn { (first second : List PageImage) (pages : Pages)
        → OverlayInTurn first second pages }
    ensures at { (change pending : List PageImage) (home : Home) → JoinsAt change pending home }
    ensures well { (change pending : List PageImage) → JoinsWell change pending }
{}

/// Laws of headers. A page has at most one (`one`), and which one it has depends only on what
/// follows the gate (`behind_gate`).
pub fn header_laws()
    ensures one { (page : List ℕ) (one other : Header) → HasOneHeader page one other }
    ensures behind_gate { (one other : List ℕ) (header : Header)
        → DependsBehindGate one other header }
{}
