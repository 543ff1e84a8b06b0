//! How the change of one record changes the map of its chain.
ghost use Rattle.std.specs.Prelude.{◌≡◌, ◌<◌, ◌⊎◌, ◌++◌, ◌∷◌, [], ℕ, List, length, get_or, slice_set};
ghost use Rattle.extent_maps.specs.declared.run.PagePlace.{PagePlace};
ghost use Rattle.extent_maps.specs.declared.run.PagePlace.TheVariants.{Absent};
ghost use Rattle.extent_maps.specs.Runs.{place_of, with_place};
ghost use Rattle.cell_records.specs.declared.record.Record.{Record};
ghost use Rattle.extent_records.specs.Rows.{AreOneMap, runs_of};
ghost use Rattle.extent_records.specs.Writing.{IsMapRecord, places_in};
ghost use Rattle.extent_records.specs.Chains.{ArePartsOf, AreCutRecords, ChangesAlone, ChangesChain, CutsChain, FollowsChange, KeepsMap};

/// One record of a chain is changed, and no other record has a page that then has another place.
/// The records still say one map, which is changed only at these pages.
pub fn one_record_changes()
    ensures { (records : List Record) (i : ℕ) (old new : Record) → i < length records
        → get_or records i old ≡ old → AreOneMap records → IsMapRecord new
        → ChangesAlone records old new
        → FollowsChange records old new (slice_set records i new) }
{}

/// One page of a record of a chain gets another place, and the chain has that page at the place
/// that the record says, or both have none. The chain's map is the old one with the page at that
/// place.
pub fn one_page_changes()
    ensures { (records : List Record) (i : ℕ) (old new : Record) (page : ℕ) (place : PagePlace)
        → i < length records → get_or records i old ≡ old → AreOneMap records → IsMapRecord new
        → place_of (runs_of records) page ≡ places_in old page
        → ((p : ℕ) → places_in new p ≡ with_place page place (places_in old) p)
        → ChangesChain page place records (slice_set records i new) }
{}

/// If a record of a chain has a page, the chain has that page at the same place.
pub fn a_chain_shows_its_records()
    ensures { (records : List Record) (i : ℕ) (r : Record) (p : ℕ) → i < length records
        → get_or records i r ≡ r → AreOneMap records
        → (places_in r p ≡ Absent) ⊎ (place_of (runs_of records) p ≡ places_in r p) }
{}

/// If each record of a chain loses its pages from one on, the chain's map loses only these pages.
pub fn cut_records_cut_the_map()
    ensures { (from : ℕ) (old new : List Record) → AreOneMap old → AreCutRecords from old new
        → CutsChain from old new }
{}

/// A record of a chain is parted at a page: a record with the pages before it stands in its place,
/// and a record with the others stands after all records. The chain's map stays.
pub fn parts_of_a_record_keep_the_map()
    ensures { (records : List Record) (i : ℕ) (whole front tail : Record) (from : ℕ)
        → i < length records → get_or records i whole ≡ whole → AreOneMap records
        → ArePartsOf from whole front tail
        → KeepsMap records (slice_set records i front ++ tail ∷ []) }
{}
