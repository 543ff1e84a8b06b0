//! Frames in the order of their use, each under the number of its home.
ghost use Rattle.std.specs.Prelude.{◌≡◌, ◌+◌, ◌-◌, ◌<◌, ◌≤◌, ℕ, None, Some, [], ◌∷◌, IsErr, IsNone, IsSome, IsTrue, OnErr, OnOk, IfErr, length};
ghost use Rattle.std.specs.Option.{option_copied, option_map};
ghost use Rattle.page_cache.specs.Entries.{Becomes, Displaces, KeepsOrder, behind, clean_in, frame_at, groups_in, last_dirty};
ghost use Rattle.page_cache.specs.Frames.{cleaned};

use crate::frame::Frame;
use lru::LruCache;
use page_store::Page;

/// The most frames that a cache keeps.
pub(crate) const FRAMES: usize = 1_024;

/// Frames by the numbers of their homes, in the order of their use.
pub(crate) type Kept = LruCache<u64, Frame>;

/// Uses the frame of a number, which is there.
pub(crate) fn use_frame(frames: &mut Kept, number: u64)
    requires { IsSome (frame_at frames.old.entries number) }
    ensures becomes { Becomes number (frame_at frames.old.entries number) frames.old.entries
        frames.new.entries }
    ensures cap { frames.new.cap ≡ frames.old.cap }
{
    prove!(frames.len() < usize::MAX);
    frames.promote(&number);
}

/// Puts another frame in the place of that of a number.
pub(crate) fn set_frame(frames: &mut Kept, number: u64, frame: Frame)
    requires { IsSome (frame_at frames.old.entries number) }
    ensures becomes { Becomes number (Some frame) frames.old.entries frames.new.entries }
    ensures cap { frames.new.cap ≡ frames.old.cap }
{
    prove!(frames.len() < usize::MAX);
    let _ = frames.put(number, frame);
}

/// Makes the frame of a number clean, which counts as a use.
fn set_clean(frames: &mut Kept, number: u64)
    requires { IsSome (frame_at frames.old.entries number) }
    ensures becomes { Becomes number (option_map cleaned (frame_at frames.old.entries number))
        frames.old.entries frames.new.entries }
    ensures cap { frames.new.cap ≡ frames.old.cap }
{
    prove!(frames.len() < usize::MAX);
    if let Some(frame) = frames.get_mut(&number) {
        frame.waits = None;
    }
}

/// Puts the only clean frame after the dirty ones, so that it is found at once.
fn put_last(frames: &mut Kept, number: u64)
    requires { clean_in frames.old.entries ≡ number ∷ [] }
    ensures keeps { KeepsOrder frames.old.entries frames.new.entries }
    ensures cap { frames.new.cap ≡ frames.old.cap }
{
    prove!(frames.len() < usize::MAX);
    frames.demote(&number);
}

/// Makes the frame of a number clean, which counts as a use, and moves it after the dirty ones if
/// no other is clean.
pub(crate) fn clean_frame(frames: &mut Kept, number: u64, alone: bool)
    requires there { IsSome (frame_at frames.old.entries number) }
    requires alone { IsTrue alone → clean_in frames.old.entries ≡ [] }
    ensures becomes { Becomes number (option_map cleaned (frame_at frames.old.entries number))
        frames.old.entries frames.new.entries }
    ensures cap { frames.new.cap ≡ frames.old.cap }
{
    set_clean(frames, number);
    if alone {
        put_last(frames, number);
    }
}

/// Forgets the frame of a number, and hands its page back if there was one.
pub(crate) fn drop_frame(frames: &mut Kept, number: u64) -> Option<Page>
    ensures becomes { Becomes number None frames.old.entries frames.new.entries }
    ensures page { result
        ≡ option_map (λ (f : Frame). f.page) (frame_at frames.old.entries number) }
    ensures cap { frames.new.cap ≡ frames.old.cap }
{
    prove!(frames.len() < usize::MAX);
    match frames.pop(&number) {
        Some(frame) => Some(frame.page),
        None => None,
    }
}

/// Keeps a clean frame of a number that has none. If there is no room, the last one goes, which is
/// clean. After an error, which hands the page back, nothing has changed.
pub(crate) fn add_frame(frames: &mut Kept, number: u64, frame: Frame) -> Result<(), Page>
    requires new { IsNone (frame_at frames.old.entries number) }
    requires clean { frame.waits ≡ None }
    requires last { length frames.old.entries ≡ 1024 → last_dirty frames.old.entries ≡ None }
    requires cap { frames.old.cap ≡ 1024 }
    ensures adds { OnOk result (length frames.old.entries < 1024
        → Becomes number (Some frame) frames.old.entries frames.new.entries) }
    ensures displaces { OnOk result (length frames.old.entries ≡ 1024
        → Displaces number frame frames.old.entries frames.new.entries) }
    ensures err { OnErr result (frames.new.entries ≡ frames.old.entries) }
    ensures page { IfErr result (λ page. page ≡ frame.page) }
    ensures groups { (q : ℕ) → groups_in frames.new.entries q ≡ groups_in frames.old.entries q }
    ensures parts { length (clean_in frames.new.entries) + length frames.old.entries
        ≡ length (clean_in frames.old.entries) + length frames.new.entries }
    ensures cap { frames.new.cap ≡ frames.old.cap }
{
    prove!(frames.len() < usize::MAX);
    match frames.put(number, frame) {
        Ok(_) => Ok(()),
        Err(failed) => Err(failed.value.1.page),
    }
}

/// The number of the least recently used frame, if that frame is dirty.
fn oldest_dirty(frames: &Kept) -> Option<u64>
    ensures { result ≡ last_dirty frames.now.entries }
{
    match frames.peek_lru() {
        Some((number, frame)) if frame.waits.is_some() => Some(*number),
        _ => None,
    }
}

/// Moves the least recently used dirty frame out of the way of the clean ones.
fn pass(frames: &mut Kept, oldest: u64)
    requires last { last_dirty frames.old.entries ≡ Some oldest }
    requires clean { 0 < length (clean_in frames.old.entries) }
    ensures keeps { KeepsOrder frames.old.entries frames.new.entries }
    ensures nearer { behind frames.new.entries + 1 ≡ behind frames.old.entries }
    ensures cap { frames.new.cap ≡ frames.old.cap }
{
    prove!(frames.len() < usize::MAX);
    frames.promote(&oldest);
}

/// Moves dirty frames out of the way until the least recently used clean one is the last.
pub(crate) fn bring_clean_to_end(frames: &mut Kept)
    requires clean { 0 < length (clean_in frames.old.entries) }
    requires most { length frames.old.entries ≤ 1024 }
    ensures keeps { KeepsOrder frames.old.entries frames.new.entries }
    ensures last { last_dirty frames.new.entries ≡ None }
    ensures cap { frames.new.cap ≡ frames.old.cap }
{
    for _passed in 0..FRAMES {
        let Some(number) = oldest_dirty(frames) else {
            return;
        };
        pass(frames, number);
    }
}
