//! What a long command tells of itself while it works.
ghost use Rattle.std.specs.Prelude.{◌≡◌};

use crate::images::Access;
use advfs_run::{Failed, Gate, Rack, VolIx};
use std::rt::Clock;
use std::sync::atomic::{AtomicU64, Ordering};

/// How many milliseconds pass before something is told again.
const PAUSE: u64 = 1_000;

/// The bytes of a MiB.
const MIB: u64 = 1_048_576;

/// How far a command is. It is told on standard error at most once a second, a line each time, if
/// that is a terminal.
#[derive(Drop)]
pub(crate) struct Progress<'a> {
    terminal: Option<&'a HostRuntime>,
    /// Whether the images are open for writing, too.
    writes: bool,
    /// When it began, or was told last, in milliseconds of the clock.
    last: AtomicU64,
    /// The bytes that were read and written, and the commands that were answered.
    read: AtomicU64,
    written: AtomicU64,
    answered: AtomicU64,
}

/// What a clock shows in milliseconds.
fn milliseconds(rt: &HostRuntime) -> u64 {
    match rt.monotonic() {
        Ok(time) => {
            let whole = time.as_secs().saturating_mul(1_000);
            whole.saturating_add(u64::from(time.subsec_millis()))
        }
        Err(_) => 0,
    }
}

/// Adds to a count, which stops at its end. Returns what it was.
fn raise(count: &AtomicU64, by: usize) -> u64 {
    let before = count.load(Ordering::Relaxed);
    count.store(before.saturating_add(by as u64), Ordering::Relaxed);
    before
}

impl<'a> Progress<'a> {
    /// A command begins.
    pub(crate) fn new(terminal: Option<&'a HostRuntime>, access: Access) -> Progress<'a> {
        let begin = match terminal {
            Some(rt) => milliseconds(rt),
            None => 0,
        };
        Progress {
            terminal,
            writes: access == Access::Writes,
            last: AtomicU64::new(begin),
            read: AtomicU64::new(0),
            written: AtomicU64::new(0),
            answered: AtomicU64::new(0),
        }
    }

    /// Tells how far the command is, if a second has passed since it was told last.
    fn tell(&self) {
        let Some(rt) = self.terminal else {
            return;
        };
        let now = milliseconds(rt);
        if now.saturating_sub(self.last.load(Ordering::Relaxed)) < PAUSE {
            return;
        }
        self.last.store(now, Ordering::Relaxed);
        let read = self.read.load(Ordering::Relaxed) / MIB;
        let written = self.written.load(Ordering::Relaxed) / MIB;
        let answered = self.answered.load(Ordering::Relaxed);
        let _ = eprintln!(rt;
            "advfs: {read} MiB read, {answered} commands answered, {written} MiB written"
        );
    }

    /// Tells that the image is written from here on.
    fn tell_writing(&self) {
        match self.terminal {
            Some(rt) if self.writes => {
                let _ = eprintln!(rt;
                    "advfs: the image is being written: a stop from here on may leave it incomplete"
                );
            }
            _ => {}
        }
    }

    /// So many bytes are read.
    fn count_read(&self, bytes: usize) {
        let _ = raise(&self.read, bytes);
        self.tell();
    }

    /// So many bytes are written.
    fn count_write(&self, bytes: usize) {
        if raise(&self.written, bytes) == 0 {
            self.tell_writing();
        }
        self.tell();
    }

    /// So many commands more were answered.
    pub(crate) fn count_answers(&self, answers: usize) {
        let _ = raise(&self.answered, answers);
        self.tell();
    }

    /// So many bytes of a file of `size` bytes were put in or taken out. It is told at once if the
    /// file is not done with that.
    pub(crate) fn tell_file(&self, bytes: u64, size: u64) {
        match self.terminal {
            Some(rt) if bytes < size => {
                let (done, all) = (bytes / MIB, size / MIB);
                let _ = eprintln!(rt; "advfs: {done} of {all} MiB of the file");
            }
            _ => {}
        }
    }
}

impl Gate for Progress<'_> {
    fn pass(&self, _actor: u32, turn: u64) {
        self.answered.store(turn, Ordering::Relaxed);
        self.tell();
    }
}

/// A rack of which is told how much is read and written.
#[derive(Drop)]
pub(crate) struct Watched<'a, R> {
    rack: R,
    progress: &'a Progress<'a>,
}

impl<'a, R: Rack> Watched<'a, R> {
    /// Watches a rack.
    pub(crate) fn new(rack: R, progress: &'a Progress<'a>) -> Watched<'a, R>
        ensures { result.rack ≡ rack }
    {
        Watched { rack, progress }
    }

    /// Gives the rack back.
    pub(crate) fn into_rack(self) -> R
        ensures { result ≡ self.entry.rack }
    {
        let Watched { rack, .. } = self;
        rack
    }
}

impl<R: Rack> Rack for Watched<'_, R> {
    ghost disk = { λ watched. R.disk watched.rack };

    ghost holds_bytes = { λ watched told. R.holds_bytes watched.rack told };

    ghost pends_within = { λ watched told. R.pends_within watched.rack told };

    fn volumes(&self) -> u32 {
        self.rack.volumes()
    }

    fn pages(&self, vol: VolIx) -> u32 {
        self.rack.pages(vol)
    }

    fn read(&mut self, vol: VolIx, block: u32, out: &mut [u8]) -> Result<(), Failed> {
        self.progress.count_read(out.len());
        self.rack.read(vol, block, out)
    }

    fn write(&mut self, vol: VolIx, block: u32, bytes: &[u8]) -> Result<(), Failed> {
        self.progress.count_write(bytes.len());
        self.rack.write(vol, block, bytes)
    }

    fn sync(&mut self, vol: VolIx) -> Result<(), Failed> {
        self.rack.sync(vol)
    }

    fn calls(&self) -> u64 {
        self.rack.calls()
    }

    fn read_faults(&self, vol: VolIx) -> u64 {
        self.rack.read_faults(vol)
    }

    fn write_faults(&self, vol: VolIx) -> u64 {
        self.rack.write_faults(vol)
    }
}
