ghost use Rattle.std.specs.Prelude.{◌≡◌, None};

use crate::run::run_race;
use crate::spawner::{RefusingSpawner, SpawnRefused, Spawner, Starts, ThreadSpawner};
use std::alloc::Global;
use std::marker::Brand;
use std::process::Abort;
use std::sync::atomic::{AtomicBool, AtomicU64, Ordering};
use std::sync::ledger::{Blank, Ledger};
use std::test::Fail;
use std::thread;
use std::thread::Threads;
use wasi_base::{
    CleanSource, IoKind, MemSink, MemSource, OutOfMemory, Plan, Sink, SinkPlan, Source,
};
use wasi_stdin::{Outcome, Wait};
use wasi_threads::{Event, Pass, ReadReply, SharedStdin, Worker, WorkerEnd};
use wasi_words::Parts;

/// As many turns of a loop as one thread is to be ahead of another.
const TURNS: u64 = 1000000;

fn race_words(alloc: Global, first: &str, second: &str) -> Result<Vec<String>, Fail> {
    let mut words = Vec::new(alloc);
    words.push(String::from_str(alloc, "race")?)?;
    words.push(String::from_str(alloc, "input")?)?;
    words.push(String::from_str(alloc, first)?)?;
    words.push(String::from_str(alloc, second)?)?;
    Ok(words)
}

// fails while its flag is not set, and is at its end then
#[derive(Drop)]
struct Guarded<'a> {
    flag: &'a AtomicBool,
    reads: &'a AtomicU64,
    faults: u64,
}

impl<'a> Source for Guarded<'a> {
    ghost told = { λ source. None };

    ghost faults = { λ source. source.faults };

    fn read(&mut self, buf: &mut [u8]) -> Result<usize, IoKind> {
        if buf.is_empty() {
            return Ok(0);
        }
        self.reads.fetch_add(1, Ordering::SeqCst);
        if self.flag.load(Ordering::SeqCst) {
            Ok(0)
        } else {
            self.faults = self.faults.saturating_add(1);
            Err(IoKind::Other)
        }
    }
}

// starts the worker or the readers late, and has its flag set from then until all returned
#[derive(Drop)]
struct Late<'a> {
    flag: &'a AtomicBool,
    late_worker: bool,
}

impl<'a> Late<'a> {
    fn set_late(&self) {
        for _ in 0..TURNS {
            self.flag.load(Ordering::SeqCst);
        }
        self.flag.store(true, Ordering::SeqCst);
    }
}

impl<'a> Starts for Late<'a> {
    fn worker_starts(&self) {
        if self.late_worker {
            self.set_late();
        }
    }

    fn others_start(&self) {
        if !self.late_worker {
            self.set_late();
        }
    }

    fn all_returned(&self) {
        self.flag.store(false, Ordering::SeqCst);
    }
}

#[derive(Drop)]
struct LateSpawner<'a, 'b, R: Threads> {
    rt: &'a R,
    runs: u64,
    late: Late<'b>,
}

impl<'a, 'b, R: Threads + Sync> Spawner for LateSpawner<'a, 'b, R> {
    type Handle = R;

    type Beside = Late<'b>;

    ghost runs = { λ spawner. spawner.runs };

    ghost faults = { λ spawner. 0 };

    fn begin(&mut self) -> Result<(), SpawnRefused> {
        self.runs = self.runs.saturating_add(1);
        Ok(())
    }

    fn handle(&self) -> &R {
        self.rt
    }

    fn beside(&self) -> &Late<'b> {
        &self.late
    }
}

// the status of a race over a source with this flag, and how often it was spawned
fn race_with_one_late<'a, R: Threads + std::sync::Wait + Sync, K: Sink>(
    rt: &'a R,
    alloc: Global,
    late: Late<'a>,
    reads: &'a AtomicU64,
    out: &mut K,
) -> Result<(u8, u64), Fail> {
    let words = race_words(alloc, "1", "1")?;
    let source = Guarded {
        flag: late.flag,
        reads,
        faults: 0,
    };
    let mut spawner = LateSpawner { rt, runs: 0, late };
    let (status, _) = run_race(rt, alloc, &words, &mut spawner, source, out);
    Ok((status, spawner.runs))
}

fn ends_with_one_late<R: Threads + std::sync::Wait + Abort + Sync>(
    rt: &R,
    alloc: Global,
    late_worker: bool,
) -> Result<(), Fail> {
    let flag = AtomicBool::new(false);
    let reads = AtomicU64::new(0);
    let mut out = MemSink::new(alloc, 64, Vec::new(alloc))?;
    let late = Late {
        flag: &flag,
        late_worker,
    };
    let (status, runs) = race_with_one_late(rt, alloc, late, &reads, &mut out)?;
    assert_eq!(rt; status, 0);
    assert_eq!(rt; out.taken(), b"end\n".as_slice());
    assert_eq!(rt; reads.load(Ordering::SeqCst), 1);
    assert_eq!(rt; runs, 1);
    Ok(())
}

#[test]
fn a_worker_ahead_of_its_readers_reads_nothing_unasked(rt: HostRuntime) -> Result<(), Fail> {
    ends_with_one_late(&rt, rt.alloc(), false)
}

#[test]
fn readers_ahead_of_the_worker_read_nothing_of_the_source(rt: HostRuntime) -> Result<(), Fail> {
    ends_with_one_late(&rt, rt.alloc(), true)
}

#[test]
fn a_refused_race_leaves_its_source_unread(rt: HostRuntime) -> Result<(), Fail> {
    let flag = AtomicBool::new(true);
    let reads = AtomicU64::new(0);
    let words = race_words(rt.alloc(), "1", "1")?;
    let mut out = MemSink::new(rt.alloc(), 64, Vec::new(rt.alloc()))?;
    let source = Guarded {
        flag: &flag,
        reads: &reads,
        faults: 0,
    };
    let mut spawner = RefusingSpawner::new(&rt);
    let (status, _) = run_race(&rt, rt.alloc(), &words, &mut spawner, source, &mut out);
    assert_eq!(&rt; status, 8);
    assert_eq!(&rt; reads.load(Ordering::SeqCst), 0);
    assert!(&rt; out.taken().is_empty());
    Ok(())
}

#[test]
fn other_words_start_nothing(rt: HostRuntime) -> Result<(), Fail> {
    for size in ["0", "65537", "", "1x"] {
        let words = race_words(rt.alloc(), size, "1")?;
        let mut out = MemSink::new(rt.alloc(), 64, Vec::new(rt.alloc()))?;
        let source = CleanSource::new(Vec::new(rt.alloc()));
        let mut spawner = ThreadSpawner::new(&rt);
        let (status, _) = run_race(&rt, rt.alloc(), &words, &mut spawner, source, &mut out);
        assert_eq!(&rt; status, 2);
    }
    Ok(())
}

#[test]
fn a_fault_of_the_output_is_told(rt: HostRuntime) -> Result<(), Fail> {
    let words = race_words(rt.alloc(), "00001", "65536")?;
    let plan = vec![in rt.alloc(); SinkPlan::Take(2), SinkPlan::Fail(IoKind::Other)]?;
    let mut out = MemSink::new(rt.alloc(), 64, plan)?;
    let source = CleanSource::new(Vec::new(rt.alloc()));
    let mut spawner = ThreadSpawner::new(&rt);
    let (status, _) = run_race(&rt, rt.alloc(), &words, &mut spawner, source, &mut out);
    assert_eq!(&rt; status, 6);
    assert_eq!(&rt; out.taken(), b"en".as_slice());
    Ok(())
}

// the digits of all pieces, in order
fn digits_in(alloc: Global, text: &[u8]) -> Result<Vec<u8>, OutOfMemory> {
    let mut digits = Vec::new(alloc);
    for line in Parts::new(text, b'\n') {
        if line.len() >= 2 && line[1] == b' ' {
            digits.extend_from_slice(&line[2..])?;
        }
    }
    Ok(digits)
}

// one race over a source, which is to print these bytes and this last line
fn races<R: Threads + std::sync::Wait + Abort + Sync, S: Source + Send + Drop>(
    rt: &R,
    alloc: Global,
    sizes: (&str, &str),
    source: S,
    digits: &[u8],
    last: &[u8],
) -> Result<(), Fail> {
    let words = race_words(alloc, sizes.0, sizes.1)?;
    let mut out = MemSink::new(alloc, 8388608, Vec::new(alloc))?;
    let mut spawner = ThreadSpawner::new(rt);
    let (status, _) = run_race(rt, alloc, &words, &mut spawner, source, &mut out);
    assert_eq!(rt; status, 0);
    assert_eq!(rt; digits_in(alloc, out.taken())?.as_slice(), digits);
    assert!(rt; out.taken().ends_with(last));
    Ok(())
}

fn count_up(alloc: Global, length: usize) -> Result<Vec<u8>, OutOfMemory> {
    let mut bytes = Vec::new(alloc);
    for i in 0..length {
        bytes.push((i % 251) as u8)?;
    }
    Ok(bytes)
}

// every printed piece of 200 races, joined, is the file
fn races_on_a_file<R: Threads + std::sync::Wait + Abort + Sync>(
    rt: &R,
    alloc: Global,
    length: usize,
) -> Result<(), Fail> {
    let sizes = [
        ("65536", "65536"),
        ("1000", "65535"),
        ("4096", "777"),
        ("65536", "300"),
    ];
    let bytes = count_up(alloc, length)?;
    let digits = hex::encode(alloc, &bytes)?;
    for round in 0..200usize {
        let source = CleanSource::new(Vec::from_slice(alloc, &bytes)?);
        races(
            rt,
            alloc,
            sizes[round % 4],
            source,
            digits.as_bytes(),
            b"end\n",
        )?;
    }
    Ok(())
}

#[test]
fn races_on_small_files(rt: HostRuntime) -> Result<(), Fail> {
    races_on_a_file(&rt, rt.alloc(), 0)?;
    races_on_a_file(&rt, rt.alloc(), 1)
}

#[test]
fn races_on_files_about_one_request(rt: HostRuntime) -> Result<(), Fail> {
    races_on_a_file(&rt, rt.alloc(), 65535)?;
    races_on_a_file(&rt, rt.alloc(), 65536)?;
    races_on_a_file(&rt, rt.alloc(), 65537)
}

#[test]
fn races_on_a_large_file(rt: HostRuntime) -> Result<(), Fail> {
    races_on_a_file(&rt, rt.alloc(), 1000000)
}

// a source that gives a byte at each read and fails at this one
#[test]
fn a_source_fails_at_any_read(rt: HostRuntime) -> Result<(), Fail> {
    let alloc = rt.alloc();
    let bytes = count_up(alloc, 30)?;
    for given in 0..20usize {
        let digits = hex::encode(alloc, &count_up(alloc, given)?)?;
        let mut plan = Vec::new(alloc);
        for _ in 0..given {
            plan.push(Plan::Take(1))?;
        }
        plan.push(Plan::Fail(IoKind::BrokenPipe))?;
        let source = MemSource::new(Vec::from_slice(alloc, &bytes)?, plan);
        races(
            &rt,
            alloc,
            ("3", "2"),
            source,
            digits.as_bytes(),
            b"fault brokenpipe\n",
        )?;
    }
    Ok(())
}

// stands in its read until the gate is open, for so many turns of a loop at most
#[derive(Drop)]
struct Gated<'a> {
    entered: &'a AtomicBool,
    open: &'a AtomicBool,
    faults: u64,
}

impl<'a> Source for Gated<'a> {
    ghost told = { λ source. None };

    ghost faults = { λ source. source.faults };

    fn read(&mut self, buf: &mut [u8]) -> Result<usize, IoKind> {
        if buf.is_empty() {
            return Ok(0);
        }
        self.entered.store(true, Ordering::SeqCst);
        if is_set_in_time(self.open) {
            buf[0] = b'x';
            Ok(1)
        } else {
            self.faults = self.faults.saturating_add(1);
            Err(IoKind::Other)
        }
    }
}

fn is_set_in_time(flag: &AtomicBool) -> bool {
    for _ in 0..500000000u64 {
        if flag.load(Ordering::SeqCst) {
            return true;
        }
    }
    false
}

fn count_in(reply: &ReadReply) -> Option<usize> {
    match reply {
        ReadReply::Bytes(piece) => Some(piece.as_slice().len()),
        _ => None,
    }
}

// asks, asks for more while the source stands in its read, and only then opens the gate
fn ask_twice<L: Ledger, H: std::sync::Wait>(
    rt: &H,
    shared: &SharedStdin<L>,
    pass: &mut Pass<L>,
    entered: &AtomicBool,
    open: &AtomicBool,
) -> Option<bool> {
    let asked = count_in(&shared.read(rt, pass, 2).ok()?) == Some(0);
    let stands = is_set_in_time(entered);
    let grown = count_in(&shared.read(rt, pass, 9).ok()?) == Some(0);
    let nothing = count_in(&shared.read(rt, pass, 0).ok()?) == Some(0);
    open.store(true, Ordering::SeqCst);
    let mut wait = Wait::new();
    if !shared.block(rt, pass, &mut wait).ok()? {
        shared.wait_over(rt, pass, &wait).ok()?;
    }
    let given = count_in(&shared.read(rt, pass, 9).ok()?) == Some(1);
    Some(asked && stands && grown && nothing && given)
}

fn passes_the_gate<L: Ledger + Send + Sync, H: Threads + std::sync::Wait + Sync>(
    rt: &H,
    alloc: Global,
    blank: Blank,
) -> Option<bool>
    requires name { blank.name ≡ L.name }
    requires parts { blank.parts ≡ L.parts }
    requires many { blank.parts ≡ 9223372036854775807 }
{
    let entered = AtomicBool::new(false);
    let open = AtomicBool::new(false);
    let source = Gated {
        entered: &entered,
        open: &open,
        faults: 0,
    };
    let (shared, mut worker) = SharedStdin::<L>::new(alloc, blank, source).ok()?;
    let mut pass = shared.join(rt).ok()?;
    let (end, told) = thread::join(
        rt,
        || shared.run_worker(rt, &mut worker),
        || {
            let told = ask_twice(rt, &shared, &mut pass, &entered, &open);
            shared.stop(rt, &mut pass);
            told
        },
    );
    Some(told? && end == Ok(WorkerEnd::Stopped))
}

#[test]
fn a_request_grows_while_the_source_is_read(rt: HostRuntime) {
    let passes = passes_the_gate::<Brand, HostRuntime>(
        &rt,
        rt.alloc(),
        Blank::new(9223372036854775807),
    );
    assert_eq!(&rt; passes, Some(true));
}

// one of many threads: the worker, or a reader with the size of its reads
#[derive(Drop)]
enum Job<S: Source + Drop, L: Ledger> {
    Work(Worker<S, L>),
    Read(Pass<L>, u64),
}

fn read_to_the_end<L: Ledger, H: std::sync::Wait>(
    rt: &H,
    shared: &SharedStdin<L>,
    pass: &mut Pass<L>,
    size: u64,
) -> Option<bool> {
    let mut wait = Wait::new();
    for _ in rt.forever() {
        if !shared.block(rt, pass, &mut wait).ok()? {
            shared.wait_over(rt, pass, &wait).ok()?;
        }
        if count_in(&shared.read(rt, pass, size).ok()?).is_none() {
            return Some(true);
        }
    }
    None
}

fn run_job<S: Source + Drop, L: Ledger, H: std::sync::Wait>(
    rt: &H,
    shared: &SharedStdin<L>,
    job: Job<S, L>,
) -> Job<S, L> {
    match job {
        Job::Work(worker) => {
            let mut worker = worker;
            let _ = shared.run_worker(rt, &mut worker);
            Job::Work(worker)
        }
        Job::Read(pass, size) => {
            let mut pass = pass;
            let _ = read_to_the_end(rt, shared, &mut pass, size);
            Job::Read(pass, size)
        }
    }
}

fn collect_jobs<S: Source + Drop, L: Ledger>(
    alloc: Global,
    shared: SharedStdin<L>,
    jobs: Vec<Job<S, L>>,
) -> Option<Vec<u8>> {
    let mut passes = Vec::new(alloc);
    let mut found = None;
    for job in jobs {
        match job {
            Job::Work(worker) => found = Some(worker),
            Job::Read(pass, _) => passes.push(pass).ok()?,
        }
    }
    match shared.collect(passes, found?) {
        Ok(collected) => collected.pieces.into_vec(alloc).ok(),
        Err(_) => None,
    }
}

// six readers of as many sizes
fn pieces_of_many<L: Ledger + Send + Sync, H: Threads + std::sync::Wait + Sync>(
    rt: &H,
    alloc: Global,
    bytes: &[u8],
    blank: Blank,
) -> Option<Vec<u8>>
    requires name { blank.name ≡ L.name }
    requires parts { blank.parts ≡ L.parts }
    requires many { blank.parts ≡ 9223372036854775807 }
{
    let source = CleanSource::new(Vec::from_slice(alloc, bytes).ok()?);
    let (shared, worker) = SharedStdin::<L>::new(alloc, blank, source).ok()?;
    let mut jobs = Vec::new(alloc);
    jobs.push(Job::Work(worker)).ok()?;
    for size in [65536, 777, 65535, 4096, 1000, 65537] {
        jobs.push(Job::Read(shared.join(rt).ok()?, size)).ok()?;
    }
    let jobs = thread::map_vec(rt, jobs, &|job| run_job(rt, &shared, job)).ok()?;
    collect_jobs(alloc, shared, jobs)
}

#[test]
fn many_readers_share_a_file(rt: HostRuntime) -> Result<(), Fail> {
    let alloc = rt.alloc();
    for length in [0, 1, 65535, 65536, 65537, 1000000] {
        let bytes = count_up(alloc, length)?;
        for _ in 0..20 {
            let pieces = pieces_of_many::<Brand, HostRuntime>(
                &rt,
                alloc,
                &bytes,
                Blank::new(9223372036854775807),
            );
            assert_eq!(&rt; pieces.as_deref(), Some(bytes.as_slice()));
        }
    }
    Ok(())
}
