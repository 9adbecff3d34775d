ghost use Rattle.std.specs.Prelude.{◌≡◌, ◌≤◌, ℕ, IfOk, OnOk, OnErr};
ghost use Rattle.wasi_base.specs.Causes.{Rose};

use std::thread;
use std::thread::Threads;

/// The spawner started none of the tasks.
#[derive(Clone, Copy, Debug, PartialEq, Eq, Drop)]
pub struct SpawnRefused;

/// What happens beside the tasks of a spawner; by default nothing.
pub trait Starts {
    /// Runs right before the worker, in its thread.
    fn worker_starts(&self) {}

    /// Runs right before the two others, in the thread that starts them.
    fn others_start(&self) {}

    /// Runs once all three returned.
    fn all_returned(&self) {}
}

/// Nothing beside the tasks.
#[derive(Clone, Copy, Debug, PartialEq, Eq, Drop)]
pub struct AtOnce;

impl Starts for AtOnce {}

/// Runs three tasks side by side, or refuses.
///
/// An implementor says which runtime starts the threads, and what happens beside the tasks. It has
/// a count of runs and a count of refusals, which never fall.
pub trait Spawner {
    type Handle: Threads + Sync;

    type Beside: Starts + Sync;

    /// How often it ran tasks, as far as 64 bits count.
    ghost runs: { Self → ℕ };

    /// How often it refused, as far as 64 bits count.
    ghost faults: { Self → ℕ };

    /// Counts one run, or one refusal.
    fn begin(&mut self) -> Result<(), SpawnRefused>
        ensures ran { OnOk result (Rose (runs self.old) (runs self.new)) }
        ensures refused { OnErr result (Rose (faults self.old) (faults self.new)) }
        ensures more { runs self.old ≤ runs self.new }
        ensures later { faults self.old ≤ faults self.new };

    /// The runtime that starts the threads.
    fn handle(&self) -> &Self::Handle;

    /// What happens beside the tasks.
    fn beside(&self) -> &Self::Beside;

    /// Runs `worker` beside the caller and the others beside it, and answers what the three gave.
    /// It refuses only where the count of refusals rose, and then none of them ran.
    final fn trio<
        W: Send,
        A: Send,
        B,
        F: FnOnce() -> W + Send + Drop,
        G: FnOnce() -> A + Send + Drop,
        H: FnOnce() -> B + Drop,
    >(&mut self, worker: F, first: G, second: H) -> Result<(W, A, B), SpawnRefused>
    where
        Self: Sized,
        requires worker { F.pre worker }
        requires first { G.pre first }
        requires second { H.pre second }
        ensures answers { IfOk result (λ r. F.post worker r.0 × G.post first r.1 × H.post second r.2) }
        ensures ran { OnOk result (Rose (runs self.old) (runs self.new)) }
        ensures refused { OnErr result (Rose (faults self.old) (faults self.new)) }
        ensures more { runs self.old ≤ runs self.new }
        ensures later { faults self.old ≤ faults self.new }
    {
        self.begin()?;
        let (worked, rest) = run_three(self.handle(), self.beside(), worker, first, second);
        Ok((worked, rest.0, rest.1))
    }
}

fn run_three<
    R: Threads + Sync,
    T: Starts + Sync,
    W: Send,
    A: Send,
    B,
    F: FnOnce() -> W + Send,
    G: FnOnce() -> A + Send,
    H: FnOnce() -> B,
>(rt: &R, beside: &T, worker: F, first: G, second: H) -> (W, (A, B))
    requires worker { F.pre worker }
    requires first { G.pre first }
    requires second { H.pre second }
    ensures worker { F.post worker result.0 }
    ensures first { G.post first result.1.0 }
    ensures second { H.post second result.1.1 }
{
    let answers = thread::join(
        rt,
        move || -> W
            requires { F.pre worker }
            ensures { F.post worker result }
        {
            beside.worker_starts();
            worker()
        },
        move || -> (A, B)
            requires { G.pre first × H.pre second }
            ensures { G.post first result.0 × H.post second result.1 }
        {
            beside.others_start();
            thread::join(rt, first, second)
        },
    );
    beside.all_returned();
    answers
}

/// Starts a thread for each task but the caller's own. Where no thread can be made the tasks run
/// one after another, and a task that waits for a later one then waits for ever.
#[derive(Drop)]
pub struct ThreadSpawner<'a, R: Threads> {
    rt: &'a R,
    runs: u64,
    beside: AtOnce,
}

impl<'a, R: Threads> ThreadSpawner<'a, R> {
    pub fn new(rt: &'a R) -> ThreadSpawner<'a, R>
        ensures { result.runs ≡ 0 }
    {
        ThreadSpawner {
            rt,
            runs: 0,
            beside: AtOnce,
        }
    }
}

impl<'a, R: Threads + Sync> Spawner for ThreadSpawner<'a, R> {
    type Handle = R;

    type Beside = AtOnce;

    ghost runs = { λ spawner. spawner.runs };

    ghost faults = { λ spawner. 0 };

    fn begin(&mut self) -> Result<(), SpawnRefused> {
        self.runs = self.runs.saturating_add(1);
        Ok(())
    }

    fn handle(&self) -> &R {
        self.rt
    }

    fn beside(&self) -> &AtOnce {
        &self.beside
    }
}

/// Refuses always.
#[derive(Drop)]
pub struct RefusingSpawner<'a, R: Threads> {
    rt: &'a R,
    faults: u64,
    beside: AtOnce,
}

impl<'a, R: Threads> RefusingSpawner<'a, R> {
    pub fn new(rt: &'a R) -> RefusingSpawner<'a, R>
        ensures { result.faults ≡ 0 }
    {
        RefusingSpawner {
            rt,
            faults: 0,
            beside: AtOnce,
        }
    }
}

impl<'a, R: Threads + Sync> Spawner for RefusingSpawner<'a, R> {
    type Handle = R;

    type Beside = AtOnce;

    ghost runs = { λ spawner. 0 };

    ghost faults = { λ spawner. spawner.faults };

    fn begin(&mut self) -> Result<(), SpawnRefused> {
        self.faults = self.faults.saturating_add(1);
        Err(SpawnRefused)
    }

    fn handle(&self) -> &R {
        self.rt
    }

    fn beside(&self) -> &AtOnce {
        &self.beside
    }
}
