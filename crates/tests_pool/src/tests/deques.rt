use cw_base::OutOfMemory;
use cw_deck::{Deck, Thief};
use std::alloc::Global;
use std::sync::Wait;
use std::sync::atomic::{AtomicU64, Ordering};
use std::test::Fail;
use std::thread;

// Whether it takes the tasks 1, 2 and 3.
fn are_pushed(deck: &mut Deck<u32>) -> bool {
    for task in 1..4u32 {
        if deck.push(task).is_err() {
            return false;
        }
    }
    true
}

// Whether the thief takes the first of them, and the owner the others from the back.
fn are_taken<R: Wait>(rt: &R, deck: &mut Deck<u32>, thief: &mut Thief<u32>) -> bool {
    if thief.steal(rt) != Some(1) {
        return false;
    }
    for wanted in [Some(3), Some(2), None] {
        if deck.pop() != wanted {
            return false;
        }
    }
    thief.steal(rt).is_none()
}

#[test]
fn an_owner_and_a_thief(rt: HostRuntime) -> Result<(), Fail> {
    let mut deck = Deck::new(rt.alloc())?;
    let mut thief = match deck.thief() {
        Ok(thief) => thief,
        Err(fault) => {
            drop(deck);
            return Err(fault.into());
        }
    };
    let are_pushed = are_pushed(&mut deck);
    let are_taken = are_taken(&rt, &mut deck, &mut thief);
    drop(thief);
    drop(deck);
    assert!(rt; are_pushed);
    assert!(rt; are_taken);
    Ok(())
}

const WORKERS: u32 = 4;

const TASKS: u32 = 250_000;
// The number of looks for a task before a worker gives up.
const LOOKS: u64 = 1_000_000_000;

#[derive(Drop)]
struct Worker {
    deck: Deck<u32>,
    thieves: Vec<Thief<u32>>,
    next: u32,
    end: u32,
}

// How often each task ran, and how often any did.
#[derive(Drop)]
struct Runs {
    each: Vec<AtomicU64>,
    all: AtomicU64,
}

impl Runs {
    fn new(alloc: Global, tasks: u32) -> Result<Runs, OutOfMemory> {
        let mut each = Vec::new(alloc);
        for _ in 0..tasks {
            each.push(AtomicU64::new(0))?;
        }
        Ok(Runs {
            each,
            all: AtomicU64::new(0),
        })
    }

    fn run(&self, task: u32) {
        if let Some(count) = self.each.get(task as usize) {
            count.fetch_add(1, Ordering::SeqCst);
        }
        self.all.fetch_add(1, Ordering::SeqCst);
    }

    fn all(&self) -> u64 {
        self.all.load(Ordering::SeqCst)
    }

    fn once(&self) -> usize {
        let mut once = 0usize;
        for count in self.each.as_slice() {
            if count.load(Ordering::SeqCst) == 1 {
                once = once.saturating_add(1);
            }
        }
        once
    }
}

impl Worker {
    // Returns a task to run. While the worker has tasks of its own it pushes the next one, and pops only after every third;
    // afterwards it pops or steals.
    fn find<R: Wait>(&mut self, rt: &R) -> Option<u32> {
        if self.next < self.end {
            let task = self.next;
            self.next += 1;
            if let Err(back) = self.deck.push(task) {
                return Some(back);
            }
            return if task % 3 == 0 { self.deck.pop() } else { None };
        }
        if let Some(task) = self.deck.pop() {
            return Some(task);
        }
        for thief in self.thieves.iter_mut() {
            if let Some(task) = thief.steal(rt) {
                return Some(task);
            }
        }
        None
    }
}

// Runs tasks until all have run, whoever pushed them.
fn works<R: Wait>(rt: &R, worker: Worker, runs: &Runs) {
    let mut worker = worker;
    let most = u64::from(WORKERS * TASKS);
    for _ in 0..LOOKS {
        if let Some(task) = worker.find(rt) {
            runs.run(task);
        } else if worker.next == worker.end {
            if runs.all() >= most {
                break;
            }
            thread::yield_now();
        }
    }
    drop(worker);
}

fn decks(alloc: Global) -> Result<Vec<Deck<u32>>, OutOfMemory> {
    let mut decks = Vec::new(alloc);
    for _ in 0..WORKERS {
        decks.push(Deck::new(alloc)?)?;
    }
    Ok(decks)
}

// Those that steal from the decks of others.
fn thieves_of(
    alloc: Global,
    decks: &mut Vec<Deck<u32>>,
    me: usize,
) -> Result<Vec<Thief<u32>>, OutOfMemory> {
    let mut thieves = Vec::new(alloc);
    for (other, deck) in decks.iter_mut().enumerate() {
        if other != me {
            thieves.push(deck.thief()?)?;
        }
    }
    Ok(thieves)
}

fn bands(alloc: Global, decks: &mut Vec<Deck<u32>>) -> Result<Vec<Vec<Thief<u32>>>, OutOfMemory> {
    let mut bands = Vec::new(alloc);
    for me in 0..WORKERS as usize {
        bands.push(thieves_of(alloc, decks, me)?)?;
    }
    Ok(bands)
}

// Whether there was the memory for one more.
fn takes(crew: &mut Vec<Worker>, worker: Worker) -> bool {
    match crew.push(worker) {
        Ok(()) => true,
        Err(fault) => {
            drop(fault);
            false
        }
    }
}

// Each deck with its thieves.
fn paired(
    alloc: Global,
    decks: Vec<Deck<u32>>,
    bands: Vec<Vec<Thief<u32>>>,
) -> Result<Vec<Worker>, OutOfMemory> {
    let mut crew = Vec::new(alloc);
    let mut is_whole = true;
    let mut next = 0u32;
    for (deck, thieves) in decks.into_iter().zip(bands) {
        let end = next.saturating_add(TASKS);
        let worker = Worker {
            deck,
            thieves,
            next,
            end,
        };
        is_whole = takes(&mut crew, worker) && is_whole;
        next = end;
    }
    if is_whole {
        Ok(crew)
    } else {
        drop(crew);
        Err(OutOfMemory)
    }
}

fn crew(alloc: Global) -> Result<Vec<Worker>, OutOfMemory> {
    let mut decks = decks(alloc)?;
    match bands(alloc, &mut decks) {
        Ok(bands) => paired(alloc, decks, bands),
        Err(fault) => {
            drop(decks);
            Err(fault)
        }
    }
}

#[test]
fn each_of_a_million_tasks_runs_once(rt: HostRuntime) -> Result<(), Fail> {
    let alloc = rt.alloc();
    let crew = crew(alloc)?;
    let runs = match Runs::new(alloc, WORKERS * TASKS) {
        Ok(runs) => runs,
        Err(fault) => {
            drop(crew);
            return Err(fault.into());
        }
    };
    let done = thread::map_vec(&rt, crew, &|worker| works(&rt, worker, &runs));
    let (all, once) = (runs.all(), runs.once());
    drop(runs);
    let _ = done?;
    assert!(rt; all == 1_000_000);
    assert!(rt; once == 1_000_000);
    Ok(())
}
