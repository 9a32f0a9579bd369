use std::sync::Wait;
use std::thread::Threads;

/// A point that a worker passes.
#[derive(Clone, Copy, PartialEq, Eq, Debug)]
pub enum Point {
    Steal,
    Begin,
    Access,
    Commit,
}

/// Lets tests hold a worker before it goes on. It does not change what a run gives.
pub trait Gate: Sync {
    /// Returns once `worker` may go on.
    fn at<R: Threads + Wait + Sync>(&self, rt: &R, worker: u32, point: Point);
}

/// The gate that holds nobody.
#[derive(Clone, Copy)]
pub struct OpenGate;

impl Gate for OpenGate {
    fn at<R: Threads + Wait + Sync>(&self, _rt: &R, _worker: u32, _point: Point) {}
}
