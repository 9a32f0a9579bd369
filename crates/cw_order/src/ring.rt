ghost use Rattle.std.specs.Prelude.{◌≡◌, ◌≤◌, ◌++◌, ◌∷◌, [], ℕ, ◌<◌, All, vec_len, vec_capacity};

use crate::Steps;
use cw_base::{OutOfMemory, put};
use std::alloc::Global;
use std::sync::ledger::Ledger;

/// The place before the first element and after the last one.
pub(crate) const HEAD: u32 = 0;

/// Greater than every label.
pub(crate) const END: u64 = u64::MAX;

/// Consecutive elements: the first one, and how many there are.
#[derive(Clone, Copy)]
struct Run {
    first: u32,
    count: u32,
}

/// The head and the elements of a list, as a ring of links with labels that rise from the head on. Places outside the ring are
/// linked by `next` alone. `renumbered` has the places that the last call for a label gave new labels. Places are made as they are
/// needed, so memory that no element uses is not touched.
#[derive(Drop)]
pub(crate) struct Ring {
    room: u32,
    next: Vec<u32>,
    previous: Vec<u32>,
    labels: Vec<u64>,
    renumbered: Vec<u32>,
    ghost same_places: { vec_len previous ≡ vec_len next },
    ghost labelled: { vec_len labels ≡ vec_len next },
    ghost leads_on: { All (λ at. at < vec_len next) next.items },
    ghost leads_back: { All (λ at. at < vec_len next) previous.items },
    ghost next_room: { room < vec_capacity next },
    ghost previous_room: { room < vec_capacity previous },
    ghost labels_room: { room < vec_capacity labels },
    ghost renumbered_room: { room < vec_capacity renumbered },
}

impl Ring {
    ghost use Rattle.std.specs.Prelude.{◌≡◌, ◌≤◌, ◌<◌, ◌+◌, ◌++◌, ◌-◌, ◌*◌, ◌^◌, ◌↔◌, ◌⊎◌, ℕ, List, [], IsTrue, vec_len, slice_index, slice_set, IfOk, IfSome};
    ghost use Rattle.std.specs.List.{Contains};
    ghost use Rattle.cw_order.specs.Links.{walk, spread_over, next_with, previous_with, next_without, previous_without};
    ghost use Rattle.cw_order.specs.Ring.{IsRing, IsRun, label_of, above_of, path, elements_of};

    /// Returns a ring of the head alone, with room for `room` places beside it.
    pub(crate) fn with_room(alloc: Global, room: u32) -> Result<Ring, OutOfMemory>
        ensures places { IfOk result (λ r. vec_len r.next ≡ 1) }
        ensures room { IfOk result (λ r. r.room ≡ room) }
        ensures empty { IfOk result (λ r. IsRing r []) }
    {
        let places = room as usize + 1;
        let mut ring = Ring {
            room,
            next: Vec::with_capacity(alloc, places)?,
            previous: Vec::with_capacity(alloc, places)?,
            labels: Vec::with_capacity(alloc, places)?,
            renumbered: Vec::with_capacity(alloc, places)?,
        };
        ring.grow();
        Ok(ring)
    }

    /// Returns how many places there can be beside the head.
    pub(crate) fn room(&self) -> u32
        ensures { result ≡ self.now.room }
    {
        self.room
    }

    /// Makes one more place, which is not in use and is linked to the head, and returns it.
    pub(crate) fn grow(&mut self) -> u32
        requires { vec_len self.old.next ≤ self.old.room }
        ensures place { result ≡ vec_len self.old.next }
        ensures next { self.new.next.items ≡ self.old.next.items ++ 0 ∷ [] }
        ensures previous { self.new.previous.items ≡ self.old.previous.items ++ 0 ∷ [] }
        ensures labels { self.new.labels.items ≡ self.old.labels.items ++ 0 ∷ [] }
        ensures renumbered { self.new.renumbered.items ≡ self.old.renumbered.items }
        ensures room { self.new.room ≡ self.old.room }
    {
        // a hint to the prover: there are fewer than 2^32 places
        let _room = self.room;
        let place = self.next.len() as u32;
        put(&mut self.next, HEAD);
        put(&mut self.previous, HEAD);
        put(&mut self.labels, 0);
        place
    }

    /// Returns whether the label of `a` is below that of `b`. Beside this call only `label` tells other files of the order, so a file
    /// that does not ask for labels learns it by ticks alone.
    pub(crate) fn is_before<L: Ledger>(&self, a: u32, b: u32, steps: &mut Steps<L>) -> bool
        requires first { a < vec_len self.now.next }
        requires second { b < vec_len self.now.next }
        ensures order { IsTrue result ↔ (label_of self.now a < label_of self.now b) }
        ensures cost { steps.new ≡ steps.old + 1 }
    {
        steps.tick();
        self.label(a) < self.label(b)
    }

    fn next(&self, at: u32) -> u32
        requires { at < vec_len self.now.next }
        ensures value { result ≡ slice_index self.now.next.items at }
        ensures place { result < vec_len self.now.next }
    {
        self.next[at as usize]
    }

    fn previous(&self, at: u32) -> u32
        requires { at < vec_len self.now.next }
        ensures value { result ≡ slice_index self.now.previous.items at }
        ensures place { result < vec_len self.now.next }
    {
        self.previous[at as usize]
    }

    pub(crate) fn label(&self, at: u32) -> u64
        requires { at < vec_len self.now.next }
        ensures { result ≡ label_of self.now at }
    {
        self.labels[at as usize]
    }

    /// Returns the places that the last call for a label gave new labels.
    pub(crate) fn renumbered(&self) -> &[u32]
        ensures { result.now ≡ self.now.renumbered.items }
    {
        self.renumbered.as_slice()
    }

    /// Returns how far the next label, or `END`, is above the label of `at`.
    fn gap_after(&self, at: u32) -> u64
        requires place { at < vec_len self.now.next }
        requires rises { label_of self.now at ≤ above_of self.now at }
        ensures value { label_of self.now at + result ≡ above_of self.now at }
        ensures end { label_of self.now at + result ≤ END }
    {
        let next = self.next(at);
        let above = if next == HEAD { END } else { self.label(next) };
        above - self.label(at)
    }

    /// Returns a label between that of `at` and the next one. If none is free, it relabels elements first. `count` is the number of
    /// elements.
    pub(crate) fn label_after(&mut self, at: u32, count: u32) -> u64
        requires place { at < vec_len self.old.next }
        requires few { count < 2 ^ 32 - 1 }
        requires fits { count ≤ self.old.room }
        requires ring { IsRing self.old (elements_of self.old count) }
        requires there { Contains (path (elements_of self.old count)) at }
        ensures next { self.new.next.items ≡ self.old.next.items }
        ensures previous { self.new.previous.items ≡ self.old.previous.items }
        ensures ring { IsRing self.new (elements_of self.old count) }
        ensures above { label_of self.new at < result }
        ensures below { result < above_of self.new at }
        ensures kept { (x : ℕ) → Contains self.new.renumbered.items x
            ⊎ (label_of self.new x ≡ label_of self.old x) }
        ensures room { self.new.room ≡ self.old.room }
    {
        self.renumbered.clear();
        if self.gap_after(at) < 2 {
            self.make_room(at, count);
        }
        self.label(at) + self.gap_after(at) / 2
    }

    /// Links `element` into the ring right after `at`, with `label`. Returns the place that `element` was linked to before.
    pub(crate) fn link_after(&mut self, at: u32, element: u32, label: u64) -> u32
        requires at { at < vec_len self.old.next }
        requires element { element < vec_len self.old.next }
        ensures was { result ≡ slice_index self.old.next.items element }
        ensures place { result < vec_len self.old.next }
        ensures next { self.new.next.items ≡ next_with self.old.next.items at element }
        ensures previous { self.new.previous.items
            ≡ previous_with self.old.next.items self.old.previous.items at element }
        ensures labels { self.new.labels.items ≡ slice_set self.old.labels.items element label }
        ensures renumbered { self.new.renumbered.items ≡ self.old.renumbered.items }
        ensures room { self.new.room ≡ self.old.room }
    {
        let was = self.next(element);
        let next = self.next(at);
        self.next[element as usize] = next;
        self.previous[element as usize] = at;
        self.labels[element as usize] = label;
        self.next[at as usize] = element;
        self.previous[next as usize] = element;
        was
    }

    /// Takes `element` out of the ring, and links it to `next`.
    pub(crate) fn unlink(&mut self, element: u32, next: u32)
        requires element { element < vec_len self.old.next }
        requires next { next < vec_len self.old.next }
        ensures next { self.new.next.items
            ≡ next_without self.old.next.items self.old.previous.items element next }
        ensures previous { self.new.previous.items
            ≡ previous_without self.old.next.items self.old.previous.items element }
        ensures labels { self.new.labels.items ≡ self.old.labels.items }
        ensures renumbered { self.new.renumbered.items ≡ self.old.renumbered.items }
        ensures room { self.new.room ≡ self.old.room }
    {
        let before = self.previous(element);
        let after = self.next(element);
        self.next[before as usize] = after;
        self.previous[after as usize] = before;
        self.next[element as usize] = next;
    }

    /// Spreads the labels of the smallest sparse range around the label of `at`. This is the algorithm of Bender, Cole, Demaine,
    /// Farach-Colton and Zito ("Two simplified algorithms for maintaining order in a list", 2002). A range has 4^k labels and
    /// begins at a multiple of 4^k. It is sparse if at most 2^k of its labels are in use.
    //
    // Once a range is spread, each of its quarters takes 2^k / 4 more elements before it is too dense to be spread by itself. So an
    // insertion pays for four new labels at each k, and k is at most one above the binary logarithm of the number of elements.
    // There are fewer than 2^32 elements, so the range of all labels is always sparse.
    fn make_room(&mut self, at: u32, count: u32)
        requires place { at < vec_len self.old.next }
        requires few { count < 2 ^ 32 - 1 }
        requires fits { count ≤ self.old.room }
        requires ring { IsRing self.old (elements_of self.old count) }
        requires there { Contains (path (elements_of self.old count)) at }
        requires none { self.old.renumbered.items ≡ [] }
        ensures next { self.new.next.items ≡ self.old.next.items }
        ensures previous { self.new.previous.items ≡ self.old.previous.items }
        ensures ring { IsRing self.new (elements_of self.old count) }
        ensures room { label_of self.new at + 2 ≤ above_of self.new at }
        ensures kept { (x : ℕ) → Contains self.new.renumbered.items x
            ⊎ (label_of self.new x ≡ label_of self.old x) }
        ensures places { self.new.room ≡ self.old.room }
    {
        for level in 2..32u32 {
            let most = 1u32 << level;
            let size = u64::from(most) * u64::from(most);
            if let Some(run) = self.sparse_run(at, size, most) {
                let base = self.label(at) / size * size;
                let gap = (size - 1) / u64::from(run.count);
                self.spread(run.first, run.count, base, gap);
                return;
            }
        }
        let all = count + 1;
        self.spread(HEAD, all, 0, END / u64::from(all));
    }

    /// Returns the elements whose labels are in the same range of `size` labels as that of `at`, if there are at most `most` of
    /// them.
    fn sparse_run(&self, at: u32, size: u64, most: u32) -> Option<Run>
        requires place { at < vec_len self.now.next }
        requires size { 0 < size }
        requires most { 0 < most }
        ensures place { IfSome result (λ run. run.first < vec_len self.now.next) }
        ensures few { IfSome result (λ run. (0 < run.count) × (run.count ≤ most)) }
        ensures run { IfSome result (λ run. (xs : List ℕ)
            → IsRing self.now xs → Contains (path xs) at → IsRun self.now xs at size run) }
    {
        let range = self.label(at) / size;
        let mut run = Run {
            first: at,
            count: 1,
        };
        while run.first != HEAD && self.label(self.previous(run.first)) / size == range {
            if run.count == most {
                return None;
            }
            run.first = self.previous(run.first);
            run.count += 1;
        }
        let mut last = at;
        while self.next(last) != HEAD && self.label(self.next(last)) / size == range {
            if run.count == most {
                return None;
            }
            last = self.next(last);
            run.count += 1;
        }
        Some(run)
    }

    /// Gives the labels `base`, `base + gap` and so on to `count` consecutive elements from `first` on, and lists the elements.
    fn spread(&mut self, first: u32, count: u32, base: u64, gap: u64)
        requires place { first < vec_len self.old.next }
        requires fits { base + count * gap < 2 ^ 64 }
        requires listed { vec_len self.old.renumbered + count ≤ self.old.room + 1 }
        ensures next { self.new.next.items ≡ self.old.next.items }
        ensures previous { self.new.previous.items ≡ self.old.previous.items }
        ensures labels { self.new.labels.items
            ≡ spread_over (walk self.old.next.items first count) base gap self.old.labels.items }
        ensures renumbered { self.new.renumbered.items
            ≡ self.old.renumbered.items ++ walk self.old.next.items first count }
        ensures room { self.new.room ≡ self.old.room }
    {
        let mut at = first;
        let mut label = base;
        for _done in 0..count {
            self.labels[at as usize] = label;
            put(&mut self.renumbered, at);
            at = self.next(at);
            label += gap;
        }
    }
}
