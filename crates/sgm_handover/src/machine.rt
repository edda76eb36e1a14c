ghost use Rattle.std.specs.Prelude.{◌≡◌, ◌≢◌, ◌↔◌, ℕ, ◌<◌, ◌≤◌, length, slice_index_or, vec_len};
ghost use Rattle.std.specs.Prelude.{true, false, IfOk, IsOk, OnOk, OnErr, Some, None, replicate};
ghost use Rattle.std.specs.Prelude.{if◌then◌else◌};
ghost use Rattle.std.proofs.Props.{props};
ghost use Rattle.sgm_handover.specs.Handover.{Sound, is_worker};
ghost use Rattle.sgm_handover.specs.Fields.{handover};

use crate::{Event, Illegal};
use sgm_base::MAX_STRIPS;
use sgm_energy::Dir;
use std::alloc::{AllocError, Global};

/// The state of the hand-over. It is sound at each moment.
#[derive(Drop)]
pub struct Machine {
    pub(crate) strips: u32,
    // By the number of the front: the strips that it has passed, and the worker that has it.
    pub(crate) passed: [u32; 6],
    pub(crate) away: [Option<u32>; 6],
    // By strip the worker that holds it.
    pub(crate) holders: Vec<Option<u32>>,
    ghost sized: { vec_len holders ≡ strips },
    ghost sound: { Sound (handover strips passed away holders.items) } by { Prim.hlevel props },
}

/// Whether the worker stands in the list.
fn has(list: &[Option<u32>], worker: u32) -> bool
    ensures no { result ≡ false → (k : ℕ) → k < length list.now
        → slice_index_or list.now k None ≢ Some worker }
    ensures yes { result ≡ true
        → (k : ℕ) × (k < length list.now) × (slice_index_or list.now k None ≡ Some worker) }
{
    for (i, place) in list.iter().enumerate() {
        if *place == Some(worker) {
            return true;
        }
    }
    false
}

/// Takes the worker out of the list.
fn release(list: &mut Vec<Option<u32>>, worker: u32)
    ensures each { (k : ℕ) → slice_index_or list.new.items k None
        ≡ (if is_worker worker (slice_index_or list.old.items k None) then None
        else slice_index_or list.old.items k None) }
    ensures len { vec_len list.new ≡ vec_len list.old }
{
    for i in 0..list.len() {
        if list[i] == Some(worker) {
            list[i] = None;
        }
    }
}

/// As many places without a worker.
fn nobody(alloc: Global, count: usize) -> Result<Vec<Option<u32>>, AllocError>
    ensures { IfOk result (λ v. v.items ≡ replicate count None) }
{
    let mut holders = Vec::with_capacity(alloc, count)?;
    for i in 0..count {
        let _place = i;
        holders.push(None)?;
    }
    Ok(holders)
}

impl Machine {
    ghost use Rattle.sgm_handover.specs.Handover.{fresh, Holds, HoldsNoStrip, HasNoFront};
    ghost use Rattle.sgm_handover.specs.Events.{Legal, after};
    ghost use Rattle.sgm_handover.specs.Machines.{state_of};
    ghost use Rattle.sgm_handover.specs.declared.event.Event.TheVariants.{Claim, Take, Put, Return};

    /// The machine before the first event: no strip is held, no front is away, and none has passed
    /// a strip. `strips` is from 1 to [`MAX_STRIPS`].
    pub fn new(alloc: Global, strips: u32) -> Result<Machine, AllocError>
        requires { (1 ≤ strips) × (strips ≤ MAX_STRIPS) }
        ensures { IfOk result (λ machine. state_of machine ≡ fresh strips) }
    {
        let holders = nobody(alloc, strips as usize)?;
        Ok(Machine {
            strips,
            passed: [0; 6],
            away: [None; 6],
            holders,
        })
    }

    fn holds_strip(&self, worker: u32) -> bool
        ensures no { result ≡ false → HoldsNoStrip (state_of self.now) worker }
        ensures yes { result ≡ true → (strip : ℕ) × Holds (state_of self.now) worker strip }
    {
        has(&self.holders, worker)
    }

    fn has_front(&self, worker: u32) -> bool
        ensures no { result ≡ false → HasNoFront (state_of self.now) worker }
        ensures yes { result ≡ true → ¬ HasNoFront (state_of self.now) worker }
    {
        has(&self.away, worker)
    }

    fn may_claim(&self, worker: u32, strip: u32) -> bool
        ensures yes { result ≡ true → Legal (state_of self.now) (Claim worker strip) }
        ensures no { result ≡ false → ¬ Legal (state_of self.now) (Claim worker strip) }
    {
        strip < self.strips && self.holders[strip as usize] == None && !self.holds_strip(worker)
    }

    fn may_take(&self, worker: u32, dir: Dir) -> bool
        ensures yes { result ≡ true → Legal (state_of self.now) (Take worker dir) }
        ensures no { result ≡ false → ¬ Legal (state_of self.now) (Take worker dir) }
    {
        let Some(front) = dir.front() else {
            return false;
        };
        if self.passed[front] >= self.strips {
            return false;
        }
        // The strip at a position, and the position of a strip, are reckoned alike.
        let strip = dir.position(self.passed[front], self.strips);
        self.holders[strip as usize] == Some(worker)
            && self.away[front] == None
            && !self.has_front(worker)
    }

    fn may_put(&self, worker: u32, dir: Dir) -> bool
        ensures yes { result ≡ true → Legal (state_of self.now) (Put worker dir) }
        ensures no { result ≡ false → ¬ Legal (state_of self.now) (Put worker dir) }
    {
        match dir.front() {
            Some(front) => self.away[front] == Some(worker),
            None => false,
        }
    }

    fn may_return(&self, worker: u32) -> bool
        ensures yes { result ≡ true → Legal (state_of self.now) (Return worker) }
        ensures no { result ≡ false → ¬ Legal (state_of self.now) (Return worker) }
    {
        self.holds_strip(worker) && !self.has_front(worker)
    }

    fn is_legal(&self, event: Event) -> bool
        ensures yes { result ≡ true → Legal (state_of self.now) event }
        ensures no { result ≡ false → ¬ Legal (state_of self.now) event }
    {
        match event {
            Event::Claim { worker, strip } => self.may_claim(worker, strip),
            Event::Take { worker, dir } => self.may_take(worker, dir),
            Event::Put { worker, dir } => self.may_put(worker, dir),
            Event::Return { worker } => self.may_return(worker),
        }
    }

    fn claim(&mut self, worker: u32, strip: u32)
        requires { Legal (state_of self.old) (Claim worker strip) }
        ensures { state_of self.new ≡ after (state_of self.old) (Claim worker strip) }
    {
        self.holders[strip as usize] = Some(worker);
    }

    fn take(&mut self, worker: u32, dir: Dir)
        requires { Legal (state_of self.old) (Take worker dir) }
        ensures { state_of self.new ≡ after (state_of self.old) (Take worker dir) }
    {
        let Some(front) = dir.front() else {
            unreachable!()
        };
        self.away[front] = Some(worker);
    }

    fn put(&mut self, worker: u32, dir: Dir)
        requires { Legal (state_of self.old) (Put worker dir) }
        ensures { state_of self.new ≡ after (state_of self.old) (Put worker dir) }
    {
        let Some(front) = dir.front() else {
            unreachable!()
        };
        self.passed[front] += 1;
        self.away[front] = None;
    }

    fn let_go(&mut self, worker: u32)
        requires { Legal (state_of self.old) (Return worker) }
        ensures { state_of self.new ≡ after (state_of self.old) (Return worker) }
    {
        release(&mut self.holders, worker);
    }

    /// Makes the event happen: Ok exactly where it is legal. Otherwise the machine is unchanged.
    /// Takes no memory.
    pub fn apply(&mut self, event: Event) -> Result<(), Illegal>
        ensures legal { IsOk result ↔ Legal (state_of self.old) event }
        ensures after { OnOk result (state_of self.new ≡ after (state_of self.old) event) }
        ensures unchanged { OnErr result (state_of self.new ≡ state_of self.old) }
        ensures sound { Sound (state_of self.new) }
    {
        if !self.is_legal(event) {
            return Err(Illegal);
        }
        match event {
            Event::Claim { worker, strip } => self.claim(worker, strip),
            Event::Take { worker, dir } => self.take(worker, dir),
            Event::Put { worker, dir } => self.put(worker, dir),
            Event::Return { worker } => self.let_go(worker),
        }
        Ok(())
    }
}
