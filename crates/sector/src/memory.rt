//! A device in memory, which a test can make fail and crash.
ghost use Rattle.std.specs.Prelude.{◌≡◌, ◌<◌, ◌≤◌, ◌%◌, ◌^◌, ◌↔◌, length, IfOk, OnOk};
ghost use Rattle.std.specs.Prelude.{IsTrue, MatchBool, MatchResult, map, replicate};
ghost use Rattle.std.specs.List.{concat};
ghost use Rattle.sector.specs.Counts.{KeepsCounts, Rose, RoseByOne, Stayed};
ghost use Rattle.sector.specs.Settled.{AreSettledBefore, AreSettledFrom};

use crate::{DeviceFault, SECTOR_SIZE, Sector, Sectors};
use model::Memory;
use std::alloc::Global;

/// A sector of a device in memory.
#[derive(Clone, Copy, Debug)]
pub struct Slot {
    written: Sector,
    /// What the last sync left, where the sector was written since.
    settled: Option<Sector>,
}

// The places from `start` on and before `end`.
#[derive(Clone, Copy)]
struct Span {
    start: usize,
    end: usize,
    ghost ordered: { start ≤ end },
}

impl Span {
    ghost use Rattle.std.specs.Prelude.{◌≡◌, ◌⊎◌, ◌≤◌, ◌<◌, ◌^◌, ◌-◌, ◌+◌};

    // No place.
    fn empty() -> Span
        ensures start { result.start ≡ 0 }
        ensures end { result.end ≡ 0 }
    {
        Span { start: 0, end: 0 }
    }

    // The shortest span with these places and one more.
    fn with(self, at: usize) -> Span
        requires { at < 2 ^ 64 - 1 }
        ensures start { (result.start ≤ at) × ((result.start ≤ self.start) ⊎ (self.end ≤ self.start)) }
        ensures end { (at < result.end) × ((self.end ≤ result.end) ⊎ (self.end ≤ self.start)) }
        ensures within { (result.end ≤ at + 1) ⊎ (result.end ≤ self.end) }
    {
        if self.start == self.end {
            return Span {
                start: at,
                end: at + 1,
            };
        }
        Span {
            start: self.start.min(at),
            end: self.end.max(at + 1),
        }
    }
}

/// A device in memory that keeps the sector model. A test can make a call of it fail, and can let it crash. A sync takes the time of the
/// sectors from the first to the last that was written since the sync before, however many the device has.
#[derive(Drop)]
pub struct MemSectors {
    slots: Vec<Slot>,
    /// Where sectors may be unsettled: from the first to the last that was written since the last sync.
    unsettled: Span,
    failures: u64,
    /// How many syncs were asked for; the greatest count stays.
    syncs: u64,
    /// The call that is to fail, counted from the next one as 1; 0 for none.
    failing_call: u64,
    ghost before: { AreSettledBefore unsettled.start slots.items },
    ghost from: { AreSettledFrom unsettled.end slots.items },
    ghost within: { unsettled.end ≤ length slots.items },
}

impl MemSectors {
    ghost use Rattle.sector.specs.Slots.{image, AreFilled, MayLeave, IsAsNew, FailsNext, CountsDown};

    /// A device of `count` sectors of zeros, all settled. It takes about 1 KiB for each sector; `Memory` where they are refused.
    pub fn new(alloc: Global, count: u64) -> Result<Self, Memory>
        ensures image { IfOk result (λ m. image m ≡ replicate count (replicate SECTOR_SIZE 0)) }
        ensures as_new { IfOk result IsAsNew }
    {
        let mut slots = Vec::with_capacity(alloc, count as usize)?;
        for _i in 0..count {
            slots.push(Slot {
                written: [0; 512],
                settled: None,
            })?;
        }
        Ok(MemSectors {
            slots,
            unsettled: Span::empty(),
            failures: 0,
            syncs: 0,
            failing_call: 0,
        })
    }

    /// A device of these bytes, all settled, whose number is one of whole sectors. It takes about 1 KiB for each sector; `Memory` where
    /// they are refused.
    pub fn from_image(alloc: Global, bytes: &[u8]) -> Result<Self, Memory>
        requires { length bytes.now % SECTOR_SIZE ≡ 0 }
        ensures image { IfOk result (λ m. concat (image m) ≡ bytes.now) }
        ensures as_new { IfOk result IsAsNew }
    {
        let mut slots = Vec::with_capacity(alloc, bytes.len() / SECTOR_SIZE)?;
        let mut rest = bytes;
        while rest.len() >= 512 {
            let mut written = [0; 512];
            let (front, back) = rest.split_at(512);
            written.copy_from_slice(front);
            slots.push(Slot {
                written,
                settled: None,
            })?;
            rest = back;
        }
        Ok(MemSectors {
            slots,
            unsettled: Span::empty(),
            failures: 0,
            syncs: 0,
            failing_call: 0,
        })
    }

    /// Makes the n-th read, write or sync from now on fail, the next one being the first, and no other. Takes no memory.
    pub fn fail_call(&mut self, n: u64)
        requires from_one { 1 ≤ n }
        requires none_failed { self.old.failures ≡ 0 }
        ensures { self.new ≡ record self.old { failing_call = n } }
    {
        self.failing_call = n;
    }

    /// What a crash leaves, all settled: `fill` gives what each unsettled sector then holds, from its place and its settled and its
    /// last written content. No call of it has failed yet, and none is to. Takes no memory.
    pub fn crash<F: Fn(u64, &Sector, &Sector) -> Sector + Drop>(self, fill: F) -> Self
        requires { F.IsAlwaysCallable fill }
        ensures possible { MayLeave self.slots.items (image result) }
        ensures filled { AreFilled (F.post fill) self.slots.items result.slots.items }
        ensures as_new { IsAsNew result }
    {
        let mut slots = self.slots;
        for i in 0..slots.len() {
            slots[i] = slots[i].left(i as u64, &fill);
        }
        MemSectors {
            slots,
            unsettled: Span::empty(),
            failures: 0,
            syncs: 0,
            failing_call: 0,
        }
    }

    /// Counts a call, and says whether it fails.
    fn fails(&mut self) -> bool
        ensures slots { self.new.slots ≡ self.old.slots }
        ensures syncs { self.new.syncs ≡ self.old.syncs }
        ensures fails { IsTrue result ↔ FailsNext self.old }
        ensures next { CountsDown self.old self.new }
        ensures failures { MatchBool result (Rose self.old.failures self.new.failures)
            (Stayed self.old.failures self.new.failures) }
    {
        if self.failures == u64::MAX {
            return true;
        }
        let fails = self.failing_call == 1;
        self.failing_call = self.failing_call.saturating_sub(1);
        if fails {
            self.failures += 1;
        }
        fails
    }
}

impl Slot {
    ghost use Rattle.std.specs.Prelude.{◌≡◌, ◌≤◌, length, map};
    ghost use Rattle.sector.specs.Slots.{IsFilled, IsLeft, settled_slot};

    // What a crash leaves of the sector at this place.
    fn left<F: Fn(u64, &Sector, &Sector) -> Sector>(self, at: u64, fill: &F) -> Slot
        requires { F.IsAlwaysCallable fill.now }
        ensures left { IsLeft self result }
        ensures filled { IsFilled (F.post fill.now at) self result }
    {
        match self.settled {
            Some(settled) => Slot {
                written: fill(at, &settled, &self.written),
                settled: None,
            },
            None => self,
        }
    }

    // Settles each sector as it was last written, where outside the span each is settled.
    fn settle_all(slots: &mut Vec<Slot>, unsettled: Span)
        requires before { AreSettledBefore unsettled.start slots.old.items }
        requires from { AreSettledFrom unsettled.end slots.old.items }
        requires within { unsettled.end ≤ length slots.old.items }
        ensures { slots.new.items ≡ map settled_slot slots.old.items }
    {
        for i in unsettled.start..unsettled.end {
            slots[i].settled = None;
        }
    }
}

impl Sectors for MemSectors {
    ghost use Rattle.sector.specs.SectorModel.{FollowsWrite, LeavesNoMore, Syncs};
    ghost use Rattle.sector.specs.Slots.{MayBeLeft, MayRead, length-left, IsSettledAs, IsWritten};
    ghost use Rattle.sector.specs.Slots.{HasSameSectors, FailsAsAsked};

    ghost size = { λ m. length m.slots.items };

    ghost failures = { λ m. m.failures };

    ghost syncs = { λ m. m.syncs };

    ghost keeps_model = { Unit {0} };

    ghost may_read = { MayRead };

    ghost may_leave = { MayBeLeft };

    ghost moment = { λ m. 0 };

    ghost left_since = { λ m t. MayBeLeft m };

    ghost leaves_all = { λ keeps m c left. length-left m.slots.items c left };

    ghost counts_now = { λ keeps m t c le left. left };

    ghost only_now = { λ keeps m c left. left };

    fn count(&self) -> u64 {
        self.slots.len() as u64
    }

    fn read(&mut self, at: u64, into: &mut Sector) -> Result<(), DeviceFault>
        requires { at < length self.old.slots.items }
        ensures counts { KeepsCounts (λ m. length m.slots.items) (λ m. m.syncs) self.old self.new }
        ensures fails { FailsAsAsked self.old self.new result }
        ensures gives { OnOk result (MayRead self.old at into.new) }

        // A read settles nothing.
        ensures sectors { self.new.slots ≡ self.old.slots }
    {
        if self.fails() {
            return Err(DeviceFault);
        }
        *into = self.slots[at as usize].written;
        Ok(())
    }

    fn write(&mut self, at: u64, from: &Sector) -> Result<(), DeviceFault>
        requires { at < length self.old.slots.items }
        ensures counts { KeepsCounts (λ m. length m.slots.items) (λ m. m.syncs) self.old self.new }
        ensures fails { FailsAsAsked self.old self.new result }
        ensures crash { FollowsWrite at (MayBeLeft self.old) (MayBeLeft self.new) }

        // Whether or not it failed, the sector was written and is unsettled, and the others are as they were.
        ensures sectors { IsWritten at from.now self.old self.new }
    {
        let fails = self.fails();
        self.unsettled = self.unsettled.with(at as usize);
        let slot = &mut self.slots[at as usize];
        let settled = slot.settled.unwrap_or(slot.written);
        slot.settled = Some(settled);
        slot.written = *from;
        if fails {
            return Err(DeviceFault);
        }
        Ok(())
    }

    fn sync(&mut self) -> Result<(), DeviceFault>
        ensures counts { (length self.new.slots.items ≡ length self.old.slots.items)
            × RoseByOne self.old.syncs self.new.syncs }
        ensures fails { FailsAsAsked self.old self.new result }
        ensures settles { OnOk result (Syncs (λ m. length m.slots.items) MayRead MayBeLeft self.old self.new) }
        ensures crash { LeavesNoMore (MayBeLeft self.old) (MayBeLeft self.new) }

        // It settles each sector, or where it fails none.
        ensures sectors { MatchResult result (λ _. IsSettledAs self.old self.new)
            (λ _. HasSameSectors self.old self.new) }
    {
        self.syncs = self.syncs.saturating_add(1);
        if self.fails() {
            Err(DeviceFault)
        } else {
            Slot::settle_all(&mut self.slots, self.unsettled);
            self.unsettled = Span::empty();
            Ok(())
        }
    }
}
