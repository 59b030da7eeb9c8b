//! For each key the last commit that read it: look-ups, new readers, and those that are forgotten.
ghost use Rattle.std.specs.Prelude.{◌≡◌, ◌<◌, ◌-◌, ◌||◌, ℕ, Bool, List, [], None, length, max, nat_lt, false, OnOk};
ghost use Rattle.model.specs.Map.{Bytes};
ghost use Rattle.model.specs.PrivateCopy.{Mark};
ghost use Rattle.merging_runs.specs.Contents.{garbage_upto, freed_a_forget, size_in};
ghost use Rattle.merging_runs.specs.Next.{IsNext};
ghost use Rattle.last_readers.specs.Readers.{AddsRun, AnswerAlike, AddsRunAndMerges, AreUpto, HasReadersRoom};
ghost use Rattle.last_readers.specs.Readers.{IsForgotten, IsNoted, HasSomeReadersRoom, NameNoneUpto, if_after};
ghost use Rattle.last_readers.specs.Readers.{garbage_of_readers, is_named_reader, last_reader};
ghost use Rattle.merging_runs.specs.RunSizes.{IsTried, LeavesMerges, become_one};

use crate::gathering::steps_of;
use crate::run::{ReadRun, Ready};
use crate::runs::{BEGINS_MAX, add_run, greatest_in};
use arrayvec::ArrayVec;
use marks::Marks;
use merging_runs::Runs;
use model::{KeyRef, Memory};
use std::alloc::Global;
use std::marker::Model;

/// For each key the number of the last commit that has read it. A clause sees what is kept (`readers`), the memory that was made ready
/// (`room`), how much the runs hold (`contents`), how far they are merged (`runs`), and how often memory for a merge was refused
/// (`refused`). The last reader of a key is `last_reader` of what is kept, and no answer depends on anything else.
///
/// What is kept stands in runs, each the numbers of commits one after another as steps by rising key. A commit adds a run of its own. Two
/// runs of a like size are merged: where both have read a key, the greater number alone is left. So the runs are few, and what they hold
/// is bounded by the keys and the ends of ranges that were read. A merge goes on a few steps with each commit, and answers meanwhile as
/// both runs do, so that no commit is long. It takes the places of both runs until it has ended. From then on the memory of the two is
/// released, for 4,096 steps of the longer one with each commit. The memory of a run that is forgotten is released with its steps.
#[derive(Drop)]
pub struct LastReaders {
    runs: Runs<ReadRun>,
    oldest: u64,
    // the steps of the marks that are noted next
    ready: Option<Ready>,
}

impl Model for LastReaders {
    ghost use Rattle.last_readers.specs.Readers.{LastReadersValue};
    ghost use Rattle.last_readers.specs.Inside.{runs_in, ready_steps};

    ghost Value = { LastReadersValue };

    ghost view = { λ r. record {
      readers = record { runs = runs_in r.runs.runs; oldest = r.oldest };
      room = record { places = r.runs.places; ready = ready_steps r.ready };
      contents = r.runs.contents;
      runs = r.runs.sizes;
      refused = r.runs.refused;
    } };
}

impl LastReaders {
    /// Nobody has read anything. Takes no memory.
    pub fn new(alloc: Global) -> LastReaders
        ensures none { (key : Bytes) → last_reader result.readers key ≡ 0 }
        ensures oldest { result.readers.oldest ≡ 0 }
        ensures runs { result.runs ≡ [] }
    {
        LastReaders {
            runs: Runs::new(alloc),
            oldest: 0,
            ready: None,
        }
    }

    /// How many runs are kept. Takes no memory.
    pub fn runs(&self) -> usize
        ensures { result ≡ length self.now.runs }
    {
        self.runs.as_slice().len()
    }

    /// How many steps the runs hold, and one more for each run; 2^64 - 1 where there were more. Looks at each run, and takes no memory.
    pub fn steps(&self) -> usize
        ensures { result ≡ size_in self.now.contents.runs }
    {
        self.runs.size()
    }

    /// How often memory for a merge was refused, 2^64 - 1 at most: each time two runs of a like size stayed. Takes no memory.
    pub fn refused(&self) -> u64
        ensures { result ≡ self.now.refused }
    {
        self.runs.refused()
    }

    /// The number of the last commit that has read the key, where it is above `begin`; `None` where there is none. It takes a binary search
    /// in each run that has a number above `begin`, three in one that is being made of two, and no memory.
    pub fn last(&self, key: KeyRef<'_>, begin: u64) -> Option<u64>
        ensures { result ≡ if_after begin (last_reader self.now.readers key.entry.bytes.now) }
    {
        let later = begin.max(self.oldest);
        let number = greatest_in(self.runs.as_slice(), key, later);
        if later < number { Some(number) } else { None }
    }

    /// The number above `n` that was found, or the least above `n` that a step names, where that is less: the least of a commit of which
    /// something is kept. It looks at each step, and takes no memory.
    pub fn next_named(&self, found: Option<u64>, n: u64) -> Option<u64>
        ensures { (p : ℕ → Bool) → IsNext p n found → IsNext (λ k. p k || is_named_reader self.now.readers k) n result }
    {
        self.runs.next_number(found, n)
    }

    /// Makes all room that noting these marks takes, so that `note` can't fail: copies of the keys in the marks, and the place of a run.
    /// `Memory` where memory for that is refused. It takes the time of sorting the marks, and answers as before in either case.
    ///
    /// It begins to merge the last two runs beside one another that are to become one (`become_one`), where there are such: both are of a
    /// like size, and neither is being made of two, or has memory of such two to release. That takes the places of both. Where memory
    /// for these is refused, it counts the refusal, and the two stay. Where they have more than 16,384 steps together, they are merged
    /// only where no transaction is active that began between their numbers: then each is freed in steps, and neither is ever swept. The
    /// active ones began at these numbers, or at the last number or later.
    pub fn reserve(
        &mut self,
        marks: &Marks,
        begins: &ArrayVec<u64, BEGINS_MAX>,
    ) -> Result<(), Memory>
        ensures readers { AnswerAlike self.old.readers self.new.readers }
        ensures tried { IsTried (become_one begins.now.items self.old.readers.oldest) self.old.runs self.new.runs
            self.old.refused self.new.refused }
        ensures room { OnOk result (HasReadersRoom marks.now self.new.room) }
    {
        self.runs.reserve(begins, self.oldest)?;
        let steps = steps_of(self.runs.allocator(), marks.as_slice())?;
        self.ready = Some(Ready { steps });
        Ok(())
    }

    // Adds what was made ready as a run with this number: how many steps it has. One without steps is left out.
    fn add_ready(&mut self, n: u64) -> usize
        requires later { self.old.readers.oldest < n }
        requires upto { AreUpto n self.old.readers }
        requires room { HasSomeReadersRoom self.old.room }
        ensures noted { (marks : List Mark) → HasReadersRoom marks self.old.room
            → IsNoted marks n self.old.readers self.new.readers }
        ensures upto { AreUpto n self.new.readers }
        ensures oldest { self.new.readers.oldest ≡ self.old.readers.oldest }
        ensures run { AddsRun n result self.old self.new }
    {
        let Some(ready) = self.ready.take() else {
            unreachable!()
        };
        let count = ready.steps.len();
        if count > 0 {
            add_run(&mut self.runs, ReadRun::numbered(ready, n));
        }
        count
    }

    /// Notes that the commit with number `n` has read what the marks cover that room was made for last: it is the last reader of each key
    /// that they cover, and the other keys have the one that they had. The number is above `oldest`, and no last reader has one above it.
    /// It can't fail: `reserve` made room.
    ///
    /// Then the merges that are under way go on by 16 moves for each step of the marks, and 64, until nothing is left to move. A move takes
    /// one step, or two of one key. Where nothing is left to move of a run, the memory of the two that it was made of is released, for
    /// 4,096 steps of the longer one. It takes no memory.
    pub fn note(&mut self, n: u64)
        requires later { self.old.readers.oldest < n }
        requires upto { AreUpto n self.old.readers }
        requires room { HasSomeReadersRoom self.old.room }
        ensures noted { (marks : List Mark) → HasReadersRoom marks self.old.room
            → IsNoted marks n self.old.readers self.new.readers }
        ensures upto { AreUpto n self.new.readers }
        ensures oldest { self.new.readers.oldest ≡ self.old.readers.oldest }
        ensures moved { AddsRunAndMerges n self.old self.new }
    {
        let count = self.add_ready(n);
        self.runs.move_on(self.oldest, &ArrayVec::new(), count);
    }

    /// Forgets the last readers with numbers up to `oldest`: to such keys it answers from then on that there is none. Of what stands in the
    /// runs it drops a part: what is as old goes in steps, as much in each as `Runs::forget_step` says. Merging leaves out what is as old
    /// too. Answers whether it has to be called again until all that is as old is gone. Takes no memory.
    pub fn forget_step(&mut self, oldest: u64) -> bool
        ensures forgotten { IsForgotten oldest self.old.readers self.new.readers }
        ensures upto { (n : ℕ) → AreUpto n self.old.readers → AreUpto n self.new.readers }
        ensures oldest { self.new.readers.oldest ≡ max self.old.readers.oldest oldest }
        ensures garbage { garbage_of_readers self.new
            ≡ garbage_upto self.new.readers.oldest self.old.contents - freed_a_forget }
        ensures still { result ≡ nat_lt 0 (garbage_of_readers self.new) }
        ensures named { result ≡ false → NameNoneUpto self.new.readers.oldest self.new.readers }
        ensures merges { LeavesMerges self.new.readers.oldest self.old.runs self.new.runs self.old.refused
            self.new.refused }
    {
        self.oldest = self.oldest.max(oldest);
        self.runs.forget_step(self.oldest)
    }

    /// Forgets the last readers with numbers up to `oldest`, all of them at once: no step names such a number any more. It takes the time
    /// of a look at each step that the runs hold, and no memory.
    pub fn forget(&mut self, oldest: u64)
        ensures forgotten { IsForgotten oldest self.old.readers self.new.readers }
        ensures upto { (n : ℕ) → AreUpto n self.old.readers → AreUpto n self.new.readers }
        ensures oldest { self.new.readers.oldest ≡ max self.old.readers.oldest oldest }
        ensures garbage { garbage_of_readers self.new ≡ 0 }
        ensures named { NameNoneUpto self.new.readers.oldest self.new.readers }
        ensures merges { LeavesMerges self.new.readers.oldest self.old.runs self.new.runs self.old.refused
            self.new.refused }
    {
        self.oldest = self.oldest.max(oldest);
        self.runs.forget(self.oldest);
    }
}
