//! What is kept of committed transactions: the verdict on a commit, new ones, and those that are forgotten.
ghost use Rattle.std.specs.Prelude.{◌≡◌, ◌+◌, ◌≤◌, ◌<◌, List, [], length, true, false, OnOk, ◌-◌};
ghost use Rattle.std.specs.List.{AllByRecursion};
ghost use Rattle.model.specs.History.{Record};
ghost use Rattle.merging_runs.specs.Contents.{size_in};
ghost use Rattle.merging_runs.specs.Next.{IsNext};
ghost use Rattle.last_readers.specs.declared.runs.TheConstants.{BEGINS_MAX};
ghost use Rattle.pivot_check.specs.Merged.{AddsWrittenRun, AreMoved, AreMovedWith, IsTriedIn};
ghost use Rattle.pivot_check.specs.FewKept.{KeepsLittle};
ghost use Rattle.pivot_check.specs.Kept.{Forgets, HasForgotten, HasRoom, IsEmpty, IsStep, TakesNumber};
ghost use Rattle.pivot_check.specs.Kept.{IsInReach, KeepsNoneUpto, KeepsReach, LeavesMergesOf, asked_from, is_kept};
ghost use Rattle.pivot_check.specs.Kept.{garbage_runs, kept_count, may_ask};
ghost use Rattle.pivot_check.specs.Index.{answer_found};
ghost use Rattle.pivot_check.specs.StandsFor.{StandForSame, StandWithRecord, StandsFor};
ghost use Rattle.pivot_check.specs.StandsFor.{IsCleared, IsClearedBy, IsPlaced, IsVerdict};

use crate::active::ActiveBegins;
use crate::by_start::ByStart;
use crate::ready::Ready;
use crate::run::WrittenRun;
use crate::runs::{add_run, first_overwritten, first_pivot, first_target};
use crate::sources::last_source;
use crate::verdict::{Cleared, Verdict};
use crate::written::add_all;
use last_readers::LastReaders;
use merging_runs::Runs;
use model::Memory;
use snapshot::Transaction;
use std::alloc::Global;
use std::marker::Model;

/// The committed transactions that an open one may still be concurrent with. A clause sees what is kept of them (`facts`), the memory that
/// was made ready (`room`), and how much the runs hold (`contents`). What is kept stands for histories: over each of them the answers to
/// those who may ask are those of the definition, which looks at the whole history.
///
/// Kept are the last reader of each key, and the keys that they wrote, each with the number and the flag of its transaction. The keys stand
/// in runs, each sorted by key, of transactions that committed one after another. Two runs of a like size beside one another are merged
/// where they have 16,384 keys at most together, or where nobody who may still ask began between their numbers: so few are left, and no
/// long run holds what is forgotten beside what isn't. A merge goes on some keys with each commit, so that no commit is long. It takes the
/// places of both runs; once it has ended, the memory of the two is released in steps, for 4,096 keys of the longer one with each commit.
/// It drops what none who may ask is answered by, so that a key that is written again and again is kept a few times, and not once for each
/// commit.
#[derive(Drop)]
pub struct Committed {
    readers: LastReaders,
    runs: Runs<WrittenRun>,
    oldest: u64,
    last: u64,
    // who may still ask
    active: ActiveBegins,
    // what the next commit needs
    ready: Option<Ready>,
}

impl Model for Committed {
    ghost use Rattle.std.specs.Prelude.{◌≡◌, ◌≤◌};
    ghost use Rattle.last_readers.specs.Readers.{last_reader, AreUpto};
    ghost use Rattle.pivot_check.specs.Kept.{CommittedValue, AreAbove};
    ghost use Rattle.pivot_check.specs.Inside.{postings_in, ready_keys};
    ghost use Rattle.pivot_check.specs.Active.{reach_of};

    ghost Value = { CommittedValue };

    ghost view = { λ c. record {
      facts = record {
        readers = c.readers.readers;
        postings = postings_in c.runs.runs;
        oldest = c.oldest;
        last = c.last;
        reach = reach_of c.active;
      };
      room = record { readers = c.readers.room; runs = c.runs.places; ready = ready_keys c.ready };
      contents = record {
        readers = c.readers.contents;
        written = c.runs.contents;
        sizes = c.runs.sizes;
        refused = c.runs.refused;
      };
      runs = c.runs.runs;
    } };

    ghost invariant = { λ c. record {
      order : c.oldest ≤ c.last;
      forgotten : c.readers.readers.oldest ≤ c.last;
      together : c.readers.readers.oldest ≡ c.oldest;
      upto : AreUpto c.last c.readers.readers;
      above : AreAbove c.oldest (last_reader c.readers.readers);
      now : c.active.since ≤ c.last;
    } };
}

impl Committed {
    /// Nothing committed yet: stands for the empty history. All may ask. Takes no memory.
    pub fn new(alloc: Global) -> Committed
        ensures empty { IsEmpty result.facts }
        ensures stands_for { StandsFor result.facts [] }
        ensures little { KeepsLittle result }
    {
        Committed {
            readers: LastReaders::new(alloc),
            runs: Runs::new(alloc),
            oldest: 0,
            last: 0,
            active: ActiveBegins::all(),
            ready: None,
        }
    }

    // The least number above `n` of a commit of which something is kept.
    fn next_kept(&self, n: u64) -> Option<u64>
        ensures { IsNext (is_kept self.now.facts) n result }
    {
        let read = self.readers.next_named(None, n);
        self.runs.next_number(read, n)
    }

    /// Of how many transactions something is kept: a key that they wrote, or that they were the last to read one. It looks at all that the
    /// runs hold once for each of them, so it is no call for a busy store. Takes no memory.
    pub fn kept(&self) -> usize
        ensures { result ≡ kept_count self.now.facts }
    {
        let mut count = 0;
        let mut number = 0;
        'kept: while let Some(next) = self.next_kept(number) {
            if next > self.last {
                return count;
            }
            number = next;
            count += 1;
        }
        count
    }

    /// The last commit number, 0 before the first commit. Takes no memory.
    pub fn last(&self) -> u64
        ensures { result ≡ self.now.facts.last }
    {
        self.last
    }

    /// The greatest number that was handed to `forget`, 0 before the first. No reader is kept that committed at or before it. Takes no
    /// memory.
    pub fn oldest(&self) -> u64
        ensures oldest { result ≡ self.now.facts.oldest }
        ensures forgotten { HasForgotten result self.now.facts }
    {
        self.oldest
    }

    /// How many runs of written keys are kept. Takes no memory.
    pub fn runs(&self) -> usize
        ensures { result ≡ length self.now.contents.sizes }
    {
        self.runs.as_slice().len()
    }

    /// How many written keys the runs hold, and one more for each run; 2^64 - 1 where there were more. What a merge has moved counts twice
    /// until the memory that it had before is released. Looks at each run, and takes no memory.
    pub fn postings(&self) -> usize
        ensures { result ≡ size_in self.now.contents.written.runs }
    {
        self.runs.size()
    }

    /// How often memory for a merge of written keys was refused, 2^64 - 1 at most: each time two runs of a like size stayed. Takes no
    /// memory.
    pub fn refused(&self) -> u64
        ensures { result ≡ self.now.contents.refused }
    {
        self.runs.refused()
    }

    // The answer where the transaction overwrites no concurrent commit. A transaction is a dangerous pivot where its first target committed
    // no later than its last source.
    fn answer(&self, transaction: &Transaction) -> Verdict
        ensures { result ≡ answer_found self.now.facts transaction.now }
    {
        let runs = self.runs.as_slice();
        if runs.is_empty() {
            return Verdict::Clear(Cleared::new(false));
        }
        let begin = transaction.begin();
        let order = ByStart::of(transaction.marks().as_slice());
        let Some(target) = first_target(runs, &order, begin) else {
            return Verdict::Clear(Cleared::new(false));
        };
        if let Some(source) = last_source(&self.readers, transaction.entries(), begin) {
            if target <= source {
                return Verdict::PivotSelf;
            }
        }
        match first_pivot(runs, &order, begin) {
            Some(n) => Verdict::Pivot(n),
            None => Verdict::Clear(Cleared::new(true)),
        }
    }

    /// Whether the transaction may commit as the next number, by the definition over the whole history: it has overwritten no concurrent
    /// commit, and neither it nor a committed transaction would be a dangerous pivot (Cahill, Röhm, Fekete 2008; Ports, Grittner 2012). Of
    /// several reasons it names the least overwritten key, else the transaction itself, else the pivot of least commit number.
    ///
    /// It takes a binary search in each run for each written key, two for each mark, three times as many in a run that is being made of
    /// two, and a look at a bound for each 64 keys written under a mark; the numbers of these keys are looked at where the bound lets one
    /// be less than what was found. The marks are sorted by start, and a key under several of them is looked at once. Where the transaction
    /// has read what a concurrent one wrote, it takes also a look-up of the last reader of each written key. Takes no memory.
    pub fn verdict(&self, transaction: &Transaction) -> Verdict
        ensures verdict { IsInReach self.now.facts transaction.now → IsVerdict self.now.facts transaction.now result }
        ensures cleared { IsClearedBy self.now.facts transaction.now result }
        ensures place { IsPlaced result transaction.now.writes }
    {
        match first_overwritten(
            self.runs.as_slice(),
            transaction.entries(),
            transaction.begin(),
        ) {
            Some(i) => Verdict::Overwritten(i),
            None => self.answer(transaction),
        }
    }

    /// Makes room for what is kept of the transaction, so that `note` can't fail. It takes a copy of the keys in its marks and of its
    /// written keys, the place of each of these keys, and the places of two runs; `Memory` where that is refused. What is kept stands for
    /// the same histories in either case.
    ///
    /// It begins to merge the last two runs beside one another that are to become one, where there are such: that takes the places of both.
    /// They are of a like size, and have 16,384 keys at most together, or nobody who may still ask began between their numbers
    /// (`become_one`). Where memory for these is refused, it counts the refusal, and the two stay. So it does with the last readers, by a
    /// count of their own.
    pub fn reserve(&mut self, transaction: &Transaction) -> Result<(), Memory>
        ensures same { StandForSame self.old.facts self.new.facts }
        ensures tried { IsTriedIn self.old self.new }
        ensures room { OnOk result (HasRoom self.new.room transaction.now) }
        ensures little { self.old.facts.reach.since ≡ self.old.facts.last → KeepsLittle self.old
            → KeepsLittle self.new }
    {
        self.runs.reserve(&self.active, self.oldest)?;
        let begins = &self.active.begins;
        self.readers.reserve(transaction.marks(), begins)?;
        self.ready = Some(Ready::for_commit(self.runs.allocator(), transaction)?);
        Ok(())
    }

    // Adds what is kept of the transaction, in the room that was made for it.
    fn add_record(&mut self, transaction: &Transaction, n: u64, cleared: Cleared)
        requires next { n ≡ self.old.facts.last + 1 }
        requires cleared { IsCleared self.old.facts transaction.now cleared }
        requires room { HasRoom self.old.room transaction.now }
        ensures stands_for { StandWithRecord self.old.facts self.new.facts transaction.now n }
        ensures numbered { TakesNumber n self.old.facts self.new.facts }
        ensures run { AddsWrittenRun transaction.now n self.old self.new }
        ensures little { KeepsLittle self.old → KeepsLittle self.new }
    {
        let Some(ready) = self.ready.take() else {
            unreachable!()
        };
        let Ready { keys, mut places } = ready;
        self.readers.note(n);
        add_all(&mut places, keys, n, cleared.has_earlier_target());
        add_run(&mut self.runs, places, n);
        self.last = n;
    }

    // Moves postings of the merges that are under way, for so many that were noted.
    fn move_on(&mut self, count: usize)
        ensures stands_for { (h : List Record) → StandsFor self.old.facts h → StandsFor self.new.facts h }
        ensures reach { KeepsReach self.old.facts self.new.facts }
        ensures last { self.new.facts.last ≡ self.old.facts.last }
        ensures moved { AreMoved count self.old.contents.sizes self.old self.new }
        ensures little { KeepsLittle self.old → KeepsLittle self.new }
    {
        self.runs.move_on(self.oldest, &self.active, count);
    }

    /// Keeps what the check needs of the transaction, which commits as number `n`, the next one, and was cleared for it by `verdict`. From
    /// each history that is stood for it leads to that history with the new record. It can't fail and takes no memory: `reserve` made room.
    /// Then the merges that are under way go on by 16 moves for each written key, and 64 more, until nothing is left to move. A move takes
    /// one written key. What none who may ask is answered by is dropped then: of two postings of one key the later, where none who may ask
    /// began between their numbers and the flag of the earlier tells as much. Once a merge has ended, the memory of the two runs is
    /// released, for 4,096 keys of the longer one with each call. The last readers are merged in the same way, by a count of their own.
    pub fn note(&mut self, transaction: &Transaction, n: u64, cleared: Cleared)
        requires next { n ≡ self.old.facts.last + 1 }
        requires cleared { IsCleared self.old.facts transaction.now cleared }
        requires room { HasRoom self.old.room transaction.now }
        ensures stands_for { StandWithRecord self.old.facts self.new.facts transaction.now n }
        ensures numbered { TakesNumber n self.old.facts self.new.facts }
        ensures moved { AreMovedWith transaction.now n self.old self.new }
        ensures little { KeepsLittle self.old → KeepsLittle self.new }
    {
        self.add_record(transaction, n, cleared);
        self.move_on(transaction.entries().len());
    }

    /// From then on one may ask alone who began at one of these numbers, or at the last commit number or later; what is kept stands for the
    /// same histories, where each of them may ask already. Nothing is dropped at once: the merges that go on drop what none of these asks
    /// for. So it has to be called again and again, as transactions end and others commit. Takes no memory.
    pub fn keep_active(&mut self, begins: &[u64])
        requires few { length begins.now ≤ BEGINS_MAX }
        ensures stands_for { AllByRecursion (λ b. may_ask self.old.facts.reach b ≡ true) begins.now
            → (h : List Record) → StandsFor self.old.facts h → StandsFor self.new.facts h }
        ensures asked { self.new ≡ record self.old { facts = asked_from begins.now self.old.facts } }
        ensures little { AllByRecursion (λ b. may_ask self.old.facts.reach b ≡ true) begins.now → KeepsLittle self.old
            → KeepsLittle self.new }
    {
        self.active = ActiveBegins::of(begins, self.last);
    }

    /// Does a part of what `forget` does. From then on none may ask that began before `oldest`, and what is left stands for the same
    /// histories, since a flag was fixed when it was noted. What was kept of the transactions that committed at or before `oldest` is
    /// dropped in steps: as much in each as `Runs::forget_step` says, of the written keys and of the last readers, so that it is short also
    /// at the end of a transaction that was open for long. Answers whether it has to be called again until nothing is kept of them. Takes
    /// no memory.
    pub fn forget_step(&mut self, oldest: u64) -> bool
        requires { oldest ≤ self.old.facts.last }
        ensures stands_for { (h : List Record) → StandsFor self.old.facts h → StandsFor self.new.facts h }
        ensures forgets { Forgets oldest self.old.facts self.new.facts }
        ensures step { IsStep self.old self.new result }
        ensures kept { result ≡ false → KeepsNoneUpto self.new.facts.oldest self.new.facts }
        ensures merges { LeavesMergesOf self.old self.new }
        ensures little { KeepsLittle self.old → KeepsLittle self.new }
    {
        let are_readers_garbage = self.readers.forget_step(oldest);
        self.oldest = self.oldest.max(oldest);
        let are_runs_garbage = self.runs.forget_step(self.oldest);
        are_readers_garbage || are_runs_garbage
    }

    /// Drops all that was kept of the transactions that committed at or before number `oldest`: their written keys, and the last readers
    /// among them. From then on none may ask that began before it, and what is left stands for the same histories, since a flag was fixed
    /// when it was noted. It takes the time of a look at all that the runs hold, and no memory.
    pub fn forget(&mut self, oldest: u64)
        requires { oldest ≤ self.old.facts.last }
        ensures stands_for { (h : List Record) → StandsFor self.old.facts h → StandsFor self.new.facts h }
        ensures forgets { Forgets oldest self.old.facts self.new.facts }
        ensures garbage { garbage_runs self.new ≡ 0 }
        ensures kept { KeepsNoneUpto self.new.facts.oldest self.new.facts }
        ensures merges { LeavesMergesOf self.old self.new }
        ensures little { KeepsLittle self.old → KeepsLittle self.new }
    {
        self.readers.forget(oldest);
        self.oldest = oldest.max(self.oldest);
        self.runs.forget(self.oldest);
    }
}
