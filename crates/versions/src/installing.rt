//! Installs the versions that a commit writes, in room that was made before, and lists those that they supersede.
ghost use Rattle.std.specs.Prelude.{◌≡◌, ℕ, T, ◌+◌, ◌-◌, ◌<◌, ◌≤◌, [], ◌∷◌, length, IsOk, OnOk};
ghost use Rattle.std.specs.Ordering.{nat_cmp};
ghost use Rattle.std.specs.Cmp.Lexicographic.{slice_cmp};
ghost use Rattle.std.specs.FinMap.Entries.{is_sorted};
ghost use Rattle.std.specs.Vec.{vec_len, vec_capacity};
ghost use Rattle.model.specs.Map.{Bytes};
ghost use Rattle.sorted_pages.specs.Pages.{IsInsertionPoint, IsLastRaised, entries};
ghost use Rattle.sorted_pages.specs.Rooms.{IsEmptyFor};
ghost use Rattle.versions.specs.Chains.{HasPlaceAt, ChainHasRoom, IsAddedAt};
ghost use Rattle.versions.specs.Chains.{WhereRoom, count_together, find_chain, stamped};
ghost use Rattle.versions.specs.Listings.{followed};
ghost use Rattle.versions.specs.Installing.{AddsWrites, CanAddAt, HaveMoreRoom, HaveRoom, IsKeptBelow};
ghost use Rattle.versions.specs.Installing.{ListsFollowed, ListsMore, TakesRoom};

use crate::chain::Chain;
use crate::listing::OldVersion;
use crate::several::Version;
use crate::value::kept_value;
use model::{Key, KeyRef, Write};
use sorted_pages::{InsertionPoint, SortedPages};
use std::alloc::AllocError;

// Lists the version of the key that commit `n` supersedes.
fn list(listed: &mut Vec<OldVersion>, key: Key, number: u64, n: u64)
    requires { vec_len listed.old < vec_capacity listed.old }
    ensures { ListsMore listed.old listed.new (record { key = key; number = number; next = n } ∷ []) }
{
    let version = OldVersion {
        key,
        number,
        next: n,
    };
    match listed.push(version) {
        Ok(()) => {}
        Err(_) => unreachable!(),
    }
}

// How many of the first of the writes come to the page where a new key would be inserted.
fn count_beside(chains: &SortedPages<Chain>, at: InsertionPoint, writes: &[Write]) -> usize
    ensures { (k : Bytes) → IsInsertionPoint chains.now.pages k at.page at.entry
        → result ≡ count_together k chains.now.pages writes.now }
{
    for (i, write) in writes.iter().enumerate() {
        if !chains.is_placed_in(at, write.lend_key()) {
            return i;
        }
    }
    writes.len()
}

// Makes room for a version in the key's chain, or where it would stand, for a new chain for each of the first of the writes that come to
// the same page.
pub(crate) fn make_room(
    chains: &mut SortedPages<Chain>,
    key: KeyRef<'_>,
    writes: &[Write],
) -> Result<(), AllocError>
    requires { T (is_sorted (slice_cmp nat_cmp) (entries chains.old.pages)) }
    ensures roomier { HaveMoreRoom chains.old chains.new }
    ensures room { OnOk result (ChainHasRoom (find_chain key.entry.bytes.now (entries chains.new.pages))) }
    ensures place { OnOk result (HasPlaceAt (count_together key.entry.bytes.now chains.new.pages writes.now)
        key.entry.bytes.now chains.new.pages (entries chains.new.pages)) }
    ensures known { WhereRoom (count_together key.entry.bytes.now chains.old.pages writes.now)
        key.entry.bytes.now chains.old.pages (entries chains.old.pages) (IsOk result) }
{
    match chains.find(key) {
        Ok(at) => chains.reserve_value(at, key),
        Err(at) => {
            // Where there is room for all of them, it need not be known which of them come here.
            if writes.len() <= chains.room_in(at) {
                return Ok(());
            }
            let n = count_beside(chains, at, writes);
            chains.reserve(at, key, n)
        }
    }
}

// Adds the version that commit `n` leaves, in the room that was made for it, and lists the one before it.
fn add(chains: &mut SortedPages<Chain>, listed: &mut Vec<OldVersion>, n: u64, write: Write)
    requires sorted { T (is_sorted (slice_cmp nat_cmp) (entries chains.old.pages)) }
    requires ready { CanAddAt n write.0 chains.old }
    requires listed_spare { 1 ≤ vec_capacity listed.old - vec_len listed.old }
    ensures chains { IsAddedAt write.0 (stamped n write.1) (entries chains.old.pages) (entries chains.new.pages) }
    ensures places { TakesRoom n (find_chain write.0 (entries chains.old.pages)) write.0 chains.old chains.new }
    ensures listed { ListsMore listed.old listed.new
        (followed (find_chain write.0 (entries chains.old.pages)) write.0 n) }
{
    let (key, value) = write.into_parts();
    let version = Version {
        number: n,
        value: kept_value(value),
    };
    match chains.find(key.lend()) {
        Ok(at) => {
            let number = chains.value(at, key.lend()).number();
            chains.add(at, key.lend(), version);
            list(listed, key, number, n);
        }
        Err(at) => chains.insert(at, key, Chain::new(version)),
    }
}

// Adds the versions that commit `n` leaves, in the room that was made for them, and lists those before them.
pub(crate) fn add_all(
    chains: &mut SortedPages<Chain>,
    listed: &mut Vec<OldVersion>,
    n: u64,
    writes: Vec<Write>,
)
    requires kept { IsKeptBelow n chains.old }
    requires rising { T (is_sorted (slice_cmp nat_cmp) writes.items) }
    requires room { HaveRoom chains.old.pages (entries chains.old.pages) writes.items }
    requires listed { IsEmptyFor (length writes.items) listed.old }
    ensures chains { AddsWrites (entries chains.old.pages) (entries chains.new.pages) n writes.items }
    ensures listed { ListsFollowed (entries chains.old.pages) (entries chains.new.pages) n listed.new.items }
    ensures held { IsLastRaised n chains.old chains.new }
{
    for write in writes {
        add(chains, listed, n, write);
    }
}
