//! Encodes the body of a record: length, index, digest, payload, and zeros up to the end of a sector.
ghost use Rattle.std.specs.Prelude.{◌≡◌, ◌<◌, ◌≤◌, ◌+◌, ◌-◌, ◌*◌, ◌/◌, ◌++◌, length, vec_len, vec_capacity};
ghost use Rattle.std.specs.Prelude.{option_copied, IfOk, IfSome, take, drop, replicate};
ghost use Rattle.std.specs.List.{flat_map};
ghost use Rattle.byteorder.specs.Endian.{big_bytes};
ghost use Rattle.sha2.specs.Sha256.{sha256};
ghost use Rattle.model.specs.Bounds.{value_max, entry_bound, payload_bound};
ghost use Rattle.model.specs.Key.{IsValue};
ghost use Rattle.model.specs.Machine.{payload_size, write_size};
ghost use Rattle.commit_log.specs.Encoding.{begun, OfUnsealed};
ghost use Rattle.commit_log.specs.Format.{current};
ghost use Rattle.commit_log.specs.RecordFormat.{IsWriteSet, entry_bytes, record_digest, padded_body, sectors_for};
ghost use Rattle.commit_log.specs.RecordFormat.{body_sectors};

use byteorder::{BigEndian, ByteOrder};
use model::{KeyRef, Write};
use sector::SECTOR_SIZE;
use sha2::{Digest, Sha256};
use std::alloc::{AllocError, Global};

/// Where the digest stands in a record's body: behind the payload's length, in 4 bytes, and the record's index, in 8.
const DIGEST_AT: usize = 12;

/// Where the payload stands: behind the digest's 32 bytes. It begins with the count of its entries, in 4.
const PAYLOAD_AT: usize = 44;

/// How many sectors hold the body of a payload of this many bytes, behind its length, its index and its digest.
pub fn sectors_for(len: u32) -> u64
    ensures { result ≡ sectors_for len }
{
    (PAYLOAD_AT as u64 + len as u64 + 511) / SECTOR_SIZE as u64
}

/// How many bytes the entry of a key has, with a value or with none.
pub fn entry_len(key: KeyRef<'_>, value: Option<&[u8]>) -> u32
    requires { IfSome (option_copied value) IsValue }
    ensures len { result ≡ write_size key.entry.bytes.now (option_copied value.entry) }
    ensures bound { result ≤ entry_bound value_max }
{
    let more = match value {
        Some(value) => 4 + value.len(),
        None => 0,
    };
    (3 + key.bytes().len() + more) as u32
}

/// How many bytes the payload of a record of these writes has, as `Log::room` takes them. Takes no memory.
pub fn payload_len(writes: &[Write]) -> u32
    requires { IsWriteSet current writes.now }
    ensures len { result ≡ payload_size writes.now }
    ensures bound { result ≤ payload_bound value_max }
{
    let mut len = 4;
    for write in writes {
        len += entry_len(write.lend_key(), write.value());
    }
    len
}

/// Adds bytes for which there is room.
fn add(out: &mut Vec<u8>, bytes: &[u8])
    requires { vec_len out.old + length bytes.now ≤ vec_capacity out.old }
    ensures items { out.new.items ≡ out.old.items ++ bytes.now }
    ensures capacity { vec_capacity out.old ≤ vec_capacity out.new }
{
    if out.extend_from_slice(bytes).is_err() {
        unreachable!()
    }
}

fn add_u16(out: &mut Vec<u8>, n: u16)
    requires { vec_len out.old + 2 ≤ vec_capacity out.old }
    ensures items { out.new.items ≡ out.old.items ++ big_bytes 2 n }
    ensures capacity { vec_capacity out.old ≤ vec_capacity out.new }
{
    let mut bytes = [0; 2];
    BigEndian::write_u16(&mut bytes, n);
    add(out, &bytes);
}

fn add_u32(out: &mut Vec<u8>, n: u32)
    requires { vec_len out.old + 4 ≤ vec_capacity out.old }
    ensures items { out.new.items ≡ out.old.items ++ big_bytes 4 n }
    ensures capacity { vec_capacity out.old ≤ vec_capacity out.new }
{
    let mut bytes = [0; 4];
    BigEndian::write_u32(&mut bytes, n);
    add(out, &bytes);
}

fn add_u64(out: &mut Vec<u8>, n: u64)
    requires { vec_len out.old + 8 ≤ vec_capacity out.old }
    ensures items { out.new.items ≡ out.old.items ++ big_bytes 8 n }
    ensures capacity { vec_capacity out.old ≤ vec_capacity out.new }
{
    let mut bytes = [0; 8];
    BigEndian::write_u64(&mut bytes, n);
    add(out, &bytes);
}

/// Makes a buffer the front of a body: the length of its payload, its index, a place for its digest, and how many entries it has.
pub fn begin(body: &mut Vec<u8>, len: u32, index: u64, count: u32)
    requires { PAYLOAD_AT + 4 ≤ vec_capacity body.old }
    ensures items { body.new.items ≡ begun len index count }
    ensures capacity { vec_capacity body.old ≤ vec_capacity body.new }
{
    body.clear();
    add_u32(body, len);
    add_u64(body, index);
    add(body, &[0; 32]);
    add_u32(body, count);
}

/// Adds the entry of a key, with a value or with none.
pub fn add_entry(body: &mut Vec<u8>, key: KeyRef<'_>, value: Option<&[u8]>)
    requires value { IfSome (option_copied value) IsValue }
    requires room { vec_len body.old + write_size key.bytes.now (option_copied value) ≤ vec_capacity body.old }
    ensures items { body.new.items ≡ body.old.items ++ entry_bytes (key.entry.bytes.now, option_copied value.entry) }
    ensures capacity { vec_capacity body.old ≤ vec_capacity body.new }
{
    let bytes = key.bytes();
    add_u16(body, bytes.len() as u16);
    add(body, bytes);
    match value {
        Some(value) => {
            add(body, &[1]);
            add_u32(body, value.len() as u32);
            add(body, value);
        }
        None => add(body, &[0]),
    }
}

/// The digest of a record, from that of the record before it.
pub fn digest_of(before: &[u8; 32], index: u64, payload: &[u8]) -> [u8; 32]
    ensures { result ≡ sha256 ((before.now ++ big_bytes 8 index) ++ payload.now) }
{
    let mut number = [0; 8];
    BigEndian::write_u64(&mut number, index);
    let mut hasher = Sha256::new();
    hasher.update(before.as_slice());
    hasher.update(number.as_slice());
    hasher.update(payload);
    hasher.finalize()
}

/// Puts the digest of the payload that the body ends with into its place, and answers it.
fn seal(body: &mut Vec<u8>, before: &[u8; 32], index: u64) -> [u8; 32]
    requires { PAYLOAD_AT ≤ length body.old.items }
    ensures digest { result ≡ sha256 ((before.now ++ big_bytes 8 index) ++ drop PAYLOAD_AT body.old.items) }
    ensures body { body.new.items ≡ (take DIGEST_AT body.old.items ++ result) ++ drop PAYLOAD_AT body.old.items }
    ensures capacity { vec_capacity body.new ≡ vec_capacity body.old }
{
    let digest = digest_of(before, index, &body[PAYLOAD_AT..]);
    body[DIGEST_AT..PAYLOAD_AT].copy_from_slice(&digest);
    digest
}

/// Adds zeros up to `n` bytes, for which there is room.
fn pad(body: &mut Vec<u8>, n: usize)
    requires { n ≤ vec_capacity body.old }
    ensures items { body.new.items ≡ take n body.old.items ++ replicate (n - vec_len body.old) 0 }
    ensures len { vec_len body.new ≡ n }
    ensures capacity { vec_capacity body.old ≤ vec_capacity body.new }
{
    if body.resize(n, 0).is_err() {
        unreachable!()
    }
}

/// Ends a body that has all its entries: its digest, which is the answer, comes into its place, and zeros behind the payload up to the
/// end of the last sector.
pub fn end(body: &mut Vec<u8>, before: &[u8; 32], index: u64, len: u32) -> [u8; 32]
    requires begun { PAYLOAD_AT ≤ length body.old.items }
    requires bound { len ≤ payload_bound value_max }
    requires room { SECTOR_SIZE * sectors_for len ≤ vec_capacity body.old }
    ensures body { OfUnsealed body.old.items index len
        (λ writes. body.new.items ≡ padded_body before.now index writes) }
    ensures sectors { OfUnsealed body.old.items index len
        (λ writes. length body.new.items ≡ SECTOR_SIZE * body_sectors writes) }
    ensures digest { OfUnsealed body.old.items index len (λ writes. result ≡ record_digest before.now index writes) }
    ensures capacity { vec_capacity body.old ≤ vec_capacity body.new }
{
    let digest = seal(body, before, index);
    pad(body, sectors_for(len) as usize * SECTOR_SIZE);
    digest
}

/// Adds the entries of writes.
fn add_writes(body: &mut Vec<u8>, writes: &[Write])
    requires { vec_len body.old + payload_size writes.now ≤ vec_capacity body.old + 4 }
    ensures items { body.new.items ≡ body.old.items ++ flat_map entry_bytes writes.now }
    ensures capacity { vec_capacity body.old ≤ vec_capacity body.new }
{
    for write in writes {
        add_entry(body, write.lend_key(), write.value());
    }
}

/// A record's body, and its digest. Takes memory for the body alone.
pub fn encode(
    alloc: Global,
    before: &[u8; 32],
    index: u64,
    writes: &[Write],
    len: u32,
) -> Result<(Vec<u8>, [u8; 32]), AllocError>
    requires proper { IsWriteSet current writes.now }
    requires len { len ≡ payload_size writes.now }
    requires bound { len ≤ payload_bound value_max }
    ensures body { IfOk result (λ r. r.0.items ≡ padded_body before.now index writes.now) }
    ensures sectors { IfOk result (λ r. length r.0.items ≡ SECTOR_SIZE * body_sectors writes.now) }
    ensures digest { IfOk result (λ r. r.1 ≡ record_digest before.now index writes.now) }
{
    let mut body = Vec::with_capacity(alloc, sectors_for(len) as usize * SECTOR_SIZE)?;
    begin(&mut body, len, index, writes.len() as u32);
    add_writes(&mut body, writes);
    let digest = end(&mut body, before, index, len);
    Ok((body, digest))
}
