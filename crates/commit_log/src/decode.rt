//! Decodes the body of a record. Its index, its digest, the zeros behind its payload and each of its writes are checked.
ghost use Rattle.std.specs.Prelude.{◌≡◌, ◌<◌, ◌≤◌, ◌+◌, ◌*◌, ◌^◌, ◌++◌, ◌-◌, [], ◌∷◌, ℕ, List, true, false};
ghost use Rattle.std.specs.Prelude.{slice_index, EachIndex, Option, length, IfOk, IfSome, IfNone};
ghost use Rattle.std.specs.Option.{option_map};
ghost use Rattle.std.specs.declared.cmp.Ordering.TheVariants.{Less};
ghost use Rattle.byteorder.specs.Endian.{big_bytes, big_number};
ghost use Rattle.model.specs.Key.{IsKey};
ghost use Rattle.sector.specs.declared.device.TheConstants.{SECTOR_SIZE};
ghost use Rattle.commit_log.specs.RecordFormat.{IsValueIn, FitsFormat, IsRising, IsWriteSet, BeginsWithNoValue};
ghost use Rattle.commit_log.specs.RecordFormat.{BeginsWithNoEntry, FallsBehind, IsNoPayload, IsNoBody, value_bytes};
ghost use Rattle.commit_log.specs.RecordFormat.{entry_bytes, payload_bytes, padded_body, record_digest, sectors_for};

use crate::encode::digest_of;
use crate::formats::LogFormat;
use byteorder::{BigEndian, ByteOrder};
use model::{Key, KeyRef, Memory, Write};
use std::alloc::Global;
use std::cmp::Ordering;

/// A record's digest.
#[derive(Clone, Copy, Debug)]
pub(crate) struct Digest {
    pub bytes: [u8; 32],
}

fn take_u16(bytes: &[u8]) -> Option<(u16, &[u8])>
    ensures some { IfSome result (λ r. bytes.now ≡ big_bytes 2 r.0 ++ r.1.now) }
    ensures none { IfNone result (length bytes.now < 2) }
{
    if bytes.len() < 2 {
        return None;
    }
    let (front, rest) = bytes.split_at(2);
    Some((BigEndian::read_u16(front), rest))
}

fn take_u32(bytes: &[u8]) -> Option<(u32, &[u8])>
    ensures some { IfSome result (λ r. bytes.now ≡ big_bytes 4 r.0 ++ r.1.now) }
    ensures fits { IfSome result (λ r. r.0 < 2 ^ 32) }
    ensures none { IfNone result (length bytes.now < 4) }
{
    if bytes.len() < 4 {
        return None;
    }
    let (front, rest) = bytes.split_at(4);
    Some((BigEndian::read_u32(front), rest))
}

/// A value at the front, or the mark of a deletion.
fn take_value(
    alloc: Global,
    format: LogFormat,
    bytes: &[u8],
) -> Result<Option<(Option<Vec<u8>>, &[u8])>, Memory>
    ensures some { IfOk result
        (λ o. IfSome o (λ r. bytes.now ≡ value_bytes (option_map (λ v. v.items) r.0) ++ r.1.now)) }
    ensures limits { IfOk result (λ o. IfSome o (λ r. IfSome (option_map (λ v. v.items) r.0) (IsValueIn format))) }
    ensures none { IfOk result (λ o. IfNone o (BeginsWithNoValue format bytes.now)) }
{
    let Some((kind, rest)) = bytes.split_first() else {
        return Ok(None);
    };
    if *kind == 0 {
        return Ok(Some((None, rest)));
    }
    if *kind != 1 {
        return Ok(None);
    }
    let Some((len, rest)) = take_u32(rest) else {
        return Ok(None);
    };
    if len as usize > format.value_max() || rest.len() < len as usize {
        return Ok(None);
    }
    let (value, rest) = rest.split_at(len as usize);
    Ok(Some((Some(value.to_vec(alloc)?), rest)))
}

/// A key at the front.
fn take_key(bytes: &[u8]) -> Option<(KeyRef<'_>, &[u8])>
    ensures some { IfSome result (λ r. bytes.now ≡ (big_bytes 2 (length r.0.bytes.now) ++ r.0.bytes.now) ++ r.1.now) }
    ensures none { IfNone result
        ((key : List ℕ) (rest : List ℕ) → IsKey key → bytes.now ≡ (big_bytes 2 (length key) ++ key) ++ rest → ⊥) }
{
    let (len, rest) = take_u16(bytes)?;
    if rest.len() < len as usize {
        return None;
    }
    let (key, rest) = rest.split_at(len as usize);
    Some((KeyRef::new(key)?, rest))
}

/// An entry at the front.
fn take_entry(
    alloc: Global,
    format: LogFormat,
    bytes: &[u8],
) -> Result<Option<(Write, &[u8])>, Memory>
    ensures some { IfOk result (λ o. IfSome o (λ r. bytes.now ≡ entry_bytes r.0 ++ r.1.now)) }
    ensures limits { IfOk result (λ o. IfSome o (λ r. FitsFormat format r.0)) }
    ensures none { IfOk result (λ o. IfNone o (BeginsWithNoEntry format bytes.now)) }
{
    let Some((key, rest)) = take_key(bytes) else {
        return Ok(None);
    };
    let Some((value, rest)) = take_value(alloc, format, rest)? else {
        return Ok(None);
    };
    Ok(Some((Write::new(Key::from_ref(alloc, key)?, value), rest)))
}

/// Is the key above those before it?
fn rises(writes: &[Write], write: &Write) -> bool
    ensures yes { result ≡ true → IsRising writes.now → IsRising (writes.now ++ write.now ∷ []) }
    ensures some { result ≡ false → 1 ≤ length writes.now }
    ensures falls { result ≡ false → FallsBehind writes.now write.now }
{
    match writes.last() {
        Some(last) => last.compare(write.lend_key().bytes()) == Ordering::Less,
        None => true,
    }
}

/// The writes of a payload, or none where it isn't one.
fn decode_payload(
    alloc: Global,
    format: LogFormat,
    bytes: &[u8],
) -> Result<Option<Vec<Write>>, Memory>
    ensures some { IfOk result (λ o. IfSome o (λ v. payload_bytes v.items ≡ bytes.now)) }
    ensures proper { IfOk result (λ o. IfSome o (λ v. IsWriteSet format v.items)) }
    ensures none { IfOk result (λ o. IfNone o (IsNoPayload format bytes.now)) }
{
    let Some((count, mut rest)) = take_u32(bytes) else {
        return Ok(None);
    };
    if count < 1 || count > 64 {
        return Ok(None);
    }
    let mut writes: Vec<Write> = Vec::with_capacity(alloc, count as usize)?;
    for i in 0..count {
        let Some((write, after)) = take_entry(alloc, format, rest)? else {
            return Ok(None);
        };
        if !rises(&writes, &write) {
            return Ok(None);
        }
        writes.push(write)?;
        rest = after;
    }
    if rest.is_empty() {
        Ok(Some(writes))
    } else {
        Ok(None)
    }
}

pub fn is_same(a: &[u8], b: &[u8]) -> bool
    ensures yes { result ≡ true → a.now ≡ b.now }
    ensures no { result ≡ false → a.now ≡ b.now → ⊥ }
{
    a == b
}

fn is_zero(bytes: &[u8]) -> bool
    ensures yes { result ≡ true → EachIndex bytes.now (λ k. slice_index bytes.now k ≡ 0) }
    ensures no { result ≡ false → EachIndex bytes.now (λ k. slice_index bytes.now k ≡ 0) → ⊥ }
{
    bytes.iter().all(|b| *b == 0)
}

/// The writes of a record's body and its digest, or none where it isn't the body of the record with this index behind
/// the one with that digest.
pub fn decode_body(
    alloc: Global,
    format: LogFormat,
    body: &[u8],
    before: &[u8; 32],
    index: u64,
) -> Result<Option<(Vec<Write>, Digest)>, Memory>
    requires { length body.now ≡ SECTOR_SIZE * sectors_for (big_number 4 body.now) }
    ensures some { IfOk result (λ o. IfSome o (λ r. padded_body before.now index r.0.items ≡ body.now)) }
    ensures proper { IfOk result (λ o. IfSome o (λ r. IsWriteSet format r.0.items)) }
    ensures digest { IfOk result (λ o. IfSome o (λ r. r.1.bytes ≡ record_digest before.now index r.0.items)) }
    ensures none { IfOk result (λ o. IfNone o (IsNoBody format before.now index body.now)) }
{
    let Some((len, rest)) = take_u32(body) else {
        return Ok(None);
    };
    let (number, rest) = rest.split_at(8);
    let (digest, rest) = rest.split_at(32);
    let (payload, zeros) = rest.split_at(len as usize);
    let mut right_number = [0; 8];
    BigEndian::write_u64(&mut right_number, index);
    if !is_same(number, &right_number) {
        return Ok(None);
    }
    let right_digest = digest_of(before, index, payload);
    if !is_same(digest, &right_digest) {
        return Ok(None);
    }
    if !is_zero(zeros) {
        return Ok(None);
    }
    match decode_payload(alloc, format, payload)? {
        Some(writes) => Ok(Some((
            writes,
            Digest {
                bytes: right_digest,
            },
        ))),
        None => Ok(None),
    }
}
