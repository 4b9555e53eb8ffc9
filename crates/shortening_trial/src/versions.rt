//! A journal of the same records, each in one of both versions, written byte by byte from
//! docs/FORMATS.md.
use crate::tally::Tally;
use anyhow::Result;
use bench_disk::MemoryDisk;
use bench_records::{Named, decode, encode_full};
use disk_journal::{Payload, read_journal};
use rand_core::utils::NextWord;
use rand_pcg::Pcg32;
use std::alloc::{AllocError, Global};

/// The head of a journal for the table of 2 pieces.
const HEAD: [u8; 8] = *b"DRBENCH\x02";

/// The byte in front of each frame, and the one behind the last.
const OPEN_GATE: u8 = 1;

const SHUT_GATE: u8 = 0;

/// How many bytes the length of a payload takes.
const LENGTH_BYTES: u64 = 4;

/// The payloads of a journal.
fn payloads_of(alloc: Global, journal: &[u8]) -> Result<Vec<Payload>> {
    let mut disk = MemoryDisk::of(alloc, journal.to_vec(alloc)?)?;
    let (_, payloads) = read_journal(alloc, &mut disk)?;
    Ok(payloads)
}

/// The text of version 1 of a record behind others, which named these positions. They get its own.
fn full_text(alloc: Global, text: &[u8], named: &mut Named) -> Result<Vec<u8>> {
    let record = decode(alloc, text, 2, named)?;
    let text = encode_full(alloc, &record)?;
    named.add(&record)?;
    Ok(text)
}

/// Appends a frame of one record's text.
fn push_frame(journal: &mut Vec<u8>, text: &[u8]) -> Result<(), AllocError> {
    let length = u32::try_from(text.len()).unwrap_or(0);
    journal.push(OPEN_GATE)?;
    journal.extend_from_slice(&(u64::from(length) + LENGTH_BYTES).to_be_bytes())?;
    journal.extend_from_slice(&length.to_be_bytes())?;
    journal.extend_from_slice(text)
}

/// A journal of the same records as this one, which are of version 2, each in one of both versions.
pub(crate) fn in_both_versions(
    alloc: Global,
    journal: &[u8],
    dice: &mut Pcg32,
    tally: &mut Tally,
) -> Result<Vec<u8>> {
    let payloads = payloads_of(alloc, journal)?;
    let mut named = Named::new(alloc);
    let mut bytes = HEAD.to_vec(alloc)?;
    for payload in &payloads {
        let text = full_text(alloc, &payload.bytes, &mut named)?;
        if dice.next_word() % 2 == 0 {
            push_frame(&mut bytes, &text)?;
            tally.full = tally.full.saturating_add(1);
        } else {
            push_frame(&mut bytes, &payload.bytes)?;
        }
    }
    bytes.push(SHUT_GATE)?;
    Ok(bytes)
}
