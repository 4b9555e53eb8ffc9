//! Makes a certificate that White wins out of the endgame table of three pieces, prints it, reads
//! it back and checks it by the table of two.
//!
//! It also merges its part out of two that overlap, and writes it in a record of a journal and
//! reads it back.
//!
//! Without words it prints how many entries the certificate has and how many bytes its text, what
//! it claims of which position, and how many entries the merged parts and the record have. It also
//! reads entries whose positions are chosen against the hashes of tables. With the word `time` it
//! prints how many entries a second are read, and how many are checked, with the word `chosen` how
//! long chosen entries take beside ordinary ones, and with the word `write` the certificate itself.
#![tactic(auto)]

ghost use Rattle.bench_records.specs.Texts.{IsShown};

mod choosing;
mod making;
mod measure;
mod merging;
mod reading_times;
mod records;

use crate::making::{entry_count, make_certificate};
use crate::merging::merged;
use crate::reading_times::{tell_chosen, time_chosen};
use crate::records::{record_of, shown_by};
use anyhow::{Result, bail, ensure};
use certificate_checker::check;
use certificate_text::{claim_word, print_certificate, read_certificate};
use endgame_table::{Table, fill};
use fen_text::print_fen;
use std::alloc::Global;
use std::env;
use std::rt::Clock;
use strategy_certificate::{Certificate, Part, PartList};

/// How many entries the certificate has.
const ENTRIES: usize = 100_000;

/// Reads the text of a certificate, checks it by the table, and prints what it is now known to
/// show.
fn tell(rt: &(impl Print + Alloc<A = Global>), text: &[u8], table: &Table) -> Result<()> {
    let bytes = text.len();
    let read = read_certificate(rt.alloc(), text)?;
    ensure!(read.pieces == table.pieces(), "not the table that it names");
    let proved = check(rt.alloc(), read, table).map_err(|refused| refused.1)?;
    let c = proved.certificate();
    let entries = entry_count(c);
    println!(rt; "certificate: {entries} entries, {bytes} bytes")?;
    let position = print_fen(&c.position);
    let claim = claim_word(c.claim);
    println!(rt; "read and checked: {position} {claim}")?;
    Ok(())
}

/// Merges the certificate's win part out of two that overlap, and its hold part likewise, and
/// prints how many entries they have. The win part is then the same as before.
fn tell_merged(rt: &(impl Print + Alloc<A = Global>), c: &Certificate, text: &[u8]) -> Result<()> {
    let [Part::Win(part)] = c.parts.as_slice() else {
        bail!("not one win part");
    };
    let (wins, holds) = merged(rt.alloc(), part)?;
    let won = wins.len();
    let held = holds.len();
    println!(rt; "merged: {won} entries of a win part, {held} of a hold part")?;
    let again = Certificate {
        position: c.position,
        claim: c.claim,
        pieces: 2,
        parts: PartList::from_vec(vec![in rt.alloc(); Part::Win(wins)]?),
    };
    let merged_text = print_certificate(rt.alloc(), &again)?;
    ensure!(merged_text.as_slice() == text, "merging changed the part");
    Ok(())
}

/// Writes the certificate in a record, reads it back, and prints how many entries it has. It is
/// then the same as before.
fn tell_record(rt: &(impl Print + Alloc<A = Global>), c: Certificate, text: &[u8]) -> Result<()>
    requires { IsShown 2 c.position c }
{
    let back = shown_by(rt.alloc(), &record_of(rt.alloc(), c)?)?;
    let entries = entry_count(&back);
    println!(rt; "record: {entries} entries")?;
    ensure!(back.pieces == 2, "by another table");
    let back_text = print_certificate(rt.alloc(), &back)?;
    ensure!(
        back_text.as_slice() == text,
        "the record changed the certificate"
    );
    Ok(())
}

/// Writes the text of a certificate.
fn write(rt: &impl Print, text: &[u8]) -> Result<()> {
    let text = str::from_utf8(text)?;
    print!(rt; "{text}")?;
    Ok(())
}

/// Does what this word asks of the certificate; none asks for a run without the clock.
fn run(rt: &(impl Print + Clock + Alloc<A = Global>), word: Option<&str>) -> Result<()> {
    let three = fill(rt.alloc(), 3)?;
    let made = make_certificate(rt.alloc(), &three, ENTRIES)?;
    let text = print_certificate(rt.alloc(), &made)?;
    let two = fill(rt.alloc(), 2)?;
    match word {
        None => {
            tell(rt, &text, &two)?;
            tell_merged(rt, &made, &text)?;
            tell_record(rt, made, &text)?;
            tell_chosen(rt)
        }
        Some("time") => measure::time(rt, &text, &two),
        Some("write") => write(rt, &text),
        Some(_) => bail!("no word of this program"),
    }
}

fn main(rt: HostRuntime) -> Result<()> {
    let word = env::args(&rt)?.nth(1);
    match &word {
        Some(word) if word.as_str() == "chosen" => time_chosen(&rt),
        Some(word) => run(&rt, Some(word.as_str())),
        None => run(&rt, None),
    }
}
