//! A certificate is taken into a journal.
ghost use Rattle.std.specs.Prelude.{◌≡◌, ◌⊎◌, ◌≤◌, ◌<◌, ◌++◌, [], ℕ, List, All, length, map, true, false, IfOk, IfErr, OnOk, Err};
ghost use Rattle.bench_disk.specs.Disk.{IsHonest, NothingPending};
ghost use Rattle.bench_disk.specs.Runs.{Leaves};
ghost use Rattle.shared_words.specs.Answers.{Unless};
ghost use Rattle.shared_words.specs.Counts.{Rose};
ghost use Rattle.disk_journal.specs.Format.{HasPayloads, StandsForEither};
ghost use Rattle.disk_journal.specs.declared.refusal.JournalRefusal.TheVariants as faults;
ghost use Rattle.journal_lessons.specs.declared.refusals.LearnRefusal.{LearnRefusal};
ghost use Rattle.journal_lessons.specs.declared.refusals.LearnRefusal.TheVariants as refusals;
ghost use Rattle.journal_lessons.specs.Learnt.{ExplainsNoLesson, HasNoLesson, IsLearnt, KeepsWhole, says_nothing};

use crate::refusals::LearnRefusal;
use crate::teaching::{Taught, teach};
use bench_disk::Disk;
use certificate_checker::Proved;
use disk_journal::{Journal, JournalRefusal};
use endgame_table::Table;
use std::alloc::{AllocError, Global};

/// Stages each text. After want of memory the journal has its disk still.
fn stage_all<D: Disk>(journal: &mut Journal<D>, texts: &[Vec<u8>]) -> Result<(), AllocError>
    requires unfailed { journal.old.failed ≡ false }
    requires none { journal.old.staged ≡ [] }
    requires some { All (λ t. 0 < length t.items) texts.now }
    ensures staged { OnOk result (journal.new ≡
        record journal.old { staged = map (λ t. t.items) texts.now }) }
    ensures disk { journal.new.disk ≡ journal.old.disk }
{
    for text in texts {
        journal.stage(text)?;
    }
    Ok(())
}

/// Stages each text and commits once. The disk comes back.
fn record<D: Disk>(journal: Journal<D>, taught: &Taught) -> (D, Result<u32, LearnRefusal>)
    requires unfailed { journal.failed ≡ false }
    requires none { journal.staged ≡ [] }
    requires some { All (λ t. 0 < length t.items) taught.now.texts.items }
    ensures number { IfOk result.1 (λ root. root ≡ taught.now.root) }
    ensures has { IsHonest D.TELLS → (payloads : List (List ℕ)) →
        HasPayloads journal.pieces (D.reads journal.disk) payloads →
        OnOk result.1 (HasPayloads journal.pieces (D.reads result.0)
        (payloads ++ map (λ t. t.items) taught.now.texts.items)) }
    ensures leaves { IsHonest D.TELLS → NothingPending (D.reads journal.disk) (D.images
        journal.disk) → (payloads : List (List ℕ)) →
        HasPayloads journal.pieces (D.reads journal.disk) payloads →
        Leaves D.moment D.images_since journal.disk result.0
        (StandsForEither journal.pieces payloads
        (payloads ++ map (λ t. t.items) taught.now.texts.items)) }
    ensures settled { IsHonest D.TELLS → NothingPending (D.reads journal.disk) (D.images
        journal.disk) → NothingPending (D.reads result.0) (D.images result.0) ⊎
        Rose (D.faults journal.disk) (D.faults result.0) }
    ensures refused { IfErr result.1 (λ r. says_nothing r ≡ true) }
    ensures later { D.faults journal.disk ≤ D.faults result.0 }
    ensures fault { IfErr result.1 (λ r. r ≡ refusals.Journal faults.DiskFault →
        Rose (D.faults journal.disk) (D.faults result.0)) }
{
    let mut journal = journal;
    if let Err(error) = stage_all(&mut journal, &taught.texts) {
        return (journal.into_disk(), Err(LearnRefusal::from(error)));
    }
    match journal.commit() {
        Ok(_receipt) => (journal.into_disk(), Ok(taught.root)),
        Err(_fault) => (
            journal.into_disk(),
            Err(LearnRefusal::Journal(JournalRefusal::DiskFault)),
        ),
    }
}

/// Takes a certificate into the journal on a disk, for the table that it names: it answers the
/// number of the root of its position, counted from 1, which is then settled or has all facts of the
/// claim. What is added stands in one frame: a crash leaves all of it or nothing.
///
/// A fresh disk is a journal without records. The disk comes back. A refusal is that of the disk, of
/// the journal's bytes, or of memory; or else the root is expanded, or no room for it is left.
pub fn learn<D: Disk>(
    alloc: Global,
    disk: D,
    proved: Proved,
    table: &Table,
) -> (D, Result<u32, LearnRefusal>)
    requires { table.now.pieces ≡ proved.pieces }
    // What the journal then has, or why nothing is learnt.
    ensures does { IsHonest D.TELLS → IfOk result.1
        (IsLearnt (D.reads disk) (D.reads result.0) proved) }
    ensures refused { IsHonest D.TELLS →
        IfErr result.1 (ExplainsNoLesson (D.reads disk) proved) }

    // Each cause is the answer where it stands, unless the refusal says nothing of the file.
    ensures causes { IsHonest D.TELLS → (cause : LearnRefusal) →
        HasNoLesson (D.reads disk) proved cause →
        Unless says_nothing result.1 (result.1 ≡ Err cause) }

    // What is left of the disk, whatever comes of it.
    ensures leaves { IsHonest D.TELLS → NothingPending (D.reads disk) (D.images disk) →
        KeepsWhole D.Disk proved disk result.0 }
    ensures later { D.faults disk ≤ D.faults result.0 }
    ensures fault { IfErr result.1 (λ r. r ≡ refusals.Journal faults.DiskFault →
        Rose (D.faults disk) (D.faults result.0)) }
{
    let (journal, payloads) = match Journal::attach(alloc, disk, table.pieces()) {
        Ok(attached) => attached,
        Err(refused) => {
            let (disk, fault) = refused;
            return (disk, Err(LearnRefusal::from(fault)));
        }
    };
    match teach(alloc, &payloads, proved, table) {
        Ok(taught) => record(journal, &taught),
        Err(refusal) => (journal.into_disk(), Err(refusal)),
    }
}
