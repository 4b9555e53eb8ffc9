//! The top call: from the words and the source's bytes to the sink's bytes, a status, and the disk.
ghost use Rattle.std.specs.Prelude.{◌≡◌, ◌≢◌, ◌⊎◌, ◌↔◌, ◌≤◌, ℕ, List, [], None, IfSome, length};
ghost use Rattle.std.specs.Io.KnownBytes.{IsAtEnd};
ghost use Rattle.shared_words.specs.Counts.{Rose};
ghost use Rattle.bench_disk.specs.Disk.{IsHonest};
ghost use Rattle.bench_edges.specs.Words.{Says, texts};
ghost use Rattle.bench_edges.specs.declared.words.Command.{Command};
ghost use Rattle.bench_edges.specs.declared.words.Options.{Options};
ghost use Rattle.bench_records.specs.declared.records.BenchRecord.{BenchRecord};
ghost use Rattle.capture_positions.specs.Walk.{openings_from};
ghost use Rattle.certificate_text.specs.Text.{ReadsAs};
ghost use Rattle.endgame_table.specs.Bytes.{bytes_of};
ghost use Rattle.endgame_table.specs.Entries.{IsTable};
ghost use Rattle.journal_looks.specs.Looks.{HasSettledRoot};
ghost use Rattle.journal_lessons.specs.Conversions.{of_lesson};
ghost use Rattle.journal_looks.specs.Conversions.{of_look};
ghost use Rattle.journal_looks.specs.declared.refusals.LookRefusal.{LookRefusal};
ghost use Rattle.pdn_openings.specs.declared.opening.Opening.{Opening};
ghost use Rattle.strategy_certificate.specs.Certificates.{IsGood};
ghost use Rattle.strategy_certificate.specs.declared.certificates.Certificate.{Certificate};
ghost use Rattle.tree_manager.specs.Receipts.{ReadsRecords};
ghost use Rattle.opening_report.specs.Report.{ValuesAreTrue};
ghost use Rattle.bench_commands.specs.Accepted.{HasAmpleBudget, HasLookCause, HasRoom, HasRoomToSearch, IsRefusedFor, IsUnrefused, MayLearn, Teaches};
ghost use Rattle.bench_commands.specs.Bench.{ComesToDisk, Does, Finishes, HoldsOpenings, IsRefusalByWords, IsRefused, ReadsSource, Refuses, Reports, SettlesAllShown, TakesAtMost, WritesOnly};
ghost use Rattle.bench_commands.specs.Commands.{source_limit};
ghost use Rattle.bench_commands.specs.Disks.{LeavesDisk};
ghost use Rattle.bench_commands.specs.Solving.{OpeningsOf, roots_of_openings};

use crate::commands::generate::{GENERATE_DEPTH, GENERATE_PIECES};
use crate::commands::verify::MOST_CERTIFICATE_BYTES;
use crate::running::run;
use bench_disk::Disk;
use bench_edges::{Command, Sink, Source, Status, read_words};
use program_edges::MOST_GAMES_BYTES;
use std::alloc::Global;
use std::sync::Wait;
use std::thread::Threads;
use worker_gate::Gate;

/// Does what the words say, on the journal of the disk, and hands the disk back. A refused run
/// writes one line that says why.
///
/// `words` are those of the command line without the program's name: a path, a command, and its
/// options.
/// - `solve` reads the games of the source, takes the position of each after its first `--plies`
///   plies, begins a root of the journal at each that is none, lets `--workers` workers search
///   `--depth` plies ahead with the endgame table of `--pieces` until every root has a value or
///   `--budget` records of work are added, and writes the report: a line for each root and a
///   summary.
/// - `generate SEED COUNT` does the same with the openings that the seed gives, four workers, one
///   ply, the table of 2 pieces and a budget of COUNT, and writes the summary alone.
/// - `report` writes the report on what the journal holds, and `certify N` the text of a
///   certificate of the value of its root N; both write nothing to it.
/// - `verify` reads the text of a certificate, fills the endgame table that it names, and writes
///   the position and the claim where the certificate is good.
/// - `learn` reads and checks a certificate as `verify` does, and takes it into the journal, which is
///   for the table that it names: a root of its position begins, or is there, and is solved by it.
///   It writes the root's number, the position and the claim.
/// - `table K` writes the bytes of the endgame table of K pieces, 2 or 3, and reads nothing.
/// - `table-check` reads the bytes of an endgame table, and writes a line where they are sound.
///
/// The order of trial is words, source, its length, its form, what it says, the disk and its
/// journal, roots. Want of memory is answered by the status `Memory`. The clauses hold for every
/// number of workers, in whatever order they take their turns, and say nothing of what a gate does.
///
/// What a run leaves of the journal holds also where it is cut off: a crash loses nothing that the
/// disk read as before, and the next run goes on from what is there.
pub fn bench<R: Threads + Wait + Sync, S: Source, K: Sink, D: Disk + Send, G: Gate + Sync>(
    rt: &R,
    alloc: Global,
    words: &[&str],
    source: &mut S,
    sink: &mut K,
    disk: D,
    gate: &G,
) -> (Status, D)
    // Every value that is written is true, whatever the disk tells.
    ensures values { WritesOnly (K.taken sink.old) (K.taken sink.new) ValuesAreTrue }

    // With status 0 or 1 each position of the openings of the source stands in exactly one root
    // line.
    ensures openings { (command : Command) → Says (texts words.now) command → Finishes result.0
        → WritesOnly (K.taken sink.old) (K.taken sink.new)
        (HoldsOpenings command (S.left source.old)) }

    // What a run does and shows of the journal, or why it was refused.
    ensures does { Reports result.0 → (command : Command) × (Says (texts words.now) command
        × Does D.Disk
        command (S.left source.old) (K.taken sink.old) (K.taken sink.new)
        disk result.1 result.0) }
    ensures refused { Refuses result.0 → IsRefused
        (IsRefusalByWords D.Disk
        (texts words.now) (S.left source.old) (S.left source.new)
        (S.faults source.old) (S.faults source.new) disk result.1)
        disk result.1 (K.taken sink.old) (K.taken sink.new)
        (K.faults sink.old) (K.faults sink.new) result.0 }

    // What is left of the disk, however the run ends; without a command it stays.
    ensures leaves { (command : Command) → Says (texts words.now) command
        → LeavesDisk D.Disk
        command (S.left source.old) disk result.1 }
    ensures unused { result.0 ≡ Status.Words → result.1 ≡ disk }

    // When a status comes.
    ensures words { (result.0 ≡ Status.Words)
        ↔ ((command : Command) → ¬ Says (texts words.now) command) }
    ensures accepted { (options : Options) → Says (texts words.now) (Command.Solve options)
        → IfSome (S.left source.old) (λ text. length text ≤ MOST_GAMES_BYTES
        → (all : List Opening) → OpeningsOf options.plies text all
        → HasRoom D.Disk options.pieces (roots_of_openings all) disk
        → IsUnrefused result.0) }
    // Where every root that has no value, old or new, is unexpanded and looking ahead shows one, a
    // budget of at least their number leaves none unsettled.
    ensures ample { (options : Options) → Says (texts words.now) (Command.Solve options)
        → IfSome (S.left source.old) (λ text. (all : List Opening)
        → OpeningsOf options.plies text all
        → HasAmpleBudget D.Disk options.pieces options.depth options.budget
        (roots_of_openings all) disk → result.0 ≢ Status.Unsolved) }
    // Where these roots are unexpanded, and their number is no more than the budget, `--lease` and
    // 4,096, each of them of which looking ahead shows a value has one, whatever the others are.
    ensures reached { (options : Options) → Says (texts words.now) (Command.Solve options)
        → IfSome (S.left source.old) (λ text. (all : List Opening)
        → OpeningsOf options.plies text all
        → HasRoomToSearch D.Disk options.pieces options.budget options.lease
        (roots_of_openings all) disk → Finishes result.0
        → WritesOnly (K.taken sink.old) (K.taken sink.new)
        (SettlesAllShown options.pieces options.depth)) }
    // Of `generate`, with the openings that the seed gives and a budget of COUNT.
    ensures accepted_generated { (seed count : ℕ)
        → Says (texts words.now) (Command.Generate seed count)
        → HasRoom D.Disk GENERATE_PIECES (openings_from seed count) disk
        → IsUnrefused result.0 }
    ensures ample_generated { (seed count : ℕ)
        → Says (texts words.now) (Command.Generate seed count)
        → HasAmpleBudget D.Disk GENERATE_PIECES GENERATE_DEPTH count
        (openings_from seed count) disk → result.0 ≢ Status.Unsolved }
    // On a journal that has no root yet this is so of each seed and COUNT.
    ensures settled_generated { (seed count : ℕ)
        → Says (texts words.now) (Command.Generate seed count) → IsHonest D.TELLS
        → ReadsRecords GENERATE_PIECES (D.reads disk) []
        → IsUnrefused result.0 × (result.0 ≢ Status.Unsolved) }
    ensures accepted_certificates { Says (texts words.now) Command.Verify
        → IfSome (S.left source.old) (λ bytes. length bytes ≤ MOST_CERTIFICATE_BYTES
        → (c : Certificate) → IsGood c → ReadsAs bytes c → IsUnrefused result.0) }
    ensures accepted_tables { Says (texts words.now) Command.TableCheck
        → IfSome (S.left source.old) (λ bytes. (k : ℕ) (numbers : List ℕ)
        → IsTable k numbers → bytes ≡ bytes_of k numbers → IsUnrefused result.0) }
    ensures accepted_reports { Says (texts words.now) Command.Report → IsHonest D.TELLS
        → (pieces : ℕ) (records : List BenchRecord) → ReadsRecords pieces (D.reads disk) records
        → IsUnrefused result.0 }
    ensures accepted_roots { (root : ℕ) → Says (texts words.now) (Command.Certify root)
        → IsHonest D.TELLS → HasSettledRoot (D.reads disk) root → IsUnrefused result.0 }
    ensures accepted_pieces { (pieces : ℕ) → Says (texts words.now) (Command.MakeTable pieces)
        → IsUnrefused result.0 }
    ensures looked { IsHonest D.TELLS → (command : Command) → Says (texts words.now) command
        → (cause : LookRefusal) → HasLookCause command (D.reads disk) cause
        → IsRefusedFor (of_look cause) (K.taken sink.old) (K.taken sink.new)
        (K.faults sink.old) (K.faults sink.new) result.0 }
    // Of `learn`, with a good certificate.
    ensures accepted_lessons { Says (texts words.now) Command.Learn
        → IfSome (S.left source.old) (λ bytes. length bytes ≤ MOST_CERTIFICATE_BYTES
        → (c : Certificate) → IsGood c → ReadsAs bytes c → MayLearn D.Disk c disk
        → IsUnrefused result.0) }
    ensures taught { IsHonest D.TELLS → Says (texts words.now) Command.Learn
        → Teaches Command.Learn (S.left source.old) (D.reads disk)
        (λ cause. (result.0 ≡ Status.Read) ⊎ IsRefusedFor (of_lesson cause)
        (K.taken sink.old) (K.taken sink.new) (K.faults sink.old) (K.faults sink.new) result.0) }
    ensures read { result.0 ≡ Status.Read → Rose (S.faults source.old) (S.faults source.new) }
    ensures write { result.0 ≡ Status.Write → Rose (K.faults sink.old) (K.faults sink.new) }
    ensures fault { result.0 ≡ Status.Disk → Rose (D.faults disk) (D.faults result.1) }

    // What is left of the source: nothing, or all of it where the command reads none; and of a
    // source that is too long all but one byte more than may be.
    ensures all_read { ComesToDisk result.0 → (command : Command) → Says (texts words.now) command
        → ReadsSource command → IsAtEnd (S.left source.new) }
    ensures front { (command : Command) → Says (texts words.now) command
        → TakesAtMost command (S.left source.old) (S.left source.new) }
    ensures unread { (command : Command) → Says (texts words.now) command
        → source_limit command ≡ None → source.new ≡ source.old }
    ensures unread_by_words { result.0 ≡ Status.Words → source.new ≡ source.old }
{
    let said = read_words(words);
    let (ended, disk) = run(rt, alloc, said, source, sink, disk, gate);
    (ended.status, disk)
}
