//! Why a run is refused, and the line that says so.
ghost use Rattle.std.specs.Prelude.{◌≡◌, ◌+◌, ◌≤◌, ◌++◌, ◌∷◌, [], IsTrue, codes, decimal, length};
ghost use Rattle.opening_report.specs.Lines.{IsLine, is_line};
ghost use Rattle.opening_report.specs.declared.refusals.Refusal.TheVariants as run;
ghost use Rattle.certificate_text.specs.Lines.{side_word};
ghost use Rattle.strategy_player.specs.Refusals.{fault_words, of_journal_look, of_play, play_status, play_text};
ghost use Rattle.strategy_player.specs.declared.refusals.PlayRefusal.TheVariants as refusals;

use arrayvec::ArrayString;
use bench_edges::Status;
use certificate_plays::{LineFault, LinesRefusal};
use draughts_board::{Position, Side};
use itoa::Buffer;
use journal_looks::LookRefusal;
use opening_report::{Refusal, refusal_line};
use program_edges::Refused;
use std::alloc::AllocError;

/// Why a run is refused.
#[derive(Clone, Copy, Debug, PartialEq, Eq)]
pub enum PlayRefusal {
    /// The words, the source, the journal or its root are refused, or memory ran out.
    Run(Refusal),
    /// This side, which was asked, does not hold the root: the other side wins it.
    NotHeld(Side),
    /// This line of the source, counted from 1, is refused, where the play stands at this position.
    Line {
        number: usize,
        position: Position,
        fault: LineFault,
    },
}

impl From<Refusal> for PlayRefusal {
    ghost from_gives = { λ cause refusal. refusal ≡ refusals.Run cause };

    /// The run is refused before the play begins.
    fn from(cause: Refusal) -> PlayRefusal {
        PlayRefusal::Run(cause)
    }
}

impl From<LinesRefusal> for PlayRefusal {
    ghost from_gives = { λ cause refusal. refusal ≡ of_play cause };

    /// The play is refused.
    fn from(cause: LinesRefusal) -> PlayRefusal {
        match cause {
            LinesRefusal::NotHeld(side) => PlayRefusal::NotHeld(side),
            LinesRefusal::Line {
                number,
                position,
                fault,
            } => PlayRefusal::Line {
                number,
                position,
                fault,
            },
            LinesRefusal::Memory(error) => PlayRefusal::from(error),
        }
    }
}

impl From<LookRefusal> for PlayRefusal {
    ghost from_gives = { λ cause refusal. refusal ≡ of_journal_look cause };

    /// The journal has no certificate of the root.
    fn from(cause: LookRefusal) -> PlayRefusal {
        PlayRefusal::Run(Refusal::from(cause))
    }
}

impl From<AllocError> for PlayRefusal {
    ghost from_gives = { λ error refusal. refusal ≡ refusals.Run run.Memory };

    /// Memory ran out.
    fn from(_error: AllocError) -> PlayRefusal {
        PlayRefusal::Run(Refusal::Memory)
    }
}

/// The end of the line on a line of the source.
fn fault_words(fault: LineFault) -> &'static str
    ensures words { result.now ≡ fault_words fault }
    ensures line { IsTrue (is_line result.now) }
    ensures short { length result.now ≤ 20 }
{
    match fault {
        LineFault::BadLine => " bad-line\n",
        LineFault::Illegal => " illegal\n",
        LineFault::Ambiguous => " ambiguous\n",
        LineFault::AfterEnd => " after-end\n",
    }
}

/// The line on a side that does not hold the root.
fn not_held_line(side: Side) -> ArrayString<128>
    ensures bytes { result.bytes ≡ codes "refused input not-held " ++ (side_word side ++ 10 ∷ []) }
    ensures line { IsLine (codes "refused input not-held " ++ (side_word side ++ 10 ∷ [])) }
{
    let mut line = ArrayString::new();
    line.push_str("refused input not-held ");
    line.push_str(match side {
        Side::Black => "black",
        Side::White => "white",
    });
    line.push_str("\n");
    line
}

/// The line on a line of the source.
fn source_line(number: usize, fault: LineFault) -> ArrayString<128>
    ensures bytes { result.bytes
        ≡ codes "refused input line " ++ (decimal number ++ fault_words fault) }
    ensures line { IsLine (codes "refused input line " ++ (decimal number ++ fault_words fault)) }
{
    let mut line = ArrayString::new();
    let mut buffer = Buffer::new();
    line.push_str("refused input line ");
    line.push_str(buffer.format(number));
    line.push_str(fault_words(fault));
    line
}

impl Refused for PlayRefusal {
    ghost line_of = { play_text };

    ghost status_of = { play_status };

    fn line(&self) -> ArrayString<128> {
        match self {
            PlayRefusal::Run(refusal) => refusal_line(refusal),
            PlayRefusal::NotHeld(side) => not_held_line(*side),
            PlayRefusal::Line { number, fault, .. } => source_line(*number, *fault),
        }
    }

    fn status(&self) -> Status {
        match self {
            PlayRefusal::Run(refusal) => refusal.status(),
            PlayRefusal::NotHeld(_) | PlayRefusal::Line { .. } => Status::Input,
        }
    }
}
