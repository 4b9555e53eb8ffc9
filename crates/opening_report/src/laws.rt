//! Laws of what is written: each function does nothing, and its contract is the law.
ghost use Rattle.opening_report.specs.Laws.{ReportsAreTrue, ReportsSayRoots, RootsStandOnce, RefusalsSayNoRoot, OtherLinesSayNoRoot, TextsWithoutRootsSayNone};

/// What a report says of true roots is true, also where only a front of it was written, and it says
/// no other root; each position of roots that are apart stands in exactly one line; and no refusal
/// says a root, nor does another line, nor a text without `root `.
pub fn written_is_true()
    ensures reports { ReportsAreTrue }
    ensures says { ReportsSayRoots }
    ensures once { RootsStandOnce }
    ensures refusals { RefusalsSayNoRoot }
    ensures others { OtherLinesSayNoRoot }
    ensures without { TextsWithoutRootsSayNone }
{}
