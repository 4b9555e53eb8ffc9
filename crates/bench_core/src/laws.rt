//! Laws over the definitions: each function does nothing, and its contract is the law.
ghost use Rattle.bench_core.specs.Laws.{EventsKeepSound, SoundValuesAreTrue, LeavesAreLeasedOnce, RecordsHaveOneForest, RootsAreThoseBegun, RecordsSettleWhatTheyResolve};

/// Whatever workers do, in whatever order, and whenever leases run out, a sound state stays sound: the values of its
/// settled roots are true, and no leaf has two live leases.
pub fn events_keep_sound()
    ensures events { EventsKeepSound }
    ensures values { SoundValuesAreTrue }
    ensures leases { LeavesAreLeasedOnce }
{}

/// One list of records has one forest, with tables of one number of pieces, and the roots of that forest are those that the
/// records begin, in order. A root of it has a value exactly where its numbers resolve it for both goals.
pub fn records_have_one_forest()
    ensures forest { RecordsHaveOneForest }
    ensures roots { RootsAreThoseBegun }
    ensures settled { RecordsSettleWhatTheyResolve }
{}
