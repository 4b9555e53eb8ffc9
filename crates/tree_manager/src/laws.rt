//! Laws over the definitions: each function does nothing, and its contract is the law.
ghost use Rattle.tree_manager.specs.Laws.{LinesTellCores, EntriesCameNext, FailedLinesEndBroken, SessionsHaveRootsBegun, FilesReadAsOneList, OnePayloadStopsReplay, RefusedFilesReadAsNone};

/// A line tells all of the core to which it leads, and the roots of its forest are those that its applied records begin.
/// Each entry behind the Attached might come where it stands, and a line that has failed ends there.
pub fn lines_tell_all()
    ensures cores { LinesTellCores }
    ensures roots { SessionsHaveRootsBegun }
    ensures entries { EntriesCameNext }
    ensures failed { FailedLinesEndBroken }
{}

/// A file reads as one list of records, or a session is refused for it: then it reads as none, and where a payload is not
/// replayed, one place alone is that of the first.
pub fn files_read_one_way()
    ensures one_list { FilesReadAsOneList }
    ensures one_place { OnePayloadStopsReplay }
    ensures refused { RefusedFilesReadAsNone }
{}
