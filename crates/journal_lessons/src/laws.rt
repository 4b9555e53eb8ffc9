//! Laws over the definitions: each function does nothing, and its contract is the law.
ghost use Rattle.journal_lessons.specs.Laws.{LessonsAreLawful, LessonsCover};

/// What a lesson adds is lawful behind the journal's records, and then the position is a root that
/// is settled or has all facts of the claim.
pub fn lessons_may_be_added()
    ensures lawful { LessonsAreLawful }
    ensures cover { LessonsCover }
{}
