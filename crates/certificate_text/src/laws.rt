//! Laws over the definitions: the function does nothing, and its contract is the law.
ghost use Rattle.certificate_text.specs.Laws.{TextsTellApart, PrintedIsNotRefused, OneTextRefusal};

/// A text fixes its answer. It is the text of one certificate at most and begins no other's, it is
/// not refused if it is the text of one, and there is one refusal of it. So each answer of
/// [`crate::read_certificate`] comes exactly where it is due.
pub fn texts_are_exact()
    ensures apart { TextsTellApart }
    ensures not_refused { PrintedIsNotRefused }
    ensures one { OneTextRefusal }
{}
