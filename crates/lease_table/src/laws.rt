//! Laws over the definitions: the function does nothing, and its contract is the law.
ghost use Rattle.lease_table.specs.Laws.{SweptRowsStayDead, SweptNodesStayFree};

/// Sweeping changes no answer about what lives at its number or a later one.
pub fn sweeping_forgets_nothing()
    ensures rows { SweptRowsStayDead }
    ensures nodes { SweptNodesStayFree }
{}
