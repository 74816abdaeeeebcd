ghost use Rattle.gp_inbox.specs.History.{HistoryMoves};

/// A law: a push adds its clause at the end of the history, and a take leaves the history as it is.
pub fn history_moves()
    ensures { HistoryMoves }
{}
