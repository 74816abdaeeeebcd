ghost use Rattle.gp_patterns.specs.Agreement.{ReportsAgree};
ghost use Rattle.gp_patterns.specs.Enough.{EnoughDecides};
ghost use Rattle.gp_patterns.specs.Question.{PatternsAnswered};

/// A law: two reports that answer the same properties of the same recording never contradict each other, whatever their
/// workers and their budgets.
pub fn reports_agree()
    ensures { ReportsAgree }
{}

/// A law: in a report that answers a recording and its properties no entry is undecided for which the budget is enough.
pub fn enough_decides()
    ensures { EnoughDecides }
{}

/// A law: a report answers a recording and its properties exactly where its windows answer the question *patterns*.
pub fn patterns_answered()
    ensures { PatternsAnswered }
{}
