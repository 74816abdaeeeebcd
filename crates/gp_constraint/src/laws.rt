ghost use Rattle.gp_constraint.specs.Extended.{ExtensionsMean, ModelsExtend};
ghost use Rattle.gp_constraint.specs.Laws.{AnswersMean, ProblemsAreValid};
ghost use Rattle.gp_constraint.specs.Truths.{TruthsAreNumbered};

/// The problem of a window and the query of an instance are valid, and the edges can be kept.
pub fn problems_are_valid()
    ensures { ProblemsAreValid }
{}

/// What an answer to the problem of a window and to a query says of symbols.
pub fn answers_mean()
    ensures { AnswersMean }
{}

/// A truth of symbols that makes the clauses of a window true makes those of its problem true, and what a query assumes.
pub fn truths_are_numbered()
    ensures { TruthsAreNumbered }
{}

/// What the problem of a window with further clauses means.
pub fn extensions_mean()
    ensures { ExtensionsMean }
{}

/// A valuation of the problem of a window, and truth values of fresh symbols, are one of the problem with further clauses.
pub fn models_extend()
    ensures { ModelsExtend }
{}
