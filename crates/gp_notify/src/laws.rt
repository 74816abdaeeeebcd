ghost use Rattle.gp_notify.specs.Examples.{SignalsExamples};
ghost use Rattle.gp_notify.specs.Laws.{AnswersAreLowered, ExtendedIsValid, NumbersLift, SignalsAreAdded, SignalsAreSound, SleepsAreFound, SleepsAreScanned, TestIsExact};

use gp_constraint::{extensions_mean, models_extend, problems_are_valid};

/// The first wake without a sleep is found; where there is none, each wake has a sleep.
pub fn sleeps_are_found()
    ensures { SleepsAreFound }
{
    sleeps_are_scanned();
}

/// A look back along the thread of a wake finds its sleep.
pub fn sleeps_are_scanned()
    ensures { SleepsAreScanned }
{}

/// The test of a feasible schedule and its pairs is exact.
pub fn test_is_exact()
    ensures { TestIsExact }
{}

/// An answer to the problem with signals gives each feasible front of its schedule pairs, with which it is signalled.
pub fn signals_are_sound()
    ensures { SignalsAreSound }
{
    sleeps_are_scanned();
    extensions_mean();
}

/// A model of a window and a query that says what a signalled schedule does gives one of the problem with signals.
pub fn signals_are_added()
    ensures { SignalsAreAdded }
{
    sleeps_are_scanned();
    models_extend();
    extensions_mean();
    problems_are_valid();
}

/// An answer to an enlarged problem and a lifted query is one to the problem and the query, and back.
pub fn numbers_are_lifted()
    ensures { NumbersLift }
{}

/// An answer to the problem with signals and a lifted query is one to the window and the query.
pub fn answers_are_lowered()
    ensures { AnswersAreLowered }
{
    numbers_are_lifted();
    problems_are_valid();
}

/// Up to the limits the problem of a window with its signals is valid, and so is a lifted query.
pub fn extended_is_valid()
    ensures { ExtendedIsValid }
{
    extensions_mean();
    problems_are_valid();
}

/// Windows with their signals, whole, by numbers.
pub fn signals_examples()
    ensures { SignalsExamples }
{}
