ghost use Rattle.gp_decided.specs.Refuting.{RefutationsAreDecided};

/// A law: the tests of shared lists and of certificates say exactly which of them pass and which refute.
pub fn refutations_are_decided()
    ensures { RefutationsAreDecided }
{}
