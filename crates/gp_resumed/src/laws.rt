ghost use Rattle.gp_resumed.specs.Keeping.{OldAnswersAreTold};

/// A law: a resumed report tells each answer that is kept, which is the old one, and none that is undecided is kept.
pub fn old_answers_are_told()
    ensures { OldAnswersAreTold }
{}
