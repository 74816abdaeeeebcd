ghost use Rattle.gp_tell.specs.Examples.{ExamplesHold};

/// The texts of small stories and of reasons.
pub fn tells_texts()
    ensures { ExamplesHold }
{}
