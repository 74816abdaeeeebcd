ghost use Rattle.gp_beside.specs.Examples.{ExamplesHold};

/// Small files, and what they tell.
pub fn places_examples()
    ensures { ExamplesHold }
{}
