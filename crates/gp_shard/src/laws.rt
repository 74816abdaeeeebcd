ghost use Rattle.gp_shard.specs.Examples.{ExamplesHold};
ghost use Rattle.gp_shard.specs.Laws.{ReadIsShard, ShardsAreSpelled};

use gp_text::one_spelling;

/// Lines are read as a part exactly where they spell it.
pub fn shards_are_spelled()
    ensures { ShardsAreSpelled }
{
    one_spelling();
}

/// What is read keeps the rules of a part.
pub fn read_is_shard()
    ensures { ReadIsShard }
{
    one_spelling();
}

/// Small texts, and the parts that they say.
pub fn shards_examples()
    ensures { ExamplesHold }
{}
