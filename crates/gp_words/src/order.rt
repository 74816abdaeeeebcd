ghost use Rattle.gp_words.specs.Order.{AnyOrder};

/// Words that give the same options and folder, in whatever order, are the same command; to gpshards those are which give the same
/// options in whatever order, and the same folders in one order.
pub fn words_in_any_order()
    ensures { AnyOrder }
{}
