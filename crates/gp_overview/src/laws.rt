ghost use Rattle.gp_overview.specs.Examples.{ExamplesHold};
ghost use Rattle.gp_overview.specs.Laws.{OverviewsHaveOwnMarkup, TablesAddUp};

/// The row of all has the numbers of the report's summary, and where the report is accepted, the other rows add up to it.
pub fn tables_add_up()
    ensures { TablesAddUp }
{}

/// In the verdict and the table each angle bracket that opens opens one of the program's own tags.
pub fn overviews_have_own_markup()
    ensures { OverviewsHaveOwnMarkup }
{}

/// The table and the verdicts of small reports.
pub fn shows_examples()
    ensures { ExamplesHold }
{}
