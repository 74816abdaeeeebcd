ghost use Rattle.gp_trace.specs.Grammar.{TracesAreSpelled};

use gp_text::one_spelling;

/// Lines are read as a trace exactly where they spell it.
pub fn traces_are_spelled()
    ensures { TracesAreSpelled }
{
    one_spelling();
}
