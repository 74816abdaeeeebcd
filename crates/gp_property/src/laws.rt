ghost use Rattle.gp_property.specs.Grammar.{PropertyAgain, ReadsExactly};
ghost use Rattle.gp_property.specs.Laws.{AtomsKept};

use gp_text::{one_spelling, plain_words, reads_again};

/// The lines of a property, printed one after another, are read as this property alone.
pub fn property_again()
    ensures { PropertyAgain }
{
    one_spelling();
    plain_words();
    reads_again();
}

/// Lines are read as properties exactly where they spell them: the reader finds what the grammar
/// allows, and takes nothing else.
pub fn reads_exactly()
    ensures { ReadsExactly }
{
    one_spelling();
}

/// A property has one to six atoms, one for each of its pattern, and one to four in a step.
pub fn atoms_kept()
    ensures { AtomsKept }
{}
