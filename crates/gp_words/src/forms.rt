ghost use Rattle.gp_words.specs.Forms.{WordsAreRead};

/// What each form of a word gives: an option with its value, a plain word, and what ends the options.
pub fn words_are_read()
    ensures { WordsAreRead }
{}
