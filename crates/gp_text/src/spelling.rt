ghost use Rattle.gp_text.specs.Spelling.{PlainWords, ReadsAgain};

/// A text of plain lines, spelled with one space between words and a newline after each line, is
/// read as these lines, numbered from 1.
pub fn reads_again()
    ensures { ReadsAgain }
{}

/// Names and decimals are plain words of at most 32 and 20 bytes.
pub fn plain_words()
    ensures { PlainWords }
{}
