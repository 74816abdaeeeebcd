ghost use Rattle.std.specs.Prelude.{◌≡◌, [], ◌∷◌, ◌++◌, OnOk, decimal, length, map};
ghost use Rattle.gp_text.specs.Spelling.{after_words, joined, spelling};
ghost use Rattle.gp_writer.specs.Lines.{in_lines};

use crate::spelled::Spelled;
use std::alloc::AllocError;

// The most words of a list's line.
const LINE: usize = 100;

/// Puts a line of a keyword and words.
#[tactic(auto, using(gp_text::specs::SpellingLaws::line_put))]
pub fn put_line<W: Spelled>(
    text: &mut Vec<u8>,
    keyword: &[u8],
    words: &[W],
) -> Result<(), AllocError>
    ensures { OnOk result (text.new.items ≡ text.old.items ++ spelling ((keyword.now ∷ map W.word words.now) ∷ [])) }
{
    text.extend_from_slice(keyword)?;
    put_words(text, words)?;
    end_line(text)
}

/// Puts a line of a keyword, a number and words.
#[tactic(auto, using(gp_text::specs::SpellingLaws::line_put_with))]
pub fn put_numbered_line<W: Spelled>(
    text: &mut Vec<u8>,
    keyword: &[u8],
    number: u64,
    words: &[W],
) -> Result<(), AllocError>
    ensures { OnOk result (text.new.items ≡ text.old.items ++ spelling ((keyword.now ∷ decimal number ∷ map W.word words.now) ∷ [])) }
{
    text.extend_from_slice(keyword)?;
    put_words(text, &[number])?;
    put_words(text, words)?;
    end_line(text)
}

/// Puts a line of a keyword and how many words there are, then the words in lines of 100.
pub fn put_counted_list<W: Spelled>(
    text: &mut Vec<u8>,
    keyword: &[u8],
    words: &[W],
) -> Result<(), AllocError>
    ensures { OnOk result (text.new.items ≡ text.old.items ++ spelling ((keyword.now ∷ decimal (length words.now) ∷ []) ∷ in_lines (map W.word words.now))) }
{
    put_line(text, keyword, &[words.len() as u64])?;
    put_list(text, words)
}

/// Puts words in lines of 100; no words make no line.
pub fn put_list<W: Spelled>(text: &mut Vec<u8>, words: &[W]) -> Result<(), AllocError>
    ensures { OnOk result (text.new.items ≡ text.old.items ++ spelling (in_lines (map W.word words.now))) }
{
    for line in words.chunks(LINE) {
        put_joined(text, line)?;
        end_line(text)?;
    }
    Ok(())
}

// Puts words with a space between them.
fn put_joined<W: Spelled>(text: &mut Vec<u8>, words: &[W]) -> Result<(), AllocError>
    ensures { OnOk result (text.new.items ≡ text.old.items ++ joined (map W.word words.now)) }
{
    let Some((first, rest)) = words.split_first() else {
        return Ok(());
    };
    first.put(text)?;
    put_words(text, rest)
}

/// Puts words that follow the first one of a line, which is not ended.
pub fn put_words<W: Spelled>(text: &mut Vec<u8>, words: &[W]) -> Result<(), AllocError>
    ensures { OnOk result (text.new.items ≡ text.old.items ++ after_words (map W.word words.now)) }
{
    for word in words {
        text.push(b' ')?;
        word.put(text)?;
    }
    Ok(())
}

/// Puts a word that follows the first one of a line, which is not ended.
pub fn put_word(text: &mut Vec<u8>, word: &[u8]) -> Result<(), AllocError>
    ensures { OnOk result (text.new.items ≡ text.old.items ++ after_words (word.now ∷ [])) }
{
    text.push(b' ')?;
    text.extend_from_slice(word)
}

fn end_line(text: &mut Vec<u8>) -> Result<(), AllocError>
    ensures { OnOk result (text.new.items ≡ text.old.items ++ 10 ∷ []) }
{
    text.push(b'\n')?;
    Ok(())
}
