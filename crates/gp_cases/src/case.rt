use crate::escape::unescaped;
use crate::file::File;
use crate::style::Style;
use std::alloc::{AllocError, Global};

/// What a run is given: its words, its files, and which calls of the folder and puts of the sink fail; and what of its text
/// is told.
#[derive(Clone, Drop)]
pub struct Case {
    words: Vec<String>,
    files: Vec<File>,
    failing: Vec<u64>,
    puts: Vec<(u64, u64)>,
    style: Style,
}

impl Case {
    pub fn new(alloc: Global) -> Case {
        Case {
            words: Vec::new(alloc),
            files: Vec::new(alloc),
            failing: Vec::new(alloc),
            puts: Vec::new(alloc),
            style: Style::new(alloc),
        }
    }

    pub fn words(&self) -> &[String] {
        self.words.as_slice()
    }

    pub fn style(&self) -> &Style {
        &self.style
    }

    pub fn failing(&self) -> &[u64] {
        self.failing.as_slice()
    }

    pub fn puts(&self) -> &[(u64, u64)] {
        self.puts.as_slice()
    }

    /// The files as a folder takes them.
    pub fn files(&self, alloc: Global) -> Result<Vec<(String, Vec<u8>)>, AllocError> {
        let mut files = Vec::new(alloc);
        match add_all(alloc, &mut files, self.files.as_slice()) {
            Ok(()) => Ok(files),
            Err(error) => {
                drop(files);
                Err(error)
            }
        }
    }

    /// What the file with this path holds, nothing where there is none.
    pub fn bytes(&self, alloc: Global, path: &str) -> Result<Vec<u8>, AllocError> {
        match self.files.iter().find(|file| file.path() == path) {
            Some(file) => file.bytes(alloc),
            None => Ok(Vec::new(alloc)),
        }
    }

    /// Whether a file with these bytes is given.
    pub fn gives(&self, path: &str, bytes: &[u8]) -> bool {
        self.files
            .iter()
            .any(|file| file.path() == path && file.holds(bytes))
    }

    /// Gives a file, in place of the one with this path.
    pub fn give(&mut self, alloc: Global, path: &str, bytes: &[u8]) -> Result<(), AllocError> {
        self.drop_file(path);
        let file = File::new(alloc, path, bytes)?;
        self.begin(file)
    }

    /// Begins a file: what is put next goes there.
    fn begin(&mut self, file: File) -> Result<(), AllocError> {
        self.files.push(file)?;
        Ok(())
    }

    fn drop_file(&mut self, path: &str) {
        self.files.retain(|file| file.path() != path);
    }

    /// Says the words anew, parted by spaces.
    pub fn say(&mut self, alloc: Global, words: &str) -> Result<(), AllocError> {
        self.words.clear();
        for word in words.split_ascii_whitespace() {
            self.words.push(String::from_str(alloc, word)?)?;
        }
        Ok(())
    }

    fn add_word(&mut self, alloc: Global, word: &str) -> Result<(), AllocError> {
        self.words.push(String::from_str(alloc, word)?)?;
        Ok(())
    }

    /// Lengthens the last word up to so many bytes.
    fn stretch(&mut self, length: usize) -> Result<(), AllocError> {
        if let Some(word) = self.words.as_mut_slice().last_mut() {
            for _ in word.len()..length {
                word.push('d')?;
            }
        }
        Ok(())
    }

    /// Adds to the file that was begun last.
    fn put(&mut self, bytes: &[u8]) -> Result<(), AllocError> {
        match self.files.as_mut_slice().last_mut() {
            Some(file) => file.put(bytes),
            None => Ok(()),
        }
    }

    fn put_text(&mut self, alloc: Global, text: &str) -> Result<(), AllocError> {
        let bytes = unescaped(alloc, text)?;
        let put = self.put(bytes.as_slice());
        drop(bytes);
        put
    }

    fn put_line(&mut self, alloc: Global, text: &str) -> Result<(), AllocError> {
        self.put_text(alloc, text)?;
        self.put(b"\n")
    }

    /// A line that spaces lengthen up to so many bytes.
    fn put_long(&mut self, alloc: Global, rest: &str) -> Result<(), AllocError> {
        let (length, text) = rest.split_once(' ').unwrap_or((rest, ""));
        let mut line = unescaped(alloc, text)?;
        line.resize(number(length) as usize, b' ')?;
        line.push(b'\n')?;
        self.put(line.as_slice())
    }

    /// A line so many times, with its number from 1 in place of `%`.
    fn repeat(&mut self, alloc: Global, rest: &str) -> Result<(), AllocError> {
        let (count, text) = rest.split_once(' ').unwrap_or((rest, ""));
        for before in 0..number(count) {
            self.put_numbered(alloc, text, before.wrapping_add(1))?;
        }
        Ok(())
    }

    fn put_numbered(&mut self, alloc: Global, text: &str, number: u64) -> Result<(), AllocError> {
        let Some((front, behind)) = text.split_once('%') else {
            return self.put_line(alloc, text);
        };
        let line = format!(in alloc; "{front}{number}{behind}")?;
        self.put_line(alloc, line.as_str())
    }

    fn fill(&mut self, length: usize) -> Result<(), AllocError> {
        match self.files.as_mut_slice().last_mut() {
            Some(file) => file.fill(length),
            None => Ok(()),
        }
    }

    /// Takes so many lines away behind the first ones of a file, which is then the one that was begun last.
    fn take_lines(
        &mut self,
        alloc: Global,
        path: &str,
        first: usize,
        taken: usize,
    ) -> Result<(), AllocError> {
        let Some(place) = self.files.iter().position(|file| file.path() == path) else {
            return Ok(());
        };
        let mut file = self.files.remove(place);
        match file.take_lines(alloc, first, taken) {
            Ok(()) => self.begin(file),
            Err(error) => {
                drop(file);
                Err(error)
            }
        }
    }

    /// Takes the lines from a number to a number away.
    fn replace(&mut self, alloc: Global, rest: &str) -> Result<(), AllocError> {
        let (lines, path) = rest.split_once(' ').unwrap_or((rest, ""));
        let (from, to) = lines.split_once('-').unwrap_or((lines, lines));
        let first = number(from).wrapping_sub(1) as usize;
        let taken = (number(to) as usize).wrapping_sub(first);
        self.take_lines(alloc, path, first, taken)
    }

    fn cut(&mut self, rest: &str) -> Result<(), AllocError> {
        let (put, bytes) = rest.split_once(' ').unwrap_or((rest, ""));
        self.puts.push((number(put), number(bytes)))?;
        Ok(())
    }

    /// Does what a verb says that gives something, and tells whether it is one.
    pub fn change(&mut self, alloc: Global, verb: &str, rest: &str) -> Result<bool, AllocError> {
        match verb {
            "words" => self.say(alloc, rest)?,
            "word" => self.add_word(alloc, rest)?,
            "stretch" => self.stretch(number(rest) as usize)?,
            "file" => self.give(alloc, rest, b"")?,
            "absent" => self.drop_file(rest),
            "fail" => self.failing.push(number(rest))?,
            "cut" => self.cut(rest)?,
            "free" => self.style.free(rest),
            "only" => self.style.add_only(alloc, rest)?,
            _ => return self.change_file(alloc, verb, rest),
        }
        Ok(true)
    }

    /// The same of the verbs that change a file.
    fn change_file(&mut self, alloc: Global, verb: &str, rest: &str) -> Result<bool, AllocError> {
        match verb {
            "|" => self.put_line(alloc, rest)?,
            ">" => self.put_text(alloc, rest)?,
            "long" => self.put_long(alloc, rest)?,
            "repeat" => self.repeat(alloc, rest)?,
            "fill" => self.fill(number(rest) as usize)?,
            "replace" => self.replace(alloc, rest)?,
            _ => return Ok(false),
        }
        Ok(true)
    }
}

fn add_all(
    alloc: Global,
    files: &mut Vec<(String, Vec<u8>)>,
    given: &[File],
) -> Result<(), AllocError> {
    for file in given {
        add(alloc, files, file)?;
    }
    Ok(())
}

fn add(alloc: Global, files: &mut Vec<(String, Vec<u8>)>, file: &File) -> Result<(), AllocError> {
    let path = String::from_str(alloc, file.path())?;
    files.push((path, file.bytes(alloc)?))?;
    Ok(())
}

/// The words of a program, where its name stands before them.
pub fn words_behind<'a>(name: &str, words: &'a [String]) -> Option<&'a [String]> {
    match words {
        [first, words @ ..] if first.as_str() == name => Some(words),
        _ => None,
    }
}

/// The number that a text tells, or 0.
fn number(text: &str) -> u64 {
    text.parse().unwrap_or(0)
}
