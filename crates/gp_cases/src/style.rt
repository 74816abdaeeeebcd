use std::alloc::{AllocError, Global};
use std::{io, str};

/// What of a text is told: where several certificates, schedules or pairs are right, not which of them it is; and where lines are
/// named by how they begin, only these.
#[derive(Clone, Drop)]
pub struct Style {
    certificates: bool,
    schedules: bool,
    pairs: bool,
    only: Vec<String>,
}

impl Style {
    /// All that there is.
    pub fn new(alloc: Global) -> Style {
        Style {
            certificates: false,
            schedules: false,
            pairs: false,
            only: Vec::new(alloc),
        }
    }

    /// Does not tell what is free.
    pub fn free(&mut self, what: &str) {
        match what {
            "certificates" => self.certificates = true,
            "schedules" => self.schedules = true,
            "pairs" => self.pairs = true,
            _ => {}
        }
    }

    pub fn add_only(&mut self, alloc: Global, beginning: &str) -> Result<(), AllocError> {
        self.only.push(String::from_str(alloc, beginning)?)?;
        Ok(())
    }

    /// Whether a line is told.
    fn tells(&self, line: &str) -> bool {
        self.only.is_empty() || self.only.iter().any(|only| line.starts_with(only.as_str()))
    }

    /// What is told of a line that lines follow which are free.
    fn folds<'a>(&self, line: &'a str) -> Option<&'a str> {
        if self.certificates && line.starts_with("impossible ") {
            return Some("impossible");
        }
        if self.certificates && line.starts_with("shared ") {
            return Some("shared");
        }
        if self.certificates && line.starts_with("unlinkable ") {
            return line.rsplit_once(' ').map(|(told, _steps)| told);
        }
        if self.schedules && (line.starts_with("found ") || line.starts_with("linked ")) {
            return Some(line);
        }
        if self.pairs && line.starts_with("pairs ") {
            return Some(line);
        }
        None
    }

    /// What is told of a line, and whether what follows is free.
    fn told<'a>(&self, line: &'a str, free: bool) -> (Option<&'a str>, bool) {
        if let Some(told) = self.folds(line) {
            return (Some(told), true);
        }
        if free && is_of_list(line) {
            return (None, true);
        }
        (Some(line), false)
    }
}

/// Whether a line belongs to the steps or to the list before it.
fn is_of_list(line: &str) -> bool {
    line.starts_with("step ")
        || line.starts_with('-')
        || line
            .as_bytes()
            .first()
            .is_some_and(|byte| byte.is_ascii_digit())
}

/// Tells a text by `| ` and each line, and by `> ` what stands behind the last newline.
pub fn tell_text(rt: &impl Print, style: &Style, text: &[u8]) -> io::Result<()> {
    let mut free = false;
    for piece in text.split_inclusive(|byte| *byte == b'\n') {
        free = tell_piece(rt, style, piece, free)?;
    }
    Ok(())
}

fn tell_piece(rt: &impl Print, style: &Style, piece: &[u8], free: bool) -> io::Result<bool> {
    let text = str::from_utf8(piece).unwrap_or("no text");
    let (mark, line) = match text.strip_suffix('\n') {
        Some(line) => ("|", line),
        None => (">", text),
    };
    let (told, free) = style.told(line, free);
    if let Some(told) = told {
        tell_line(rt, style, mark, told)?;
    }
    Ok(free)
}

fn tell_line(rt: &impl Print, style: &Style, mark: &str, line: &str) -> io::Result<()> {
    if style.tells(line) {
        println!(rt; "{mark} {line}")?;
    }
    Ok(())
}
