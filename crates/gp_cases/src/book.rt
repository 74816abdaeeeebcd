use crate::case::Case;
use crate::ended::{Ended, give_back};
use std::alloc::{AllocError, Global};
use std::mem::replace;

/// The cases of a file as they are read: what each case of the group begins with, the case, and how its last run ended.
#[derive(Drop)]
pub struct Book {
    base: Case,
    is_base: bool,
    case: Case,
    ended: Option<Ended>,
}

impl Book {
    pub fn new(alloc: Global) -> Book {
        Book {
            base: Case::new(alloc),
            is_base: true,
            case: Case::new(alloc),
            ended: None,
        }
    }

    /// Forgets how the last run ended.
    fn forget(&mut self) {
        drop(self.ended.take());
    }

    /// Begins a group. What is said up to its first case is said of each.
    fn begin_group(&mut self, alloc: Global) {
        drop(replace(&mut self.case, Case::new(alloc)));
        self.is_base = true;
        self.forget();
    }

    /// Begins a case.
    pub fn begin_case(&mut self) -> Result<(), AllocError> {
        self.forget();
        if self.is_base {
            self.is_base = false;
            take_over(&mut self.base, &self.case)
        } else {
            take_over(&mut self.case, &self.base)
        }
    }

    pub fn case(&self) -> &Case {
        &self.case
    }

    pub fn case_mut(&mut self) -> &mut Case {
        &mut self.case
    }

    /// How the last run ended, where there was one.
    pub fn ended(&self) -> Option<&Ended> {
        self.ended.as_ref()
    }

    pub fn end(&mut self, ended: Ended) {
        drop(replace(&mut self.ended, Some(ended)));
    }

    /// Goes on with the files that the last run left, and what it wrote as the file with this path, where one is named.
    pub fn go_on(&mut self, alloc: Global, report: &str) -> Result<(), AllocError> {
        match self.ended.take() {
            Some(ended) => {
                let given = give_back(alloc, &mut self.case, &ended, report);
                drop(ended);
                given
            }
            None => Ok(()),
        }
    }

    /// Does what a verb says that gives something, and tells whether it is one.
    pub fn change(&mut self, alloc: Global, verb: &str, rest: &str) -> Result<bool, AllocError> {
        match verb {
            "group" => self.begin_group(alloc),
            _ => return self.case.change(alloc, verb, rest),
        }
        Ok(true)
    }
}

/// Makes a case what another one is.
fn take_over(case: &mut Case, other: &Case) -> Result<(), AllocError> {
    let copy = other.clone()?;
    drop(replace(case, copy));
    Ok(())
}
