ghost use Rattle.gp_derivation.specs.Log.{PureFollows, LogGrows};

use gp_certificate::{Certificate, Step, certificate_follows, passing_follows};
use std::sync::Arc;

/// Where an entry comes from: the search learned it, or took it from another with its certificate.
#[derive(Drop)]
pub enum Origin {
    Learned,
    Taken {
        sender: u32,
        certificate: Arc<Certificate>,
    },
}

/// A step of a search. A taken one has no hints.
#[derive(Drop)]
pub struct LogEntry {
    pub step: Step,
    pub origin: Origin,
}

/// A law: in a log whose entries pass, the clause of a pure entry follows from the problem.
pub fn pure_follows()
    ensures { PureFollows }
{
    passing_follows();
    certificate_follows();
}

/// A law: a log whose entries pass grows by an entry that passes at its end.
pub fn log_grows()
    ensures { LogGrows }
{}
