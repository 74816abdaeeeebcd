use crate::choice::Pass;
use gp_place::Beside;
use gp_property::Property;
use gp_words::ShowCommand;

/// What one pass over a report tells: what a command asks for, of which instances, with the properties that the report answers and what
/// stands beside it.
#[derive(Clone, Copy)]
pub struct Request<'a> {
    pub command: ShowCommand<'a>,
    pub pass: Pass,
    pub properties: &'a [Property],
    pub beside: &'a Beside,
}
