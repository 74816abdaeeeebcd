use gp_certificate::Step;
use gp_constraint::Encoded;
use gp_property::Property;
use gp_report::Entry;

/// An instance of a report, with all that it is told from.
#[derive(Clone, Copy)]
pub struct Answered<'a> {
    /// The window of the instance.
    pub encoded: &'a Encoded,
    /// The steps that the certificates of the window share.
    pub shared: &'a [Step],
    pub property: &'a Property,
    /// The number of the instance among those of the property, from 0.
    pub number: u32,
    pub entry: &'a Entry,
}
