ghost use Rattle.std.specs.Prelude.{◌≤◌, length};

use crate::listing::Listing;
use crate::outcome::Outcome;
use crate::results::Tells;
use crate::writing::put_listing;
use gp_outside::{PutFault, Sink};
use std::alloc::Global;

/// What is to be listed. Its text is made window by window while it is written.
#[derive(Drop)]
pub struct ToList {
    pub listing: Listing,
    ghost few: { length listing.properties ≤ 64 },
}

impl Tells for ToList {
    ghost use Rattle.gp_predict.specs.Listing.{of_to_list};

    ghost told = { of_to_list };

    fn put<S: Sink>(&self, alloc: Global, sink: &mut S) -> Result<(), PutFault> {
        put_listing(alloc, sink, &self.listing)
    }

    fn end(self) -> Outcome {
        Outcome::of(0)
    }
}
