ghost use Rattle.std.specs.Prelude.{◌≡◌};
ghost use Rattle.std.specs.List.{list_all};
ghost use Rattle.gp_linked.specs.Kinds.{is_linked};
ghost use Rattle.gp_linked.specs.Status.{links_status};

use crate::answer::{LinkAnswer, LinkReport};

/// The status of a report: 0 where all windows are linked.
pub fn status_of(report: &LinkReport) -> u8
    ensures { result ≡ links_status report.now }
{
    if are_linked(report.links.as_slice()) {
        0
    } else {
        1
    }
}

fn are_linked(links: &[LinkAnswer]) -> bool
    ensures { result ≡ list_all is_linked links.now }
{
    links
        .iter()
        .all(|link| matches!(link, LinkAnswer::Linked(_)))
}
