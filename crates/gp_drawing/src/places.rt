ghost use Rattle.std.specs.Prelude.{◌≡◌};
ghost use Rattle.gp_drawing.specs.Places.{begin_y, end_y, height, lane_x, row_y, thread_found, thread_x, width, x_at};
ghost use Rattle.std.specs.Prelude.{option_copied};

use crate::drawing::DrawnRow;
use crate::rows::thread_of;

/// The middle of a lane, of lanes from 0.
pub fn lane_x(lane: u32) -> u64
    ensures { result ≡ lane_x lane }
{
    40 + 48 * u64::from(lane)
}

/// The middle of a row.
pub fn row_y(row: u32) -> u64
    ensures { result ≡ row_y row }
{
    30 + 22 * u64::from(row)
}

/// The middle of a thread's lane.
pub fn thread_x(thread: u32) -> u64
    ensures { result ≡ thread_x thread }
{
    lane_x(thread.saturating_sub(1))
}

/// The middle of the lane in which one of these rows stands.
pub fn x_at(rows: &[DrawnRow], row: u32) -> u64
    ensures { result ≡ x_at rows.now row }
{
    thread_x(thread_found(rows.get(row as usize)))
}

fn thread_found(row: Option<&DrawnRow>) -> u32
    ensures { result ≡ thread_found (option_copied row.entry) }
{
    match row {
        Some(row) => thread_of(row),
        None => 0,
    }
}

/// Where a bar begins.
pub fn begin_y(row: Option<u32>) -> u64
    ensures { result ≡ begin_y row }
{
    match row {
        Some(row) => row_y(row),
        None => 20,
    }
}

/// Where a bar ends, in a drawing of so many rows.
pub fn end_y(rows: u32, row: Option<u32>) -> u64
    ensures { result ≡ end_y rows row }
{
    match row {
        Some(row) => row_y(row),
        None => row_y(rows),
    }
}

/// How wide a drawing of so many lanes is, with the words right of them, of which so many bytes tell a place.
pub fn width(lanes: u32, longest: u32) -> u64
    ensures { result ≡ width lanes longest }
{
    lane_x(lanes) + 400 + 8 * u64::from(longest)
}

/// How high a drawing of so many rows is.
pub fn height(rows: u32) -> u64
    ensures { result ≡ height rows }
{
    row_y(rows) + 10
}
