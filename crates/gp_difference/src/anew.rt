ghost use Rattle.std.specs.Prelude.{◌≡◌, ℕ, ℤ, ◌+◌, ◌^◌, ◌<◌, ◌≤◌, pos, ◌+ℤ◌, ◌≤ℤ◌, length};
ghost use Rattle.gp_difference.specs.Places.{place_at};
ghost use Rattle.gp_difference.specs.Anew.{IsHigherBelow, IsNextBelow, IsLevelled, AreAnew};

/// Constraints reach no further than this, so that two places further apart keep what they keep at this distance.
const FAR: i64 = 4096;

/// The highest place below the value.
fn next_below(places: &[i64], value: i64) -> Option<i64>
    ensures { IsNextBelow places.now value (length places.now) result }
{
    let mut next = None;
    for &place in places {
        next = higher_below(place, value, next);
    }
    next
}

/// The place where it is below the value and above the best one so far, else the best one.
fn higher_below(place: i64, value: i64, best: Option<i64>) -> Option<i64>
    ensures { IsHigherBelow place value best result }
{
    if place >= value {
        return best;
    }
    match best {
        Some(other) if other >= place => best,
        _ => Some(place),
    }
}

/// Gives each point at the value the level as its label.
fn put_level(places: &[i64], labels: &mut [i64], value: i64, level: i64)
    requires { length labels.old ≡ length places.now }
    ensures { IsLevelled places.now labels.old labels.new value level (length places.now) }
{
    for (point, &place) in places.iter().enumerate() {
        if place == value {
            labels[point] = level;
        }
    }
}

/// Writes labels from minus 2 ^ 28 to zero that keep what the places keep: the places in their order, with each gap
/// between neighbours cut to the reach of a constraint.
pub fn make_anew(places: &[i64], labels: &mut [i64])
    requires size { length labels.old ≡ length places.now }
    requires few { length places.now ≤ 65536 }
    requires bottom { (v : ℕ) → pos 0 ≤ℤ (place_at places.now v +ℤ pos (2 ^ 62 + 2 ^ 29)) }
    requires top { (v : ℕ) → place_at places.now v ≤ℤ pos 0 }
    ensures { AreAnew places.now labels.new }
{
    let mut value = 0;
    let mut level = 0;
    put_level(places, labels, value, level);
    while let Some(next) = next_below(places, value) {
        level -= (value - next).min(FAR);
        value = next;
        put_level(places, labels, value, level);
    }
}
