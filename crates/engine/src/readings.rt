// The day's readings.
ghost use Rattle.std.specs.Prelude.{◌≡◌};
ghost use Rattle.cool.specs.Dynamic.{reading_at};

// Only a day's first readings exist.
const READINGS: usize = 4096;

// A reading of the day, counted from 0.
pub(crate) fn reading_at(day: &[i32], i: i32) -> Option<i32>
    ensures { result ≡ reading_at day.now i }
{
    let place = usize::try_from(i).ok()?;
    let first = &day[..READINGS.min(day.len())];
    first.get(place).copied()
}
