// The rows of which nothing is left are taken out, so that all others stand together at the end of the columns.
ghost use Rattle.std.specs.Prelude.{◌<◌, length, ◌≡◌};
ghost use Rattle.sheet.specs.Kept.{kept, Counts, Compacts, Sweepable, Sweeps};

use super::passes::any_over;

// One row less is counted for each that is over.
fn uncount(places: &[u16], units: &[u8], counts: &mut [u16])
    requires { (length places.now ≡ length units.now)
        × Counts places.now counts.old }
    ensures { Counts (kept units.now places.now) counts.new }
{
    for (i, left) in units.iter().enumerate() {
        if *left == 0 {
            counts[usize::from(places[i])] -= 1;
        }
    }
}

// From the last row down, each of which something is left is moved to the end; the place where they begin.
fn compact(clocks: &mut [u8], places: &mut [u16], units: &mut [u8]) -> usize
    requires { (length clocks.old ≡ length units.old)
        × (length places.old ≡ length units.old) }
    ensures { Compacts clocks.old places.old units.old result clocks.new places.new
        units.new }
{
    let mut from = units.len();
    // By index: rows move to other places of three columns.
    for i in (0..units.len()).rev() {
        if units[i] != 0 {
            from -= 1;
            clocks[from] = clocks[i];
            places[from] = places[i];
            units[from] = units[i];
        }
    }
    from
}

// Both, where a row is over.
pub fn sweep(clocks: &mut [u8], places: &mut [u16], units: &mut [u8], counts: &mut [u16]) -> usize
    requires { Sweepable clocks.old places.old units.old counts.old }
    ensures { Sweeps clocks.old places.old units.old counts.old result clocks.new
        places.new units.new counts.new }
{
    if !any_over(units) {
        return 0;
    }
    uncount(places, units, counts);
    compact(clocks, places, units)
}
