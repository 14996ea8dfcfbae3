// A row is set, and objects are found and counted by how many rows they have.
ghost use Rattle.std.specs.Prelude.{◌≤◌, ◌≡◌, length};
ghost use Rattle.sheet.specs.Setting.{object_count, Settable, Sets, is_counted, small_in, large_in, all_of};

// No script of 65,536 bytes sets more rows, or makes more objects.
pub const ENTRY_COUNT: usize = 8192;

pub const OBJECT_COUNT: usize = 4096;

// A row at a place, before all others.
pub fn put(
    clocks: &mut [u8],
    places: &mut [u16],
    units: &mut [u8],
    counts: &mut [u16],
    at: usize,
    place: u16,
    clock: u8,
    left: u8,
)
    requires { Settable clocks.old places.old units.old counts.old at place left }
    ensures { Sets clocks.old places.old units.old at place clock left clocks.new
        places.new units.new counts.new }
{
    clocks[at] = clock;
    places[at] = place;
    units[at] = left;
    counts[usize::from(place)] += 1;
}

// O2: whether an object stands.
pub fn stands(counts: &[u16], handle: u32) -> bool
    ensures { result ≡ is_counted counts.now handle }
{
    if handle == 0 {
        return false;
    }
    let place = (handle - 1) as usize;
    if counts.len() <= place {
        return false;
    }
    counts[place] != 0
}

// The standing objects of either store.
#[derive(Clone, Copy)]
pub struct Objects {
    pub small: u32,
    pub large: u32,
}

pub fn standing(smalls: &[bool], counts: &[u16]) -> Objects
    requires { (length smalls.now ≡ length counts.now)
        × (length counts.now ≤ object_count) }
    ensures { (result.small ≡ all_of (small_in smalls.now counts.now))
        × (result.large ≡ all_of (large_in smalls.now counts.now)) }
{
    let mut small: u32 = 0;
    let mut large: u32 = 0;
    for (i, rows) in counts.iter().enumerate() {
        let stands = *rows != 0;
        small += (smalls[i] & stands) as u32;
        large += (!smalls[i] & stands) as u32;
    }
    Objects { small, large }
}
