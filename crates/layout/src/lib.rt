// Sizes and addresses: R15 to R28. Each function gives what the definition of its name in on_disk's specs/Layout.antt gives, with a bound, so that a
// caller's arithmetic needs no other fact. Unless another unit is named, a size is in sectors, and an address is the number of a sector of the volume.
//
// `layout_ok`, `width_ok` and `volume_loan_ok`, which is that of the model's specs/State.antt, take anything. The others are for the crates of this
// repository: they require a layout in range, or a tag of at most 32 bytes, which their callers have tested.
#![tactic(auto)]

pub mod superblock;

ghost use Rattle.std.specs.Prelude.{true, ◌≡◌, ◌*◌, ◌%◌, ◌^◌, ◌≤◌, ◌<◌, length};
ghost use Rattle.on_disk.specs.Layout.{most_width, most_provided, entry_size, per_sector, entry_count, section_size, section_at, run_length, tag_area, run_at, data_at, tag_byte, needed, width_ok, layout_ok};
ghost use Rattle.on_disk.specs.Section.{Entry};
ghost use Rattle.model.specs.Store.{most_home_stores, home_count};
ghost use Rattle.model.specs.State.{volume_loan_ok};

use on_disk::Layout;

// ---- limits

// Of a volume.
pub const MOST_SECTORS: usize = 65536;

// r, the sectors before the superblock.
pub const MOST_RESERVED: usize = 64;

// The base-two logarithm of N.
pub const LEAST_SHIFT: usize = 3;

pub const MOST_SHIFT: usize = 15;

// T
pub const MOST_WIDTH: usize = 32;

// S
pub const MOST_SECTIONS: usize = 64;

// P
pub const MOST_PROVIDED: usize = 65536;

// ---- fixed sizes

// The bytes of a sector.
pub const SECTOR_SIZE: usize = 512;

pub const SUPERBLOCK_SIZE: usize = 8;

// The metadata sectors of a section, and the bytes of one that entries may fill.
pub const METADATA_SIZE: usize = 8;

const ENTRIES_SIZE: usize = 496;

// The most stores that bring an entry home.
pub const MOST_HOME_STORES: usize = 3;

// ---- ranges

// Whether a loan is a volume: whole sectors, and not over the limit.
pub fn volume_loan_ok(v: &[u8]) -> bool
    ensures { result ≡ volume_loan_ok v.now }
{
    v.len() % SECTOR_SIZE == 0 && v.len() <= MOST_SECTORS * SECTOR_SIZE
}

// Whether T is from 1 to 32.
#[tactic(auto, unfolding(on_disk::specs::Layout::width_ok))]
pub fn width_ok(t: usize) -> bool
    ensures { result ≡ width_ok t }
{
    (1..=MOST_WIDTH).contains(&t)
}

// Whether every parameter is in range.
#[tactic(auto, unfolding(on_disk::specs::Layout::layout_ok))]
pub fn layout_ok(g: Layout) -> bool
    ensures { result ≡ layout_ok g }
{
    g.reserved <= MOST_RESERVED
        && (LEAST_SHIFT..=MOST_SHIFT).contains(&g.shift)
        && width_ok(g.width)
        && (1..=MOST_SECTIONS).contains(&g.sections)
        && (1..=MOST_PROVIDED).contains(&g.provided)
}

// ---- a section

// The bytes of a journal entry: its logical sector, its last data bytes and its tag, rounded up to a multiple of 8 bytes. No tag has 0 bytes.
pub fn entry_size(t: usize) -> usize
    requires { t ≤ most_width }
    ensures { (result ≡ entry_size t) × (result ≤ 48) }
{
    match t {
        1..=8 => 24,
        9..=16 => 32,
        17..=24 => 40,
        25..=32 => 48,
        _ => 16,
    }
}

// The entries in a metadata sector.
pub fn per_sector(t: usize) -> usize
    requires { t ≤ most_width }
    ensures { (result ≡ per_sector t) × (0 < result) × (result ≤ 31) }
{
    ENTRIES_SIZE / entry_size(t)
}

// E, the entries of a section.
pub fn entry_count(t: usize) -> usize
    requires { t ≤ most_width }
    ensures { (result ≡ entry_count t) × (result ≤ 248) }
{
    METADATA_SIZE * per_sector(t)
}

// M, the size of a section.
pub fn section_size(t: usize) -> usize
    requires { t ≤ most_width }
    ensures { (result ≡ section_size t) × (result ≤ 256) }
{
    METADATA_SIZE + entry_count(t)
}

// ---- the volume

// The first sector of section k; of section S, the first sector behind the journal.
pub fn section_at(g: Layout, k: usize) -> usize
    requires { (layout_ok g ≡ true) × (k ≤ g.sections) }
    ensures { (result ≡ section_at g k) × (result ≤ 2 ^ 15) }
{
    g.reserved + SUPERBLOCK_SIZE + k * section_size(g.width)
}

// N, the data sectors of a run.
pub fn run_length(g: Layout) -> usize
    requires { layout_ok g ≡ true }
    ensures { (result ≡ run_length g) × (0 < result) × (result ≤ 2 ^ 15) }
{
    1 << g.shift
}

// A, the size of a run's tag area: 8 × ceil(N × T / 4096).
pub fn tag_area(g: Layout) -> usize
    requires { layout_ok g ≡ true }
    ensures { (result ≡ tag_area g) × (result ≤ 2 ^ 11) }
{
    8 * (run_length(g) * g.width).div_ceil(4096)
}

// The first sector of the run that has logical sector s.
pub fn run_at(g: Layout, s: usize) -> usize
    requires { (layout_ok g ≡ true) × (s < most_provided) }
    ensures { (result ≡ run_at g s) × (result ≤ 2 ^ 32) }
{
    let length = run_length(g);
    section_at(g, g.sections) + s / length * (tag_area(g) + length)
}

// Where logical sector s lies.
pub fn data_at(g: Layout, s: usize) -> usize
    requires { (layout_ok g ≡ true) × (s < most_provided) }
    ensures { (result ≡ data_at g s) × (result ≤ 2 ^ 33) }
{
    run_at(g, s) + tag_area(g) + s % run_length(g)
}

// The byte of the volume at which the tag of logical sector s starts.
pub fn tag_byte(g: Layout, s: usize) -> usize
    requires { (layout_ok g ≡ true) × (s < most_provided) }
    ensures { (result ≡ tag_byte g s) × (result ≤ 2 ^ 43) }
{
    run_at(g, s) * SECTOR_SIZE + s % run_length(g) * g.width
}

// s mod N, the place of a sector in its run. N is a power of two, so that shifts do for a division, which would take longer than a store of a recovery.
fn place_in_run(g: Layout, s: u64) -> usize
    requires { layout_ok g ≡ true }
    ensures { (result ≡ s % run_length g) × (result ≤ 2 ^ 15) }
{
    let before = (s >> g.shift) << g.shift;
    (s - before) as usize
}

// How many stores bring an entry for a logical sector home: its data sector, the sector in which its tag begins, and the next one if the tag goes on in it.
// Any number may be asked.
pub fn home_stores(g: Layout, sector: u64) -> usize
    requires { layout_ok g ≡ true }
    ensures { ((e : Entry) → e.sector ≡ sector → result ≡ home_count g e) × (0 < result) × (result ≤ most_home_stores) }
{
    if SECTOR_SIZE < place_in_run(g, sector) * g.width % SECTOR_SIZE + g.width {
        return 3;
    }
    2
}

// The sectors that the layout needs.
pub fn needed(g: Layout) -> usize
    requires { layout_ok g ≡ true }
    ensures { (result ≡ needed g) × (result ≤ 2 ^ 34) }
{
    data_at(g, g.provided - 1) + 1
}
