// A journal section: R26 to R30. A section is lent as a slice of its M sectors' bytes: staging is one, and so is each section
// of a volume. Its functions are for the crates of this repository: T is at most 32, and an entry is one of the section's E, which callers show.
#![tactic(auto)]

ghost use Rattle.std.specs.Prelude.{true, ◌≡◌, ℕ, ◌+◌, ◌*◌, ◌≤◌, ◌<◌, length, take};
ghost use Rattle.octets.specs.Sectors.{sector_size, sector_at};
ghost use Rattle.on_disk.specs.Layout.{most_width, entry_size, entry_count, section_size, layout_ok};
ghost use Rattle.on_disk.specs.Section.{id_of, metadata_of, entry_offset, entry_of, put_entry, empty_sector, empty_section};
ghost use Rattle.model.specs.Journal.{greatest_in, used_of};
ghost use Rattle.model.specs.Store.{stores_of};
ghost use Rattle.section.specs.Locations.{FoundFrom};

use layout::{METADATA_SIZE, SECTOR_SIZE};
use on_disk::Layout;

// A store of a replay: store `store` of entry `entry` of section `section`. With a greater number than the entry has stores, one behind them.
#[derive(Clone, Copy)]
pub struct Location {
    pub section: usize,
    pub entry: usize,
    pub store: usize,
}

// The logical sector of an unused entry.
pub const UNUSED: u64 = u64::MAX;

// The bytes of a commit id, and of a logical sector.
pub const NUMBER_SIZE: usize = 8;

// The byte of a journal sector at which its commit id starts. A data sector has so many bytes of its entry's data; the last ones, up to the end of a
// sector, stand in the entry.
pub const ID_AT: usize = 504;

// Where the last data bytes and the tag start in an entry; its logical sector comes first.
const LAST_AT: usize = 8;

const TAG_AT: usize = 16;

// ---- commit ids

// The commit id that sector j carries.
pub fn id_at(section: &[u8], j: usize) -> u64
    requires { (j + 1) * sector_size ≤ length section.now }
    ensures { result ≡ id_of (sector_at section.now j) }
{
    octets::number(section, j * SECTOR_SIZE + ID_AT, NUMBER_SIZE)
}

// The greatest id on any sector.
pub fn greatest_in(section: &[u8], t: usize) -> u64
    requires { (t ≤ most_width) × (length section.now ≡ section_size t * sector_size) }
    ensures { result ≡ greatest_in t section.now }
{
    let mut greatest: u64 = 0;
    for j in 0..layout::section_size(t) {
        greatest = greatest.max(id_at(section, j));
    }
    greatest
}

// ---- entries

// The byte of the section at which entry i starts.
fn entry_at(t: usize, i: usize) -> usize
    requires { (t ≤ most_width) × (i < entry_count t) }
    ensures { (result ≡ metadata_of t i * sector_size + entry_offset t i) × (result + entry_size t ≤ 8 * sector_size) }
{
    let per = layout::per_sector(t);
    i / per * SECTOR_SIZE + i % per * layout::entry_size(t)
}

// The logical sector of entry i.
pub fn entry_sector(section: &[u8], t: usize, i: usize) -> u64
    requires { (t ≤ most_width) × (i < entry_count t) × (length section.now ≡ section_size t * sector_size) }
    ensures { result ≡ (entry_of t section.now i).sector }
{
    octets::number(section, entry_at(t, i), NUMBER_SIZE)
}

// The tag of entry i, where it stands.
pub fn entry_tag(section: &[u8], t: usize, i: usize) -> &[u8]
    requires { (t ≤ most_width) × (i < entry_count t) × (length section.now ≡ section_size t * sector_size) }
    ensures { (result.now ≡ (entry_of t section.now i).tag) × (length result.now ≡ t) }
{
    let start = entry_at(t, i) + TAG_AT;
    &section[start..start + t]
}

// Copies the 512 data bytes of entry i: the first 504 stand in its data sector, the others in the entry.
pub fn entry_data(section: &[u8], t: usize, i: usize, bytes: &mut [u8])
    requires { (t ≤ most_width) × (i < entry_count t) × (length section.now ≡ section_size t * sector_size) × (length bytes.old ≡ sector_size) }
    ensures { bytes.new ≡ (entry_of t section.now i).bytes }
{
    let at = entry_at(t, i);
    octets::copy_at(bytes, 0, section, (METADATA_SIZE + i) * SECTOR_SIZE, ID_AT);
    octets::copy_at(bytes, ID_AT, section, at + LAST_AT, SECTOR_SIZE - ID_AT);
}

// Puts an entry in as entry i: a logical sector, its data, and the first T bytes of `tag`, with zeros behind them to the entry's end.
pub fn put_entry(section: &mut [u8], t: usize, i: usize, sector: usize, bytes: &[u8], tag: &[u8])
    requires { (t ≤ most_width) × (i < entry_count t) × (length section.old ≡ section_size t * sector_size) × (length bytes.now ≡ sector_size) × (t ≤ length tag.now) }
    ensures { section.new ≡ put_entry t section.old i (record { sector = sector; bytes = bytes.now; tag = take t tag.now }) }
{
    let at = entry_at(t, i);
    let padding = layout::entry_size(t) - TAG_AT - t;
    octets::put_number(section, at, NUMBER_SIZE, sector as u64);
    octets::copy_at(section, at + LAST_AT, bytes, ID_AT, SECTOR_SIZE - ID_AT);
    octets::copy_at(section, at + TAG_AT, tag, 0, t);
    octets::fill_at(section, at + TAG_AT + t, padding, 0);
    octets::copy_at(section, (METADATA_SIZE + i) * SECTOR_SIZE, bytes, 0, ID_AT);
}

// ---- an empty section

// A metadata sector without a used entry, its id zero.
fn empty_metadata(t: usize) -> [u8; SECTOR_SIZE]
    requires { t ≤ most_width }
    ensures { (result ≡ empty_sector t 0) × (length result ≡ sector_size) }
{
    let entry = layout::entry_size(t);
    let mut sector = [0u8; SECTOR_SIZE];
    for i in 0..layout::per_sector(t) {
        octets::put_number(&mut sector, i * entry, NUMBER_SIZE, UNUSED);
    }
    sector
}

// Makes the section one without a used entry, all ids zero.
pub fn clear_section(section: &mut [u8], t: usize)
    requires { (t ≤ most_width) × (length section.old ≡ section_size t * sector_size) }
    ensures { section.new ≡ empty_section t }
{
    let metadata = empty_metadata(t);
    for j in 0..layout::section_size(t) {
        if j < METADATA_SIZE {
            octets::copy_at(section, j * SECTOR_SIZE, &metadata, 0, SECTOR_SIZE);
        } else {
            octets::fill_at(section, j * SECTOR_SIZE, SECTOR_SIZE, 0);
        }
    }
}

// ---- the stores that bring its used entries home

// How many there are, whatever the section's number.
pub fn stores_in(g: Layout, section: &[u8]) -> usize
    requires { (layout_ok g ≡ true) × (length section.now ≡ section_size g.width * sector_size) }
    ensures { ((k : ℕ) → result ≡ stores_of g (used_of g.width k section.now)) × (result ≤ 744) }
{
    let mut stores = 0;
    for i in 0..layout::entry_count(g.width) {
        let sector = entry_sector(section, g.width, i);
        if sector != UNUSED {
            stores += layout::home_stores(g, sector);
        }
    }
    stores
}

// The store that is from.store stores on from the first of entry `from.entry`, of those that bring the section's used entries home. Where there are not
// so many, how many are left.
pub fn location_in(g: Layout, section: &[u8], from: Location) -> Result<Location, usize>
    requires { (layout_ok g ≡ true) × (length section.now ≡ section_size g.width * sector_size) × (from.entry ≤ entry_count g.width) }
    ensures { FoundFrom g section.now from result }
{
    let mut left = from.store;
    for i in from.entry..layout::entry_count(g.width) {
        let sector = entry_sector(section, g.width, i);
        if sector != UNUSED {
            let home = layout::home_stores(g, sector);
            if left < home {
                return Ok(Location {
                    entry: i,
                    store: left,
                    ..from
                });
            }
            left -= home;
        }
    }
    Err(left)
}
