// The superblock: R17. A superblock is lent as a slice of its 4,096 bytes.
//
// It is tested field by field: the numbers that it holds are read, and every other byte is compared with what format writes.
ghost use Rattle.std.specs.Prelude.{true, ◌≡◌, ◌+◌, ◌*◌, ◌≤◌, length};
ghost use Rattle.octets.specs.Sectors.{sector_size};
ghost use Rattle.on_disk.specs.Layout.{superblock_size, layout_ok};
ghost use Rattle.on_disk.specs.Superblock.{superblock_of, superblock_at, layout_in, is_zero, superblock_ok};

use crate::{SECTOR_SIZE, SUPERBLOCK_SIZE};
use on_disk::Layout;

// The bytes by which a volume is known, compared at open and written by format.
const MAGIC: [u8; 8] = *b"integrt\0";

const MAGIC_SIZE: usize = 8;

// So that a kernel, which knows versions up to 5, does not take the volume.
const VERSION: u8 = 128;

// Where each number starts, in bytes; behind the last of them all bytes are zero.
const VERSION_AT: usize = 8;

const SHIFT_AT: usize = 9;

const WIDTH_AT: usize = 10;

const SECTIONS_AT: usize = 12;

const PROVIDED_AT: usize = 16;

const ZEROS_AT: usize = 24;

// The superblock behind r reserved sectors.
pub fn superblock_at(v: &[u8], r: usize) -> &[u8]
    requires { (r + superblock_size) * sector_size ≤ length v.now }
    ensures { (result.now ≡ superblock_at r v.now) × (length result.now ≡ superblock_size * sector_size) }
{
    &v[r * SECTOR_SIZE..(r + SUPERBLOCK_SIZE) * SECTOR_SIZE]
}

// Whether all bytes are zero.
pub fn is_zero(b: &[u8]) -> bool
    ensures { result ≡ is_zero b.now }
{
    b.iter().all(|&x| x == 0)
}

// The layout whose numbers the superblock holds, behind r reserved sectors.
pub fn layout_in(r: usize, b: &[u8]) -> Layout
    requires { length b.now ≡ superblock_size * sector_size }
    ensures { result ≡ layout_in r b.now }
{
    Layout {
        reserved: r,
        shift: usize::from(b[SHIFT_AT]),
        width: octets::number(b, WIDTH_AT, 2) as usize,
        sections: octets::number(b, SECTIONS_AT, 4) as usize,
        provided: octets::number(b, PROVIDED_AT, 8) as usize,
    }
}

// Whether the superblock is valid: its numbers are in range, and it is what format writes for them, byte for byte.
pub fn superblock_ok(r: usize, b: &[u8]) -> bool
    requires { length b.now ≡ superblock_size * sector_size }
    ensures { result ≡ superblock_ok r b.now }
{
    octets::same_at(b, 0, &MAGIC, 0, MAGIC_SIZE)
        && b[VERSION_AT] == VERSION
        && is_zero(&b[ZEROS_AT..])
        && crate::layout_ok(layout_in(r, b))
}

// Makes the superblock what format writes for the layout.
pub fn put_superblock(b: &mut [u8], g: Layout)
    requires { (layout_ok g ≡ true) × (length b.old ≡ superblock_size * sector_size) }
    ensures { b.new ≡ superblock_of g }
{
    octets::copy_at(b, 0, &MAGIC, 0, MAGIC_SIZE);
    octets::put_number(b, VERSION_AT, 1, u64::from(VERSION));
    octets::put_number(b, SHIFT_AT, 1, g.shift as u64);
    octets::put_number(b, WIDTH_AT, 2, g.width as u64);
    octets::put_number(b, SECTIONS_AT, 4, g.sections as u64);
    octets::put_number(b, PROVIDED_AT, 8, g.provided as u64);
    octets::fill_at(b, ZEROS_AT, SUPERBLOCK_SIZE * SECTOR_SIZE - ZEROS_AT, 0);
}
