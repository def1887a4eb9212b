// The bytes of a tag that one store brings home: R46, R116. A tag that crosses into the next sector takes two, the lower sector first. For the crates of this
// repository, as the stores themselves.
ghost use Rattle.std.specs.Prelude.{true, ◌≢◌, ◌≡◌, ◌<◌};
ghost use Rattle.on_disk.specs.Layout.{crosses, layout_ok};
ghost use Rattle.stores.specs.TagPieces.{tag_piece_of};

use layout::SECTOR_SIZE;
use on_disk::Layout;

// So many bytes of a tag, from its byte `from` on, and the volume's byte from which on they lie.
#[derive(Clone, Copy)]
pub struct TagPiece {
    pub from: usize,
    pub byte: usize,
    pub size: usize,
}

// Those that store h, 1 or 2, of an entry for a logical sector brings home.
pub fn tag_piece(g: Layout, sector: usize, h: usize) -> TagPiece
    requires { (layout_ok g ≡ true) × (sector < g.provided) × (h ≢ 1 → crosses g sector ≡ true) }
    ensures { result ≡ tag_piece_of g sector h }
{
    let byte = layout::tag_byte(g, sector);
    let first = SECTOR_SIZE - byte % SECTOR_SIZE;
    if h != 1 {
        return TagPiece {
            from: first,
            byte: byte + first,
            size: g.width - first,
        };
    }
    if first < g.width {
        return TagPiece {
            from: 0,
            byte,
            size: first,
        };
    }
    TagPiece {
        from: 0,
        byte,
        size: g.width,
    }
}
