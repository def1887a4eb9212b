// The on-disk format's one type: R25.
//
// Where the parts of a volume lie and what bytes they hold is defined in specs/. The code that reads and writes them is in the crates above.
#![tactic(auto)]

// Where everything lies on a volume. Any numbers may be handed in; `layout_ok` of specs/Layout.antt says which are in range.
#[derive(Clone, Copy)]
pub struct Layout {
    // r, the sectors before the superblock
    pub reserved: usize,
    // the base-two logarithm of N, the number of data sectors in a run
    pub shift: usize,
    // T, the bytes of a tag
    pub width: usize,
    // S, the sections of the journal
    pub sections: usize,
    // P, the data sectors that the volume provides
    pub provided: usize,
}
