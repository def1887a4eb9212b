// What the drills of a line share, and what the ledger (R61 to R65) has after each.
//
// Of three sectors a, b and c the first batch writes a and b, the second b, c and a, each with bytes of one value: sectors 3, 7 and 9 of the layout of the
// examples; and where tags are to cross, 16, 17 and 18 of one on which the tag of sector 17 lies across two sectors. A batch is entered by its 88th store, and
// its entries take two stores each after that, sector 17 there three.
ghost use Rattle.std.specs.Prelude.{◌≤◌};

use on_disk::Layout;

// The stores by which a batch is entered.
const ENTERED: usize = 88;

// The key, if calls have one; whether a tag lies across two sectors; and the number of sections.
#[derive(Clone, Copy)]
pub(crate) struct Case<'a> {
    pub(crate) key: Option<&'a [u8]>,
    pub(crate) crossing: bool,
    pub(crate) sections: usize,
}

impl<'a> Case<'a> {
    // r 0; T 32, N 16, P 16, or T 30, N 32, P 24, where the tag of sector 17 crosses
    pub(crate) fn layout(self) -> Layout {
        let (shift, width) = if self.crossing { (5, 30) } else { (4, 32) };
        Layout {
            reserved: 0,
            shift,
            width,
            sections: self.sections,
            provided: self.provided(),
        }
    }

    // P
    pub(crate) fn provided(self) -> usize {
        if self.crossing { 24 } else { 16 }
    }

    pub(crate) fn a(self) -> u8 {
        if self.crossing { 16 } else { 3 }
    }

    pub(crate) fn b(self) -> u8 {
        if self.crossing { 17 } else { 7 }
    }

    pub(crate) fn c(self) -> u8 {
        if self.crossing { 18 } else { 9 }
    }

    // The stores that bring the entries of the first batch home, and of the second.
    fn first_home(self) -> usize
        ensures { result ≤ 5 }
    {
        if self.crossing { 5 } else { 4 }
    }

    fn second_home(self) -> usize
        ensures { result ≤ 7 }
    {
        if self.crossing { 7 } else { 6 }
    }

    // The stores of the first batch.
    pub(crate) fn first(self) -> usize
        ensures { result ≤ 93 }
    {
        ENTERED + self.first_home()
    }

    // Those of both, up to the one that enters the second.
    fn both_entered(self) -> usize
        ensures { result ≤ 181 }
    {
        self.first() + ENTERED
    }

    // Those of both.
    pub(crate) fn stores(self) -> usize
        ensures { result ≤ 188 }
    {
        self.both_entered() + self.second_home()
    }

    // The stores of a recovery after so many stores of the two batches: those of each entry of a section that is whole.
    pub(crate) fn replayed(self, stores: usize) -> usize
        ensures { result ≤ 12 }
    {
        if stores < ENTERED {
            return 0;
        }
        // With one section, the second batch goes over the first.
        if self.sections == 1 {
            if stores <= self.first() {
                return self.first_home();
            }
            if stores < self.both_entered() {
                return 0;
            }
            return self.second_home();
        }
        if stores < self.both_entered() {
            return self.first_home();
        }
        self.first_home() + self.second_home()
    }

    // The value that the ledger has for a sector after so many stores of the two batches.
    pub(crate) fn expected(self, sector: usize, stores: usize) -> u8 {
        if self.both_entered() <= stores {
            return self.value(sector, 5, 3, 4);
        }
        if ENTERED <= stores {
            return self.value(sector, 1, 2, 0);
        }
        0
    }

    // The values of the three sectors; all others are as format left them.
    fn value(self, sector: usize, of_a: u8, of_b: u8, of_c: u8) -> u8 {
        if sector == usize::from(self.a()) {
            return of_a;
        }
        if sector == usize::from(self.b()) {
            return of_b;
        }
        if sector == usize::from(self.c()) {
            return of_c;
        }
        0
    }
}
