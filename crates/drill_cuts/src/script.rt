// The scripts. Between the calls of the two batches stand others that change nothing: reads, and calls with a loan of a wrong length or a key that no call
// takes.
ghost use Rattle.std.specs.Prelude.{◌≤◌};
ghost use Rattle.drill_cuts.specs.declared.script.TheConstants.{SCRIPT};

use crate::case::Case;
use drill::{EVENT_SIZE, Kind};

// The bytes of the longest script.
const SCRIPT: usize = 2048;

// A script is the first bytes.
#[derive(Drop)]
pub(crate) struct Script {
    bytes: [u8; SCRIPT],
    length: usize,
    ghost within: { length ≤ SCRIPT },
}

impl Script {
    pub(crate) fn new() -> Script {
        Script {
            bytes: [0; SCRIPT],
            length: 0,
        }
    }

    pub(crate) fn bytes(&self) -> &[u8] {
        &self.bytes[..self.length]
    }

    // Puts the script of a drill: both batches cut after so many stores, then a recovery cut after so many, then a whole recovery.
    pub(crate) fn put(&mut self, case: Case, stores: usize, again: usize) {
        self.length = 0;
        self.first_batch(case, stores.min(case.first()));
        self.second_batch(case, stores);
        self.recovery(again);
        self.recovery(case.replayed(stores));
    }

    fn first_batch(&mut self, case: Case, steps: usize) {
        self.event(Kind::Open, 0, 165);
        self.event(Kind::Write, case.a(), 1);
        self.event(Kind::ShortWrite, case.a(), 6);
        self.event(Kind::LongKeyWrite, case.b(), 6);
        self.event(Kind::Write, case.b(), 2);
        self.event(Kind::Flush, 0, 0);
        self.steps(steps);
    }

    // None where the cut comes before it.
    fn second_batch(&mut self, case: Case, stores: usize) {
        let Some(steps) = stores.checked_sub(case.first()) else {
            return;
        };
        self.event(Kind::Write, case.b(), 3);
        self.event(Kind::Write, case.c(), 4);
        self.reads(case.c());
        self.event(Kind::Write, case.a(), 5);
        self.event(Kind::Flush, 0, 0);
        self.steps(steps);
    }

    // Reads of a sector, of which all but the first are refused.
    fn reads(&mut self, sector: u8) {
        self.event(Kind::Read, sector, 0);
        self.event(Kind::ShortRead, sector, 0);
        self.event(Kind::LongKeyRead, sector, 0);
    }

    // A cut, two opens that are refused, one whose staging has any bytes, and so many steps.
    fn recovery(&mut self, steps: usize) {
        self.event(Kind::Cut, 0, 0);
        self.event(Kind::ShortOpen, 0, 91);
        self.event(Kind::LongKeyOpen, 0, 92);
        self.event(Kind::Open, 0, 90);
        self.steps(steps);
    }

    // So many steps.
    fn steps(&mut self, steps: usize) {
        for _ in 0..steps {
            self.event(Kind::Step, 0, 0);
        }
    }

    // Puts an event behind the others. A script without room stays as it is.
    fn event(&mut self, kind: Kind, sector: u8, fill: u8) {
        let end = self.length + EVENT_SIZE;
        if SCRIPT < end {
            return;
        }
        self.bytes[self.length..end].copy_from_slice(&[u8::from(kind), sector, 0, fill]);
        self.length = end;
    }
}
