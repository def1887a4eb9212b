// The report of a check, as text, whose lines are defined in specs/Report.antt: R88 to R90.
#![tactic(auto)]

ghost use Rattle.std.specs.Prelude.{◌+◌, ◌*◌, ◌≤◌, true, [], ◌++◌, ◌≡◌, length};
ghost use Rattle.io.specs.Counts.{IsPrefixLen};
ghost use Rattle.octets.specs.Choice.{pick};
ghost use Rattle.on_disk.specs.Layout.{layout_ok};
ghost use Rattle.volume_report.specs.Report.{newline, decimal, layout_line, flagged, bad_line, bad_lines, checked_text, report_of, Reports};
ghost use Rattle.volume_report.specs.Text.{Adds, Checks};

use layout::SECTOR_SIZE;
use model::Refusal;
use on_disk::Layout;

// The most sectors of an image.
pub const MOST_IMAGE_SECTORS: usize = 128;

// The bytes of the longest report: 128 lines for bad sectors, and the others.
pub const REPORT_SIZE: usize = 8192;

// The bytes of the longest section: it is shorter than its image.
const STAGING_SIZE: usize = 65536;

// The most digits of a number.
const DIGITS: usize = 20;

// A text: the first `len` bytes of a buffer.
#[derive(Drop)]
struct Text<'a> {
    bytes: &'a mut [u8],
    len: usize,
}

impl Text<'_> {
    // Adds a word.
    fn put(&mut self, word: &[u8])
        requires { self.old.len + length word.now ≤ length self.old.bytes.now }
        ensures { Adds self.old word.now self.new }
    {
        let end = self.len + word.len();
        self.bytes[self.len..end].copy_from_slice(word);
        self.len = end;
    }

    // Adds a number.
    fn put_decimal(&mut self, n: usize)
        requires { self.old.len + 20 ≤ length self.old.bytes.now }
        ensures { Adds self.old (decimal n) self.new × (self.new.len ≤ self.old.len + 20) }
    {
        let mut digits = [0u8; DIGITS];
        let count = io::decimal(n as u64, &mut digits);
        self.put(&digits[..count]);
    }

    // Adds a word, then a number.
    fn put_field(&mut self, word: &[u8], n: usize)
        requires { self.old.len + length word.now + 20 ≤ length self.old.bytes.now }
        ensures { Adds self.old (word.now ++ decimal n) self.new × (self.new.len ≤ self.old.len + length word.now + 20) }
    {
        self.put(word);
        self.put_decimal(n);
    }

    // Adds a word and a number, and ends the line.
    fn put_line(&mut self, word: &[u8], n: usize)
        requires { self.old.len + length word.now + 21 ≤ length self.old.bytes.now }
        ensures { Adds self.old ((word.now ++ decimal n) ++ newline) self.new × (self.new.len ≤ self.old.len + length word.now + 21) }
    {
        self.put_field(word, n);
        self.put(b"\n");
    }

    // Adds the line of a layout.
    fn put_layout(&mut self, g: Layout)
        requires { (layout_ok g ≡ true) × (self.old.len + 110 ≤ length self.old.bytes.now) }
        ensures { Adds self.old (layout_line g) self.new × (self.new.len ≤ self.old.len + 110) }
    {
        self.put_field(b"tag ", g.width);
        self.put_field(b" run ", layout::run_length(g));
        self.put_field(b" sections ", g.sections);
        self.put_line(b" provided ", g.provided);
    }

    // Adds the line of a sector where it is bad.
    fn put_flagged(&mut self, bad: bool, n: usize)
        requires { self.old.len + 32 ≤ length self.old.bytes.now }
        ensures { Adds self.old (pick bad (bad_line n) []) self.new × (self.new.len ≤ self.old.len + 32) }
    {
        if bad {
            self.put_line(b"bad-sector ", n);
        }
    }

    // Adds the line of each sector whose flag is 1.
    fn put_bad(&mut self, flags: &[u8])
        requires { self.old.len + length flags.now * 32 ≤ length self.old.bytes.now }
        ensures { Adds self.old (bad_lines (flagged flags.now) (length flags.now)) self.new × (self.new.len ≤ self.old.len + length flags.now * 32) }
    {
        for (i, flag) in flags.iter().enumerate() {
            self.put_flagged(*flag == 1, i);
        }
    }

    // Adds the lines of a check that found the flagged sectors bad.
    fn put_checked(&mut self, g: Layout, stores: usize, flags: &[u8], count: usize)
        requires { (layout_ok g ≡ true) × (length flags.now ≡ g.provided) × (g.provided ≤ 128) × (self.old.len + 8192 ≤ length self.old.bytes.now) }
        ensures { Adds self.old (checked_text g stores (flagged flags.now) count) self.new }
    {
        self.put_layout(g);
        self.put_line(b"replay ", stores);
        self.put_bad(flags);
        self.put_line(b"bad ", count);
    }
}

// Finishes the recovery of an image, reads each sector that it provides, and adds the lines; where that is refused, none.
fn check(image: &mut [u8], text: &mut Text) -> Result<(), Refusal>
    requires { text.old.len + 8192 ≤ length text.old.bytes.now }
    ensures { Checks (report_of image.old) text.old result text.new image.new }
{
    if MOST_IMAGE_SECTORS * SECTOR_SIZE < image.len() {
        return Err(Refusal::Malformed);
    }
    let held = volume::query::query(image, 0)?;
    let mut bytes = [0u8; STAGING_SIZE];
    let staging = &mut bytes[..held.staging];
    let opened = volume_check::recover(image, staging, 0)?;
    let mut bad = [0u8; MOST_IMAGE_SECTORS];
    let flags = &mut bad[..held.layout.provided];
    let count = volume_check::bad_sectors(opened.state, image, staging, flags);
    text.put_checked(held.layout, opened.stores, flags, count);
    Ok(())
}

// The report of an image, as text at the start of a loan. Answers how long it is. The image is left as the check had it, recovered.
pub fn report(image: &mut [u8], text: &mut [u8; REPORT_SIZE]) -> usize
    ensures reports { Reports (report_of image.old) text.old result text.new image.new }
    ensures prefix_len { IsPrefixLen result text.new }
{
    let mut lines = Text {
        bytes: text,
        len: 0,
    };
    if let Err(refusal) = check(image, &mut lines) {
        lines.put_line(b"refused ", u32::from(refusal) as usize);
    }
    lines.len
}
