// Format: R35, R36, R72; the model's specs/Format.antt.
ghost use Rattle.std.specs.Prelude.{true, ◌++◌, ◌≡◌, ◌+◌, ◌*◌, ◌^◌, ◌≤◌, length};
ghost use Rattle.octets.specs.Parts.{patch};
ghost use Rattle.octets.specs.Sectors.{sector_size};
ghost use Rattle.on_disk.specs.Layout.{most_provided, section_size, base, run_length, tag_area, needed, layout_ok};
ghost use Rattle.on_disk.specs.Superblock.{superblock_of};
ghost use Rattle.octets.specs.Lists.{collect};
ghost use Rattle.model.specs.Tag.{tag_of};
ghost use Rattle.model.specs.Refusal.{plain_answer};
ghost use Rattle.model.specs.Format.{zeros, fresh_run, format_of};
ghost use Rattle.model.specs.Keyed.{format_keyed_of};
ghost use Rattle.sound.specs.Rule.{tag_by, RuleOk};
ghost use Rattle.volume_format.specs.Runs.{fresh_runs};

use layout::{SECTOR_SIZE, superblock};
use model::Refusal;
use on_disk::Layout;
use sound::tag::Rule;

// Stores the tags of the n logical sectors from first on, all zero, from byte at on.
fn put_tags(rule: Rule, v: &mut [u8], first: usize, n: usize, width: usize, at: usize)
    requires { (width ≤ 32) × (first + n ≤ 2 ^ 32) × (at + n * width ≤ length v.old) × RuleOk rule }
    ensures { v.new ≡ patch v.old at (collect n (λ i. tag_by rule width (first + i) (zeros sector_size))) }
{
    let sector = [0u8; SECTOR_SIZE];
    for i in 0..n {
        let digest = rule.tag(first + i, &sector);
        octets::copy_at(v, at + i * width, &digest, 0, width);
    }
}

// Stores run q with n data sectors, from byte at on: their tags, zeros to the end of the tag area, zero data.
fn put_run(rule: Rule, v: &mut [u8], g: Layout, q: usize, n: usize, at: usize)
    requires { (layout_ok g ≡ true) × (n ≤ run_length g) × (q ≤ most_provided) × (at + (tag_area g + n) * sector_size ≤ length v.old) × RuleOk rule }
    ensures { v.new ≡ patch v.old at (fresh_run (tag_by rule g.width) g q n) }
{
    put_tags(rule, v, q * layout::run_length(g), n, g.width, at);
    let tags = n * g.width;
    let area = layout::tag_area(g) * SECTOR_SIZE;
    octets::fill_at(v, at + tags, area - tags, 0);
    octets::fill_at(v, at + area, n * SECTOR_SIZE, 0);
}

// Stores the first n runs, each with all its data sectors, from byte at on.
fn put_runs(rule: Rule, v: &mut [u8], g: Layout, n: usize, at: usize)
    requires { (layout_ok g ≡ true) × (n ≤ most_provided) × (at + n * ((tag_area g + run_length g) * sector_size) ≤ length v.old) × RuleOk rule }
    ensures { v.new ≡ patch v.old at (collect n (λ q. fresh_run (tag_by rule g.width) g q (run_length g))) }
{
    let sectors = layout::run_length(g);
    let size = (layout::tag_area(g) + sectors) * SECTOR_SIZE;
    for q in 0..n {
        put_run(rule, v, g, q, sectors, at + q * size);
    }
}

// Stores the superblock, and zeros for the journal.
fn put_head(v: &mut [u8], g: Layout)
    requires { (layout_ok g ≡ true) × (needed g * sector_size ≤ length v.old) }
    ensures { v.new ≡ patch v.old (g.reserved * sector_size) (superblock_of g ++ zeros (g.sections * section_size g.width * sector_size)) }
{
    let start = g.reserved * SECTOR_SIZE;
    let journal = layout::section_at(g, 0) * SECTOR_SIZE;
    let base = layout::section_at(g, g.sections) * SECTOR_SIZE;
    superblock::put_superblock(&mut v[start..journal], g);
    octets::fill_at(v, journal, base - journal, 0);
}

// Stores every run; the last has only the data sectors still needed.
fn put_tail(rule: Rule, v: &mut [u8], g: Layout)
    requires { (layout_ok g ≡ true) × (needed g * sector_size ≤ length v.old) × RuleOk rule }
    ensures { v.new ≡ patch v.old (base g * sector_size) (fresh_runs (tag_by rule g.width) g) }
{
    let start = layout::section_at(g, g.sections) * SECTOR_SIZE;
    let sectors = layout::run_length(g);
    let last = (g.provided - 1) / sectors;
    let size = (layout::tag_area(g) + sectors) * SECTOR_SIZE;
    put_runs(rule, v, g, last, start);
    put_run(
        rule,
        v,
        g,
        last,
        (g.provided - 1) % sectors + 1,
        start + last * size,
    );
}

// Formats by any rule.
fn format_by(rule: Rule, v: &mut [u8], g: Layout) -> Result<(), Refusal>
    requires { RuleOk rule }
    ensures { record { answer = plain_answer result; volume = v.new } ≡ format_of (tag_by rule) g v.old }
{
    if !layout::volume_loan_ok(v) {
        return Err(Refusal::Malformed);
    }
    if !layout::layout_ok(g) {
        return Err(Refusal::Parameter);
    }
    let needed = layout::needed(g);
    if v.len() < needed * SECTOR_SIZE {
        return Err(Refusal::Short(needed));
    }
    if !superblock::is_zero(superblock::superblock_at(v, g.reserved)) {
        return Err(Refusal::Superblock);
    }
    put_head(v, g);
    put_tail(rule, v, g);
    Ok(())
}

// Makes the journal, tag padding and data zero, each tag fit, and writes the superblock. Refused unless the superblock is zero.
pub fn format(v: &mut [u8], g: Layout) -> Result<(), Refusal>
    ensures { record { answer = plain_answer result; volume = v.new } ≡ format_of tag_of g v.old }
{
    format_by(Rule::Plain, v, g)
}

// Formats for tags under a key (R105, R106).
pub fn format_keyed(v: &mut [u8], g: Layout, key: &[u8]) -> Result<(), Refusal>
    ensures { record { answer = plain_answer result; volume = v.new } ≡ format_keyed_of key.now g v.old }
{
    if !layout::volume_loan_ok(v) {
        return Err(Refusal::Malformed);
    }
    if !hmac::key_ok(key) {
        return Err(Refusal::Parameter);
    }
    format_by(Rule::of_key(key), v, g)
}
