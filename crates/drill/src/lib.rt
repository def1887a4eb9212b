// Drills: a script of calls and cuts, played on a lent volume by the volume's own calls: R58 to R60.
//
// `play`, and `play_keyed` under a key, leave the world that the model's definitions give for the same list, so what demand 3 (R5) says of every list holds
// of what ran. A script is bytes, four to an event: the number of its kind, a logical sector (2 bytes, little-endian), and a byte that fills the loans of
// the call. Any bytes are one. Which lists a script can write is in specs/Script.antt.
#![tactic(auto)]

ghost use Rattle.std.specs.Prelude.{ℕ, ◌≡◌, ◌≤◌, true, List, Some, None, length, get_or, take, replicate, option_copied};
ghost use Rattle.octets.specs.Numbers.{value};
ghost use Rattle.octets.specs.Parts.{part, patch};
ghost use Rattle.model.specs.Refusal.{open_answer};
ghost use Rattle.model.specs.Format.{format_of};
ghost use Rattle.model.specs.Keyed.{format_keyed_of, write_keyed_of};
ghost use Rattle.model.specs.Tag.{tag_of};
ghost use Rattle.model.specs.Flush.{flush_of};
ghost use Rattle.model.specs.Medium.{medium_of};
ghost use Rattle.model.specs.World.{off, on};
ghost use Rattle.model.specs.World as lists;
ghost use Rattle.drill.specs.Script.{event_size, short_size, kind_of, event_by, events_of};
ghost use Rattle.drill.specs.Played.{key_fits, open_under, write_under, setting, at_rest, live_of, world_of, Turn, Ran, Plays};

use model::{Opened, Refusal, State};
use on_disk::Layout;
use volume::SECTOR_SIZE;

// The kinds of event, each with its number. A short one is made with a loan of a wrong length, one with a long key with a key that no call takes.
#[derive(Clone, Copy)]
pub enum Kind {
    Cut = 0,
    Open = 1,
    Write = 2,
    Flush = 3,
    Step = 4,
    Read = 5,
    ShortOpen = 6,
    ShortWrite = 7,
    ShortRead = 8,
    LongKeyOpen = 9,
    LongKeyWrite = 10,
    LongKeyRead = 11,
}

// The number of a kind, as a script has it.
impl From<Kind> for u8 {
    ghost from_gives = { λ k n. kind_of n ≡ k };

    fn from(k: Kind) -> u8 {
        k as u8
    }
}

// The kind with a number; any that has none is a read's.
impl From<u8> for Kind {
    ghost from_gives = { λ n k. k ≡ kind_of n };

    fn from(n: u8) -> Kind {
        match n {
            0 => Kind::Cut,
            1 => Kind::Open,
            2 => Kind::Write,
            3 => Kind::Flush,
            4 => Kind::Step,
            6 => Kind::ShortOpen,
            7 => Kind::ShortWrite,
            8 => Kind::ShortRead,
            9 => Kind::LongKeyOpen,
            10 => Kind::LongKeyWrite,
            11 => Kind::LongKeyRead,
            _ => Kind::Read,
        }
    }
}

// The bytes of a short loan, a byte less than a sector has: too few for any call.
const SHORT_SIZE: usize = 511;

// The bytes of a long key, a byte more than any call takes.
const LONG_KEY_SIZE: usize = 257;

// The bytes of an event.
pub const EVENT_SIZE: usize = 4;

// An event of a script.
#[derive(Clone, Copy)]
struct Event {
    kind: Kind,
    sector: usize,
    fill: u8,
}

// What all events share: the key, if calls have one, and the reserved sectors.
#[derive(Clone, Copy)]
struct Setting<'a> {
    key: Option<&'a [u8]>,
    reserved: usize,
}

// What is live after an event (nothing at first and after a cut, then the state that the last call left), and whether the event was an open that reports
// no store to come, or a step that says filling.
#[derive(Clone, Copy)]
pub struct Moment {
    pub live: Option<State>,
    pub settled: bool,
}

// Formats the volume and, if that is taken, plays the script on it: what the last event left, or format's refusal.
pub fn play(g: Layout, script: &[u8], v: &mut [u8], st: &mut [u8]) -> Result<Moment, Refusal>
    ensures { Plays None g (format_of tag_of g v.old) script.now st.old result v.new st.new }
{
    volume::format::format(v, g)?;
    let x = Setting {
        key: None,
        reserved: g.reserved,
    };
    Ok(events(x, script, v, st))
}

// The same with every call under a key.
pub fn play_keyed(
    g: Layout,
    key: &[u8],
    script: &[u8],
    v: &mut [u8],
    st: &mut [u8],
) -> Result<Moment, Refusal>
    ensures { Plays (Some key.now) g (format_keyed_of key.now g v.old)
        script.now st.old result v.new st.new }
{
    volume::format::format_keyed(v, g, key)?;
    let x = Setting {
        key: Some(key),
        reserved: g.reserved,
    };
    Ok(events(x, script, v, st))
}

// Plays the script on a volume that format left.
fn events(x: Setting, script: &[u8], v: &mut [u8], st: &mut [u8]) -> Moment
    requires { key_fits (option_copied x.key) ≡ true }
    ensures { Ran (option_copied x.entry.key) x.entry.reserved v.old st.old (events_of (length st.old) script.now) result v.new st.new }
{
    let mut last = at_rest(None);
    for bytes in script.chunks_exact(EVENT_SIZE) {
        last = next(x, last.live, v, st, decode(bytes));
    }
    last
}

// The event that its bytes write down.
fn decode(bytes: &[u8]) -> Event
    requires { length bytes.now ≡ event_size }
    ensures { result ≡ record { kind = kind_of (get_or bytes.now 0 0); sector = value (part bytes.now 1 2); fill = get_or bytes.now 3 0 } }
{
    Event {
        kind: Kind::from(bytes[0]),
        sector: octets::number(bytes, 1, 2) as usize,
        fill: bytes[3],
    }
}

// What is live after an event that settles nothing.
fn at_rest(live: Option<State>) -> Moment
    ensures { result ≡ at_rest live }
{
    Moment {
        live,
        settled: false,
    }
}

// One event.
fn next(x: Setting, live: Option<State>, v: &mut [u8], st: &mut [u8], e: Event) -> Moment
    requires { key_fits (option_copied x.key) ≡ true }
    ensures { Turn (option_copied x.entry.key) x.entry.reserved v.old (live_of live st.old) st.old
        (event_by (length st.old) e.kind e.sector e.fill) result v.new st.new }
{
    match live {
        None => event_off(x, v, st, e),
        Some(s) => event_on(x, s, v, st, e),
    }
}

// While nothing is live only an open is made (R58).
fn event_off(x: Setting, v: &[u8], st: &mut [u8], e: Event) -> Moment
    requires { key_fits (option_copied x.key) ≡ true }
    ensures { Turn (option_copied x.entry.key) x.entry.reserved v.now off st.old
        (event_by (length st.old) e.kind e.sector e.fill) result v.now st.new }
{
    match e.kind {
        Kind::Open => after_open(open_filled(x, v, st, e.fill)),
        Kind::ShortOpen => {
            short_open(x, v, st, e.fill);
            at_rest(None)
        }
        Kind::LongKeyOpen => {
            let key = [e.fill; LONG_KEY_SIZE];
            let long = Setting {
                key: Some(&key),
                ..x
            };
            let _ = open_filled(long, v, st, e.fill);
            at_rest(None)
        }
        _ => at_rest(None),
    }
}

// An open whose staging is filled with a byte.
fn open_filled(x: Setting, v: &[u8], st: &mut [u8], fill: u8) -> Result<Opened, Refusal>
    ensures { record { answer = open_answer result; staging = st.new }
        ≡ open_under (option_copied x.entry.key) x.entry.reserved v.now (replicate (length st.old) fill) }
{
    st.fill(fill);
    match x.key {
        None => volume::open::open(v, st, x.reserved),
        Some(key) => volume::open::open_keyed(v, st, x.reserved, key),
    }
}

// An open that is lent the first bytes of the loan, too few for any layout: it is refused, and leaves them as they were filled.
fn short_open(x: Setting, v: &[u8], st: &mut [u8], fill: u8)
    requires { key_fits (option_copied x.key) ≡ true }
    ensures { st.new ≡ patch st.old 0 (take short_size (replicate (length st.old) fill)) }
{
    let n = st.len().min(SHORT_SIZE);
    let _ = open_filled(x, v, &mut st[..n], fill);
}

// What is live after an open; it settles where it was taken and reports no store to come.
fn after_open(a: Result<Opened, Refusal>) -> Moment
    ensures { (v st : List ℕ) → world_of result v st ≡ (lists.by_open (medium_of v) st (open_answer a)).world }
{
    match a {
        Ok(Opened { state, stores }) => Moment {
            live: Some(state),
            settled: stores == 0,
        },
        Err(_) => at_rest(None),
    }
}

// While a state is live, anything but an open (R58). The loans are filled in the functions that are called: an array in an arm would be filled for every
// event, before the match.
fn event_on(x: Setting, s: State, v: &mut [u8], st: &mut [u8], e: Event) -> Moment
    requires { key_fits (option_copied x.key) ≡ true }
    ensures { Turn (option_copied x.entry.key) x.entry.reserved v.old (on s st.old) st.old
        (event_by (length st.old) e.kind e.sector e.fill) result v.new st.new }
{
    match e.kind {
        Kind::Cut => at_rest(None),
        Kind::Write => write_event::<SECTOR_SIZE>(x.key, s, st, e),
        Kind::ShortWrite => write_event::<SHORT_SIZE>(x.key, s, st, e),
        Kind::LongKeyWrite => long_key_write(s, st, e),
        Kind::Flush => flush_event(s),
        Kind::Step => step_event(s, v, st),
        Kind::Read => read_event::<SECTOR_SIZE>(x.key, s, v, st, e),
        Kind::ShortRead => read_event::<SHORT_SIZE>(x.key, s, v, st, e),
        Kind::LongKeyRead => long_key_read(s, v, st, e),
        Kind::Open | Kind::ShortOpen | Kind::LongKeyOpen => at_rest(Some(s)),
    }
}

// A write that is lent N bytes.
fn write_event<const N: usize>(key: Option<&[u8]>, mut s: State, st: &mut [u8], e: Event) -> Moment
    requires { N ≤ SECTOR_SIZE }
    ensures { (v : List ℕ) → world_of result v st.new
        ≡ (lists.by_write (medium_of v) e.sector (replicate N e.fill)
        (write_under (option_copied key.entry) s st.old e.sector (replicate N e.fill))).world }
{
    let bytes = [e.fill; N];
    let _ = match key {
        None => volume::write::write(&mut s, st, e.sector, &bytes),
        Some(key) => volume::write::write_keyed(&mut s, st, e.sector, &bytes, key),
    };
    at_rest(Some(s))
}

// A write with a key that no call takes.
fn long_key_write(s: State, st: &mut [u8], e: Event) -> Moment
    ensures { (v : List ℕ) → world_of result v st.new
        ≡ (lists.by_write (medium_of v) e.sector (replicate SECTOR_SIZE e.fill)
        (write_keyed_of (replicate LONG_KEY_SIZE e.fill) s st.old e.sector (replicate SECTOR_SIZE e.fill))).world }
{
    let key = [e.fill; LONG_KEY_SIZE];
    write_event::<SECTOR_SIZE>(Some(&key), s, st, e)
}

fn flush_event(mut s: State) -> Moment
    ensures { (v st : List ℕ) → world_of result v st ≡ (lists.by_flush (medium_of v) st (flush_of s)).world }
{
    let _ = volume::flush::flush(&mut s);
    at_rest(Some(s))
}

// A step settles where it says filling.
fn step_event(mut s: State, v: &mut [u8], st: &mut [u8]) -> Moment
    ensures { world_of result v.new st.new
        ≡ (lists.happens (setting None 0) (medium_of v.old) (on s st.old) lists.a_step).world }
{
    let answer = volume::step::step(&mut s, v, st);
    Moment {
        live: Some(s),
        settled: model::says_filling(answer),
    }
}

// A read that is lent N bytes, after which all is as it was.
fn read_event<const N: usize>(key: Option<&[u8]>, s: State, v: &[u8], st: &[u8], e: Event) -> Moment
    requires { N ≤ SECTOR_SIZE }
    ensures { result ≡ at_rest (Some s) }
{
    let mut bytes = [e.fill; N];
    let _ = match key {
        None => volume::read::read(s, v, st, e.sector, &mut bytes),
        Some(key) => volume::read::read_keyed(s, v, st, e.sector, &mut bytes, key),
    };
    at_rest(Some(s))
}

// A read with a key that no call takes.
fn long_key_read(s: State, v: &[u8], st: &[u8], e: Event) -> Moment
    ensures { result ≡ at_rest (Some s) }
{
    let key = [e.fill; LONG_KEY_SIZE];
    read_event::<SECTOR_SIZE>(Some(&key), s, v, st, e)
}
