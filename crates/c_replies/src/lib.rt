// What a volume's call says, in an answer's buffer, and what open and query give in theirs: specs/Replies.antt.
//
// An answer is five numbers of 8 bytes each, little-endian.
//
// These are functions for the volume's calls on buffers: crates c_setup, c_batch, c_read and c_step. They test a buffer's length once; so a function
// here may have a `requires`, and every caller shows it.
#![tactic(auto)]

ghost use Rattle.std.specs.Prelude.{◌≡◌, length};
ghost use Rattle.model.specs.Refusal.{refusal_of, answer_by, plain_answer, open_answer, query_answer, flush_answer, step_answer};
ghost use Rattle.c_numbers.specs.Sizes.{layout_size, volume_state_size, answer_size};
ghost use Rattle.c_replies.specs.Replies.{answer_bytes_of, refused_reply, with_counts, number_reply, plain_reply, flush_reply, open_reply, query_reply, says_of, step_reply, opened_bytes, held_bytes};

use c_numbers::{done, put_numbers};
use c_volume_state::{encode, put_layout};
use model::{Flushed, Held, Opened, Refusal, Says, Step};

// The bits of what a step says.
const ACKNOWLEDGED: u64 = 1;

const FILLING: u64 = 2;

// What a call says: the number that it answers, and the five numbers that go to the answer's buffer.
#[derive(Clone, Copy)]
pub struct Reply {
    number: u32,
    answer: [u64; 5],
}

// The reply of a call that was refused, with two numbers more.
fn refused(r: Refusal, fourth: u64, fifth: u64) -> Reply
    ensures { result ≡ with_counts (refused_reply (refusal_of r)) fourth fifth }
{
    let (count, first, second) = match r {
        Refusal::Malformed
        | Refusal::Parameter
        | Refusal::Superblock
        | Refusal::Invalid
        | Refusal::Range
        | Refusal::Full
        | Refusal::NotNow
        | Refusal::Exhausted => (0, 0, 0),
        Refusal::Short(n)
        | Refusal::StagedRange(n)
        | Refusal::TagMismatch(n)
        | Refusal::Misplaced(n) => (1, n, 0),
        Refusal::JournalRange(section, entry) | Refusal::JournalTagMismatch(section, entry) => {
            (2, section, entry)
        }
    };
    Reply {
        number: u32::from(r),
        answer: [count, first as u64, second as u64, fourth, fifth],
    }
}

// The reply to what a call answers that gives one number.
fn number_reply(a: Result<u64, Refusal>) -> Reply
    ensures { result ≡ number_reply (answer_by (λ n. n) a) }
{
    match a {
        Ok(n) => Reply {
            number: done(),
            answer: [n, 0, 0, 0, 0],
        },
        Err(r) => refused(r, 0, 0),
    }
}

// The reply to what format, write, read or verify answers.
pub fn plain_reply(a: Result<(), Refusal>) -> Reply
    ensures { result ≡ plain_reply (plain_answer a) }
{
    number_reply(a.map(|()| 0))
}

// The reply to what flush answers.
pub fn flush_reply(a: Result<Flushed, Refusal>) -> Reply
    ensures { result ≡ flush_reply (flush_answer a) }
{
    number_reply(a.map(|x| u64::from(matches!(x, Flushed::Acknowledged))))
}

// The reply to what open answers.
pub fn open_reply(a: Result<Opened, Refusal>) -> Reply
    ensures { result ≡ open_reply (open_answer a) }
{
    number_reply(a.map(|x| x.stores as u64))
}

// The reply to what query answers.
pub fn query_reply(a: Result<Held, Refusal>) -> Reply
    ensures { result ≡ query_reply (query_answer a) }
{
    number_reply(a.map(|x| x.staging as u64))
}

// What a step says, as bits.
fn says(x: Says) -> u64
    ensures { result ≡ says_of x }
{
    match x {
        Says::Nothing => 0,
        Says::Acknowledged => ACKNOWLEDGED,
        Says::Filling => FILLING,
    }
}

// The reply to what a step answers, with two numbers more, which a refusal has too.
pub fn step_reply(a: Result<Step, Refusal>, fourth: u64, fifth: u64) -> Reply
    ensures { result ≡ step_reply (step_answer a) fourth fifth }
{
    match a {
        Ok(x) => Reply {
            number: done(),
            answer: [
                u64::from(x.stored.is_some()),
                x.stored.map_or(0, |sector| sector as u64),
                says(x.says),
                fourth,
                fifth,
            ],
        },
        Err(r) => refused(r, fourth, fifth),
    }
}

// A reply's numbers written over an answer's buffer; gives the number that the call answers.
pub fn put_reply(r: Reply, answer: &mut [u8]) -> u32
    requires { length answer.old ≡ answer_size }
    ensures { (result ≡ r.number) × (answer.new ≡ answer_bytes_of r) }
{
    put_numbers(answer, 0, &r.answer);
    r.number
}

// The state that open gives written over a buffer; a refusal leaves the buffer as it was.
pub fn put_opened(a: Result<Opened, Refusal>, buffer: &mut [u8])
    requires { length buffer.old ≡ volume_state_size }
    ensures { buffer.new ≡ opened_bytes (open_answer a) buffer.old }
{
    if let Ok(x) = a {
        encode(x.state, buffer);
    }
}

// The layout that query gives written over a buffer; a refusal leaves the buffer as it was.
pub fn put_held(a: Result<Held, Refusal>, buffer: &mut [u8])
    requires { length buffer.old ≡ layout_size }
    ensures { buffer.new ≡ held_bytes (query_answer a) buffer.old }
{
    if let Ok(x) = a {
        put_layout(x.layout, buffer);
    }
}
