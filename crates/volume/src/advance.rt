// Advance: so many steps, one after the other; the model's specs/Advance.antt. A recovery scans the journal once for all of its steps, and goes from
// each store straight to the next.
ghost use Rattle.std.specs.Prelude.{true, false, List, ◌≡◌, ℕ, ◌+◌, ◌-◌, ◌^◌, ◌≤◌, ◌<◌};
ghost use Rattle.model.specs.State.{staging_ok};
ghost use Rattle.model.specs.Refusal.{step_answer};
ghost use Rattle.model.specs.Advance.{done_in, advance_from, advance_of};
ghost use Rattle.volume.specs.Results.{advanced, step_added, Scanned};

use journal::journal as sections;
use layout::{MOST_SECTIONS, SECTOR_SIZE};
use model::{Advanced, Phase, Refusal, Says, State, Step};
use sound::state;
use volume_step::{recovery, step, store};

// How many steps did something, of one step: one, or none.
fn done_in(a: Result<Step, Refusal>) -> usize
    ensures { (result ≡ done_in (step_answer a)) × (result ≤ 1) }
{
    usize::from(matches!(
        a,
        Ok(Step {
            stored: Some(_),
            ..
        })
    ))
}

// What was done before, and one step more.
fn one_more(last: Advanced, answer: Result<Step, Refusal>) -> Advanced
    requires { last.done < 2 ^ 64 - 1 }
    ensures { result ≡ step_added last answer }
{
    Advanced {
        answer,
        done: last.done + done_in(answer),
        acknowledged: model::acknowledges(answer) || last.acknowledged,
    }
}

// n steps more. Once a step does nothing, every further one is the same, and is not made.
fn steps(
    before: Advanced,
    s: &mut State,
    v: &mut [u8],
    st: &mut [u8],
    n: usize,
    content: &mut [u8; SECTOR_SIZE],
) -> Advanced
    requires { before.done + n < 2 ^ 64 }
    ensures { advanced result s.new v.new st.new ≡ advance_from n (advanced before s.old v.old st.old) }
{
    let mut last = before;
    for _ in 0..n {
        let answer = step::step_through(s, v, st, content);
        last = one_more(last, answer);
        if done_in(answer) == 0 {
            return last;
        }
    }
    last
}

// The steps of a recovery on a journal that has been scanned, from its store k on: at most n, and none that is refused. Between two of them nothing is
// kept but the store that comes next and the sector that was stored last; the state is set behind the last.
fn replay_from(
    before: Advanced,
    s: &mut State,
    v: &mut [u8],
    ids: &[u64; MOST_SECTIONS],
    k: usize,
    n: usize,
    content: &mut [u8; SECTOR_SIZE],
) -> Advanced
    requires { Scanned before s.old k v.old ids.now }
    ensures { ((st : List ℕ) → staging_ok s.old.layout st ≡ true
        → advanced result s.new v.new st ≡ advance_from result.done (advanced before s.old v.old st)) × (result.done ≤ n) }
{
    let g = s.layout;
    let mut x = sections::locate(ids, v, g, k);
    let mut at = 0;
    let mut made = 0;
    for _ in 0..n {
        if x.section == g.sections {
            break;
        }
        let sector = recovery::sector_of(v, g, x);
        if g.provided as u64 <= sector {
            break;
        }
        let p = recovery::replayed_part(v, g, x, sector as usize, content);
        let next = sections::next_location(ids, v, g, x);
        store::put_part(v, p.byte, content, p.size);
        at = p.byte / SECTOR_SIZE;
        x = next;
        made += 1;
    }
    if made == 0 {
        return before;
    }
    let more = x.section < g.sections;
    Advanced {
        answer: Ok(recovery::replayed(s, at, k + made, more)),
        done: made,
        ..before
    }
}

// The same on a journal that is yet to be scanned.
fn recover(
    before: Advanced,
    s: &mut State,
    v: &mut [u8],
    st: &[u8],
    k: usize,
    n: usize,
    content: &mut [u8; SECTOR_SIZE],
) -> Advanced
    requires { (before.done ≡ 0) × (s.old.phase ≡ Phase.Recovering k) }
    ensures { (advanced result s.new v.new st.now ≡ advance_from result.done (advanced before s.old v.old st.now))
        × (result.done ≤ n) }
{
    if !state::state_ok(*s) {
        return before;
    }
    let g = s.layout;
    if !state::layout_fits(g, v) {
        return before;
    }
    if !state::staging_ok(g, st) {
        return before;
    }
    let mut ids = [0u64; MOST_SECTIONS];
    sections::scan(v, g, &mut ids);
    replay_from(before, s, v, &ids, k, n, content)
}

// Makes n steps.
pub fn advance(s: &mut State, v: &mut [u8], st: &mut [u8], n: usize) -> Advanced
    ensures { advanced result s.new v.new st.new ≡ advance_of n s.old v.old st.old }
{
    let before = Advanced {
        answer: Ok(Step {
            stored: None,
            says: Says::Nothing,
        }),
        done: 0,
        acknowledged: false,
    };
    let mut content = [0u8; SECTOR_SIZE];
    match s.phase {
        Phase::Filling | Phase::Committing(_) | Phase::WritingBack(_, _) => {
            steps(before, s, v, st, n, &mut content)
        }
        Phase::Recovering(k) => {
            let last = recover(before, s, v, st, k, n, &mut content);
            steps(last, s, v, st, n - last.done, &mut content)
        }
    }
}
