// Link health (2026-08): the entries over a lent state, which holds the last 64 reports in a ring, the place of the next one, and the two
// running totals, so that a report takes a fixed number of steps. specs/Health.antt has the layout, and what each entry gives for any
// bytes; that the totals of a history are a fresh count is `health_totals` of proofs/Totals.antt.
#![tactic(auto, unfolding(crate::specs::Health::health_reset_of, crate::specs::Health::health_report_of, crate::specs::Health::health_refused_of, crate::specs::Health::health_changed_of, crate::specs::Health::state_conditions, crate::specs::Health::reported, document::specs::Answer::first_of, document::specs::Answer::settle_in))]

ghost use Rattle.std.specs.Prelude.{◌≡◌, ◌<◌, ◌≤◌, length};
ghost use Rattle.document.specs.Answer.{replied_as};
ghost use Rattle.link.specs.History.{refused_by, changed_by};
ghost use Rattle.link.specs.Health.{changed_total, stored, health_reset_of, health_report_of, health_refused_of, health_changed_of};

use document::types::Refusal;

// How many bytes a state has. It is bytes and no struct: the caller lends them, and health_report_of speaks of whatever bytes are lent.
const STATE_BYTES: usize = 68;

// A report is a byte, as a block's verdict is, 255 for a refused word: health_report_of takes any byte.

// How many refused words a report counts as.
#[tactic(auto, unfolding(crate::specs::History::refused_by))]
fn refused_by(report: u8) -> u32
    ensures counts { result ≡ refused_by report }
    ensures most { result ≤ 1 }
{
    u32::from(report == 255)
}

// How many changed places a report counts as.
#[tactic(auto, unfolding(crate::specs::History::changed_by))]
fn changed_by(report: u8) -> u32
    ensures counts { result ≡ changed_by report }
    ensures most { result ≤ 254 }
{
    if report == 255 { 0 } else { u32::from(report) }
}

// The running total of changed places.
#[tactic(auto, unfolding(crate::specs::Health::changed_total))]
fn changed_total(state: &[u8]) -> u16
    requires { length state.now ≡ 68 }
    ensures { result ≡ changed_total state.now }
{
    u16::from_le_bytes([state[66], state[67]])
}

// A report at its place of the ring, the next place, and the totals.
#[tactic(auto, unfolding(crate::specs::Health::stored))]
fn store(state: &mut [u8], i: usize, report: u8, refused: u32, changed: u32)
    requires { (length state.old ≡ 68) × (i < 64) }
    ensures { state.new ≡ stored state.old i report refused changed }
{
    state[i] = report;
    state[64] = (i + 1) as u8;
    state[65] = (refused % 256) as u8;
    let [low, high, ..] = changed.to_le_bytes();
    state[66] = low;
    state[67] = high;
}

// The history begins again, empty.
pub fn reset(state: &mut [u8]) -> Result<usize, Refusal>
    ensures { (replied_as result, state.new) ≡ health_reset_of state.old }
{
    if state.len() != STATE_BYTES {
        return Err(Refusal::BufferLength);
    }
    state.fill(0);
    Ok(0)
}

// One report more: a word's changed places, or 255 where decoding refused it with 13.
pub fn report(state: &mut [u8], report: u8) -> Result<usize, Refusal>
    ensures { (replied_as result, state.new) ≡ health_report_of state.old report }
{
    if state.len() != STATE_BYTES {
        return Err(Refusal::BufferLength);
    }
    let i = usize::from(state[64] % 64);
    let oldest = state[i];
    // A difference below 0, taken as 0, is only in a state that no calls made.
    let refused = (u32::from(state[65]) + refused_by(report)).saturating_sub(refused_by(oldest));
    let changed = (u32::from(changed_total(state)) + changed_by(report)).saturating_sub(changed_by(
        oldest,
    ));
    store(state, i, report, refused, changed);
    Ok(0)
}

// How many of the last 64 were refused.
pub fn refused(state: &[u8]) -> Result<usize, Refusal>
    ensures { replied_as result ≡ health_refused_of state.now }
{
    if state.len() != STATE_BYTES {
        return Err(Refusal::BufferLength);
    }
    Ok(usize::from(state[65]))
}

// How many places were changed in the others of the last 64.
pub fn changed(state: &[u8]) -> Result<usize, Refusal>
    ensures { replied_as result ≡ health_changed_of state.now }
{
    if state.len() != STATE_BYTES {
        return Err(Refusal::BufferLength);
    }
    Ok(usize::from(changed_total(state)))
}
