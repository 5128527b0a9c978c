#![tactic(auto)]
// The input of a rehearsal (document 01, "The rehearsal"), for the rehearsal and for the same in words.
//
//     MAX_INPUT                             the bytes of a plan and of 8,192 events
//     plan_in                               the plan that an input begins with, or refusal 1
//     events_in, event_count, event_at      the events after it: their bytes, how many there are, and one of them
//
// What they mean stands in specs/. No public function has a `requires`.
ghost use Rattle.std.specs.Prelude.{◌≡◌};
ghost use Rattle.message.specs.Outcome.{outcome};
ghost use Rattle.rehearsal_input.specs.Input.{plan_in, events_in, event_count, event_at};

use message::{Plan, Refusal};

// The three counts of a plan, and the order number, high byte first.
const PLAN_SIZE: usize = 5;

// A plan and 8,192 events of four bytes; what follows is ignored.
pub const MAX_INPUT: usize = 32773;

// The plan from the first five bytes: 1 where there are fewer, or where a count is out of range.
pub fn plan_in(input: &[u8]) -> Result<Plan, Refusal>
    ensures { outcome result ≡ plan_in input.now }
{
    let [rms, acceptors, leaders, high, low, ..] = *input else {
        return Err(Refusal::Plan);
    };
    let plan = Plan {
        rms,
        acceptors,
        leaders,
        order: message::order_of(high, low),
    };
    if !message::is_plan(plan) {
        return Err(Refusal::Plan);
    }
    Ok(plan)
}

// The bytes after the plan, of at most 8,192 events.
pub fn events_in(input: &[u8]) -> &[u8]
    ensures { result.now ≡ events_in input.now }
{
    let end = input.len().min(MAX_INPUT);
    let from = PLAN_SIZE.min(end);
    &input[from..end]
}

// How many events the bytes are: one for every four, and one for what is left.
pub fn event_count(events: &[u8]) -> usize
    ensures { result ≡ event_count events.now }
{
    events.len().div_ceil(4)
}

// The k-th event, from 0 on: four bytes, fewer where it is cut, none past the last.
pub fn event_at(events: &[u8], k: usize) -> &[u8]
    ensures { result.now ≡ event_at events.now k }
{
    // `chunks(4).nth(k)` would pass over the events before, at each call.
    let from = k.saturating_mul(4).min(events.len());
    let rest = &events[from..];
    let size = rest.len().min(4);
    &rest[..size]
}
