#![tactic(auto)]
// Opening, the event call and the ending for other languages: numbers and byte slices in, one number out. They are lent W (`states`), and the
// first two Q (`votes`), N (`network`), I (`inboxes`) and the summary too, of any content and length.
//
//     paxos_commit_open       the five tables zeroed
//     paxos_commit_step       the event call of all nine kinds
//     paxos_commit_ending     how the order stands: open, committed or aborted
//
// What the numbers mean stands in specs/Code.antt and in the crate host_code.
// The counts and the order number come one by one, as hosts/c/paxos_commit.h declares them.
ghost use Rattle.std.specs.Prelude.{◌≡◌};
ghost use Rattle.message.specs.Outcome.{outcome};
ghost use Rattle.record.specs.Record.{tables_of, record_open, record_step};
ghost use Rattle.host_code.specs.Code.{plan_of};
ghost use Rattle.host_record.specs.Code.{host_opening, host_opening_of, host_event, host_event_of, ending_number, ending_outcome, ending_code};

use ending::Ending;
use message::{Plan, Refusal};

// Opens a record: 0, and every byte of the five tables 0. Refused: 1, 2 or 20, and no byte changes.
#[unsafe(no_mangle)]
pub extern "C" fn paxos_commit_open(
    rms: u8,
    acceptors: u8,
    leaders: u8,
    order: u16,
    states: &mut [u8],
    votes: &mut [u8],
    network: &mut [u8],
    inboxes: &mut [u8],
    summary: &mut [u8],
) -> u8
    ensures { host_opening result (tables_of states.new votes.new network.new inboxes.new summary.new) ≡
        host_opening_of (record_open (plan_of rms acceptors leaders order)
        (tables_of states.old votes.old network.old inboxes.old summary.old)) }
{
    let plan = Plan {
        rms,
        acceptors,
        leaders,
        order,
    };
    message::number_of(opening::open(plan, states, votes, network, inboxes, summary))
}

// The event call. Accepted: the slot of N where the sent message stands, or 65535 for quiet (kinds 2 and 4). Refused: 65536 and the
// number, 1 to 6, 20, or 7 to 14, the first of them in this order; then no byte changes.
#[unsafe(no_mangle)]
pub extern "C" fn paxos_commit_step(
    rms: u8,
    acceptors: u8,
    leaders: u8,
    order: u16,
    states: &mut [u8],
    votes: &mut [u8],
    network: &mut [u8],
    inboxes: &mut [u8],
    summary: &mut [u8],
    event: &[u8],
) -> u32
    ensures { host_event result (tables_of states.new votes.new network.new inboxes.new summary.new) ≡
        host_event_of (record_step (plan_of rms acceptors leaders order)
        (tables_of states.old votes.old network.old inboxes.old summary.old) event.now) }
{
    let plan = Plan {
        rms,
        acceptors,
        leaders,
        order,
    };
    host_code::answer_code(record::step(plan, states, votes, network, inboxes, summary, event))
}

// The number of how an order stands: the C interface's.
fn ending_number(ending: Ending) -> u32
    ensures { result ≡ ending_number ending }
{
    match ending {
        Ending::Open => 0,
        Ending::Committed => 1,
        Ending::Aborted => 2,
    }
}

// How the order stands whose W is lent.
fn ending_of(plan: Plan, states: &[u8]) -> Result<Ending, Refusal>
    ensures { outcome result ≡ ending_outcome plan states.now }
{
    if !message::is_plan(plan) {
        return Err(Refusal::Plan);
    }
    if states.len() != plan.rms as usize {
        return Err(Refusal::Length);
    }
    if !rm::are_states(states) {
        return Err(Refusal::State);
    }
    Ok(ending::ending_of(states))
}

// How the order stands whose W is lent: 0 open, 1 committed (every weight is), 2 aborted (every weight is). Refused: 65536 and the number,
// which is 1, 2 (W not n bytes) or 3 (a byte of W above 3).
#[unsafe(no_mangle)]
pub extern "C" fn paxos_commit_ending(
    rms: u8,
    acceptors: u8,
    leaders: u8,
    order: u16,
    states: &[u8],
) -> u32
    ensures { result ≡ ending_code (ending_outcome (plan_of rms acceptors leaders order) states.now) }
{
    let plan = Plan {
        rms,
        acceptors,
        leaders,
        order,
    };
    match ending_of(plan, states) {
        Ok(ending) => ending_number(ending),
        Err(refusal) => 65536 + refusal.number() as u32,
    }
}
