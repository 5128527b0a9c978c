#![tactic(auto)]
// The step of a leader, kinds 4 to 8, on tables that were judged: receipt, and Phase1a, Phase2a and Decide of document 001. It is lent
// one inbox, N and its bytes of the summary; it reads Decided from the summary alone, and Phase2a's conditions from the inbox alone (the crate
// phase2a). The call by itself, which judges the tables first, is the crate leader_call.
//
//     evaluate, perform      what an event comes to, and that stored (see the crate change) and marked (see the crate summary)
ghost use Rattle.std.specs.Prelude.{true, ◌≡◌};
ghost use Rattle.message.specs.Outcome.{accepted, and_then, outcome};
ghost use Rattle.message.specs.Plan.{is_plan};
ghost use Rattle.slots.specs.View.Bytes.{view_bytes};
ghost use Rattle.change.specs.Change.{applied};
ghost use Rattle.change.specs.declared.Sent.{Sent};
ghost use Rattle.summary.specs.Summary.{decided_bytes};
ghost use Rattle.leader.specs.Leader.{receipt_store, receipt, send_only, phase1a, decide_send, leader_verdict_by};
ghost use Rattle.leader.specs.Leader.{stands, summary_after, leader_step_of, leader_marked};

use change::{Change, Sent, Update};
use event::Kind;
use message::{Message, Plan, Refusal};
use slots::{Place, Put};

// Kind 4: 14 where the message is not in the inbox and there is no room. Only the place is asked for: the message would be copied with it.
fn receipt_store(plan: Plan, inbox: &[u8], m: Message) -> Result<Change, Refusal>
    ensures { outcome result ≡ receipt_store (view_bytes plan inbox.now) m }
{
    let put = match search::locate_message(plan, inbox, m) {
        Place::At(_) => None,
        Place::Free(place) => Some(Put { place, m }),
        Place::Full => return Err(Refusal::InboxFull),
    };
    Ok(Change {
        table: Update::Inbox(put),
        network: None,
        sent: Sent::Quiet,
    })
}

// Kind 4: 9 where the message is no 1b, no 2b and no 2a at ballot 0.
#[tactic(auto, unfolding(crate::specs::Leader::receipt, message::specs::Outcome::refuse_if))]
fn receipt_of(plan: Plan, inbox: &[u8], m: Message) -> Result<Change, Refusal>
    ensures { outcome result ≡ receipt (view_bytes plan inbox.now) m }
{
    match m {
        Message::Phase1a { .. } => Err(Refusal::Role),
        Message::Phase1b { .. } => receipt_store(plan, inbox, m),
        Message::Phase2a { bal, .. } => {
            if bal != 0 {
                return Err(Refusal::Role);
            }
            receipt_store(plan, inbox, m)
        }
        Message::Phase2b { .. } => receipt_store(plan, inbox, m),
        Message::Decision { .. } => Err(Refusal::Role),
    }
}

// A message sent, with nothing for the inbox: 13 without room in N.
fn send_only(plan: Plan, network: &[u8], m: Message) -> Result<Change, Refusal>
    ensures { outcome result ≡ send_only (view_bytes plan network.now) m }
{
    let sending = search::send_message(plan, network, m).ok_or(Refusal::NetworkFull)?;
    Ok(Change {
        table: Update::Inbox(None),
        network: sending.put,
        sent: Sent::Slot(sending.slot),
    })
}

// Kind 5: 10 where the ballot is not owned.
fn phase1a_of(
    plan: Plan,
    network: &[u8],
    who: u8,
    instance: u8,
    ballot: u8,
) -> Result<Change, Refusal>
    requires { is_plan plan ≡ true }
    ensures { outcome result ≡ phase1a plan (view_bytes plan network.now) who instance ballot }
{
    if !phase2a::owns_ballot(plan, who, ballot) {
        return Err(Refusal::Ballot);
    }
    send_only(
        plan,
        network,
        Message::Phase1a {
            ins: instance,
            bal: ballot,
        },
    )
}

// Kind 4: 8 where the slot has no message.
fn receive(plan: Plan, inbox: &[u8], network: &[u8], slot: usize) -> Result<Change, Refusal>
    ensures { outcome result ≡ and_then ((view_bytes plan network.now).slot slot) (receipt (view_bytes plan inbox.now)) }
{
    let m = slots::message_at(network, slot)?;
    receipt_of(plan, inbox, m)
}

// Kinds 7 and 8: 12 where the decision is not enabled.
fn decide_send(plan: Plan, network: &[u8], enabled: bool, val: u8) -> Result<Change, Refusal>
    ensures { outcome result ≡ decide_send (view_bytes plan network.now) enabled val }
{
    if !enabled {
        return Err(Refusal::NotEnabled);
    }
    send_only(plan, network, Message::Decision { val })
}

// What the event comes to: 1 for the plan, 7 where it is no event of a leader, then 8, 9, 10, 12, 13 or 14. It judges no table: in one that
// nobody judged it takes the slot's bytes for a message.
#[tactic(auto, using(event::proofs::Reading::unread), unfolding(crate::specs::Leader::leader_verdict_by, message::specs::Outcome::refuse_if))]
pub fn evaluate(
    plan: Plan,
    inbox: &[u8],
    summary: &[u8],
    network: &[u8],
    event: &[u8],
) -> Result<Change, Refusal>
    ensures { outcome result ≡
        leader_verdict_by plan (stands summary.now) (view_bytes plan inbox.now) (view_bytes plan network.now) event.now }
{
    if !message::is_plan(plan) {
        return Err(Refusal::Plan);
    }
    let Some(event) = event::read_event(plan, event) else {
        return Err(Refusal::Event);
    };
    match event.kind {
        Kind::Receipt => receive(plan, inbox, network, event.slot()),
        Kind::Phase1a => phase1a_of(plan, network, event.who, event.high, event.low),
        Kind::Phase2a => phase2a::propose(plan, inbox, network, event.who, event.high, event.low),
        Kind::Commit => decide_send(plan, network, summary::all_prepared(plan, summary), 1),
        Kind::Abort => decide_send(plan, network, summary::some_aborted(plan, summary), 2),
        _ => Err(Refusal::Event),
    }
}

// An accepted receipt marks the message that it took; no other event changes the summary.
fn mark_receipt(plan: Plan, inbox: &[u8], summary: &mut [u8], network: &[u8], event: &[u8])
    ensures { (sent : Sent) → summary.new ≡
        summary_after (decided_bytes plan inbox.now) (view_bytes plan network.now) event.now (accepted sent) summary.old }
{
    if message::byte_at(event, 0) == Kind::Receipt as u8 {
        summary::mark(plan, inbox, summary, network, event::slot_number(event));
    }
}

// Evaluates, stores and marks; a refusal changes no byte. It judges no table.
pub fn perform(
    plan: Plan,
    inbox: &mut [u8],
    summary: &mut [u8],
    network: &mut [u8],
    event: &[u8],
) -> Result<Sent, Refusal>
    ensures { leader_step_of result inbox.new summary.new network.new ≡
        leader_marked (decided_bytes plan) (view_bytes plan) summary.old event.now
        (applied plan inbox.old network.old
        (leader_verdict_by plan (stands summary.old) (view_bytes plan inbox.old) (view_bytes plan network.old) event.now)) }
{
    let verdict = evaluate(plan, inbox, summary, network, event);
    let sent = change::apply(plan, inbox, network, verdict)?;
    mark_receipt(plan, inbox, summary, network, event);
    Ok(sent)
}
