#![tactic(auto)]
// The order record: the event call of all nine kinds (document 01, "The plan and four tables" and "Refusals by place"; document 02, Paper 5).
// Opening a record is the crate `opening`, judging one the crate `judging`, what an event comes to on it the crate `verdict`. Message bytes
// are below the roles' steps, and these below `verdict`, which sees only what each role promises.
//
//     store_in_inbox   stores in a leader's inbox, a part of I
//     update_table     changes W, Q or the leader's inbox
//     apply            stores what a verdict accepts, and answers
//     mark_part        marks a leader's bytes of the summary, a part of it as its inbox is of I
//     perform          the step of the event's role: `verdict::evaluate`, then `apply`, then the mark; it judges the event but no table
//     judge_lent       rows 1 to 6, then 20: `judging::judge`, then the summary
//     step             the event call: `judge_lent`, then `perform`
//
// Each is lent what it changes of W (`states`), Q (`votes`), N (`network`), I (`inboxes`) and the summary, of any content and length; they stay five
// slices, as `opening::Lent` says.
ghost use Rattle.std.specs.Prelude.{List, ◌≡◌, ℕ, ◌<◌};
ghost use Rattle.message.specs.Outcome.{outcome};
ghost use Rattle.slots.specs.View.Bytes.{view_bytes};
ghost use Rattle.opening.specs.Opening.{lent};
ghost use Rattle.summary.specs.Summary.{marked_at, decided_bytes};
ghost use Rattle.record.specs.Record.{tables_of, inbox_of, with_inbox, lent_judged, record_step_of, record_step};
ghost use Rattle.record.specs.Record.Applied.{kept_inbox, changed, applied_to, record_applied};

use change::{Change, Sent, Update};
use event::Kind;
use message::{Plan, Refusal};
use opening::Lent;
use slots::Put;

// Stores in a leader's inbox, a part of I; there is none past the last leader.
fn store_in_inbox(plan: Plan, inboxes: &mut [u8], leader: u8, put: Option<Put>)
    ensures { inboxes.new ≡ kept_inbox plan inboxes.old leader put }
{
    if plan.leaders <= leader {
        return;
    }
    let size = inboxes.len() / plan.leaders as usize;
    let from = leader as usize * size;
    let to = from + size;
    let inbox = &mut inboxes[from..to];
    slots::apply_store(plan, inbox, put);
}

// Changes the table that the update is for: W, Q or the leader's inbox.
fn update_table(
    plan: Plan,
    states: &mut [u8],
    votes: &mut [u8],
    inboxes: &mut [u8],
    leader: u8,
    update: Update,
)
    ensures { (n s : List ℕ) → tables_of states.new votes.new n inboxes.new s ≡
        changed plan leader (tables_of states.old votes.old n inboxes.old s) update n }
{
    match update {
        Update::State { who, state } => slots::set_byte(states, who, state),
        Update::Vote { at, mbal, bal, val } => change::set_vote(votes, at, mbal, bal, val),
        Update::Inbox(put) => store_in_inbox(plan, inboxes, leader, put),
    }
}

// Stores what a verdict accepts and answers, whatever the summary; a refusal changes no byte. One call for all roles, so that the compiler
// puts it in its place.
fn apply(
    plan: Plan,
    states: &mut [u8],
    votes: &mut [u8],
    network: &mut [u8],
    inboxes: &mut [u8],
    leader: u8,
    verdict: Result<Change, Refusal>,
) -> Result<Sent, Refusal>
    ensures { (s : List ℕ) → record_step_of result (tables_of states.new votes.new network.new inboxes.new s) ≡
        applied_to plan leader (tables_of states.old votes.old network.old inboxes.old s) (outcome verdict) }
{
    let change = verdict?;
    update_table(plan, states, votes, inboxes, leader, change.table);
    slots::apply_store(plan, network, change.network);
    Ok(change.sent)
}

// What the slot of N holds was received by the leader: its bytes of the summary are marked by its inbox.
fn mark_part(
    plan: Plan,
    network: &[u8],
    inboxes: &[u8],
    summary: &mut [u8],
    leader: u8,
    slot: usize,
)
    requires { leader < plan.leaders }
    ensures { summary.new ≡ with_inbox plan summary.old leader
        (marked_at (decided_bytes plan (inbox_of plan inboxes.now leader))
        (inbox_of plan summary.old leader) ((view_bytes plan network.now).slot slot)) }
{
    let size = inboxes.len() / plan.leaders as usize;
    let from = leader as usize * size;
    let to = from + size;
    let inbox = &inboxes[from..to];
    let count = summary::part_size(plan, summary.len());
    let start = leader as usize * count;
    let end = start + count;
    let own = &mut summary[start..end];
    summary::mark(plan, inbox, own, network, slot);
}

// The step of the event's role: 7 where it is no event, and then what the role refuses. A refusal changes no byte. It judges no table: on a
// record that was judged, with its summary, it is the event call.
pub fn perform(
    plan: Plan,
    states: &mut [u8],
    votes: &mut [u8],
    network: &mut [u8],
    inboxes: &mut [u8],
    summary: &mut [u8],
    event: &[u8],
) -> Result<Sent, Refusal>
    ensures { record_step_of result (tables_of states.new votes.new network.new inboxes.new summary.new) ≡
        record_applied plan (tables_of states.old votes.old network.old inboxes.old summary.old) event.now }
{
    let tables = Lent {
        states,
        votes,
        network,
        inboxes,
        summary,
    };
    let verdict = verdict::evaluate(plan, tables, event);
    let leader = message::byte_at(event, 1);
    let sent = apply(plan, states, votes, network, inboxes, leader, verdict)?;
    if message::byte_at(event, 0) == Kind::Receipt as u8 {
        let slot = event::slot_number(event);
        mark_part(plan, network, inboxes, summary, leader, slot);
    }
    Ok(sent)
}

// What the event call judges of all that is lent: what `judging::judge` refuses, then 20 for the summary.
fn judge_lent(plan: Plan, tables: Lent) -> Result<(), Refusal>
    ensures { outcome result ≡ lent_judged plan (lent tables.entry) }
{
    judging::judge(plan, tables)?;
    if !summary::is_summary(tables.summary, plan.rms as usize * plan.leaders as usize) {
        return Err(Refusal::Summary);
    }
    Ok(())
}

// The event call: what `judge_lent` refuses, and then as `perform`; a refusal changes no byte.
pub fn step(
    plan: Plan,
    states: &mut [u8],
    votes: &mut [u8],
    network: &mut [u8],
    inboxes: &mut [u8],
    summary: &mut [u8],
    event: &[u8],
) -> Result<Sent, Refusal>
    ensures { record_step_of result (tables_of states.new votes.new network.new inboxes.new summary.new) ≡
        record_step plan (tables_of states.old votes.old network.old inboxes.old summary.old) event.now }
{
    let tables = Lent {
        states,
        votes,
        network,
        inboxes,
        summary,
    };
    // Not by `?`, which names no refusal: so an edit of the refusal alone is refused by the contract, and by nothing else.
    if let Err(refusal) = judge_lent(plan, tables) {
        return Err(refusal);
    }
    perform(plan, states, votes, network, inboxes, summary, event)
}
