#![tactic(auto)]
// Phase2a, kind 6 of a leader (documents 001 and 01), on tables that were judged: the 2a that the messages of its inbox allow, sent to N and
// kept in the inbox; and which ballots a leader owns.
//
//     owns_ballot                      row 10
//     phase2a_message, proposal_of     the 2a, and the value that it proposes
//     send_both, keep_own              its sending: both tables, then the inbox
//     propose                          what an event of kind 6 comes to
ghost use Rattle.std.specs.Prelude.{true, not, ◌&&◌, ◌≡◌, leb};
ghost use Rattle.message.specs.Outcome.{refuse_if, outcome};
ghost use Rattle.message.specs.Plan.{is_plan};
ghost use Rattle.slots.specs.View.Bytes.{view_bytes};
ghost use Rattle.inbox.specs.Inbox.{proposal};
ghost use Rattle.phase2a.specs.Phase2a.{owns, keep_own, send_both, phase2a};
ghost use Rattle.phase2a.specs.Phase2a.Own.{Next, Proposes};

use change::{Change, Sent, Update};
use message::{Message, Plan, Refusal, SLOT_SIZE, Vote};
use slots::{Put, Sending};

// Whether the leader owns the ballot; where it does not, 10. In a plan without leaders nobody does.
pub fn owns_ballot(plan: Plan, who: u8, ballot: u8) -> bool
    ensures { result ≡ (leb 1 plan.leaders && owns plan who ballot) }
{
    if plan.leaders < 1 {
        return false;
    }
    if ballot < 1 {
        return false;
    }
    if (ballot - 1) % plan.leaders != who {
        return false;
    }
    true
}

// The value to propose: that of the highest report, or 2 where none reports a vote.
fn proposal_of(vote: Option<Vote>) -> u8
    ensures { result ≡ proposal vote }
{
    match vote {
        None => 2,
        Some(vote) => vote.val,
    }
}

// The 2a that Phase2a sends, at its place after the messages of the inbox: 10 where the ballot is not owned, 12 where the inbox has a 2a of
// it or no majority of 1b messages.
fn phase2a_message(
    plan: Plan,
    inbox: &[u8],
    who: u8,
    instance: u8,
    ballot: u8,
) -> Result<Put, Refusal>
    requires { is_plan plan ≡ true }
    ensures { Proposes plan (view_bytes plan inbox.now).messages who instance ballot (outcome result) }
{
    if !owns_ballot(plan, who, ballot) {
        return Err(Refusal::Ballot);
    }
    let reports = inbox::gather_reports(plan, inbox, instance, ballot);
    if reports.proposed {
        return Err(Refusal::NotEnabled);
    }
    if !reports.quorum {
        return Err(Refusal::NotEnabled);
    }
    Ok(Put {
        place: reports.count,
        m: Message::Phase2a {
            ins: instance,
            bal: ballot,
            val: proposal_of(reports.vote),
        },
    })
}

// The 2a is sent, and stored in its place in the inbox: 13 without room in N, then 14 without room in the inbox.
fn send_both(plan: Plan, inbox: &[u8], network: &[u8], own: Put) -> Result<Change, Refusal>
    requires { Next (view_bytes plan inbox.now).messages own.m own.place }
    ensures { outcome result ≡ send_both (view_bytes plan inbox.now) (view_bytes plan network.now) own.m }
{
    let sending = search::send_message(plan, network, own.m).ok_or(Refusal::NetworkFull)?;
    keep_own(plan, inbox, own, sending)
}

// The own 2a after the messages of the inbox; 14 where no slot is left.
fn keep_own(plan: Plan, inbox: &[u8], own: Put, sending: Sending) -> Result<Change, Refusal>
    requires { Next (view_bytes plan inbox.now).messages own.m own.place }
    ensures { outcome result ≡ keep_own (view_bytes plan inbox.now) own.m sending.slot sending.put }
{
    if inbox.len() / SLOT_SIZE <= own.place {
        return Err(Refusal::InboxFull);
    }
    Ok(Change {
        table: Update::Inbox(Some(own)),
        network: sending.put,
        sent: Sent::Slot(sending.slot),
    })
}

// What an event of kind 6 comes to, the 2a and then its sending: 1 for the plan, then 10, 12, 13 or 14. It judges no table.
pub fn propose(
    plan: Plan,
    inbox: &[u8],
    network: &[u8],
    who: u8,
    instance: u8,
    ballot: u8,
) -> Result<Change, Refusal>
    ensures { outcome result ≡
        refuse_if (not (is_plan plan)) 1 (phase2a plan (view_bytes plan inbox.now) (view_bytes plan network.now) who instance ballot) }
{
    if !message::is_plan(plan) {
        return Err(Refusal::Plan);
    }
    let own = phase2a_message(plan, inbox, who, instance, ballot)?;
    send_both(plan, inbox, network, own)
}
