#![tactic(auto)]
// The step of a leader, kinds 4 to 8, as a call by itself, on tables that nobody has judged. It is lent one inbox, its bytes of the
// summary and N.
//
//     judge      the plan and both tables: rows 1, 2, 5 and 6 of "Refusals by place"
//     step       the whole call: `judge`, the summary, and then `leader::perform`
ghost use Rattle.std.specs.Prelude.{◌≡◌};
ghost use Rattle.message.specs.Outcome.{outcome};
ghost use Rattle.leader.specs.Leader.{leader_judged, leader_step_of, leader_step};

use change::Sent;
use message::{Plan, Refusal};

// The plan, the lengths, N and the inbox: 1, 2, 5 or 6.
#[tactic(auto, unfolding(leader::specs::Leader::leader_judged, message::specs::Outcome::refuse_if))]
fn judge(plan: Plan, inbox: &[u8], network: &[u8]) -> Result<(), Refusal>
    ensures { outcome result ≡ leader_judged plan inbox.now network.now }
{
    if !message::is_plan(plan) {
        return Err(Refusal::Plan);
    }
    if !slots::is_table_length(inbox.len()) {
        return Err(Refusal::Length);
    }
    if !slots::is_table_length(network.len()) {
        return Err(Refusal::Length);
    }
    tables::judge(plan, network, 1, inbox)
}

// The step: what `judge` refuses, then 20 for the summary, and then as `leader::perform`; a refusal changes no byte.
pub fn step(
    plan: Plan,
    inbox: &mut [u8],
    summary: &mut [u8],
    network: &mut [u8],
    event: &[u8],
) -> Result<Sent, Refusal>
    ensures { leader_step_of result inbox.new summary.new network.new ≡
        leader_step plan inbox.old summary.old network.old event.now }
{
    // Not by `?`, which names no refusal: so an edit of the refusal alone is refused by the contract, and by nothing else.
    if let Err(refusal) = judge(plan, inbox, network) {
        return Err(refusal);
    }
    if !summary::is_summary(summary, plan.rms as usize) {
        return Err(Refusal::Summary);
    }
    leader::perform(plan, inbox, summary, network, event)
}
