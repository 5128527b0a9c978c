#![tactic(auto)]
// The step of an acceptor, kind 3, as a call by itself, on tables that nobody has judged. It is lent Q and N.
//
//     judge      the plan and both tables: rows 1, 2, 4 and 5 of "Refusals by place"
//     step       the whole call: `judge`, and then `acceptor::perform`
ghost use Rattle.std.specs.Prelude.{◌≡◌};
ghost use Rattle.message.specs.Outcome.{outcome};
ghost use Rattle.change.specs.Change.{step_of};
ghost use Rattle.acceptor.specs.Acceptor.{acceptor_judged, acceptor_step};

use change::Sent;
use message::{Plan, Refusal};

// The plan, the lengths, Q and N: 1, 2, 4 or 5.
#[tactic(auto, using(message::proofs::PlanLaws::bytes_bound), unfolding(acceptor::specs::Acceptor::acceptor_judged, message::specs::Outcome::refuse_if))]
fn judge(plan: Plan, votes: &[u8], network: &[u8]) -> Result<(), Refusal>
    ensures { outcome result ≡ acceptor_judged plan votes.now network.now }
{
    if !message::is_plan(plan) {
        return Err(Refusal::Plan);
    }
    if votes.len() != 3 * ((plan.rms as usize) * (plan.acceptors as usize)) {
        return Err(Refusal::Length);
    }
    if !slots::is_table_length(network.len()) {
        return Err(Refusal::Length);
    }
    if !votes::are_votes(votes) {
        return Err(Refusal::Vote);
    }
    if !tables::is_table(plan, network) {
        return Err(Refusal::Network);
    }
    Ok(())
}

// The step: what `judge` refuses, and then as `acceptor::perform`; a refusal changes no byte.
#[tactic(auto, using(acceptor::proofs::Judging::step_sound), unfolding(acceptor::specs::Acceptor::acceptor_step, message::specs::Outcome::and_then))]
pub fn step(plan: Plan, votes: &mut [u8], network: &mut [u8], event: &[u8]) -> Result<Sent, Refusal>
    ensures { step_of result votes.new network.new ≡
        acceptor_step plan votes.old network.old event.now }
{
    judge(plan, votes, network)?;
    acceptor::perform(plan, votes, network, event)
}
