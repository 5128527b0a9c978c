#![tactic(auto)]
// The step of an acceptor, kind 3, on tables that were judged: Phase1b and Phase2b of document 001. It is lent Q and N. The call by
// itself, which judges the tables first, is the crate acceptor_call.
//
//     evaluate, perform      what an event comes to, and that stored (see the crate change)
ghost use Rattle.std.specs.Prelude.{◌≡◌};
ghost use Rattle.message.specs.Outcome.{outcome};
ghost use Rattle.slots.specs.View.Bytes.{view_bytes};
ghost use Rattle.change.specs.Change.{step_of, applied};
ghost use Rattle.acceptor.specs.Acceptor.{vote_of, vote_at, phase1b, phase2b, acceptor_receive, acceptor_verdict};

use change::{Change, Sent, Update};
use event::Kind;
use message::{Message, Plan, Refusal, Vote};

// The vote report of a last vote: none where the value is 0.
#[tactic(auto, unfolding(crate::specs::Acceptor::vote_of))]
fn vote_of(bal: u8, val: u8) -> Option<Vote>
    ensures { result ≡ vote_of bal val }
{
    if val == 0 {
        return None;
    }
    Some(Vote { bal, val })
}

// An acceptor, by its number, at its tables, which it reads.
#[derive(Clone, Copy)]
struct Acceptor<'a> {
    plan: Plan,
    votes: &'a [u8],
    network: &'a [u8],
    acc: u8,
}

impl Acceptor<'_> {
    // Where an instance's bytes of the acceptor begin in Q.
    #[tactic(auto, using(message::proofs::PlanLaws::bytes_bound), unfolding(crate::specs::Acceptor::vote_at))]
    fn vote_at(self, ins: u8) -> usize
        ensures { result ≡ vote_at self.entry.plan ins self.entry.acc }
    {
        3 * ((ins as usize) * (self.plan.acceptors as usize) + self.acc as usize)
    }

    // A 1a: 12 unless mbal is below its ballot, 13 without room in N. mbal becomes the ballot, and the old vote is reported.
    #[tactic(auto, using(crate::specs::Acceptor::Laws::vote_at_bound), unfolding(crate::specs::Acceptor::phase1b, message::specs::Outcome::refuse_if, slots::specs::View::sending))]
    fn phase1b(self, ins: u8, ballot: u8) -> Result<Change, Refusal>
        ensures { outcome result ≡
            phase1b self.entry.plan self.entry.votes.now (view_bytes self.entry.plan self.entry.network.now) self.entry.acc ins ballot }
    {
        let at = self.vote_at(ins);
        let mbal = message::byte_at(self.votes, at);
        if ballot <= mbal {
            return Err(Refusal::NotEnabled);
        }
        let bal = message::byte_at(self.votes, at + 1);
        let val = message::byte_at(self.votes, at + 2);
        let report = Message::Phase1b {
            ins,
            acc: self.acc,
            mbal: ballot,
            vote: vote_of(bal, val),
        };
        let sending = search::send_message(self.plan, self.network, report).ok_or(
            Refusal::NetworkFull,
        )?;
        Ok(Change {
            table: Update::Vote {
                at,
                mbal: ballot,
                bal,
                val,
            },
            network: sending.put,
            sent: Sent::Slot(sending.slot),
        })
    }

    // A 2a: 12 where mbal is above its ballot, 13 without room in N. mbal, bal and val become the message's.
    #[tactic(auto, unfolding(crate::specs::Acceptor::phase2b, message::specs::Outcome::refuse_if, slots::specs::View::sending))]
    fn phase2b(self, ins: u8, bal: u8, val: u8) -> Result<Change, Refusal>
        ensures { outcome result ≡
            phase2b self.entry.plan self.entry.votes.now (view_bytes self.entry.plan self.entry.network.now) self.entry.acc ins bal val }
    {
        let at = self.vote_at(ins);
        let mbal = message::byte_at(self.votes, at);
        if bal < mbal {
            return Err(Refusal::NotEnabled);
        }
        let vote = Message::Phase2b {
            ins,
            acc: self.acc,
            bal,
            val,
        };
        let sending = search::send_message(self.plan, self.network, vote).ok_or(
            Refusal::NetworkFull,
        )?;
        Ok(Change {
            table: Update::Vote {
                at,
                mbal: bal,
                bal,
                val,
            },
            network: sending.put,
            sent: Sent::Slot(sending.slot),
        })
    }

    // 9 where the message is neither a 1a nor a 2a.
    #[tactic(auto, unfolding(crate::specs::Acceptor::acceptor_receive))]
    fn receive(self, m: Message) -> Result<Change, Refusal>
        ensures { outcome result ≡
            acceptor_receive self.entry.plan self.entry.votes.now (view_bytes self.entry.plan self.entry.network.now) self.entry.acc m }
    {
        match m {
            Message::Phase1a { ins, bal } => self.phase1b(ins, bal),
            Message::Phase2a { ins, bal, val } => self.phase2b(ins, bal, val),
            _ => Err(Refusal::Role),
        }
    }
}

// What the event comes to: 1 for the plan, 7 where it is no event of an acceptor, then 8, 9, 12 or 13. It judges no table: in
// one that nobody judged it takes the slot's bytes for a message.
#[tactic(auto, using(event::proofs::Reading::unread), unfolding(crate::specs::Acceptor::acceptor_verdict, message::specs::Outcome::refuse_if))]
pub fn evaluate(plan: Plan, votes: &[u8], network: &[u8], event: &[u8]) -> Result<Change, Refusal>
    ensures { outcome result ≡ acceptor_verdict plan votes.now (view_bytes plan network.now) event.now }
{
    if !message::is_plan(plan) {
        return Err(Refusal::Plan);
    }
    let Some(event) = event::read_event(plan, event) else {
        return Err(Refusal::Event);
    };
    match event.kind {
        Kind::Vote => {
            let m = slots::message_at(network, event.slot())?;
            let acceptor = Acceptor {
                plan,
                votes,
                network,
                acc: event.who,
            };
            acceptor.receive(m)
        }
        _ => Err(Refusal::Event),
    }
}

// Evaluates and stores; a refusal changes no byte. It judges no table.
pub fn perform(
    plan: Plan,
    votes: &mut [u8],
    network: &mut [u8],
    event: &[u8],
) -> Result<Sent, Refusal>
    ensures { step_of result votes.new network.new ≡
        applied plan votes.old network.old (acceptor_verdict plan votes.old (view_bytes plan network.old) event.now) }
{
    let verdict = evaluate(plan, votes, network, event);
    change::apply(plan, votes, network, verdict)
}
