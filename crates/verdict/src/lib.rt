#![tactic(auto)]
// What an event comes to on an order record, before anything is stored (document 01, "Refusals by place", from row 7 on). Judging a record is the
// crate `judging`, storing what is accepted the crate `record`. Both functions see only what each role promises, and judge no table.
//
//     evaluate_leader   kinds 4 to 8, on the leader's own inbox and bytes of the summary
//     evaluate          the event's verdict: that of the role of its kind
ghost use Rattle.std.specs.Prelude.{◌≡◌, ◌<◌};
ghost use Rattle.message.specs.Outcome.{outcome};
ghost use Rattle.event.specs.Event.{who_of};
ghost use Rattle.opening.specs.Opening.{lent};
ghost use Rattle.verdict.specs.Verdict.{leader_on, record_verdict};

use change::Change;
use event::Kind;
use message::{Plan, Refusal};
use opening::Lent;

// Kinds 4 to 8: what the event comes to on N, the leader's own inbox, a part of I, and its bytes of the summary, a part likewise. They are cut
// here and in `record`: a public function that did could not require that the leader is one.
fn evaluate_leader(
    plan: Plan,
    network: &[u8],
    inboxes: &[u8],
    summary: &[u8],
    event: &[u8],
) -> Result<Change, Refusal>
    requires { who_of event.now < plan.leaders }
    ensures { outcome result ≡ leader_on plan inboxes.now summary.now network.now event.now }
{
    let who = message::byte_at(event, 1) as usize;
    let size = inboxes.len() / plan.leaders as usize;
    let from = who * size;
    let to = from + size;
    let inbox = &inboxes[from..to];
    let count = summary::part_size(plan, summary.len());
    let start = who * count;
    let end = start + count;
    let own = &summary[start..end];
    leader::evaluate(plan, inbox, own, network, event)
}

// What the event comes to: 7 where it is no event, and then what the role of its kind makes of it. It judges no table. The kind is taken by its
// byte, since the role reads the event itself.
pub fn evaluate(plan: Plan, tables: Lent, event: &[u8]) -> Result<Change, Refusal>
    ensures { outcome result ≡ record_verdict plan (lent tables.entry) event.now }
{
    if !event::is_event(plan, event) {
        return Err(Refusal::Event);
    }
    let kind = message::byte_at(event, 0);
    if kind <= Kind::TakeDecision as u8 {
        return rm::evaluate(plan, tables.states, tables.network, event);
    }
    if kind == Kind::Vote as u8 {
        return acceptor::evaluate(plan, tables.votes, tables.network, event);
    }
    evaluate_leader(plan, tables.network, tables.inboxes, tables.summary, event)
}
