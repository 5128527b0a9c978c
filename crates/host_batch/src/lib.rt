#![tactic(auto)]
// The list call for other languages: a backlog of events on one record. Numbers and byte slices in, one number out.
//
//     paxos_commit_run     many events in order, and an answer for each
//
// What the number means stands in specs/Code.antt.
// The counts and the order number come one by one, as hosts/c/paxos_commit.h declares them.
ghost use Rattle.std.specs.Prelude.{◌≡◌};
ghost use Rattle.record.specs.Record.{tables_of};
ghost use Rattle.batch.specs.Run.{record_run};
ghost use Rattle.host_code.specs.Code.{plan_of};
ghost use Rattle.host_batch.specs.Code.{host_run, host_run_of};

use message::Plan;

// The list call: it is lent W (`states`), Q (`votes`), N (`network`), I (`inboxes`) and the summary, four bytes an event, and a byte of answers
// for each. Accepted: 0, and in the answers 0 or the event's refusal, in order. Refused: 1 to 6, 19 or 20, and no byte of tables or answers
// changes.
#[unsafe(no_mangle)]
pub extern "C" fn paxos_commit_run(
    rms: u8,
    acceptors: u8,
    leaders: u8,
    order: u16,
    states: &mut [u8],
    votes: &mut [u8],
    network: &mut [u8],
    inboxes: &mut [u8],
    summary: &mut [u8],
    events: &[u8],
    answers: &mut [u8],
) -> u8
    ensures { host_run result
        (tables_of states.new votes.new network.new inboxes.new summary.new) answers.new ≡
        host_run_of (record_run (plan_of rms acceptors leaders order)
        (tables_of states.old votes.old network.old inboxes.old summary.old)
        events.now answers.old) }
{
    let plan = Plan {
        rms,
        acceptors,
        leaders,
        order,
    };
    message::number_of(batch::run(
        plan, states, votes, network, inboxes, summary, events, answers,
    ))
}
