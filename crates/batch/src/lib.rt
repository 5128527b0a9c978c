#![tactic(auto)]
// A list of events on one record (document 02, Papers 2 and 5): the tables are judged once, then the events run in order.
//
//     is_list        row 19 of "Refusals by place"
//     judge_list     rows 1 to 6, then 19, then 20
//     run_events     the events one after the other, on a record that was judged
//     run            the list call
//
// It is lent W (`states`), Q (`votes`), N (`network`), I (`inboxes`), the summary and the answers, one byte an event, of any content and
// length; they stay slices, as `opening::Lent` says.
ghost use Rattle.std.specs.Prelude.{true, ◌≡◌, Ok};
ghost use Rattle.message.specs.Outcome.{accepted, outcome};
ghost use Rattle.opening.specs.Opening.{lent};
ghost use Rattle.record.specs.Record.{tables_of, lent_judged};
ghost use Rattle.batch.specs.Run.{is_list, run_judged, run_of, finished_run, record_run};

use event::EVENT_SIZE;
use message::{Plan, Refusal};
use opening::Lent;

// Whether the list is whole events and there is an answer for each; where not, 19.
fn is_list(events: &[u8], answers: &[u8]) -> bool
    ensures { result ≡ is_list events.now answers.now }
{
    (events.len() % EVENT_SIZE == 0) & (answers.len() == events.len() / EVENT_SIZE)
}

// What the list call judges before the first event: 1 to 6 for the plan and the tables, then 19, then 20 for the summary.
fn judge_list(plan: Plan, tables: Lent, events: &[u8], answers: &[u8]) -> Result<(), Refusal>
    ensures { outcome result ≡ run_judged plan (lent tables.entry) events.now answers.now }
{
    judging::judge(plan, tables)?;
    if !is_list(events, answers) {
        return Err(Refusal::Events);
    }
    if !summary::is_summary(tables.summary, plan.rms as usize * plan.leaders as usize) {
        return Err(Refusal::Summary);
    }
    Ok(())
}

// The events one after the other, on a record that was judged: it stays sound, so no table is judged again.
fn run_events(
    plan: Plan,
    states: &mut [u8],
    votes: &mut [u8],
    network: &mut [u8],
    inboxes: &mut [u8],
    summary: &mut [u8],
    events: &[u8],
    answers: &mut [u8],
)
    requires { (lent_judged plan (tables_of states.old votes.old network.old inboxes.old summary.old) ≡ accepted tt) × (is_list events.now answers.old ≡ true) }
    ensures { run_of (Ok tt) (tables_of states.new votes.new network.new inboxes.new summary.new) answers.new ≡
        finished_run plan (tables_of states.old votes.old network.old inboxes.old summary.old) events.now }
{
    // By the number of the answer, which is the event's.
    for i in 0..answers.len() {
        let from = i * EVENT_SIZE;
        let to = from + EVENT_SIZE;
        let event = &events[from..to];
        let answer = record::perform(plan, states, votes, network, inboxes, summary, event);
        answers[i] = message::number_of(answer);
    }
}

// The list call: 1 to 6 for the plan and the tables, then 19, then 20 for the summary, and no byte changes; else each event's answer in its
// place, 0 or its refusal, and the tables as the last event left them.
pub fn run(
    plan: Plan,
    states: &mut [u8],
    votes: &mut [u8],
    network: &mut [u8],
    inboxes: &mut [u8],
    summary: &mut [u8],
    events: &[u8],
    answers: &mut [u8],
) -> Result<(), Refusal>
    ensures { run_of result (tables_of states.new votes.new network.new inboxes.new summary.new) answers.new ≡
        record_run plan (tables_of states.old votes.old network.old inboxes.old summary.old) events.now answers.old }
{
    let tables = Lent {
        states,
        votes,
        network,
        inboxes,
        summary,
    };
    judge_list(plan, tables, events, answers)?;
    run_events(
        plan, states, votes, network, inboxes, summary, events, answers,
    );
    Ok(())
}
