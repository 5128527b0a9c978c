#![tactic(auto)]
// The rehearsal (document 01, "The rehearsal") as a function of its input: makes the events on a fresh record, all whole ones by one list call,
// and puts a line for each into a lent buffer, 0 or the refusal; last one of three words. A plan that is bad or cut gives only 1.
//
//     MAX_OUTPUT               the bytes of the longest output
//     put_answers, put_cut     a line for each answer, and one for a cut last event
//     run_events               the list call, the lines and the word
//     run_fresh                the record opened, on parts of tables that are long enough for every plan
//     rehearse                 the rehearsal
//
// Input and text are `rehearsal_input` and `rehearsal_text`, the calls `opening::open`, `batch::run` and `ending::ending_of`. What is
// printed stands in specs/. `rehearse` has no `requires`.
ghost use Rattle.std.specs.Prelude.{◌≤◌, true, ◌≡◌, length};
ghost use Rattle.message.specs.Outcome.{accepted};
ghost use Rattle.message.specs.Plan.{is_plan};
ghost use Rattle.record.specs.Record.{tables_of, lent_judged};
ghost use Rattle.rehearsal_text.specs.Text.{put_of, put};
ghost use Rattle.rehearsing.specs.Rehearsal.{calls_in, fresh_tables, text_of, number_lines, cut_line, rehearsal};

use event::EVENT_SIZE;
use message::Plan;

// Three bytes for each of 8,192 events, and the longest word.
pub const MAX_OUTPUT: usize = 24586;

// The five tables for the largest plan: 16 resource managers, 7 acceptors, 4 leaders; 1,024 slots of eight bytes in N and in each inbox; in the
// summary a byte for each leader and resource manager.
const STATES_SIZE: usize = 16;

const VOTES_SIZE: usize = 336;

const NETWORK_SIZE: usize = 8192;

const INBOXES_SIZE: usize = 32768;

const SUMMARY_SIZE: usize = 64;

// An answer for each of the most events.
const ANSWERS_SIZE: usize = 8192;

// So many zeros. A proof that lends parts of `[0; N]` does not know how long it is; of what a function gives, it does.
fn zeros<const N: usize>() -> [u8; N]
    ensures { length result ≡ N }
{
    [0; N]
}

// Puts a line for each answer, from the start on: where they end.
fn put_answers(output: &mut [u8], answers: &[u8]) -> usize
    ensures { put_of result output.new ≡ put 0 (number_lines answers.now) output.old }
{
    let mut at = 0;
    for number in answers {
        at = rehearsal_text::put_line(output, at, *number);
    }
    at
}

// Puts 7 at a place if the last event is cut, and so is none: where it ends.
fn put_cut(output: &mut [u8], at: usize, events: &[u8]) -> usize
    ensures { put_of result output.new ≡ put at (cut_line events.now) output.old }
{
    if events.len() % EVENT_SIZE == 0 {
        return at;
    }
    rehearsal_text::put_line(output, at, 7)
}

// Makes the events on a sound record, and puts their lines, and last the word. It alone is lent the five tables, one by one as `batch::run`
// takes them.
fn run_events(
    plan: Plan,
    states: &mut [u8],
    votes: &mut [u8],
    network: &mut [u8],
    inboxes: &mut [u8],
    summary: &mut [u8],
    events: &[u8],
    output: &mut [u8],
) -> usize
    requires summary_value { lent_judged plan (tables_of states.old votes.old network.old inboxes.old summary.old) ≡ accepted tt }
    requires events_len_bound { length events.now ≤ 32768 }
    ensures { put_of result output.new ≡ put 0 (text_of plan
        (tables_of states.old votes.old network.old inboxes.old summary.old)
        (calls_in 8192 events.now)) output.old }
{
    let count = events.len() / EVENT_SIZE;
    let end = count * EVENT_SIZE;
    let whole = &events[..end];
    let mut answers = zeros::<ANSWERS_SIZE>();
    let answered = &mut answers[..count];
    let _ = batch::run(
        plan, states, votes, network, inboxes, summary, whole, answered,
    );
    let lines_end = put_answers(output, answered);
    let cut_end = put_cut(output, lines_end, events);
    rehearsal_text::put_ending(output, cut_end, ending::ending_of(states))
}

// Opens a record on parts of tables that are long enough for every plan, and makes the events.
fn run_fresh(plan: Plan, events: &[u8], output: &mut [u8]) -> usize
    requires plan_value { is_plan plan ≡ true }
    requires events_len_bound { length events.now ≤ 32768 }
    ensures { put_of result output.new ≡ put 0 (text_of plan (fresh_tables 1024 plan)
        (calls_in 8192 events.now)) output.old }
{
    let mut states = zeros::<STATES_SIZE>();
    let mut votes = zeros::<VOTES_SIZE>();
    let mut network = zeros::<NETWORK_SIZE>();
    let mut inboxes = zeros::<INBOXES_SIZE>();
    let mut summary = zeros::<SUMMARY_SIZE>();
    let states_end = plan.rms as usize;
    let votes_end = 3 * (plan.rms as usize * plan.acceptors as usize);
    let inboxes_end = plan.leaders as usize * NETWORK_SIZE;
    let summary_end = plan.rms as usize * plan.leaders as usize;
    let states_part = &mut states[..states_end];
    let votes_part = &mut votes[..votes_end];
    let inboxes_part = &mut inboxes[..inboxes_end];
    let summary_part = &mut summary[..summary_end];
    let _ = opening::open(
        plan,
        states_part,
        votes_part,
        &mut network,
        inboxes_part,
        summary_part,
    );
    run_events(
        plan,
        states_part,
        votes_part,
        &mut network,
        inboxes_part,
        summary_part,
        events,
        output,
    )
}

// Puts what the rehearsal prints for an input at the start of the buffer: how many bytes. A buffer shorter than MAX_OUTPUT stays as it is: 0.
pub fn rehearse(input: &[u8], output: &mut [u8]) -> usize
    ensures { put_of result output.new ≡ rehearsal input.now output.old }
{
    if output.len() < MAX_OUTPUT {
        return 0;
    }
    match rehearsal_input::plan_in(input) {
        Ok(plan) => run_fresh(plan, rehearsal_input::events_in(input), output),
        Err(refusal) => rehearsal_text::put_line(output, 0, refusal.number()),
    }
}
