#![tactic(auto)]
// The rehearsal in words, for people: reads what the rehearsal reads (document 01, "The rehearsal"), and says for each event what was
// tried, with the message that its slot holds, what the call answered, with the message that was sent or the weight that is heard to decline,
// and the row of states afterwards.
// Where a read or a write fails it says so on standard error, and writes no more.
//
//     words                    what is said of a message, an event, an answer and a row of states
//     write, write_event       words, on standard output, at once
//     tried, outcome           what is said of an event before it is made and afterwards
//     tell_events, tell        all events on a record; the record opened, and its tables
//     narrate                  the plan and the events of an input, as in the rehearsal
//
// Input and text are `rehearsal_input` and `rehearsal_text`, the calls `opening::open`, `record::step` and `ending::ending_of`, the system
// `console`. Each function here is proved to be safe and to end; none has a contract on what it says. Assumes nothing of its own.
mod words;

use change::Sent;
use message::{Plan, Refusal, SLOT_SIZE};
use rehearsal_input::MAX_INPUT;
use slots::MAX_SLOTS;
use std::fmt::{Display, InlineText};
use std::io;
use words::{Answered, Refused, Row, Tried};

// The bytes of N for the largest number of slots, and of an inbox.
const NETWORK_SIZE: usize = SLOT_SIZE * MAX_SLOTS;

// More than is said of one event, which has fewer than 400 bytes.
const TEXT_SIZE: usize = 512;

fn write<D: Display + Drop>(rt: &HostRuntime, words: D) -> io::Result<()> {
    let text = InlineText::<TEXT_SIZE>::of(words);
    let bytes = text.as_str().as_bytes();
    if console::write(&mut rt.stdout(), bytes) < bytes.len() {
        return Err(io::Error::from(io::ErrorKind::WriteZero));
    }
    Ok(())
}

// Writes what is said of an event, with its number.
fn write_event(
    rt: &HostRuntime,
    number: usize,
    tried: InlineText<TEXT_SIZE>,
    outcome: InlineText<TEXT_SIZE>,
) -> io::Result<()> {
    let tried = tried.as_str();
    let outcome = outcome.as_str();
    write(rt, format_args!("{number}. {tried}\n{outcome}"))
}

// The first bytes of a table, as many as it has of those that are asked for.
fn first(table: &mut [u8], count: usize) -> &mut [u8] {
    let end = count.min(table.len());
    &mut table[..end]
}

// What an event tries, said before it is made.
fn tried(plan: Plan, network: &[u8], event: &[u8]) -> InlineText<TEXT_SIZE> {
    InlineText::<TEXT_SIZE>::of(Tried {
        plan,
        network,
        event,
    })
}

// What was answered, and the row afterwards, each on a line of its own.
fn outcome(
    network: &[u8],
    event: &[u8],
    answer: Result<Sent, Refusal>,
    states: &[u8],
) -> InlineText<TEXT_SIZE> {
    let answered = Answered {
        network,
        event,
        answer,
    };
    let row = Row(states);
    InlineText::<TEXT_SIZE>::of(format_args!("    {answered}\n    {row}\n"))
}

// Makes each event, with its number from 1 on, and writes what is said of it. The tables are lent one by one, as `record::step` takes them.
fn tell_events(
    rt: &HostRuntime,
    plan: Plan,
    states: &mut [u8],
    votes: &mut [u8],
    network: &mut [u8],
    inboxes: &mut [u8],
    summary: &mut [u8],
    events: &[u8],
) -> io::Result<()> {
    for made in 0..rehearsal_input::event_count(events) {
        let event = rehearsal_input::event_at(events, made);
        let tried = tried(plan, network, event);
        let answer = record::step(plan, states, votes, network, inboxes, summary, event);
        let outcome = outcome(network, event, answer, states);
        write_event(rt, made + 1, tried, outcome)?;
    }
    Ok(())
}

// Opens a record, makes the events, and writes how the order stands. The tables are long enough for every plan in range, so that opening
// refuses none.
fn tell(rt: &HostRuntime, plan: Plan, events: &[u8]) -> io::Result<()> {
    let mut states = [0; 16];
    let mut votes = [0; 336];
    let mut network = [0; NETWORK_SIZE];
    let mut inboxes = [0; 4 * NETWORK_SIZE];
    let mut summary = [0; 64];
    let rms = plan.rms as usize;
    let acceptors = plan.acceptors as usize;
    let leaders = plan.leaders as usize;
    let states = first(&mut states, rms);
    let votes = first(&mut votes, 3 * (rms * acceptors));
    let network = first(&mut network, NETWORK_SIZE);
    let inboxes = first(&mut inboxes, NETWORK_SIZE * leaders);
    let summary = first(&mut summary, rms * leaders);
    let _ = opening::open(plan, states, votes, network, inboxes, summary);
    tell_events(rt, plan, states, votes, network, inboxes, summary, events)?;
    write(rt, rehearsal_text::word_of(ending::ending_of(states)))
}

// Tells the history of an input, or the refusal of its plan.
fn narrate(rt: &HostRuntime, input: &[u8]) -> io::Result<()> {
    match rehearsal_input::plan_in(input) {
        Ok(plan) => tell(rt, plan, rehearsal_input::events_in(input)),
        Err(refusal) => {
            let refused = Refused(refusal);
            write(rt, format_args!("{refused}\n"))
        }
    }
}

fn main(rt: HostRuntime) {
    let mut buffer = [0; MAX_INPUT];
    let Ok(got) = console::read_input(&mut rt.stdin(), &mut buffer) else {
        console::complain(
            &mut rt.stderr(),
            b"narration: standard input can't be read\n",
        );
        return;
    };
    if narrate(&rt, &buffer[..got]).is_err() {
        console::complain(
            &mut rt.stderr(),
            b"narration: standard output can't be written\n",
        );
    }
}
