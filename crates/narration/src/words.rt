// What is said of a message, an event, an answer and a row of states.
//
//     Told                       a message
//     Slot                       a slot of N by its number, with the message in it
//     Tried                      what an event tries
//     Refused, Answered          a refusal by name and number; what a call answered
//     Row                        the states of all resource managers (document 01: weights)
use change::Sent;
use event::{Event, Kind};
use message::{Message, Plan, Refusal, Vote};
use std::fmt;
use std::fmt::{Display, Formatter};

#[derive(Clone, Copy)]
pub struct Told(pub Message);

#[derive(Clone, Copy)]
pub struct Slot<'a> {
    pub network: &'a [u8],
    pub slot: usize,
}

#[derive(Clone, Copy)]
pub struct Tried<'a> {
    pub plan: Plan,
    pub network: &'a [u8],
    pub event: &'a [u8],
}

#[derive(Clone, Copy)]
pub struct Refused(pub Refusal);

#[derive(Clone, Copy)]
pub struct Answered<'a> {
    pub network: &'a [u8],
    pub event: &'a [u8],
    pub answer: Result<Sent, Refusal>,
}

#[derive(Clone, Copy)]
pub struct Row<'a>(pub &'a [u8]);

// What a promise reports.
#[derive(Clone, Copy)]
struct Reported(Option<Vote>);

// A value of a message: 1 prepared, 2 aborted.
fn value_name(val: u8) -> &'static str {
    match val {
        1 => "prepared",
        _ => "aborted",
    }
}

impl Display for Reported {
    fn fmt<W: fmt::Write>(&self, f: &mut Formatter<W>) -> fmt::Result {
        match self.0 {
            None => write!(f, "no vote"),
            Some(Vote { bal, val }) => {
                let value = value_name(val);
                write!(f, "{value} at {bal}")
            }
        }
    }
}

impl Display for Told {
    fn fmt<W: fmt::Write>(&self, f: &mut Formatter<W>) -> fmt::Result {
        match self.0 {
            Message::Phase1a { ins, bal } => {
                write!(f, "call for promises of ballot {bal} for weight {ins}")
            }
            Message::Phase1b {
                ins,
                acc,
                mbal,
                vote,
            } => {
                let reported = Reported(vote);
                write!(
                    f,
                    "acceptor {acc} promises ballot {mbal} for weight {ins}, reports {reported}"
                )
            }
            Message::Phase2a { ins, bal, val } => {
                let value = value_name(val);
                write!(f, "weight {ins} is proposed as {value} at ballot {bal}")
            }
            Message::Phase2b { ins, acc, bal, val } => {
                let value = value_name(val);
                write!(
                    f,
                    "acceptor {acc} votes for weight {ins} as {value} at ballot {bal}"
                )
            }
            Message::Decision { val: 1 } => write!(f, "the decision is Commit"),
            Message::Decision { val: _ } => write!(f, "the decision is Abort"),
        }
    }
}

impl Display for Slot<'_> {
    fn fmt<W: fmt::Write>(&self, f: &mut Formatter<W>) -> fmt::Result {
        let slot = self.slot;
        match slots::message_at(self.network, slot) {
            Ok(m) => {
                let told = Told(m);
                write!(f, "{slot}: {told}")
            }
            Err(_) => write!(f, "{slot}, where no message is"),
        }
    }
}

// Who an event is of and what it tries, by its kind.
fn say_deed<W: fmt::Write>(f: &mut Formatter<W>, event: Event, slot: Slot<'_>) -> fmt::Result {
    let Event {
        kind,
        who,
        high,
        low,
    } = event;
    match kind {
        Kind::Prepare => write!(f, "weight {who} prepares"),
        Kind::ChooseToAbort => write!(f, "weight {who} chooses to abort"),
        Kind::TakeDecision => write!(f, "weight {who} takes slot {slot}"),
        Kind::Vote => write!(f, "acceptor {who} takes slot {slot}"),
        Kind::Receipt => write!(f, "leader {who} takes into its inbox slot {slot}"),
        Kind::Phase1a => write!(f, "leader {who} begins ballot {low} for weight {high}"),
        Kind::Phase2a => write!(f, "leader {who} proposes at ballot {low} for weight {high}"),
        Kind::Commit => write!(f, "leader {who} decides Commit"),
        Kind::Abort => write!(f, "leader {who} decides Abort"),
    }
}

// Bytes that are no event are said as they are.
fn say_bytes<W: fmt::Write>(f: &mut Formatter<W>, bytes: &[u8]) -> fmt::Result {
    write!(f, "bytes")?;
    for byte in bytes {
        write!(f, " {byte:02x}")?;
    }
    Ok(())
}

impl Display for Tried<'_> {
    fn fmt<W: fmt::Write>(&self, f: &mut Formatter<W>) -> fmt::Result {
        let Some(event) = event::read_event(self.plan, self.event) else {
            return say_bytes(f, self.event);
        };
        let slot = Slot {
            network: self.network,
            slot: event.slot(),
        };
        say_deed(f, event, slot)
    }
}

// What document 01's table of refusals calls them; 20 is document 02's (Paper 5).
fn refusal_name(refusal: Refusal) -> &'static str {
    match refusal {
        Refusal::Plan => "plan out of range",
        Refusal::Length => "lengths of the tables do not fit the plan",
        Refusal::State => "W holds a byte that is no state",
        Refusal::Vote => "Q holds a vote that is none",
        Refusal::Network => "N is damaged",
        Refusal::Inbox => "an inbox is damaged",
        Refusal::Event => "no event",
        Refusal::Slot => "the slot is unused or beyond N",
        Refusal::Role => "the message is not for this role",
        Refusal::Ballot => "ballot not owned",
        Refusal::Contradiction => "the decision contradicts the state",
        Refusal::NotEnabled => "not enabled",
        Refusal::NetworkFull => "N is full",
        Refusal::InboxFull => "the inbox is full",
        Refusal::Summary => "the summary is damaged",
        _ => "unknown",
    }
}

impl Display for Refused {
    fn fmt<W: fmt::Write>(&self, f: &mut Formatter<W>) -> fmt::Result {
        let number = self.0.number();
        let name = refusal_name(self.0);
        write!(f, "refused: {name} ({number})")
    }
}

// What a quiet event took from its slot, where that is news. Of these a receipt alone takes a 2a, at ballot 0 (document 02, Paper 6).
fn say_taken<W: fmt::Write>(f: &mut Formatter<W>, slot: Slot<'_>) -> fmt::Result {
    match slots::message_at(slot.network, slot.slot) {
        Ok(Message::Phase2a { ins, val: 2, .. }) => {
            write!(
                f,
                ": weight {ins} declines, so the order can be aborted at once"
            )
        }
        _ => Ok(()),
    }
}

impl Display for Answered<'_> {
    fn fmt<W: fmt::Write>(&self, f: &mut Formatter<W>) -> fmt::Result {
        let network = self.network;
        match self.answer {
            Ok(Sent::Slot(slot)) => {
                let sent = Slot { network, slot };
                write!(f, "accepted, stands in slot {sent}")
            }
            Ok(Sent::Quiet) => {
                write!(f, "accepted")?;
                let slot = event::slot_number(self.event);
                say_taken(f, Slot { network, slot })
            }
            Err(refusal) => {
                let refused = Refused(refusal);
                write!(f, "{refused}")
            }
        }
    }
}

// W's bytes, which may be no state.
fn state_name(state: u8) -> &'static str {
    match state {
        0 => "working",
        1 => "prepared",
        2 => "committed",
        3 => "aborted",
        _ => "unknown",
    }
}

impl Display for Row<'_> {
    fn fmt<W: fmt::Write>(&self, f: &mut Formatter<W>) -> fmt::Result {
        write!(f, "weights:")?;
        for state in self.0 {
            let name = state_name(*state);
            write!(f, " {name}")?;
        }
        Ok(())
    }
}
