#![tactic(auto)]
// The four bytes of an event (document 01, "The nine events").
//
//     EVENT_SIZE             how many they are
//     Kind                   the nine kinds
//     Event, read_event      an event, and the event that bytes are
//     is_event               row 7 of "Refusals by place": four bytes, a kind, a process and arguments in range
//     slot_number            the slot that kinds 2, 3 and 4 name
ghost use Rattle.std.specs.Prelude.{◌≡◌, ◌+◌, ◌*◌};
ghost use Rattle.event.specs.Event.{who_limit, are_zero, are_arguments, is_event, slot_number, kind_number, kind_read, read_event};

use message::Plan;

// The bytes of an event: kind, who, high and low.
pub const EVENT_SIZE: usize = 4;

// What an event is: what a resource manager does (0 to 2), an acceptor (3) or a leader (4 to 8).
#[derive(Clone, Copy, Debug, PartialEq, Eq)]
pub enum Kind {
    Prepare,
    ChooseToAbort,
    TakeDecision,
    Vote,
    Receipt,
    Phase1a,
    Phase2a,
    Commit,
    Abort,
}

impl Kind {
    // The kind with a number. A `TryFrom` would name its error by an associated type, which the rules of tests/contracts.sh refuse.
    pub fn with_number(number: u8) -> Option<Kind>
        ensures { result ≡ kind_read number }
    {
        match number {
            0 => Some(Kind::Prepare),
            1 => Some(Kind::ChooseToAbort),
            2 => Some(Kind::TakeDecision),
            3 => Some(Kind::Vote),
            4 => Some(Kind::Receipt),
            5 => Some(Kind::Phase1a),
            6 => Some(Kind::Phase2a),
            7 => Some(Kind::Commit),
            8 => Some(Kind::Abort),
            _ => None,
        }
    }

    // How many processes the kind's role has: resource managers, acceptors or leaders. By the number: with a `match`, here and below, lists of
    // events of kinds 5, 7 and 8 with few slots took 2 to 3 ns more an event.
    #[tactic(auto, unfolding(crate::specs::Event::who_limit))]
    fn who_limit(self, plan: Plan) -> u8
        ensures { result ≡ who_limit plan (kind_number self) }
    {
        let number = self as u8;
        if number <= 2 {
            return plan.rms;
        }
        if number == 3 {
            return plan.acceptors;
        }
        plan.leaders
    }
}

// An event. Its fields stay bytes, as the definitions of the steps name them: high and low are a slot, or an instance and a ballot.
#[derive(Clone, Copy, Debug, PartialEq, Eq)]
pub struct Event {
    pub kind: Kind,
    pub who: u8,
    pub high: u8,
    pub low: u8,
}

impl Event {
    // The slot of N that kinds 2, 3 and 4 name: 256 × high + low.
    pub fn slot(self) -> usize
        ensures { result ≡ 256 * self.high + self.low }
    {
        usize::from(message::order_of(self.high, self.low))
    }

    // Whether high and low are 0.
    #[tactic(auto, unfolding(crate::specs::Event::are_zero))]
    fn are_zero(self) -> bool
        ensures { result ≡ are_zero self.high self.low }
    {
        self.high == 0 && self.low == 0
    }

    // Whether high and low are in range for the kind: both 0, any slot, or an instance in high. By the number, as above.
    #[tactic(auto, unfolding(crate::specs::Event::are_arguments))]
    fn are_arguments(self, plan: Plan) -> bool
        ensures { result ≡ are_arguments plan (kind_number self.kind) self.high self.low }
    {
        let number = self.kind as u8;
        if number <= 1 {
            return self.are_zero();
        }
        if number <= 4 {
            return true;
        }
        if 6 < number {
            return self.are_zero();
        }
        self.high < plan.rms
    }
}

// The event that the bytes are; where they are none, every role refuses 7.
#[tactic(auto, using(crate::proofs::Reading::kind_with_number), unfolding(crate::specs::Event::read_event, crate::specs::Event::is_event))]
pub fn read_event(plan: Plan, bytes: &[u8]) -> Option<Event>
    ensures { result ≡ read_event plan bytes.now }
{
    let &[number, who, high, low] = bytes else {
        return None;
    };
    let kind = Kind::with_number(number)?;
    let event = Event {
        kind,
        who,
        high,
        low,
    };
    if kind.who_limit(plan) <= who || !event.are_arguments(plan) {
        return None;
    }
    Some(event)
}

// Whether the bytes are an event of the plan; where they are not, every role refuses 7.
#[tactic(auto, unfolding(crate::specs::Event::read_event))]
pub fn is_event(plan: Plan, event: &[u8]) -> bool
    ensures { result ≡ is_event plan event.now }
{
    read_event(plan, event).is_some()
}

// The slot of N that an event of kind 2, 3 or 4 names: 256 × high + low.
#[tactic(auto, unfolding(crate::specs::Event::slot_number))]
pub fn slot_number(event: &[u8]) -> usize
    ensures { result ≡ slot_number event.now }
{
    let high = message::byte_at(event, 2);
    let low = message::byte_at(event, 3);
    usize::from(message::order_of(high, low))
}
