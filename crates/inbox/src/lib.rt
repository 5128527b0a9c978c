#![tactic(auto)]
// What a leader reads from its inbox for Phase2a, in one pass over the slots before the edge.
//
//     higher_vote                      of two vote reports the one at the higher ballot
//     Sought                           an instance and ballot: whether a slot, or one of a block, is a 1b or a 2a of them (begins, any_begins),
//                                      past slots that are none to the next that is (passed_blocks, next), and from one to the next (gather)
//     Reports, gather_reports          a 2a seen, a majority of 1b, the highest vote report, how many messages there are
//
// Decided, which it reads there too, is the crate `decided`. What both mean stands in specs/. No public function has a `requires`, and none
// looks past the inbox.
ghost use Rattle.std.specs.Prelude.{false, [], ◌≡◌, ◌+◌, ◌/◌, ◌≤◌, ◌<◌, length, MatchOption};
ghost use Rattle.slots.specs.Table.{slot_size};
ghost use Rattle.slots.specs.Table.Scan.{edge, peek_messages};
ghost use Rattle.slots.specs.Table.Words.{word_size, WordFrom};
ghost use Rattle.inbox.specs.Inbox.{higher, reports_of};
ghost use Rattle.inbox.specs.Inbox.Slots.{message_at};
ghost use Rattle.inbox.specs.Inbox.Reports.{report_step, Gathers};
ghost use Rattle.inbox.specs.Inbox.Blocks.{block_slots, Passed, AllPassed};

use message::{
    ACC, BAL_1B, BAL_2A, INS, MAP_1B, MAP_1B_VOTE, MAP_2A, MBAL_1B, Plan, SLOT_SIZE, VAL_1B, Vote,
};

// What Phase2a asks of the inbox: whether a 2a of the instance and ballot is there, whether the acceptors with a 1b are a majority, the
// highest vote report, and how many messages there are, which is the place of the next one.
#[derive(Clone, Copy)]
pub struct Reports {
    pub proposed: bool,
    pub quorum: bool,
    pub vote: Option<Vote>,
    pub count: usize,
}

// What the slots passed so far have shown of it, with the acceptors as a set.
#[derive(Clone, Copy)]
struct Gathered {
    proposed: bool,
    mask: u8,
    vote: Option<Vote>,
}

// Of two vote reports the one with the higher ballot, and of equals the first.
#[tactic(auto, unfolding(crate::specs::Inbox::higher))]
fn higher_vote(first: Option<Vote>, next: Vote) -> Option<Vote>
    ensures { result ≡ higher first (Some next) }
{
    match first {
        Some(vote) if next.bal <= vote.bal => first,
        _ => Some(next),
    }
}

// So many slots are looked at together without a branch: a block. The compiler takes 32 of them in vector steps and the last one by itself,
// since it does not load past it.
const BLOCK_SLOTS: usize = 33;

// A map has this bit where it is one of the two of a 1b.
const BIT_1B: u8 = 0x04;

// The bits of a slot's first word that tell a 1b of an instance and ballot: that bit, and where a 1b has ins and mbal.
const PARTS_1B: u32 = 0xFF00_FF04;

// A word divided by this leaves its first three bytes: of a 2a map, instance and ballot.
const THREE_BYTES: u32 = 0x100_0000;

// Four bytes from an index on as one number, the first of them the lowest. By itself it is compiled to one
// load, before it goes into `begins`; written there, a block took 1,100 to 1,500 ns for 270.
fn word_from(bytes: &[u8], at: usize) -> u32
    requires { at + word_size ≤ length bytes.now }
    ensures { WordFrom bytes.now at result }
{
    u32::from_le_bytes([bytes[at], bytes[at + 1], bytes[at + 2], bytes[at + 3]])
}

// The instance and ballot whose 1b and 2a are sought.
#[derive(Clone, Copy)]
struct Sought {
    instance: u8,
    ballot: u8,
}

impl Sought {
    // One slot further: a 2a of the instance and ballot is noted, the acceptor of a 1b joins, and its vote report is compared.
    fn report_step(self, inbox: &[u8], at: usize, seen: Gathered) -> Gathered
        requires { at + slot_size ≤ length inbox.now }
        ensures { result ≡ report_step self.instance self.ballot seen (message_at inbox.now at) }
    {
        if inbox[at + INS] != self.instance {
            return seen;
        }
        match inbox[at] {
            MAP_2A if inbox[at + BAL_2A] == self.ballot => Gathered {
                proposed: true,
                ..seen
            },
            MAP_1B if inbox[at + MBAL_1B] == self.ballot => Gathered {
                mask: quorum::insert_bit(seen.mask, inbox[at + ACC]),
                ..seen
            },
            MAP_1B_VOTE if inbox[at + MBAL_1B] == self.ballot => Gathered {
                mask: quorum::insert_bit(seen.mask, inbox[at + ACC]),
                vote: higher_vote(
                    seen.vote,
                    Vote {
                        bal: inbox[at + BAL_1B],
                        val: inbox[at + VAL_1B],
                    },
                ),
                ..seen
            },
            _ => seen,
        }
    }

    // Whether a slot's first word is that of a 1b or a 2a of the instance and ballot, without a branch.
    fn begins(self, inbox: &[u8], place: usize) -> bool
        requires { place < length inbox.now / slot_size }
        ensures { result ≡ false → Passed self.instance self.ballot inbox.now place }
    {
        let word = word_from(inbox, place * SLOT_SIZE);
        let of_1b = u32::from_le_bytes([BIT_1B, self.instance, 0, self.ballot]);
        let of_2a = u32::from_le_bytes([MAP_2A, self.instance, self.ballot, 0]);
        (word & PARTS_1B == of_1b) | (word % THREE_BYTES == of_2a)
    }

    // Whether one of a block's slots is one of these.
    fn any_begins(self, inbox: &[u8], place: usize) -> bool
        requires { place + block_slots ≤ length inbox.now / slot_size }
        ensures { result ≡ false → AllPassed self.instance self.ballot inbox.now place (place + block_slots) }
    {
        let mut any = false;
        for i in 0..BLOCK_SLOTS {
            any |= self.begins(inbox, place + i);
        }
        any
    }

    // From a place on past whole blocks of used slots that have none.
    fn passed_blocks(self, inbox: &[u8], from: usize, used: usize) -> usize
        requires { (from ≤ used) × (used ≤ length inbox.now / slot_size) }
        ensures { (from ≤ result) × (result ≤ used) × AllPassed self.instance self.ballot inbox.now from result }
    {
        // A `while`, as in `search::passed_to`, and apart from it: what both call would be public, and could not require that the slots are there.
        let mut place = from;
        while BLOCK_SLOTS <= used - place {
            if self.any_begins(inbox, place) {
                return place;
            }
            place += BLOCK_SLOTS;
        }
        place
    }

    // The first place from one on where one of these stands, before the used slots end: past whole blocks, then slot by slot.
    fn next(self, inbox: &[u8], from: usize, used: usize) -> Option<usize>
        requires { (from ≤ used) × (used ≤ length inbox.now / slot_size) }
        ensures { MatchOption result (AllPassed self.instance self.ballot inbox.now from used)
            (λ place. (from ≤ place) × (place < used) × AllPassed self.instance self.ballot inbox.now from place) }
    {
        for place in self.passed_blocks(inbox, from, used)..used {
            if self.begins(inbox, place) {
                return Some(place);
            }
        }
        None
    }

    // From one of these slots to the next, as far as slots are used.
    fn gather(self, inbox: &[u8], used: usize) -> Gathered
        requires { used ≡ edge inbox.now }
        ensures { Gathers self.instance self.ballot (peek_messages inbox.now) result [] }
    {
        let mut seen = Gathered {
            proposed: false,
            mask: 0,
            vote: None,
        };
        let mut from = 0;
        while let Some(place) = self.next(inbox, from, used) {
            seen = self.report_step(inbox, place * SLOT_SIZE, seen);
            from = place + 1;
        }
        seen
    }
}

// What Phase2a asks of the inbox, in one pass.
pub fn gather_reports(plan: Plan, inbox: &[u8], instance: u8, ballot: u8) -> Reports
    ensures { result ≡ reports_of plan (peek_messages inbox.now) instance ballot }
{
    let count = slots::edge(inbox);
    let seen = Sought { instance, ballot }.gather(inbox, count);
    let vote = seen.vote;
    if !message::is_plan(plan) {
        return Reports {
            proposed: seen.proposed,
            quorum: false,
            vote,
            count,
        };
    }
    Reports {
        proposed: seen.proposed,
        quorum: quorum::is_majority(plan.acceptors, seen.mask),
        vote,
        count,
    }
}
