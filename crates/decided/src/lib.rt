#![tactic(auto)]
// Decided for one instance and value, as a leader reads it from its inbox: one pass over the slots before the edge.
//
//     begins_2b, any_2b     whether a slot, or one of a block, begins as a 2b of the instance does
//     Asked                 a plan, an instance and a value, with the steps of the pass:
//       vote_step           the acceptor of a 2b joins the set of its ballot, and whether that is a majority
//       gather_slots        slot by slot, up to the first majority
//       gather_votes        the pass: blocks with no 2b of the instance are passed at once
//     is_decided            Decided(ins, value)
//
// What is gathered stands in the specs/ of `inbox`, blocks in specs/. No public function has a `requires`, and none looks past the inbox.
ghost use Rattle.std.specs.Prelude.{true, ◌&&◌, ◌≡◌, ◌+◌, ◌*◌, ◌/◌, ◌≤◌, length, replicate};
ghost use Rattle.message.specs.Plan.{is_plan};
ghost use Rattle.slots.specs.Table.{slot_size};
ghost use Rattle.slots.specs.Table.Scan.{edge, peek_messages};
ghost use Rattle.inbox.specs.Inbox.{for_some, decided};
ghost use Rattle.inbox.specs.Inbox.Slots.{message_at, ahead};
ghost use Rattle.inbox.specs.Inbox.Votes.{tally, vote_step, Counts};
ghost use Rattle.decided.specs.Pass.{block_slots, begins2b, Counted};

use message::{ACC, BAL_2B, INS, MAP_2B, Plan, SLOT_SIZE, VAL_2B};

// So many slots are looked at together without a branch: a block. The compiler takes eight of them in vector steps and the last one by
// itself, since it does not load past it.
const BLOCK_SLOTS: usize = 9;

// A word divided by this leaves its first two bytes: of a 2b map and instance.
const TWO_BYTES: u32 = 0x1_0000;

// Whether a slot begins as a 2b of the instance does. Four bytes are read, so that they are one load; the last two do not count.
fn begins_2b(inbox: &[u8], at: usize, ins: u8) -> bool
    requires { at + slot_size ≤ length inbox.now }
    ensures { result ≡ begins2b ins inbox.now at }
{
    let word = u32::from_le_bytes([
        inbox[at],
        inbox[at + INS],
        inbox[at + ACC],
        inbox[at + BAL_2B],
    ]);
    word % TWO_BYTES == u32::from_le_bytes([MAP_2B, ins, 0, 0])
}

// Whether one of a block's slots does, without a branch.
fn any_2b(inbox: &[u8], place: usize, ins: u8) -> bool
    requires { place + block_slots ≤ length inbox.now / slot_size }
    ensures { result ≡ for_some block_slots (λ j. begins2b ins inbox.now ((place + j) * slot_size)) }
{
    let mut any = false;
    for i in 0..BLOCK_SLOTS {
        any |= begins_2b(inbox, (place + i) * SLOT_SIZE, ins);
    }
    any
}

// The instance and value that are asked for, under a plan.
#[derive(Clone, Copy)]
struct Asked {
    plan: Plan,
    ins: u8,
    value: u8,
}

impl Asked {
    // One slot further: the acceptor of a 2b of the instance and value joins the set of its ballot; whether that is a majority. Map, instance
    // and value are one test: messages of all kinds may alternate, and each test more is one that is not foreseen.
    fn vote_step(self, inbox: &[u8], at: usize, masks: &mut [u8; 256]) -> bool
        requires { at + slot_size ≤ length inbox.now }
        ensures { tally masks.new result ≡ vote_step self.plan self.ins self.value masks.old (message_at inbox.now at) }
    {
        let form = u32::from_le_bytes([inbox[at], inbox[at + INS], inbox[at + VAL_2B], 0]);
        if form != u32::from_le_bytes([MAP_2B, self.ins, self.value, 0]) {
            return false;
        }
        let bal = inbox[at + BAL_2B] as usize;
        let mask = quorum::insert_bit(masks[bal], inbox[at + ACC]);
        masks[bal] = mask;
        quorum::is_majority(self.plan.acceptors, mask)
    }

    // The slots from one place to another, up to the first majority. `masks` is no field: each step would owe a clause that the rest stays.
    fn gather_slots(self, inbox: &[u8], from: usize, to: usize, masks: &mut [u8; 256]) -> bool
        requires { (is_plan self.plan ≡ true) × (from ≤ to) × (to ≤ edge inbox.now) ×
            Counts self.plan self.ins self.value (peek_messages inbox.now) masks.old (ahead inbox.now from) }
        ensures { Counted self.plan self.ins self.value (peek_messages inbox.now) masks.new (ahead inbox.now to) result }
    {
        for place in from..to {
            if self.vote_step(inbox, place * SLOT_SIZE, masks) {
                return true;
            }
        }
        false
    }

    // One pass over the used slots, which ends at the first majority: past blocks with no 2b of the instance, else slot by slot.
    fn gather_votes(self, inbox: &[u8], used: usize, masks: &mut [u8; 256]) -> bool
        requires { (is_plan self.plan ≡ true) × (used ≡ edge inbox.now) × (masks.old ≡ replicate 256 0) }
        ensures { result ≡ decided self.plan (peek_messages inbox.now) self.ins self.value }
    {
        // A `while`, since the last slots, fewer than a block, are gathered after it.
        let mut place = 0;
        while BLOCK_SLOTS <= used - place {
            let end = place + BLOCK_SLOTS;
            if any_2b(inbox, place, self.ins) {
                if self.gather_slots(inbox, place, end, masks) {
                    return true;
                }
            }
            place = end;
        }
        self.gather_slots(inbox, place, used, masks)
    }
}

// Whether Decided(ins, value), in one pass over the inbox; with a plan out of range nothing is. Without a message no set is made.
pub fn is_decided(plan: Plan, inbox: &[u8], ins: u8, value: u8) -> bool
    ensures { result ≡ (is_plan plan && decided plan (peek_messages inbox.now) ins value) }
{
    if !message::is_plan(plan) {
        return false;
    }
    let used = slots::edge(inbox);
    if used == 0 {
        return false;
    }
    let mut masks = [0u8; 256];
    Asked { plan, ins, value }.gather_votes(inbox, used, &mut masks)
}
