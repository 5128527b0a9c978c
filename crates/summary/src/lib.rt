#![tactic(auto)]
// The summary (document 02, Papers 5 and 6): beside an inbox a byte for each instance, bit 0 when prepared is Decided, bit 1 when aborted is or the
// weight has declined.
//
//     is_summary                      row 20 of "Refusals by place"
//     all_prepared, some_aborted      the conditions of kinds 7 and 8, read from it alone
//     part_size                       how many bytes of a whole summary are a leader's
//     mark_vote, mark_decline, mark_message, mark     what an accepted receipt does to it
//
// It is lent a leader's bytes of the summary, of any content and length. What each of them means stands in specs/.
ghost use Rattle.std.specs.Prelude.{Bool, ◌≡◌, ℕ, ◌/◌};
ghost use Rattle.message.specs.declared.Message.TheVariants.{Phase2a, Phase2b};
ghost use Rattle.slots.specs.View.Bytes.{view_bytes};
ghost use Rattle.inbox.specs.Inbox.{for_all, for_some};
ghost use Rattle.summary.specs.Summary.{is_summary, stands, marked, marked_at, decided_bytes};

use message::{Message, Plan};

// Whether it has this many bytes, none above 3; where not, 20.
#[tactic(auto, unfolding(crate::specs::Summary::is_summary))]
pub fn is_summary(summary: &[u8], count: usize) -> bool
    ensures { result ≡ is_summary count summary.now }
{
    summary.len() == count && slots::are_two_bits(summary)
}

// Kind 7: whether prepared stands for every instance: bit 0 of the bytes put together by `&`, so that no byte has a branch of its own.
pub fn all_prepared(plan: Plan, summary: &[u8]) -> bool
    ensures { result ≡ for_all plan.rms (λ i. stands summary.now i 1) }
{
    let n = plan.rms as usize;
    if summary.len() < n {
        return false;
    }
    let mut all = 1;
    for byte in &summary[..n] {
        all &= *byte;
    }
    all % 2 == 1
}

// Kind 8: whether aborted stands for some instance: bit 1 of the bytes put together by `|`.
pub fn some_aborted(plan: Plan, summary: &[u8]) -> bool
    ensures { result ≡ for_some plan.rms (λ i. stands summary.now i 2) }
{
    let n = summary.len().min(plan.rms as usize);
    let mut any = 0;
    for byte in &summary[..n] {
        any |= *byte;
    }
    any / 2 % 2 == 1
}

// The size of a leader's part of a summary of so many bytes. One of the plan's size takes no division.
pub fn part_size(plan: Plan, size: usize) -> usize
    ensures { result ≡ size / plan.leaders }
{
    let n = plan.rms as usize;
    let leaders = plan.leaders as usize;
    if leaders == 0 {
        return 0;
    }
    if size == n * leaders {
        return n;
    }
    size / leaders
}

// A 2b for (ins, val) sets val's bit of ins, 0 for prepared and 1 for aborted, where Decided(ins, val). Where the bit stands already the inbox
// is not read.
fn mark_vote(plan: Plan, inbox: &[u8], summary: &mut [u8], ins: u8, val: u8)
    ensures { (acc bal : ℕ) → summary.new ≡
        marked (decided_bytes plan inbox.now) summary.old (Phase2b ins acc bal val) }
{
    let at = ins as usize;
    let byte = message::byte_at(summary, at);
    let with = quorum::insert_bit(byte, val.saturating_sub(1));
    if with == byte {
        return;
    }
    if !decided::is_decided(plan, inbox, ins, val) {
        return;
    }
    slots::set_byte(summary, at, with);
}

// A 2a for aborted at ballot 0 sets aborted's bit of ins: the weight declines.
fn mark_decline(summary: &mut [u8], ins: u8, bal: u8, val: u8)
    ensures { (isDecided : ℕ → ℕ → Bool) → summary.new ≡
        marked isDecided summary.old (Phase2a ins bal val) }
{
    if bal != 0 {
        return;
    }
    if val != 2 {
        return;
    }
    let at = ins as usize;
    let byte = message::byte_at(summary, at);
    slots::set_byte(summary, at, quorum::insert_bit(byte, 1));
}

// A 2b marks where it decides, a 2a where it declines.
fn mark_message(plan: Plan, inbox: &[u8], summary: &mut [u8], m: Message)
    ensures { summary.new ≡
        marked (decided_bytes plan inbox.now) summary.old m }
{
    match m {
        Message::Phase2a { ins, bal, val } => mark_decline(summary, ins, bal, val),
        Message::Phase2b { ins, val, .. } => mark_vote(plan, inbox, summary, ins, val),
        Message::Phase1a { .. } | Message::Phase1b { .. } | Message::Decision { .. } => {}
    }
}

// What the slot of N holds was received: the inbox has it. A slot without a message marks nothing.
pub fn mark(plan: Plan, inbox: &[u8], summary: &mut [u8], network: &[u8], slot: usize)
    ensures { summary.new ≡
        marked_at (decided_bytes plan inbox.now) summary.old ((view_bytes plan network.now).slot slot) }
{
    if let Ok(m) = slots::message_at(network, slot) {
        mark_message(plan, inbox, summary, m);
    }
}
