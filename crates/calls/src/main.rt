#![tactic(auto)]
// Makes calls of the reader, the writer and the three role steps, and prints a line for each (document 01, "Message bytes", "The nine
// events", "Refusals by place"; document 02, Paper 5).
//
// The calls stand in the file stdin beside src/. tests/vectors.py chooses them, and tests/calls.py says how call and line are written;
// tests/model.py works out from documents 01 and 02 alone what each answers and stores. Those lines are the file stdout, and the check
// compares the two.
//
//     Head, head_of                   which call, the plan, and the lengths of its four parts
//     Told, say_read, say_write       a message; what the reader and the writer answer
//     run_step, say_table, say_step   what a role's step answers and stores
//     run_call, run_parts, read_call  a call read into buffers, made on their parts, and its line
//     read_calls                      all calls
//
// A read or a write that fails ends the program with its error.
//
// Each function is proved to be safe and to end; none has a contract on what is printed. Assumes nothing of its own.
use change::Sent;
use message::{Message, Plan, Refusal, Vote};
use std::fmt::{Display, Formatter};
use std::io::Write;
use std::{fmt, io};
use stored::{Answered, Hex};

const MAX_CALLS: usize = 65536;

// Which call (0 resource manager, 1 acceptor, 2 leader, 3 reader, 4 writer), the plan, and the lengths of the role's table, of the summary,
// which only a leader has, of the network and of the bytes: an event, the reader's slice, or the writer's message.
// As the stored file has it (tests/calls.py).
#[derive(Clone, Copy)]
struct Head {
    call: u8,
    plan: Plan,
    table: usize,
    summary: usize,
    network: usize,
    bytes: usize,
}

// A number of two bytes, the higher first.
fn head_of(b: [u8; 14]) -> Head {
    let [
        call,
        rms,
        acceptors,
        leaders,
        order_high,
        order_low,
        table_high,
        table_low,
        summary_high,
        summary_low,
        network_high,
        network_low,
        bytes_high,
        bytes_low,
    ] = b;
    let plan = Plan {
        rms,
        acceptors,
        leaders,
        order: u16::from_be_bytes([order_high, order_low]),
    };
    Head {
        call,
        plan,
        table: u16::from_be_bytes([table_high, table_low]) as usize,
        summary: u16::from_be_bytes([summary_high, summary_low]) as usize,
        network: u16::from_be_bytes([network_high, network_low]) as usize,
        bytes: u16::from_be_bytes([bytes_high, bytes_low]) as usize,
    }
}

// A message's kind and its fields.
#[derive(Clone, Copy)]
struct Told(Message);

impl Display for Told {
    fn fmt<W: fmt::Write>(&self, f: &mut Formatter<W>) -> fmt::Result {
        match self.0 {
            Message::Phase1a { ins, bal } => write!(f, "1a {ins} {bal}"),
            Message::Phase1b {
                ins,
                acc,
                mbal,
                vote: None,
            } => write!(f, "1b {ins} {acc} {mbal} -"),
            Message::Phase1b {
                ins,
                acc,
                mbal,
                vote: Some(Vote { bal, val }),
            } => write!(f, "1b {ins} {acc} {mbal} {bal} {val}"),
            Message::Phase2a { ins, bal, val } => write!(f, "2a {ins} {bal} {val}"),
            Message::Phase2b { ins, acc, bal, val } => write!(f, "2b {ins} {acc} {bal} {val}"),
            Message::Decision { val } => write!(f, "decision {val}"),
        }
    }
}

// What the reader answers: the message, or the refusal.
fn say_read<W: Write>(output: &mut W, plan: Plan, bytes: &[u8]) -> io::Result<()> {
    match codec::read_message(plan, bytes) {
        Ok(m) => {
            let told = Told(m);
            write!(output, "{told}")
        }
        Err(refusal) => {
            let number = refusal.number();
            write!(output, "{number}")
        }
    }
}

// The writer's message: its kind (0 1a, 1 and 2 a 1b without and with a vote, 3 2a, 4 2b, 5 decision), and ins, acc, mbal, bal and val.
// As the stored file has it (tests/calls.py).
fn raw_message(b: &[u8]) -> Message {
    let byte = |k: usize| message::byte_at(b, k);
    let (kind, ins, acc, mbal, bal, val) = (byte(0), byte(1), byte(2), byte(3), byte(4), byte(5));
    match kind {
        0 => Message::Phase1a { ins, bal },
        1 => Message::Phase1b {
            ins,
            acc,
            mbal,
            vote: None,
        },
        2 => Message::Phase1b {
            ins,
            acc,
            mbal,
            vote: Some(Vote { bal, val }),
        },
        3 => Message::Phase2a { ins, bal, val },
        4 => Message::Phase2b { ins, acc, bal, val },
        _ => Message::Decision { val },
    }
}

// What the writer answers: number, eight bytes, length.
fn say_write<W: Write>(output: &mut W, plan: Plan, m: Message) -> io::Result<()> {
    let written = codec::write_message(plan, m);
    let bytes = written.bytes;
    let (number, hex, len) = (written.number, Hex(&bytes), written.len);
    write!(output, "{number} {hex} {len}")
}

// The step of the role; any number above 1 is a leader's, which alone is lent the summary.
fn run_step(
    role: u8,
    plan: Plan,
    table: &mut [u8],
    summary: &mut [u8],
    network: &mut [u8],
    event: &[u8],
) -> Result<Sent, Refusal> {
    match role {
        0 => rm_call::step(plan, table, network, event),
        1 => acceptor_call::step(plan, table, network, event),
        _ => leader_call::step(plan, table, summary, network, event),
    }
}

// A table after a step: `=` where it kept every byte, which begin `old`.
fn say_table<W: Write>(output: &mut W, table: &[u8], old: &[u8]) -> io::Result<()> {
    if old.starts_with(table) {
        return write!(output, " =");
    }
    let hex = Hex(table);
    write!(output, " [{hex}]")
}

// Copies `from` to the beginning of `to`, as far as it has room.
fn copy_bytes(from: &[u8], to: &mut [u8]) {
    let count = from.len().min(to.len());
    to[..count].copy_from_slice(&from[..count]);
}

// Makes the step and prints the answer and the three tables.
fn say_step<W: Write>(
    output: &mut W,
    role: u8,
    plan: Plan,
    table: &mut [u8],
    summary: &mut [u8],
    network: &mut [u8],
    event: &[u8],
) -> io::Result<()> {
    let mut old_table = [0; 65536];
    let mut old_summary = [0; 4096];
    let mut old_network = [0; 65536];
    copy_bytes(table, &mut old_table);
    copy_bytes(summary, &mut old_summary);
    copy_bytes(network, &mut old_network);
    let answer = run_step(role, plan, table, summary, network, event);
    let answered = Answered(answer);
    write!(output, "{answered}")?;
    say_table(output, table, &old_table)?;
    say_table(output, summary, &old_summary)?;
    say_table(output, network, &old_network)
}

fn run_call<W: Write>(
    output: &mut W,
    call: u8,
    plan: Plan,
    table: &mut [u8],
    summary: &mut [u8],
    network: &mut [u8],
    bytes: &[u8],
) -> io::Result<()> {
    match call {
        3 => say_read(output, plan, bytes),
        4 => say_write(output, plan, raw_message(bytes)),
        _ => say_step(output, call, plan, table, summary, network, bytes),
    }
}

// Reads the call's parts into the first bytes of the buffers, and makes it on them. Where one is too long for a buffer, nothing
// is printed.
fn run_parts<R: io::Read, W: Write>(
    input: &mut R,
    output: &mut W,
    head: Head,
    tables: &mut [u8],
    summaries: &mut [u8],
    networks: &mut [u8],
    buffer: &mut [u8],
) -> io::Result<()> {
    let (Some(table), Some(summary), Some(network), Some(bytes)) = (
        tables.get_mut(..head.table),
        summaries.get_mut(..head.summary),
        networks.get_mut(..head.network),
        buffer.get_mut(..head.bytes),
    ) else {
        return Ok(());
    };
    console::read_input(input, table)?;
    console::read_input(input, summary)?;
    console::read_input(input, network)?;
    console::read_input(input, bytes)?;
    run_call(output, head.call, head.plan, table, summary, network, bytes)
}

fn read_call<R: io::Read, W: Write>(input: &mut R, output: &mut W, head: Head) -> io::Result<()> {
    let mut tables = [0; 65536];
    let mut summaries = [0; 4096];
    let mut networks = [0; 65536];
    let mut bytes = [0; 65536];
    run_parts(
        input,
        output,
        head,
        &mut tables,
        &mut summaries,
        &mut networks,
        &mut bytes,
    )?;
    output.write_all(b"\n")
}

// Makes the calls that stand in the input, one after the other.
fn read_calls<R: io::Read, W: Write>(input: &mut R, output: &mut W) -> io::Result<()> {
    for _ in 0..MAX_CALLS {
        let mut bytes = [0; 14];
        if console::read_input(input, &mut bytes)? < 14 {
            return Ok(());
        }
        read_call(input, output, head_of(bytes))?;
    }
    Ok(())
}

fn main(rt: HostRuntime) -> io::Result<()> {
    read_calls(&mut rt.stdin(), &mut rt.stdout())
}
