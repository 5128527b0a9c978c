#![tactic(auto)]
// Makes stored histories on the record, each some event calls and list calls from an opened record or from given tables, and prints after
// each call its answer and a digest of the five tables (document 01, "The plan and four tables", "The nine events", "Refusals by place";
// document 02, Papers 2 and 5).
//
// The histories stand in the file stdin beside src/. tests/histories.py says how history and lines are written and chooses the events;
// tests/model.py works out from documents 01 and 02 alone what each call answers and stores. Those lines are the file stdout, and the check
// compares the two.
//
//     Head, head_of                   how a history begins, and its plan
//     Tables                          the five tables
//     read_number                     a number of two bytes of standard input
//     read_end, read_part             as many bytes of a buffer as the next number says
//     fold, say_digest                every byte of W, Q, N, I and the summary, as one number below a prime
//     say_table                       a table without the zeros at its end
//     run_event                       an event call
//     run_list, run_large             a list call, and what it is lent for the answers
//     run_calls, run                  the calls of a history on the parts of buffers that are its tables
//     run_histories                   all histories
//
// A read or a write that fails ends the program with its error.
//
// Each function is proved to be safe and to end; none has a contract on what it prints. Assumes nothing of its own.
ghost use Rattle.std.specs.Prelude.{◌≤◌, length, IfOk};

use message::{Plan, Refusal};
use std::io;
use std::io::{Read, Write};
use stored::{Answered, Hex};

const MAX_HISTORIES: usize = 65536;

// The largest prime below 2^32.
const PRIME: u64 = 4294967291;

// In place of an event's length: a list call. As the stored file has it (tests/histories.py).
const LIST: u8 = 255;

// How the record begins (0 zeros and opened, 1 given tables and opened, 2 given tables; 4 more where the tables are not shown at the end),
// and the plan. As the stored file has it (tests/histories.py).
#[derive(Clone, Copy)]
struct Head {
    mode: u8,
    plan: Plan,
}

fn head_of(b: [u8; 6]) -> Head {
    let [mode, rms, acceptors, leaders, order_high, order_low] = b;
    let plan = Plan {
        rms,
        acceptors,
        leaders,
        order: u16::from_be_bytes([order_high, order_low]),
    };
    Head { mode, plan }
}

// The tables W, Q, N and I of a record, and the summary.
#[derive(Drop)]
struct Tables<'a> {
    states: &'a mut [u8],
    votes: &'a mut [u8],
    network: &'a mut [u8],
    inboxes: &'a mut [u8],
    summary: &'a mut [u8],
}

// One byte more of a number that is written with the lowest byte first and read from its end, modulo the prime.
fn fold_byte(sum: u32, byte: u8) -> u32 {
    if sum == 0 {
        return byte as u32;
    }
    (((sum as u64) * 256 + (byte as u64)) % PRIME) as u32
}

fn fold(bytes: &[u8], after: u32) -> u32 {
    bytes
        .iter()
        .rev()
        .fold(after, |sum, byte| fold_byte(sum, *byte))
}

// The bytes of W, Q, N, I and the summary, one after the other, as one number modulo the prime, the lowest byte first.
fn say_digest<W: Write>(output: &mut W, tables: &Tables<'_>) -> io::Result<()> {
    let last = fold(tables.inboxes, fold(tables.summary, 0));
    let sum = fold(
        tables.states,
        fold(tables.votes, fold(tables.network, last)),
    );
    write!(output, " {sum:08x}\n")
}

// What an opening and a list call answer: 0 or the refusal.
fn say_judged<W: Write>(output: &mut W, call: &str, judged: Result<(), Refusal>) -> io::Result<()> {
    let number = message::number_of(judged);
    write!(output, "{call} {number}")
}

// The bytes of a table before the zeros at its end.
fn used(table: &[u8]) -> &[u8] {
    match table.iter().rposition(|byte| *byte != 0) {
        Some(last) => &table[..=last],
        None => &[],
    }
}

// A table in hexadecimal, without the zeros at its end.
fn say_table<W: Write>(output: &mut W, table: &[u8]) -> io::Result<()> {
    let hex = Hex(used(table));
    write!(output, "[{hex}]\n")
}

fn say_tables<W: Write>(output: &mut W, mode: u8, tables: &Tables<'_>) -> io::Result<()> {
    if 4 <= mode {
        return Ok(());
    }
    say_table(output, tables.states)?;
    say_table(output, tables.votes)?;
    say_table(output, tables.network)?;
    say_table(output, tables.inboxes)?;
    say_table(output, tables.summary)
}

// A number of two bytes, the higher first. Where the input ends before, 0.
fn read_number<R: Read>(input: &mut R) -> io::Result<usize> {
    let mut bytes = [0; 2];
    if console::read_input(input, &mut bytes)? < 2 {
        return Ok(0);
    }
    Ok(u16::from_be_bytes(bytes) as usize)
}

// Reads where a part at the start of the buffer ends, and lends the part.
fn read_end<'a, R: Read>(input: &mut R, buffer: &'a mut [u8]) -> io::Result<&'a mut [u8]>
    ensures { IfOk result (λ part. length part.now ≤ length buffer.old) }
{
    let end = read_number(input)?.min(buffer.len());
    Ok(&mut buffer[..end])
}

// The same, and then the part's bytes.
fn read_part<'a, R: Read>(input: &mut R, buffer: &'a mut [u8]) -> io::Result<&'a mut [u8]>
    ensures { IfOk result (λ part. length part.now ≤ length buffer.old) }
{
    let part = read_end(input, buffer)?;
    console::read_input(input, part)?;
    Ok(part)
}

// Reads an event of the length, and makes it.
fn run_event<R: Read, W: Write>(
    input: &mut R,
    output: &mut W,
    plan: Plan,
    tables: &mut Tables<'_>,
    event: &mut [u8],
) -> io::Result<()> {
    console::read_input(input, event)?;
    let answered = Answered(record::step(
        plan,
        tables.states,
        tables.votes,
        tables.network,
        tables.inboxes,
        tables.summary,
        event,
    ));
    write!(output, "{answered}")
}

// A list call's answer, and those to its events.
fn say_run<W: Write>(
    output: &mut W,
    judged: Result<(), Refusal>,
    answers: &[u8],
) -> io::Result<()> {
    say_judged(output, "run", judged)?;
    let hex = Hex(answers);
    write!(output, " [{hex}]")
}

// Reads how long the answers are, and a list, and makes the list call.
fn run_list<R: Read, W: Write>(
    input: &mut R,
    output: &mut W,
    plan: Plan,
    tables: &mut Tables<'_>,
    buffer: &mut [u8],
    lent: &mut [u8],
) -> io::Result<()> {
    let answers = read_end(input, lent)?;
    let events = read_part(input, buffer)?;
    let judged = batch::run(
        plan,
        tables.states,
        tables.votes,
        tables.network,
        tables.inboxes,
        tables.summary,
        events,
        answers,
    );
    say_run(output, judged, answers)
}

// A list call, on buffers of its own. Each byte of the answers is AA before it, which is no number.
fn run_large<R: Read, W: Write>(
    input: &mut R,
    output: &mut W,
    plan: Plan,
    tables: &mut Tables<'_>,
) -> io::Result<()> {
    let mut large = [0; 65536];
    let mut lent = [0xaa; 65536];
    run_list(input, output, plan, tables, &mut large, &mut lent)
}

// Makes the call that begins with the byte.
fn run_call<R: Read, W: Write>(
    input: &mut R,
    output: &mut W,
    plan: Plan,
    tables: &mut Tables<'_>,
    size: u8,
) -> io::Result<()> {
    if size == LIST {
        return run_large(input, output, plan, tables);
    }
    let mut event = [0; 256];
    run_event(input, output, plan, tables, &mut event[..size as usize])
}

fn run_calls<R: Read, W: Write>(
    input: &mut R,
    output: &mut W,
    plan: Plan,
    tables: &mut Tables<'_>,
) -> io::Result<()> {
    let count = read_number(input)?;
    for _ in 0..count {
        let mut byte = [0; 1];
        if console::read_input(input, &mut byte)? < 1 {
            return Ok(());
        }
        let [size] = byte;
        run_call(input, output, plan, tables, size)?;
        say_digest(output, tables)?;
    }
    Ok(())
}

// What the tables hold before the first call, where it is given.
fn read_tables<R: Read>(input: &mut R, mode: u8, tables: &mut Tables<'_>) -> io::Result<()> {
    if mode % 4 == 0 {
        return Ok(());
    }
    read_part(input, tables.states)?;
    read_part(input, tables.votes)?;
    read_part(input, tables.network)?;
    read_part(input, tables.inboxes)?;
    read_part(input, tables.summary)?;
    Ok(())
}

// Opens the record, where the history says so.
fn run_open<W: Write>(
    output: &mut W,
    mode: u8,
    plan: Plan,
    tables: &mut Tables<'_>,
) -> io::Result<()> {
    if mode % 4 == 2 {
        return Ok(());
    }
    let judged = opening::open(
        plan,
        tables.states,
        tables.votes,
        tables.network,
        tables.inboxes,
        tables.summary,
    );
    say_judged(output, "open", judged)?;
    say_digest(output, tables)
}

fn run<R: Read, W: Write>(
    input: &mut R,
    output: &mut W,
    mode: u8,
    plan: Plan,
    tables: &mut Tables<'_>,
) -> io::Result<()> {
    read_tables(input, mode, tables)?;
    run_open(output, mode, plan, tables)?;
    run_calls(input, output, plan, tables)?;
    say_tables(output, mode, tables)
}

// Reads how long the tables are, and lends the first bytes of the buffers as these.
fn run_parts<R: Read, W: Write>(
    input: &mut R,
    output: &mut W,
    head: Head,
    buffers: &mut Tables<'_>,
) -> io::Result<()> {
    let mut tables = Tables {
        states: read_end(input, buffers.states)?,
        votes: read_end(input, buffers.votes)?,
        network: read_end(input, buffers.network)?,
        inboxes: read_end(input, buffers.inboxes)?,
        summary: read_end(input, buffers.summary)?,
    };
    run(input, output, head.mode, head.plan, &mut tables)
}

fn run_history<R: Read, W: Write>(input: &mut R, output: &mut W, head: Head) -> io::Result<()> {
    let mut states = [0; 65536];
    let mut votes = [0; 65536];
    let mut network = [0; 65536];
    let mut inboxes = [0; 65536];
    let mut summary = [0; 4096];
    let mut buffers = Tables {
        states: &mut states,
        votes: &mut votes,
        network: &mut network,
        inboxes: &mut inboxes,
        summary: &mut summary,
    };
    run_parts(input, output, head, &mut buffers)
}

// Makes the histories that stand in the input, one after the other.
fn run_histories<R: Read, W: Write>(input: &mut R, output: &mut W) -> io::Result<()> {
    for _ in 0..MAX_HISTORIES {
        let mut bytes = [0; 6];
        if console::read_input(input, &mut bytes)? < 6 {
            return Ok(());
        }
        run_history(input, output, head_of(bytes))?;
    }
    Ok(())
}

fn main(rt: HostRuntime) -> io::Result<()> {
    run_histories(&mut rt.stdin(), &mut rt.stdout())
}
