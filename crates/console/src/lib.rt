#![tactic(auto)]
// Standard input, standard output and standard error, for the programs.
//
//     read_input     what standard input gave: how many bytes, or why it can't be read
//     write          bytes, on the writer that is lent: how many were written
//     print          the first bytes of a buffer, on standard output
//     complain       a sentence, on standard error
//
// Each is given the reader or the writer that it uses, as `rt.stdin()`. No contract can say what the system reads or writes, but how many
// bytes; of a reader or a writer whose bytes are known these say which bytes. No public function has a `requires`.
ghost use Rattle.std.specs.Io.KnownBytes.{Appends};
ghost use Rattle.std.specs.Prelude.{◌≤◌, min, ◌≡◌, length, take};
ghost use Rattle.console.specs.Console.{Filled, Taken};

use std::io;
use std::io::{Read, Write};

// Reads until the buffer is full or the input ends: how many bytes begin the buffer. `read_exact` would not say how many where the input ends before.
pub fn read_input<R: Read>(stdin: &mut R, buffer: &mut [u8]) -> io::Result<usize>
    ensures filled { Filled result buffer.old buffer.new }
    ensures taken { Taken result (R.remaining stdin.old) (R.remaining stdin.new) buffer.new }
{
    let mut done = 0;
    while done < buffer.len() {
        let more = stdin.read(&mut buffer[done..])?;
        if more == 0 {
            return Ok(done);
        }
        done += more;
    }
    Ok(done)
}

// Writes bytes until all are written or a write fails: how many were written, which `write_all` would not say where one fails.
pub fn write<W: Write>(writer: &mut W, bytes: &[u8]) -> usize
    ensures count { result ≤ length bytes.now }
    ensures bytes { Appends (W.contents writer.old) (W.contents writer.new) (take result bytes.now) }
{
    let mut done = 0;
    while done < bytes.len() {
        let Ok(taken) = writer.write(&bytes[done..]) else {
            return done;
        };
        if taken == 0 {
            return done;
        }
        done += taken;
    }
    done
}

// Writes the first `count` bytes of the buffer, or all where it has fewer: how many were written, fewer where a write fails. Buffer and count are
// two parameters: what it promises of a count above the buffer's length is held by an edit.
pub fn print<W: Write>(stdout: &mut W, buffer: &[u8], count: usize) -> usize
    ensures count { result ≤ min count (length buffer.now) }
    ensures bytes { Appends (W.contents stdout.old) (W.contents stdout.new) (take result buffer.now) }
{
    let end = count.min(buffer.len());
    write(stdout, &buffer[..end])
}

// Writes a sentence on standard error: how many bytes were written.
pub fn complain<W: Write>(stderr: &mut W, sentence: &[u8]) -> usize
    ensures count { result ≤ length sentence.now }
    ensures bytes { Appends (W.contents stderr.old) (W.contents stderr.new) (take result sentence.now) }
{
    write(stderr, sentence)
}
