#![tactic(auto)]
// The text of a rehearsal (document 01, "The rehearsal"), for the rehearsal and for the same in words.
//
//     word_of                              the last line
//     put_words, put_line, put_ending      a text at a place of a lent buffer: where it ends
//
// What they mean stands in specs/. No public function has a `requires`: text is put as far as the buffer has room. Buffer and place are two
// parameters: a struct that held both would need one clause more for each function that takes it, that the buffer in it is still the same.
ghost use Rattle.std.specs.Prelude.{◌≡◌};
ghost use Rattle.rehearsal_text.specs.Text.{line, word_of, put_of, put};

use ending::Ending;

// The last line.
pub fn word_of(ending: Ending) -> &'static str
    ensures { result.now ≡ word_of ending }
{
    match ending {
        Ending::Committed => "COMMITTED\n",
        Ending::Aborted => "ABORTED\n",
        Ending::Open => "OPEN\n",
    }
}

// Puts words at a place: where they end.
#[tactic(auto, using(crate::proofs::Putting::words_put))]
pub fn put_words(output: &mut [u8], at: usize, words: &[u8]) -> usize
    ensures { put_of result output.new ≡ put at words.now output.old }
{
    if output.len() <= at {
        return at;
    }
    let count = words.len().min(output.len() - at);
    output[at..at + count].copy_from_slice(&words[..count]);
    at + count
}

// Puts the line of a number at a place: where it ends. One digit by itself: so an edit of its LF alone is refused by the contract, and by nothing
// else.
pub fn put_line(output: &mut [u8], at: usize, number: u8) -> usize
    ensures { put_of result output.new ≡ put at (line number) output.old }
{
    if number < 10 {
        return put_words(output, at, &[b'0' + number, b'\n']);
    }
    let mut digits = itoa::Buffer::new();
    let end = put_words(output, at, digits.format(number).as_bytes());
    put_words(output, end, b"\n")
}

// Puts the last line at a place: where it ends.
pub fn put_ending(output: &mut [u8], at: usize, ending: Ending) -> usize
    ensures { put_of result output.new ≡ put at (word_of ending) output.old }
{
    put_words(output, at, word_of(ending).as_bytes())
}
