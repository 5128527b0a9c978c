#![tactic(auto)]
// How stored calls and stored histories are written, for the programs `calls` and `histories`.
//
//     Hex          bytes as hexadecimal digits
//     Answered     what a step answers: 0 with the slot, 0 with - for quiet, or the refusal
use change::Sent;
use message::Refusal;
use std::fmt;
use std::fmt::{Display, Formatter};

#[derive(Clone, Copy)]
pub struct Hex<'a>(pub &'a [u8]);

#[derive(Clone, Copy)]
pub struct Answered(pub Result<Sent, Refusal>);

impl Display for Hex<'_> {
    fn fmt<W: fmt::Write>(&self, f: &mut Formatter<W>) -> fmt::Result {
        for byte in self.0 {
            write!(f, "{byte:02x}")?;
        }
        Ok(())
    }
}

impl Display for Answered {
    fn fmt<W: fmt::Write>(&self, f: &mut Formatter<W>) -> fmt::Result {
        match self.0 {
            Ok(Sent::Slot(slot)) => write!(f, "0 {slot}"),
            Ok(Sent::Quiet) => write!(f, "0 -"),
            Err(refusal) => {
                let number = refusal.number();
                write!(f, "{number}")
            }
        }
    }
}
