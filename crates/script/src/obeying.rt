// Commands, one by one.
ghost use Rattle.listing.specs.Model.{State, step};
ghost use Rattle.card.specs.Verdict.{lines};
ghost use Rattle.script.specs.Printed.{text_of};
ghost use Rattle.script.specs.Serving.{Serves};
ghost use Rattle.script.specs.Transcript.{call_of, called, printed_by, taken, unended};
ghost use Rattle.network.specs.Filters.{Filtering};
ghost use Rattle.std.specs.Prelude.{◌≡◌, ◌++◌, min, OnOk, string_bytes};

use crate::command::Command;
use crate::lines::first_line;
use crate::lister::Lister;
use crate::printing::{print_refusal, print_start, print_walk};
use network::bank::Bank;
use network::refusal::Refusal;
use network::row::BLOCKS;
use std::alloc::AllocError;

// A block or a slot of that number: from 255 on there is neither.
fn byte(n: u32) -> u8
    ensures { result ≡ min n 255 }
{
    n.min(255) as u8
}

impl Lister {
    // Makes the call that a command asks for, and prints its answer. There are never more blocks than places for slots; the least only
    // keeps the slice inside the array.
    fn obey<B: Bank>(
        &mut self,
        bank: &B,
        out: &mut String,
        command: Command,
    ) -> Result<(), AllocError>
        ensures { (f : Filtering) (st : State) → Serves self.old f st → OnOk result (
            Serves self.new f (called command (step st (call_of (B.Bank.meaning bank.now) f command))).state
            × (string_bytes out.new ≡ string_bytes out.old ++ text_of (called command (step st (call_of (B.Bank.meaning bank.now) f command))).printed)) }
    {
        match command {
            Command::Pin { block, slot } => {
                let answer = self.session.pin(byte(block), byte(slot));
                print_start(out, "pin", answer)
            }
            Command::Rewind => {
                let answer = self.session.rewind();
                print_start(out, "rewind", answer)
            }
            Command::Next(budget) => {
                let mut place = [0; BLOCKS];
                let answer = self
                    .session
                    .next(bank, &mut self.filter, budget, &mut place);
                print_walk(out, answer, &place[0..self.blocks.min(BLOCKS)])
            }
        }
    }

    // The same for a line of the command file, which may ask for nothing.
    pub(crate) fn take_line<B: Bank>(
        &mut self,
        bank: &B,
        out: &mut String,
        line: &[u8],
    ) -> Result<(), AllocError>
        ensures { (f : Filtering) (st : State) → Serves self.old f st → OnOk result (
            Serves self.new f (taken (B.Bank.meaning bank.now) f st line.now).state
            × (string_bytes out.new ≡ string_bytes out.old ++ text_of (taken (B.Bank.meaning bank.now) f st line.now).printed)) }
    {
        match Command::read(line) {
            Ok(command) => self.obey(bank, out, command),
            Err(refusal) => print_refusal(out, refusal),
        }
    }

    // All commands of a text, and the bytes after its last newline, which are none.
    pub(crate) fn run<B: Bank>(
        &mut self,
        bank: &B,
        out: &mut String,
        commands: &[u8],
    ) -> Result<(), AllocError>
        ensures { (f : Filtering) (st : State) → Serves self.old f st → OnOk result (string_bytes out.new
            ≡ string_bytes out.old ++ text_of (printed_by (B.Bank.meaning bank.now) f st (lines commands.now).full ++ unended (lines commands.now).rest)) }
    {
        let mut rest = commands;
        while let Some((line, more)) = first_line(rest) {
            self.take_line(bank, out, line)?;
            rest = more;
        }
        if rest.is_empty() {
            Ok(())
        } else {
            print_refusal(out, Refusal::Malformed)
        }
    }
}
