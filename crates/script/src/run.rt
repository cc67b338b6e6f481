// A card and a command file, and what is printed for them.
ghost use Rattle.card.specs.Verdict.{verdict};
ghost use Rattle.listing.specs.Model.{accepted, blank, open_call, step};
ghost use Rattle.script.specs.Example.{WorkedCase};
ghost use Rattle.script.specs.Listed.{ListsAlong};
ghost use Rattle.script.specs.Printed.{text_of};
ghost use Rattle.script.specs.Transcript.{command_lines, printed, transcript};
ghost use Rattle.std.specs.Prelude.{◌≡◌, ◌++◌, ◌≤◌, IfOk, OnOk, length, string_bytes};

use crate::begin::begin;
use crate::lister::Lister;
use crate::printing::print_refusal;
use crate::room::Room;
use listing::session::Session;
use network::bank::Bank;
use std::alloc::{AllocError, Global};

// Prints what a command file prints on a network that can be opened.
fn run_commands<B: Bank>(
    out: &mut String,
    bank: &B,
    masks: &[u32],
    commands: &[u8],
) -> Result<(), AllocError>
    requires opens { (step blank (open_call (B.Bank.meaning bank.now) masks.now)).answer ≡ accepted }
    requires few { length masks.now ≤ 32 }
    ensures { OnOk result (string_bytes out.new ≡ string_bytes out.old ++ text_of (command_lines (B.Bank.meaning bank.now) masks.now commands.now)) }
{
    let (filter, rest) = match begin(commands) {
        Ok(begun) => begun,
        Err(refusal) => return print_refusal(out, refusal),
    };
    let mut session = Session::blank();
    // it never refuses a network that can be opened
    if let Err(refusal) = session.open(bank, masks) {
        return print_refusal(out, refusal);
    }
    let blocks = masks.len();
    let mut lister = Lister {
        session,
        filter,
        blocks,
    };
    lister.run(bank, out, rest)
}

// Prints what a card and a command file print.
fn run_card(out: &mut String, card: &[u8], commands: &[u8]) -> Result<(), AllocError>
    ensures { OnOk result (string_bytes out.new ≡ string_bytes out.old ++ transcript card.now commands.now) }
{
    let mut room = Room::new();
    match room.read(card) {
        Ok(sizes) => run_commands(out, &room.bank(sizes), room.masks(sizes), commands),
        Err(fault) => print_refusal(out, fault.refusal),
    }
}

// The text that is printed for a card and a command file. Its one error is want of memory.
#[tactic(auto, using(crate::specs::Example::worked_case))]
pub fn run(alloc: Global, card: &[u8], commands: &[u8]) -> Result<String, AllocError>
    ensures transcript { IfOk result (λ text. string_bytes text ≡ transcript card.now commands.now) }
    ensures plans { IfOk result (λ text. ListsAlong card.now commands.now (string_bytes text)) }
    ensures example { WorkedCase }
{
    let mut text = String::new(alloc);
    run_card(&mut text, card, commands)?;
    Ok(text)
}
