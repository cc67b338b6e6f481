// The lines that are printed.
ghost use Rattle.card.specs.Spelling.{listed};
ghost use Rattle.listing.specs.Walked.{outcome_named};
ghost use Rattle.listing.specs.Represents.{done_of, walked_of};
ghost use Rattle.network.specs.Refusals.{number_of};
ghost use Rattle.script.specs.Printed.{End, bytes_of, end_line, end_word, plan_line, refused_line, text_of, visits_line, walked};
ghost use Rattle.script.specs.Transcript.{answer_lines};
ghost use Rattle.std.specs.Prelude.{◌≡◌, ℕ, List, ◌++◌, OnOk, string_bytes, take};

use listing::outcome::Outcome;
use network::refusal::Refusal;
use std::alloc::AllocError;

pub(crate) fn print_refusal(out: &mut String, refusal: Refusal) -> Result<(), AllocError>
    ensures { OnOk result (string_bytes out.new ≡ string_bytes out.old ++ bytes_of (refused_line (number_of refusal))) }
{
    let number = u8::from(refusal);
    write!(out, "refused={number}\n")
}

fn print_outcome(out: &mut String, outcome: Outcome) -> Result<(), AllocError>
    ensures { OnOk result (string_bytes out.new ≡ string_bytes out.old ++ bytes_of (end_line (walked (outcome_named outcome)))) }
{
    write!(out, "outcome={outcome}\n")
}

fn print_visits(out: &mut String, visits: u32) -> Result<(), AllocError>
    ensures { OnOk result (string_bytes out.new ≡ string_bytes out.old ++ bytes_of (visits_line visits)) }
{
    write!(out, "visits={visits}\n")
}

// How a call ended that starts over: accepted, with its word, or refused.
pub(crate) fn print_start(
    out: &mut String,
    word: &str,
    answer: Result<(), Refusal>,
) -> Result<(), AllocError>
    ensures { (end : End) → word.now ≡ end_word end → OnOk result (string_bytes out.new ≡ string_bytes out.old ++ text_of (answer_lines end (done_of answer))) }
{
    match answer {
        Ok(()) => write!(out, "outcome={word}\n"),
        Err(refusal) => print_refusal(out, refusal),
    }
}

// How a call ended that visits nodes: its outcome, the plan if it shows one, and the visits; or refused.
pub(crate) fn print_walk(
    out: &mut String,
    answer: Result<(Outcome, u32), Refusal>,
    slots: &[u8],
) -> Result<(), AllocError>
    ensures { (end : End) (n : ℕ) (place : List ℕ) → slots.now ≡ take n place → OnOk result (string_bytes out.new ≡ string_bytes out.old ++ text_of (answer_lines end (walked_of n place answer))) }
{
    match answer {
        Ok((outcome, visits)) => {
            print_outcome(out, outcome)?;
            if let Outcome::Plan = outcome {
                print_plan(out, slots)?;
            }
            print_visits(out, visits)
        }
        Err(refusal) => print_refusal(out, refusal),
    }
}

// The slots of a plan, with commas between them.
#[tactic(auto, using(crate::proofs::Commas::listed_cons))]
fn print_slots(out: &mut String, slots: &[u8]) -> Result<(), AllocError>
    ensures { OnOk result (string_bytes out.new ≡ string_bytes out.old ++ listed slots.now) }
{
    let [first, rest @ ..] = slots else {
        return Ok(());
    };
    write!(out, "{first}")?;
    for slot in rest {
        write!(out, ",{slot}")?;
    }
    Ok(())
}

fn print_plan(out: &mut String, slots: &[u8]) -> Result<(), AllocError>
    ensures { OnOk result (string_bytes out.new ≡ string_bytes out.old ++ bytes_of (plan_line slots.now)) }
{
    out.push_str("plan=")?;
    print_slots(out, slots)?;
    out.push_str("\n")
}
