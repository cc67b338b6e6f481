// A card read into memory.
ghost use Rattle.card.specs.Example.{WorkedCard};
ghost use Rattle.card.specs.Layout.{SameLoans, layout, memory_in, over, sizes_of};
ghost use Rattle.card.specs.Reads.{Accepts, SpellsExactly, answer_for, fits, judgement, memory_after};
ghost use Rattle.card.specs.Spelling.{Network};
ghost use Rattle.card.specs.Verdict.{spelled, verdict};
ghost use Rattle.std.specs.Prelude.{◌≡◌, ◌≤◌, true, length};

use crate::places::Places;
use crate::reader::Reader;
use crate::refusal::CardRefusal;
use crate::sizes::Sizes;
use network::refusal::Refusal;

const MAX_BYTES: usize = 32768;

// What the network takes of each place, if the card is good; otherwise the first faulty line and why.
fn judge(card: &[u8]) -> Result<Sizes, CardRefusal>
    ensures { result ≡ judgement (verdict card.now) }
{
    if card.len() > MAX_BYTES {
        return Err(CardRefusal {
            refusal: Refusal::LimitExceeded,
            line: 0,
        });
    }
    let mut reader = Reader::new(card);
    let mut sizes = Sizes::default();
    while let Some(entry) = reader.next_entry()? {
        sizes = sizes.with(entry);
    }
    Ok(sizes)
}

// The same, where the network finds that much room.
fn judge_for(card: &[u8], room: Sizes) -> Result<Sizes, CardRefusal>
    ensures { result ≡ answer_for (verdict card.now) room }
{
    let sizes = judge(card)?;
    if !sizes.fit(room) {
        return Err(CardRefusal {
            refusal: Refusal::PlaceTooShort,
            line: 0,
        });
    }
    Ok(sizes)
}

// Writes the network that a good card spells, where there is room for it.
fn fill(card: &[u8], places: &mut Places)
    requires short { length card.now ≤ 32768 }
    requires room { (x : Network) × (verdict card.now ≡ spelled x) × (fits (sizes_of (layout x)) (sizes_of (memory_in places.old)) ≡ true) }
    ensures loans { SameLoans places.old places.new }
    ensures written { (x : Network) → verdict card.now ≡ spelled x →
        memory_in places.new
        ≡ over (layout x) (memory_in places.old) }
{
    let mut reader = Reader::new(card);
    let mut filled = Sizes::default();
    while let Ok(Some(entry)) = reader.next_entry() {
        entry.put(filled, places);
        filled = filled.with(entry);
    }
}

// Reads a card: judges it whole, and then writes the network that it spells to the front of each place. Answers how much of each it filled.
#[tactic(auto, using(crate::proofs::Accepting::exactly, crate::specs::Example::worked_card))]
pub fn read(card: &[u8], places: &mut Places) -> Result<Sizes, CardRefusal>
    ensures verdict { result ≡ answer_for (verdict card.now) (sizes_of (memory_in places.old)) }
    ensures memory { memory_in places.new ≡ memory_after (verdict card.now) (memory_in places.old) }
    ensures accepts { Accepts card.now (memory_in places.new) result }
    ensures spelling { (x : Network) → SpellsExactly card.now x }
    ensures example { WorkedCard }
    ensures loans { SameLoans places.old places.new }
{
    let sizes = judge_for(card, places.room())?;
    fill(card, places);
    Ok(sizes)
}
