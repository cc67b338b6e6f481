// Where a byte first stands in a text.
ghost use Rattle.std.specs.Prelude.{◌≡◌, ◌==◌, position};
ghost use Rattle.card.specs.Parts.{CutAt};

fn first_of(bytes: &[u8], byte: u8) -> Option<usize>
    ensures { result ≡ position (λ b. b == byte) bytes.now }
{
    bytes.iter().position(|b| *b == byte)
}

#[tactic(auto, using(crate::proofs::Cuts::cut_position))]
pub fn place_of(bytes: &[u8], byte: u8) -> Option<usize>
    ensures { CutAt byte bytes.now result }
{
    first_of(bytes, byte)
}
