// The words that a value may be. One generic function over a table of words and their meanings was tried: its proof did not close.
ghost use Rattle.card.specs.Verdict.{same_bytes};
ghost use Rattle.card.specs.Words.{kind_read, net_read, rule_read};
ghost use Rattle.std.specs.Prelude.{◌≡◌};

use banks::rule::Rule;
use banks::table::Kind;
use network::refusal::Refusal;

// Whether the text is that word. A `match` on byte strings would not do: where no word fits, it leaves a proof no fact of the bytes.
#[tactic(auto, using(crate::proofs::Texts::told))]
pub fn is_word(text: &[u8], word: &[u8]) -> bool
    ensures { result ≡ same_bytes text.now word.now }
{
    text == word
}

pub(crate) fn kind_in(value: &[u8]) -> Result<Kind, Refusal>
    ensures { result ≡ kind_read value.now }
{
    if is_word(value, b"allow") {
        Ok(Kind::Allow)
    } else if is_word(value, b"deny") {
        Ok(Kind::Deny)
    } else {
        Err(Refusal::Malformed)
    }
}

pub(crate) fn rule_in(value: &[u8]) -> Result<Rule, Refusal>
    ensures { result ≡ rule_read value.now }
{
    if is_word(value, b"notequal") {
        Ok(Rule::NotEqual)
    } else if is_word(value, b"alldiff") {
        Ok(Rule::AllDiff)
    } else {
        Err(Refusal::Malformed)
    }
}

pub(crate) fn net_in(value: &[u8]) -> Result<(), Refusal>
    ensures { result ≡ net_read value.now }
{
    if is_word(value, b"net") {
        Ok(())
    } else {
        Err(Refusal::Malformed)
    }
}
