// The lines of a text.
ghost use Rattle.script.specs.Serving.{FirstLine};

use card::place::place_of;

// The first line, without its newline, and what comes after it.
pub(crate) fn first_line(text: &[u8]) -> Option<(&[u8], &[u8])>
    ensures { FirstLine text.now result }
{
    let end = place_of(text, b'\n')?;
    Some((&text[0..end], &text[end + 1..]))
}
