// The lines of a text.
ghost use Rattle.std.specs.Prelude.{◌≡◌, ◌≤◌, length};
ghost use Rattle.script_lines.specs.Lines.{after_line, end_length, first_line};

// How many bytes the end of a line takes at the front of this text; 0 where it doesn't end here.
fn end_of_line(text: &[u8]) -> usize
    ensures value { result ≡ end_length text.now }
    ensures within { result ≤ length text.now }
{
    match text {
        [b'\n', ..] => 1,
        [b'\r', b'\n', ..] => 2,
        _ => 0,
    }
}

/// Parts a text at the first end of a line: a line feed, with a carriage return before it, or the
/// end of the text.
pub fn split_line(text: &[u8]) -> (&[u8], &[u8])
    ensures line { result.0.now ≡ first_line text.now }
    ensures rest { result.1.now ≡ after_line text.now }
{
    for (i, _byte) in text.iter().enumerate() {
        let end = end_of_line(&text[i..]);
        if end != 0 {
            return (&text[..i], &text[i + end..]);
        }
    }
    (text, &text[text.len()..])
}
