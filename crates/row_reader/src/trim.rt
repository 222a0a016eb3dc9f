// A field without the spaces at its ends.
ghost use Rattle.std.specs.Prelude.{◌≡◌, IsTrue};
ghost use Rattle.row_reader.specs.Trim.{trim_end, trim_front, trimmed};

fn trim_front(text: &[u8]) -> &[u8]
    ensures { result.now ≡ trim_front text.now }
{
    let mut rest = text;
    while let [b' ', after @ ..] = rest {
        rest = after;
    }
    rest
}

fn trim_end(text: &[u8]) -> &[u8]
    ensures { result.now ≡ trim_end text.now }
{
    let mut rest = text;
    while let [before @ .., last] = rest {
        if *last != b' ' {
            return rest;
        }
        rest = before;
    }
    rest
}

pub(crate) fn trimmed(text: &[u8]) -> &[u8]
    ensures { result.now ≡ trimmed text.now }
{
    trim_end(trim_front(text))
}

/// Whether a text has two bytes or more and no space at its ends.
pub(crate) fn is_plain(text: &[u8]) -> bool
    ensures { IsTrue result → trimmed text.now ≡ text.now }
{
    match text {
        [first, .., last] if *first != b' ' && *last != b' ' => true,
        _ => false,
    }
}
