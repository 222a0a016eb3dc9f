// Texts compared by four or eight bytes at once.
ghost use Rattle.std.specs.Prelude.{◌≡◌, ◌≤◌, ◌+◌, length, take, drop, true, IsTrue};
ghost use Rattle.std.specs.Int.{from_le_bytes, w32, w64};
ghost use Rattle.std.specs.Str.{bytes_eq};

// The eight bytes of a text from a place on, as a number.
fn word(text: &[u8], at: usize) -> u64
    requires { at + 8 ≤ length text.now }
    ensures { result ≡ from_le_bytes w64 (take 8 (drop at text.now)) }
{
    u64::from_le_bytes(*text[at..at + 8].first_chunk::<8>().unwrap())
}

/// Whether a text begins with a prefix of 8 to 24 bytes. The second eight bytes that are compared,
/// and the last, may overlap those before them.
pub(crate) fn begins_with(text: &[u8], front: &[u8]) -> bool
    requires least { 8 ≤ length front.now }
    requires most { length front.now ≤ 24 }
    requires room { length front.now ≤ length text.now }
    ensures { IsTrue result → take (length front.now) text.now ≡ front.now }
{
    let last = front.len() - 8;
    let middle = last.min(8);
    if word(text, 0) != word(front, 0) || word(text, middle) != word(front, middle) {
        return false;
    }
    word(text, last) == word(front, last)
}

// The four bytes of a text from a place on, as a number.
fn half_word(text: &[u8], at: usize) -> u32
    requires { at + 4 ≤ length text.now }
    ensures { result ≡ from_le_bytes w32 (take 4 (drop at text.now)) }
{
    u32::from_le_bytes(*text[at..at + 4].first_chunk::<4>().unwrap())
}

/// Whether both texts are the same, found at once where they have four to eight bytes. The four
/// bytes that are compared last may overlap the first.
pub(crate) fn same_text(a: &[u8], b: &[u8]) -> bool
    ensures { IsTrue result → bytes_eq a.now b.now ≡ true }
{
    if a.len() != b.len() {
        return false;
    }
    if b.len() < 4 || b.len() > 8 {
        return a == b;
    }
    let last = b.len() - 4;
    if half_word(a, 0) != half_word(b, 0) {
        return false;
    }
    half_word(a, last) == half_word(b, last)
}
