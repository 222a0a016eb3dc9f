// What a line says.
ghost use Rattle.std.specs.Prelude.{◌≡◌, true, option_map};
ghost use Rattle.std.specs.List.{list_all};
ghost use Rattle.script_lines.specs.Words.{skip_spaces, word, after_word, hour_at, name_at, phase_at, by_hour, by_name, by_range, by_text, is_comment, is_printable, of_words, report_words, said, worded};
ghost use Rattle.script_lines.specs.Words.{load, replace, withdraw, blank, unblank, measures_of as of_hour, offsets, points, verdicts};
ghost use Rattle.row_reader.specs.Stamp.{stamp_in};
ghost use Rattle.script_lines.specs.Seen.{seen};

use row_reader::{read_number, read_stamp};
use sig_base::{Hour, Tenth, Window};

/// An edit for which a line names no file.
#[derive(Clone, Copy, Debug, PartialEq, Eq)]
pub enum PlainEdit {
    /// Takes a held hour out.
    Withdraw(Hour),
    /// Blanks the tenths from the first up to the second, which is left out. They may lie outside
    /// the window.
    Blank(Tenth, Tenth),
    /// Takes such a blank off.
    Unblank(Tenth, Tenth),
}

/// What a line of a script says.
#[derive(Clone, Copy, Debug, PartialEq, Eq)]
pub enum Line<'a> {
    /// A line without words, or a comment.
    Skip,
    /// Any line that is none of the others.
    Bad,
    /// Loads an hour from the file of this name.
    Load(Hour, &'a str),
    /// Replaces a held hour by the file of this name.
    Replace(Hour, &'a str),
    /// An edit for which no file is named.
    Edit(PlainEdit),
    /// The verdicts of all rules in all hours.
    Audit,
    /// The verdicts of all rules in one hour.
    Verdicts(Hour),
    /// The measures of the window.
    Measures,
    /// The measures of one hour.
    MeasuresOf(Hour),
    /// The cycles of a phase, 0 to 99, and the arrivals that end at it. Whether the phase is
    /// configured isn't asked here.
    Points(u8),
    /// The best shift of the approach of this name, and the counts of all its shifts. Whether there
    /// is such an approach isn't asked here.
    Offsets(&'a str),
}

fn without_spaces(text: &[u8]) -> &[u8]
    ensures { result.now ≡ skip_spaces text.now }
{
    for (i, byte) in text.iter().enumerate() {
        if *byte != b' ' {
            return &text[i..];
        }
    }
    &text[text.len()..]
}

fn split_word(text: &[u8]) -> (&[u8], &[u8])
    ensures word { result.0.now ≡ word text.now }
    ensures rest { result.1.now ≡ after_word text.now }
{
    for (i, byte) in text.iter().enumerate() {
        if *byte == b' ' {
            return text.split_at(i);
        }
    }
    text.split_at(text.len())
}

fn are_printable(text: &[u8]) -> bool
    ensures { result ≡ list_all is_printable text.now }
{
    text.iter().all(|b| 32 <= *b && *b <= 126)
}

fn is_comment(text: &[u8]) -> bool
    ensures { result ≡ is_comment text.now }
{
    match text {
        [] => true,
        [first, ..] => *first == b'#',
    }
}

fn hour_of(word: &[u8]) -> Option<Hour>
    ensures { result ≡ hour_at word.now }
{
    read_number(word, 1, 6, 999_999)
}

fn phase_of(word: &[u8]) -> Option<u8>
    ensures { result ≡ phase_at word.now }
{
    let number = read_number(word, 1, 2, 99)?;
    Some(number as u8)
}

fn name_of(word: &[u8]) -> Option<&str>
    requires { list_all is_printable word.now ≡ true }
    ensures { option_map (λ s. s.now) result ≡ name_at word.now }
{
    if word.is_empty() || word.len() > 255 {
        return None;
    }
    match std::str::from_utf8(word) {
        Ok(name) => Some(name),
        Err(_) => unreachable!(),
    }
}

fn load_of<'a>(hour: &[u8], name: &'a [u8]) -> Line<'a>
    requires { list_all is_printable name.now ≡ true }
    ensures { seen result ≡ by_name load (hour_at hour.now) (name_at name.entry.now) }
{
    match (hour_of(hour), name_of(name)) {
        (Some(hour), Some(name)) => Line::Load(hour, name),
        _ => Line::Bad,
    }
}

fn replace_of<'a>(hour: &[u8], name: &'a [u8]) -> Line<'a>
    requires { list_all is_printable name.now ≡ true }
    ensures { seen result ≡ by_name replace (hour_at hour.now) (name_at name.entry.now) }
{
    match (hour_of(hour), name_of(name)) {
        (Some(hour), Some(name)) => Line::Replace(hour, name),
        _ => Line::Bad,
    }
}

fn withdraw_of<'a>(hour: &[u8]) -> Line<'a>
    ensures { seen result ≡ by_hour withdraw (hour_at hour.now) }
{
    match hour_of(hour) {
        Some(hour) => Line::Edit(PlainEdit::Withdraw(hour)),
        None => Line::Bad,
    }
}

fn blank_of<'a>(from: &[u8], to: &[u8], window: &Window) -> Line<'a>
    ensures { seen result ≡ by_range blank (stamp_in window.now from.now)
        (stamp_in window.now to.now) }
{
    match (read_stamp(from, window), read_stamp(to, window)) {
        (Some(from), Some(to)) => Line::Edit(PlainEdit::Blank(from, to)),
        _ => Line::Bad,
    }
}

fn unblank_of<'a>(from: &[u8], to: &[u8], window: &Window) -> Line<'a>
    ensures { seen result ≡ by_range unblank (stamp_in window.now from.now)
        (stamp_in window.now to.now) }
{
    match (read_stamp(from, window), read_stamp(to, window)) {
        (Some(from), Some(to)) => Line::Edit(PlainEdit::Unblank(from, to)),
        _ => Line::Bad,
    }
}

fn verdicts_of<'a>(hour: &[u8]) -> Line<'a>
    ensures { seen result ≡ by_hour verdicts (hour_at hour.now) }
{
    match hour_of(hour) {
        Some(hour) => Line::Verdicts(hour),
        None => Line::Bad,
    }
}

fn measures_of<'a>(hour: &[u8]) -> Line<'a>
    ensures { seen result ≡ by_hour of_hour (hour_at hour.now) }
{
    match hour_of(hour) {
        Some(hour) => Line::MeasuresOf(hour),
        None => Line::Bad,
    }
}

fn points_of<'a>(phase: &[u8]) -> Line<'a>
    ensures { seen result ≡ by_hour points (phase_at phase.now) }
{
    match phase_of(phase) {
        Some(phase) => Line::Points(phase),
        None => Line::Bad,
    }
}

fn offsets_of<'a>(name: &'a [u8]) -> Line<'a>
    requires { list_all is_printable name.now ≡ true }
    ensures { seen result ≡ by_text offsets (name_at name.entry.now) }
{
    match name_of(name) {
        Some(name) => Line::Offsets(name),
        None => Line::Bad,
    }
}

// The line of these words, if it asks for a report: the first, the second, and what follows them.
fn read_report<'a>(verb: &[u8], second: &'a [u8], rest: &[u8]) -> Line<'a>
    requires { list_all is_printable second.now ≡ true }
    ensures { seen result ≡ report_words verb.now second.entry.now rest.now }
{
    if verb == b"audit".as_slice() {
        if !second.is_empty() {
            return Line::Bad;
        }
        return Line::Audit;
    }
    if verb == b"verdicts".as_slice() {
        if !rest.is_empty() {
            return Line::Bad;
        }
        return verdicts_of(second);
    }
    if verb == b"measures".as_slice() {
        if second.is_empty() {
            return Line::Measures;
        }
        if !rest.is_empty() {
            return Line::Bad;
        }
        return measures_of(second);
    }
    if verb == b"points".as_slice() {
        if !rest.is_empty() {
            return Line::Bad;
        }
        return points_of(second);
    }
    if verb == b"offsets".as_slice() {
        if !rest.is_empty() {
            return Line::Bad;
        }
        return offsets_of(second);
    }
    Line::Bad
}

// The line of these words: the first, the second, the third, and what follows them.
fn read_words<'a>(
    verb: &[u8],
    second: &'a [u8],
    third: &'a [u8],
    rest: &[u8],
    window: &Window,
) -> Line<'a>
    requires second { list_all is_printable second.now ≡ true }
    requires third { list_all is_printable third.now ≡ true }
    ensures { seen result ≡ of_words window.now verb.now second.entry.now third.entry.now rest.now }
{
    if verb == b"load".as_slice() {
        if !rest.is_empty() {
            return Line::Bad;
        }
        return load_of(second, third);
    }
    if verb == b"replace".as_slice() {
        if !rest.is_empty() {
            return Line::Bad;
        }
        return replace_of(second, third);
    }
    if verb == b"withdraw".as_slice() {
        if !third.is_empty() {
            return Line::Bad;
        }
        return withdraw_of(second);
    }
    if verb == b"blank".as_slice() {
        if !rest.is_empty() {
            return Line::Bad;
        }
        return blank_of(second, third, window);
    }
    if verb == b"unblank".as_slice() {
        if !rest.is_empty() {
            return Line::Bad;
        }
        return unblank_of(second, third, window);
    }
    read_report(verb, second, third)
}

#[tactic(auto, unfolding(crate::specs::Words::worded))]
fn read_worded<'a>(line: &'a [u8], window: &Window) -> Line<'a>
    requires { list_all is_printable line.now ≡ true }
    ensures { seen result ≡ worded window.now line.entry.now }
{
    let (first, rest) = split_word(without_spaces(line));
    let (second, rest) = split_word(without_spaces(rest));
    let (third, rest) = split_word(without_spaces(rest));
    read_words(first, second, third, without_spaces(rest), window)
}

/// What a line says, without its end. The stamps of a blank are read in this window and may lie
/// outside it.
#[tactic(auto, unfolding(crate::specs::Words::said))]
pub fn read_line<'a>(line: &'a [u8], window: &Window) -> Line<'a>
    ensures { seen result ≡ said window.now line.entry.now }
{
    if is_comment(without_spaces(line)) {
        return Line::Skip;
    }
    if !are_printable(line) {
        return Line::Bad;
    }
    read_worded(line, window)
}
