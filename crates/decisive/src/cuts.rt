// A channel's moves cut at a tenth or at a place, by halving.
ghost use Rattle.std.specs.Prelude.{◌≡◌, ◌+◌, List};
ghost use Rattle.channel_path.specs.declared.moves.Move.{Move};
ghost use Rattle.decisive.specs.Cuts.{IsCutBy, begins_before, stands_before};

use channel_path::Move;

// Whether it is a letter before the tenth, or a gap that begins before it.
fn begins_before(one: Move, tenth: u64) -> bool
    ensures { result ≡ begins_before tenth one }
{
    match one {
        Move::Letter {
            at,
            letter: _letter,
            row: _row,
        } => (at as u64) < tenth,
        Move::Gap { from, to: _to } => (from as u64) < tenth,
    }
}

// Whether it is a letter of one of the first rows, or a gap that begins before the tenth.
fn stands_before(one: Move, place: usize, tenth: u32) -> bool
    ensures { result ≡ stands_before place tenth one }
{
    match one {
        Move::Letter {
            at: _at,
            letter: _letter,
            row,
        } => (row as usize) < place,
        Move::Gap { from, to: _to } => from < tenth,
    }
}

/// The moves up to the tenth, those that begin in it with them.
pub(crate) fn moves_to(moves: &[Move], tenth: u32) -> &[Move]
    ensures { (xs ys : List Move) → IsCutBy (begins_before (tenth + 1)) moves.now xs ys
        → result.now ≡ xs }
{
    let end = tenth as u64 + 1;
    let (first, _later) = moves.split_at(moves.partition_point(|one| begins_before(*one, end)));
    first
}

/// The moves from the tenth on.
pub(crate) fn moves_from(moves: &[Move], tenth: u32) -> &[Move]
    ensures { (xs ys : List Move) → IsCutBy (begins_before tenth) moves.now xs ys
        → result.now ≡ ys }
{
    let begin = tenth as u64;
    let (_earlier, later) = moves.split_at(moves.partition_point(|one| begins_before(*one, begin)));
    later
}

/// The moves before the place after so many rows, at the tenth, and those from it on.
pub(crate) fn about_place(moves: &[Move], place: usize, tenth: u32) -> (&[Move], &[Move])
    ensures { (xs ys : List Move) → IsCutBy (stands_before place tenth) moves.now xs ys
        → (result.0.now ≡ xs) × (result.1.now ≡ ys) }
{
    moves.split_at(moves.partition_point(|one| stands_before(*one, place, tenth)))
}
