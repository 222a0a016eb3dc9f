// Lists with other elements from a place on.
ghost use Rattle.std.specs.Prelude.{◌≡◌, ◌+◌, ◌<◌, ◌≤◌, length, slice_index_or};
ghost use Rattle.hour_work.specs.Numbers.{patched};

/// The element with this place in the list, once these elements stand in it from a place on.
pub fn pick<'a, T>(own: &'a [T], from: usize, fresh: &'a [T], place: usize) -> &'a T
    requires room { from + length fresh.now ≤ length own.now }
    requires there { place < length own.now }
    ensures { (d : T) → result.now ≡ slice_index_or (patched own.now from fresh.now) place d }
{
    if place < from {
        return &own[place];
    }
    if place - from < fresh.len() {
        return &fresh[place - from];
    }
    &own[place]
}

/// Exchanges as many elements of the list from a place on for these. Can't run out of memory.
pub fn put_in<T>(own: &mut Vec<T>, from: usize, fresh: &mut [T])
    requires { from + length fresh.old ≤ length own.old.items }
    ensures { own.new.items ≡ patched own.old.items from fresh.old }
{
    let end = from + fresh.len();
    own[from..end].swap_with_slice(fresh);
}
