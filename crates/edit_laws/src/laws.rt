// What edits make of a store, what they are refused for, and what is known after them.
ghost use Rattle.edit_laws.specs.Knowledge.{KnowledgeMoves};
ghost use Rattle.edit_laws.specs.Refusals.{RefusalsInOrder};
ghost use Rattle.edit_laws.specs.Stores.{EditsMakeStores};

/// Law: an edit makes exactly this of a store. A load or a replacement puts its rows in the place
/// of their hour, where a load wants that the hour isn't held and a replacement that it is, and at
/// most 20,000,000 rows are held then; a withdrawal takes what is held of an hour. Of other hours
/// the same is held as before, and the same ranges are blanked. A blanking or an unblanking of some
/// tenths of the window leaves what is held, and at most 10,000 ranges are blanked then: those of
/// the tenths that were blanked with those of the range, or without them, in order and none touching
/// the next.
pub fn edits_make_stores()
    ensures made { EditsMakeStores }
{}

/// Law: an edit is refused exactly for the first reason that holds: an hour or a range that isn't
/// in the window, then an hour that is held or isn't, or a range without a tenth, and then too many
/// rows or too many ranges. It is refused for nothing else.
pub fn refusals_in_order()
    ensures refused { RefusalsInOrder }
{}

/// Law: after an edit these tenths are known. A load adds those of its hour that aren't blanked, a
/// replacement none, and a withdrawal takes those of its hour; a blanking takes those of its range,
/// and an unblanking adds those of its range whose hour is held.
pub fn knowledge_moves()
    ensures known { KnowledgeMoves }
{}
