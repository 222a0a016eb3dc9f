// The reading of the format: the tables of the file in their order, their entries and keys, and
// what stands at them.
//
// - `reading`, `values`, `references`: an entry's keys, and what the values at them stand for.
// - `phases`, `pairs`, `timing`, `approaches`: the tables; `walk`: the walk over any of them.
// - `document`, `layout`, `details`, `parts`: the tables in their order.

pub(crate) mod approaches;
pub(crate) mod details;
pub(crate) mod document;
pub(crate) mod layout;
pub(crate) mod pairs;
pub(crate) mod parts;
pub(crate) mod phases;
pub(crate) mod reading;
pub(crate) mod references;
pub(crate) mod timing;
pub(crate) mod values;
pub(crate) mod walk;
