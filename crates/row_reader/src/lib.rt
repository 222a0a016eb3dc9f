//! Reads a log file: the rows of one signal and one hour, in row order and without those that were
//! logged twice, or the first record that can't be such a row.
//!
//! A file is what `csv` gives for its bytes: records of four fields, signal, stamp, code and
//! parameter, of which the first may be a header.
#![tactic(auto)]

mod count;
mod kept;
mod lasts;
mod look_back;
mod minute;
mod noted;
mod number;
mod order;
mod reader;
mod repeats;
mod row;
mod row_error;
mod signal;
mod stamp;
mod trim;
mod word;

pub use count::count_code;
pub use kept::KeptRows;
pub use number::read_number;
pub use order::put_in_order;
pub use reader::read_rows;
pub use repeats::drop_repeats;
pub use row_error::RowError;
pub use signal::is_signal;
pub use stamp::{read_hour_stamp, read_stamp};
