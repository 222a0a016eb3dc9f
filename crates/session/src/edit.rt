// What can be changed.
use sig_base::{Hour, HourRows, Tenth};

/// A change of what is held and blanked. A range is from its first tenth up to but without `to`.
#[derive(Drop)]
pub enum Edit<L> {
    /// Holds rows of an hour that isn't held.
    Load(HourRows<L>),
    /// Holds rows in the place of those that are held of their hour.
    Replace(HourRows<L>),
    /// Holds an hour no longer.
    Withdraw(Hour),
    /// Blanks the tenths of a range.
    Blank { from: Tenth, to: Tenth },
    /// Blanks the tenths of a range no longer.
    Unblank { from: Tenth, to: Tenth },
}
