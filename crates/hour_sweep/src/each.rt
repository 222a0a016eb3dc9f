// Lists of numbers, put together item by item.
ghost use Rattle.std.specs.Prelude.{◌≡◌, OnOk};
ghost use Rattle.hour_sweep.specs.Sums.{merged};

use sig_base::NoMemory;

/// Numbers of which two can be put together.
pub trait Sum: Copy {
    /// The numbers of both.
    ghost both: { Self → Self → Self };

    /// The numbers of both.
    fn sum(&self, other: &Self) -> Self
        ensures { result ≡ both self.now other.now };
}

/// Adds numbers item by item; items that only `more` has are taken as they are. After want of
/// memory some of them may have been added.
pub fn add_each<T: Sum>(total: &mut Vec<T>, more: &[T]) -> Result<(), NoMemory>
    ensures { OnOk result (total.new.items ≡ merged T.both total.old.items more.now) }
{
    for i in 0..more.len() {
        if i < total.len() {
            total[i] = total[i].sum(&more[i]);
        } else {
            total.push(more[i])?;
        }
    }
    Ok(())
}
