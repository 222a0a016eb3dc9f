// What was kept about an hour.

/// What was kept at the point before an hour and at the point after it.
#[derive(Drop)]
pub struct About<'a, T> {
    pub before: &'a T,
    pub after: &'a T,
}
