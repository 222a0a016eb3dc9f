// What a script is carried out for.

/// What a script is carried out for.
#[derive(Clone, Copy)]
pub enum Purpose<'a> {
    /// The texts of its lines.
    Lines,
    /// What the rule of this number leaves undecided at this stamp, once all lines are taken. The
    /// lines write nothing.
    Undecided(u32, &'a str),
}
