// The rows that a book consists of. A zeroed row is nil.

// A place of a right side. The places that it leads to are numbers of places in the same module.
#[derive(Clone, Copy, Debug, Default, PartialEq, Eq)]
pub enum Place {
    // `0`: nothing can happen any more
    #[default]
    Nil,
    // `?7.P`, `!7.P`, `i.P`: the action (receive 7, send -7, internal 0), and the place that follows it
    Act(i8, u16),
    // `w.P`: the place that has one unit of time more until its actions are urgent
    Wait(u16),
    // `P + Q`: the left place and the right one
    Sum(u16, u16),
    // `X`: the place that is the right side of the equation of `X`
    Name(u16),
}

// A module.
#[derive(Clone, Copy, Debug, Default, PartialEq, Eq)]
pub struct ModuleRow {
    // the place row that is the module's place 0
    pub first: usize,
    // how many places it has, in the rows from there on
    pub places: usize,
    // the place that it starts in, counted in the module
    pub start: usize,
}
