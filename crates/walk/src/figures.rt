// Figures of walks.

// Stands for the turn before, where there is none.
pub const START_BACK: u16 = 65534;

// The most links that a given walk may have.
pub const MOST_LINKS_GIVEN: usize = 65535;
