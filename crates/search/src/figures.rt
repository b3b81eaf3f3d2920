// The figures of the label tables, as document 01's "Labels" has them.
use super::Label;

// The cost of an entry that has no walk. This, `START_BACK` and `BARRED` are document 01's own numbers, which stand in the lent buffers; so none of them is an `Option`.
pub const UNREACHED: u32 = 4294967295;

pub const NO_WALK: Label = Label {
    cost: UNREACHED,
    links: 0,
    back: 65535,
};

// The most links of a chosen walk.
pub const MOST_WALK_LINKS: u16 = 4097;

// The most seconds of a chosen walk.
pub const MOST_WALK_SECONDS: u32 = 191728800;

// A route buffer that serves every route. The cast widens: a constant's value can call no function, so not `from`.
pub const ROUTE_ROOM: usize = MOST_WALK_LINKS as usize;
