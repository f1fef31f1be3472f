// The kinds of record, as the first byte of each tells them.
// Constants and no enum, so that a slice pattern over bytes can name a kind.
pub(crate) const BEGIN: u8 = 1;

// edits of the chart
pub(crate) const NODE: u8 = 2;

pub(crate) const BOX: u8 = 3;

pub(crate) const EXIT: u8 = 4;

pub(crate) const LOOK: u8 = 5;

pub(crate) const EDGE: u8 = 6;

pub(crate) const LEAVE: u8 = 7;

pub(crate) const UNEDGE: u8 = 8;

pub(crate) const UNLEAVE: u8 = 9;

// edits of the monitor
pub(crate) const STATE: u8 = 16;

pub(crate) const STEP: u8 = 17;

pub(crate) const ACCEPT: u8 = 18;
