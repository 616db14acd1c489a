//! Where the parts of a record's first word stand in it. Those by which a forward is read stand in `heap_words`.

pub const HEADER: u64 = 0b0010;

pub const BUSY: u64 = 0b0111;

pub const KIND_AT: u32 = 2;

pub const KIND_MASK: u64 = 0b11;

pub const LEN_AT: u32 = 4;

pub const LEN_MASK: u64 = 0xfff;

pub const SERIAL_AT: u32 = 16;

pub const SERIAL_MASK: u64 = 0xff_ffff_ffff;

pub const WORKER_AT: u32 = 16;

pub const MUTATOR_AT: u32 = 56;
