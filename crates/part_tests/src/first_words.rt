use crate::asserting::assert_same;
use record_layout::{
    Busy, Forward, Header, Kind, pack, pack_busy, pack_forward, read, read_busy, read_forward,
};

const RAW: Header = Header {
    kind: Kind::Raw,
    len: 100,
    serial: 3,
    mutator: 1,
};

const MIXED: Header = Header {
    kind: Kind::Mixed,
    len: 3,
    serial: 1,
    mutator: 0,
};

const CELL: Header = Header {
    kind: Kind::Weak,
    len: 2,
    serial: 3,
    mutator: 0,
};

const FIELDS: Header = Header {
    kind: Kind::Fields,
    len: 2,
    serial: 1,
    mutator: 0,
};

/// Headers, each with its word.
const HEADERS: [(Header, u64); 4] = [
    (FIELDS, 0x0000_0000_0001_0022),
    (RAW, 0x0100_0000_0003_0646),
    (MIXED, 0x0000_0000_0001_003a),
    (CELL, 0x0000_0000_0003_002e),
];

#[test]
fn headers_are_spelled_as_their_format_says(rt: HostRuntime) {
    for (header, word) in &HEADERS {
        let found = (pack(header), read(*word));
        assert_same(&rt, &found, &(*word, Some(*header)));
    }
}

const FORWARD: u64 = 0x0000_0000_0200_0023;

const BUSY: u64 = 0x0000_0000_0001_0027;

#[test]
fn forwards_and_busy_words_are_spelled_as_their_formats_say(rt: HostRuntime) {
    let forward = Forward { len: 2, addr: 512 };
    let busy = Busy { len: 2, worker: 1 };
    let spelled = [pack_forward(&forward), pack_busy(&busy)];
    assert_same(&rt, &spelled, &[FORWARD, BUSY]);
    assert_same(&rt, &read_forward(FORWARD), &Some(forward));
    assert_same(&rt, &read_busy(BUSY), &Some(busy));
}

/// Words of other kinds are refused, and those with a stray bit.
#[test]
fn other_words_are_refused(rt: HostRuntime) {
    assert_same(&rt, &read(FORWARD), &None);
    let forwards = [read_forward(BUSY), read_forward(0x0001_0000_0200_0023)];
    assert_same(&rt, &forwards, &[None, None]);
    let busy = [read_busy(FORWARD), read_busy(0x0000_0000_0101_0027)];
    assert_same(&rt, &busy, &[None, None]);
}
