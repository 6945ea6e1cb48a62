//! Samples that are none.

/// The sample after one call, of which some bytes are changed and which is cut to a length; the
/// layout and the branch word by which it is read; and what is wrong with it, as it is said.
#[derive(Clone, Copy)]
pub struct BrokenSample {
    pub at: usize,
    pub bytes: &'static [u8],
    pub len: usize,
    pub layout: &'static str,
    pub branch: &'static str,
    pub said: &'static str,
}

// Read as it was written.
const ONE_CALL: BrokenSample = BrokenSample {
    at: 0,
    bytes: b"",
    len: 56,
    layout: "803",
    branch: "0",
    said: "",
};

/// One or two of each kind.
pub const BROKEN: [BrokenSample; 10] = [
    BrokenSample {
        at: 6,
        bytes: b"\x40",
        said: "wrong size",
        ..ONE_CALL
    },
    // the size of two branches
    BrokenSample {
        at: 6,
        bytes: b"\x50",
        said: "wrong size",
        ..ONE_CALL
    },
    BrokenSample {
        at: 24,
        bytes: b"\x01\x01",
        said: "too many branches",
        ..ONE_CALL
    },
    BrokenSample {
        at: 24,
        bytes: b"\x02",
        said: "wrong size",
        ..ONE_CALL
    },
    // bit 33 of the flags
    BrokenSample {
        at: 52,
        bytes: b"\x02",
        said: "reserved flags in branch 0",
        ..ONE_CALL
    },
    BrokenSample {
        len: 55,
        said: "cut in flags 0",
        ..ONE_CALL
    },
    BrokenSample {
        len: 7,
        said: "header cut",
        ..ONE_CALL
    },
    BrokenSample {
        bytes: b"\x01",
        said: "not a sample",
        ..ONE_CALL
    },
    // with the place of the youngest entry, of which four bytes are there
    BrokenSample {
        at: 6,
        bytes: b"\x40",
        len: 36,
        branch: "20000",
        said: "cut in hw_index",
        ..ONE_CALL
    },
    // the word of pid and tid is that of cpu
    BrokenSample {
        layout: "881",
        said: "reserved cpu bytes",
        ..ONE_CALL
    },
];
