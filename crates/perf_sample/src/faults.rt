//! Why bytes are no sample.

/// A field of a sample behind the header. The branches are numbered from 0, the youngest.
#[derive(Clone, Copy, Debug, PartialEq, Eq)]
pub enum Place {
    Identifier,
    Ip,
    /// pid and tid, which are one field of two halves.
    Tid,
    Time,
    Addr,
    Id,
    StreamId,
    /// cpu and its reserved half.
    Cpu,
    Period,
    /// The number of branches.
    Nr,
    /// The hardware index, behind the number of branches.
    HwIndex,
    From(u16),
    To(u16),
    Flags(u16),
}

/// Why there is no further sample: the first field from the left that is broken, or one of the last
/// two.
#[derive(Clone, Copy, Debug, PartialEq, Eq)]
pub enum SampleFault {
    /// The input ended after 1 to 7 bytes of the header.
    Header,
    /// The type of the record isn't 9, PERF_RECORD_SAMPLE.
    Kind,
    /// No sample of the layout has this size, or not with this number of branches.
    Size,
    /// The input ended inside, or in place of, this field.
    Short(Place),
    /// The reserved half of cpu isn't 0.
    CpuReserved,
    /// There are more than 256 branches.
    Count,
    /// The flags of this branch have one of the reserved bits 33 to 63.
    FlagReserved(u16),
    /// 2^24 samples were given, and the input goes on.
    TooMany,
    /// A read failed. It comes only where the source's count of faults rose in the call that first
    /// gave it.
    ReadFault,
}
