//! What a sample holds.

ghost use Rattle.std.specs.Prelude.{◌≡◌};
ghost use Rattle.perf_sample.specs.Sample.{blank};

use crate::branches::Branches;
use crate::fields::fields;

/// One entry of a branch stack (`perf_event.h`, struct perf_branch_entry).
#[derive(Clone, Copy, Debug, Default, PartialEq, Eq)]
pub struct Branch {
    /// The address that control left.
    pub from: u64,
    /// The address that it went to.
    pub to: u64,
    /// Bits 0 to 32 of the entry's third word: mispred 0, predicted 1, in_tx 2, abort 3, cycles 4
    /// to 19, type 20 to 23, spec 24 and 25, new_type 26 to 29, priv 30 to 32. The bits from 33 up
    /// are reserved, and 0.
    pub flags: u64,
}

/// A sample. A field that its layout leaves out is 0.
#[derive(Debug, Drop)]
pub struct Sample {
    /// The field misc of the header, whose low three bits tell the mode of the processor.
    pub misc: u16,
    /// The identifier of the event, at a fixed place in each sample.
    pub identifier: u64,
    /// The program counter.
    pub ip: u64,
    /// The process.
    pub pid: u32,
    /// The thread.
    pub tid: u32,
    /// When the sample was taken.
    pub time: u64,
    /// An address that the event speaks of.
    pub addr: u64,
    /// The identifier of the event's group.
    pub id: u64,
    /// The identifier of the event itself.
    pub stream_id: u64,
    /// The processor.
    pub cpu: u32,
    /// How many events lie between two samples.
    pub period: u64,
    /// Where the hardware keeps the youngest branch. What it counts is the hardware's own.
    pub hw_index: u64,
    /// The branch stack, youngest first.
    pub branches: Branches,
}

macro_rules! blank_sample {
    (() $($field:ident $bit:literal $form:ident $($name:ident)+;)*) => {
        Sample {
            misc: 0,
            $($($name: 0,)+)*
            hw_index: 0,
            branches: Branches::new(),
        }
    };
}

macro_rules! clear_fields {
    (($sample:ident) $($field:ident $bit:literal $form:ident $($name:ident)+;)*) => {{
        $($($sample.$name = 0;)+)*
    }};
}

impl Sample {
    /// The sample whose numbers are 0, without branches. Whoever makes a sample fills in the fields
    /// that it means.
    #[inline(always)]
    pub fn blank() -> Sample
        ensures { result ≡ blank }
    {
        fields!(blank_sample,)
    }

    /// Makes every number 0 and removes every branch, where the sample lies: nothing of its 6 KB is
    /// moved.
    pub fn clear(&mut self)
        ensures { self.new ≡ blank }
    {
        self.misc = 0;
        fields!(clear_fields, self);
        self.hw_index = 0;
        self.branches.clear();
    }
}
