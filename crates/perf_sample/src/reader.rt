//! Samples read from their source, call by call.

ghost use Rattle.std.specs.Prelude.{◌≡◌, ◌≤◌, Some, None, length, IfOk, IfSome, false};
ghost use Rattle.ctr_port.specs.Counts.{HasCause};
ghost use Rattle.perf_sample.specs.Format.{answer_of};
ghost use Rattle.perf_sample.specs.Layout.{LayoutWords};
ghost use Rattle.perf_sample.specs.Sample.{IsSample};
ghost use Rattle.perf_sample.specs.Reader.{fresh, IsNextAnswer, after, ReadsSample};
ghost use Rattle.perf_sample.specs.Reading.{is_read, sample_format};
ghost use Rattle.perf_sample.specs.Spelling.{spelling};
ghost use Rattle.perf_sample.specs.declared.faults.SampleFault.{SampleFault};
ghost use Rattle.perf_sample.specs.declared.sample.Sample.{Sample};

use crate::faults::SampleFault;
use crate::flags::BRANCH_SIZE;
use crate::layout::Layout;
use crate::limits::{MAX_SAMPLE_SIZE, MAX_SAMPLES};
use crate::reading::read_sample;
use crate::sample::Sample;
use ctr_port::{Got, Source};
use std::marker::Model;

/// A reader of a bare stream of samples of one layout, which gives at most
/// [`MAX_SAMPLES`](crate::MAX_SAMPLES) of them. After a fault each call answers it again.
#[derive(Drop)]
pub struct SampleReader {
    layout: Layout,
    refused: Option<SampleFault>,
    given: u32,
    taken: u64,
    offset: u64,
}

impl Model for SampleReader {
    ghost use Rattle.std.specs.Prelude.{◌≤◌, ◌*◌};
    ghost use Rattle.perf_sample.specs.Reader.{Reader};
    ghost use Rattle.perf_sample.specs.declared.faults.SampleFault.{SampleFault};
    ghost use Rattle.perf_sample.specs.declared.limits.TheConstants.{MAX_SAMPLE_SIZE, MAX_SAMPLES};

    ghost Value = { Reader SampleFault };

    ghost view = { λ r. record {
      layout = r.layout;
      refused = r.refused;
      given = r.given;
      taken = r.taken;
      offset = r.offset;
    } };

    ghost invariant = { λ r. (r.given ≤ MAX_SAMPLES) × (r.taken ≤ MAX_SAMPLE_SIZE * r.given) };
}

// How many bytes a sample has in a layout.
fn length_of(layout: Layout, sample: &Sample) -> u64
    ensures len { result ≡ length (spelling layout sample.now) }
    ensures most { result ≤ MAX_SAMPLE_SIZE }
{
    layout.fixed_len() as u64 + BRANCH_SIZE as u64 * sample.branches.items().len() as u64
}

// Looks for a byte behind the last sample that is given. It never answers true.
fn expect_end<S: Source>(source: &mut S) -> Result<bool, SampleFault>
    ensures answer { (layout : LayoutWords) (sample : Sample)
        → IsNextAnswer (sample_format layout) MAX_SAMPLES (S.left source.old) (S.left source.new)
        (answer_of result sample) }
    ensures none { IfOk result (λ next. next ≡ false) }
    ensures cause { HasCause is_read (S.faults source.old) (S.faults source.new) result }
{
    let mut byte = [0u8; 1];
    match source.read(&mut byte) {
        Got::Bytes(_) => Err(SampleFault::TooMany),
        Got::End => Ok(false),
        Got::Failed => Err(SampleFault::ReadFault),
    }
}

// The next answer of a reader that gave so many samples.
fn read_next<S: Source>(
    source: &mut S,
    layout: Layout,
    given: u32,
    sample: &mut Sample,
) -> Result<bool, SampleFault>
    requires { given ≤ MAX_SAMPLES }
    ensures answer { IsNextAnswer (sample_format layout) given (S.left source.old)
        (S.left source.new) (answer_of result sample.new) }
    ensures range { IfOk (answer_of result sample.new) (λ next. IfSome next IsSample) }
    ensures cause { HasCause is_read (S.faults source.old) (S.faults source.new) result }
{
    if given == MAX_SAMPLES {
        expect_end(source)
    } else {
        read_sample(source, layout, sample)
    }
}

impl SampleReader {
    /// A reader before the first sample.
    pub fn new(layout: Layout) -> SampleReader
        ensures { result ≡ fresh layout }
    {
        SampleReader {
            layout,
            refused: None,
            given: 0,
            taken: 0,
            offset: 0,
        }
    }

    /// The place of the first byte of the sample last begun, counted from the first byte that was
    /// read; 0 before the first. A call that answers a fault has begun one.
    pub fn offset(&self) -> u64
        ensures { result ≡ self.now.offset }
    {
        self.offset
    }

    // The next answer of a reader that has refused nothing.
    fn answer<S: Source>(
        &mut self,
        source: &mut S,
        sample: &mut Sample,
    ) -> Result<bool, SampleFault>
        ensures answer { IsNextAnswer (sample_format self.old.layout) self.old.given
            (S.left source.old) (S.left source.new) (answer_of result sample.new) }
        ensures range { IfOk (answer_of result sample.new) (λ next. IfSome next IsSample) }
        ensures state { self.new
            ≡ after (spelling self.old.layout) self.old (answer_of result sample.new) }
        ensures cause { HasCause is_read (S.faults source.old) (S.faults source.new) result }
    {
        match read_next(source, self.layout, self.given, sample) {
            Ok(true) => {
                self.given += 1;
                self.offset = self.taken;
                self.taken += length_of(self.layout, sample);
                Ok(true)
            }
            Ok(false) => Ok(false),
            Err(fault) => {
                self.offset = self.taken;
                self.refused = Some(fault);
                Err(fault)
            }
        }
    }

    /// The next sample, or none where the input ended between two samples. It reads field by field,
    /// and asks the source for no byte beyond the field in hand. After a fault it answers it again,
    /// without a read.
    pub fn next<S: Source>(&mut self, source: &mut S) -> Result<Option<Sample>, SampleFault>
        ensures reads { self.old.refused ≡ None
            → ReadsSample self.old self.new (S.left source.old) (S.left source.new) result }
        ensures again { (fault : SampleFault) → self.old.refused ≡ Some fault
            → (result ≡ Err fault) × (self.new ≡ self.old) × (source.new ≡ source.old) }
        ensures cause { self.old.refused ≡ None
            → HasCause is_read (S.faults source.old) (S.faults source.new) result }
        // The numbers of a sample lie in the widths of their fields, whatever the source is.
        ensures range { IfOk result (λ next. IfSome next IsSample) }
    {
        let mut sample = Sample::blank();
        match self.read_into(source, &mut sample) {
            Ok(true) => Ok(Some(sample)),
            Ok(false) => Ok(None),
            Err(fault) => Err(fault),
        }
    }

    /// Reads the next sample into a room that the caller keeps, whatever the room held: true where
    /// there is one, false where the input ended between two samples. It answers as `next` does, but
    /// the 6 KB that a sample has room for are neither cleared nor moved. After false or a fault the
    /// room holds nothing of meaning.
    pub fn read_into<S: Source>(
        &mut self,
        source: &mut S,
        sample: &mut Sample,
    ) -> Result<bool, SampleFault>
        ensures reads { self.old.refused ≡ None
            → ReadsSample self.old self.new (S.left source.old) (S.left source.new)
            (answer_of result sample.new) }
        ensures again { (fault : SampleFault) → self.old.refused ≡ Some fault
            → (result ≡ Err fault) × (self.new ≡ self.old) × (source.new ≡ source.old)
            × (sample.new ≡ sample.old) }
        ensures cause { self.old.refused ≡ None
            → HasCause is_read (S.faults source.old) (S.faults source.new) result }
        ensures range { IfOk (answer_of result sample.new) (λ next. IfSome next IsSample) }
    {
        if let Some(fault) = self.refused {
            return Err(fault);
        }
        self.answer(source, sample)
    }
}
