//! Samples shown as they are read.

ghost use Rattle.std.specs.Prelude.{◌≡◌, ◌≤◌, ℕ, OnOk, OnErr, Err, List, Some};
ghost use Rattle.ctr_port.specs.Counts.{Rose};
ghost use Rattle.ctr_port.specs.Sink.{GainsPart};
ghost use Rattle.ctrsim_cli.specs.SampleText.{shown_sample};
ghost use Rattle.ctrsim_cli.specs.Showing.{ShowAnswer, BytesAnswer, CutAt};
ghost use Rattle.perf_sample.specs.declared.faults.SampleFault.{SampleFault};
ghost use Rattle.ctrsim_cli.specs.declared.showing.ShowFault.{ShowFault};

use crate::sample_text::{Text, put_sample};
use ctr_port::{Sink, Source, WriteFault, write_whole};
use perf_sample::{Layout, Sample, SampleFault, SampleReader};

/// Why no more is shown.
#[derive(Clone, Copy, Debug, PartialEq, Eq)]
pub enum ShowFault {
    /// The bytes at this offset are no sample of the layout.
    Sample(SampleFault, u64),
    /// The sink failed.
    Write,
}

// Hands the text of a sample to the sink. `text` is the room for it, whatever it holds: a room made for each sample would be
// cleared each time.
fn write_text<K: Sink>(
    text: &mut Text,
    sink: &mut K,
    layout: Layout,
    offset: u64,
    sample: &Sample,
) -> Result<(), WriteFault>
    ensures whole { OnOk result (K.gained sink.old (shown_sample layout offset sample.now) sink.new) }
    ensures part { OnErr result (GainsPart K.gained sink.old sink.new
        (shown_sample layout offset sample.now)) }
    ensures later { K.faults sink.old ≤ K.faults sink.new }
    ensures cause { OnErr result (Rose (K.faults sink.old) (K.faults sink.new)) }
{
    put_sample(text, layout, offset, sample);
    write_whole(sink, text.as_slice())
}

// Writes the text of each sample of the source.
fn show_each<S: Source, K: Sink>(
    layout: Layout,
    source: &mut S,
    sink: &mut K,
) -> Result<(), ShowFault>
    ensures answer { ShowAnswer K.gained layout (S.left source.old) (S.left source.new)
        sink.old sink.new result }
    ensures source_later { S.faults source.old ≤ S.faults source.new }
    ensures sink_later { K.faults sink.old ≤ K.faults sink.new }
    ensures read { (at : ℕ) → result ≡ Err (ShowFault.Sample SampleFault.ReadFault at) →
        Rose (S.faults source.old) (S.faults source.new) }
    ensures write { result ≡ Err ShowFault.Write → Rose (K.faults sink.old) (K.faults sink.new) }
{
    let mut reader = SampleReader::new(layout);
    let mut text = Text::new();
    loop {
        match reader.next(source) {
            Ok(next) => match next {
                Some(sample) => match write_text(
                    &mut text,
                    sink,
                    layout,
                    reader.offset(),
                    &sample,
                ) {
                    Ok(()) => {}
                    Err(_) => return Err(ShowFault::Write),
                },
                None => return Ok(()),
            },
            Err(fault) => return Err(ShowFault::Sample(fault, reader.offset())),
        }
    }
}

/// Writes the text of each sample of the source, until the input ends or breaks.
// Never inlined: no word pays on the stack for what another word keeps there.
#[inline(never)]
pub fn show<S: Source, K: Sink>(
    layout: Layout,
    source: &mut S,
    sink: &mut K,
) -> Result<(), ShowFault>
    ensures answer { ShowAnswer K.gained layout (S.left source.old) (S.left source.new)
        sink.old sink.new result }
    // Of a source that tells its bytes: the text of the longest join of spellings that they begin
    // with.
    ensures bytes { (bytes : List ℕ) → S.left source.old ≡ Some bytes →
        BytesAnswer K.gained layout bytes sink.old sink.new result }
    ensures cut { CutAt K.gained layout (S.left source.old) (S.left source.new)
        sink.old sink.new result }
    ensures source_later { S.faults source.old ≤ S.faults source.new }
    ensures sink_later { K.faults sink.old ≤ K.faults sink.new }
    ensures read { (at : ℕ) → result ≡ Err (ShowFault.Sample SampleFault.ReadFault at) →
        Rose (S.faults source.old) (S.faults source.new) }
    ensures write { result ≡ Err ShowFault.Write → Rose (K.faults sink.old) (K.faults sink.new) }
{
    show_each(layout, source, sink)
}
