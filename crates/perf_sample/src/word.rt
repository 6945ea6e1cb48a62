//! What a field of eight bytes holds.

ghost use Rattle.std.specs.Prelude.{◌≡◌, ◌<◌, ◌^◌, IsTrue, ◌↔◌};
ghost use Rattle.perf_sample.specs.Word.{IsZero, InWidth};
ghost use Rattle.perf_sample.specs.Fields.{word_of};

use crate::faults::Place;
use crate::fields::fields;
use crate::sample::Sample;

/// A number, or two of half the width, the lower half first.
#[derive(Clone, Copy)]
pub enum Word {
    Whole(u64),
    Halves(u32, u32),
}

impl Word {
    // Whether its numbers are 0.
    pub(crate) fn is_zero(self) -> bool
        ensures { IsTrue result ↔ IsZero self }
    {
        match self {
            Word::Whole(number) => number == 0,
            Word::Halves(low, high) => low == 0 && high == 0,
        }
    }
}

fn whole(number: u64) -> Word
    ensures word { result ≡ Word.Whole number }
    ensures range { number < 2 ^ 64 }
{
    Word::Whole(number)
}

fn halves(low: u32, high: u32) -> Word
    ensures word { result ≡ Word.Halves low high }
    ensures range { (low < 2 ^ 32) × (high < 2 ^ 32) }
{
    Word::Halves(low, high)
}

macro_rules! word {
    (whole $sample:ident $name:ident) => {
        whole($sample.$name)
    };
    (halves $sample:ident $low:ident $high:ident) => {
        halves($sample.$low, $sample.$high)
    };
    (lower $sample:ident $name:ident) => {
        halves($sample.$name, 0)
    };
}

macro_rules! field_word {
    (($sample:ident $place:ident) $($field:ident $bit:literal $form:ident $($name:ident)+;)*) => {
        match $place {
            $(Place::$field => word!($form $sample $($name)+),)*
            Place::Nr => whole($sample.branches.items().len() as u64),
            Place::HwIndex => whole($sample.hw_index),
            Place::From(_) | Place::To(_) | Place::Flags(_) => whole(0),
        }
    };
}

/// The word in a field of a sample between its header and its branches.
pub(crate) fn word_of(sample: &Sample, place: Place) -> Word
    ensures word { result ≡ word_of place sample.now }
    ensures range { InWidth (word_of place sample.now) }
{
    fields!(field_word, sample place)
}
