//! Which fields a sample has.

ghost use Rattle.std.specs.Prelude.{◌≡◌, ◌≤◌, ◌<◌, IsTrue, IsNone, IfSome, All, ◌↔◌};
ghost use Rattle.perf_sample.specs.Layout.{IsLayout, IsBranchWord, of_sample_type, has_bit, has};
ghost use Rattle.perf_sample.specs.Layout.{fixed_len, LeftOut, FlagsFit, Fits};
ghost use Rattle.perf_sample.specs.Fields.{all_fields};
ghost use Rattle.perf_sample.specs.Breaks.{is_size};

use crate::faults::Place;
use crate::fields::{FIELD_BITS, fields};
use crate::flags::{BRANCH_SIZE, BRANCH_STACK, FIRST_RESERVED, HW_INDEX};
use crate::limits::{FIELD_SIZE, MAX_FIXED_LEN, MAX_STACK_SIZE};
use crate::sample::{Branch, Sample};
use crate::word::word_of;
use std::marker::Model;

// The fields before the number of branches, that number, and the hardware index.
macro_rules! all_places {
    (() $($field:ident $bit:literal $form:ident $($name:ident)+;)*) => {
        [$(Place::$field,)* Place::Nr, Place::HwIndex]
    };
}

// Whether a layout has a field, by its bit.
macro_rules! has_field {
    (($layout:ident $place:ident) $($field:ident $bit:literal $form:ident $($name:ident)+;)*) => {
        match $place {
            $(Place::$field => $layout.has_bit($bit),)*
            Place::HwIndex => $layout.branch == HW_INDEX,
            Place::Nr | Place::From(_) | Place::To(_) | Place::Flags(_) => true,
        }
    };
}

/// The fields between the header and the branches, in their order.
const ALL_FIELDS: [Place; 11] = fields!(all_places,);

/// Every bit that a layout may have.
const KNOWN: u64 = FIELD_BITS | BRANCH_STACK;

/// Which fields a sample has, as the words of `perf_event.h`, struct perf_event_attr. Contracts see
/// these words.
#[derive(Clone, Copy, Debug, PartialEq, Eq)]
pub struct Layout {
    bits: u64,
    branch: u64,
}

impl Model for Layout {
    ghost use Rattle.perf_sample.specs.Layout.{LayoutWords, IsLayout, IsBranchWord};

    ghost Value = { LayoutWords };

    ghost view = { λ l. record { sample_type = l.bits; branch = l.branch } };

    ghost invariant = { λ l. IsLayout l.bits × IsBranchWord l.branch };

    ghost inverse = { λ words. record { bits = words.sample_type; branch = words.branch } };
}

impl Layout {
    /// The layout with these bits, where each of them is a field that is known here, and the branch
    /// stack is among them.
    pub fn of(bits: u64) -> Option<Layout>
        ensures some { IfSome result (λ layout. layout ≡ of_sample_type bits) }
        ensures none { IsNone result ↔ (IsLayout bits → ⊥) }
    {
        if bits & KNOWN == bits && bits & BRANCH_STACK != 0 {
            Some(Layout { bits, branch: 0 })
        } else {
            None
        }
    }

    /// The word sample_type.
    pub fn bits(self) -> u64
        ensures bits { result ≡ self.sample_type }
        ensures known { IsLayout self.sample_type }
    {
        self.bits
    }

    /// The same fields with another branch word, where that is 0 or [`HW_INDEX`](crate::HW_INDEX).
    pub fn with_branch(self, bits: u64) -> Option<Layout>
        ensures some { IfSome result (λ layout. layout ≡ record self { branch = bits }) }
        ensures none { IsNone result ↔ (IsBranchWord bits → ⊥) }
    {
        if bits == 0 || bits == HW_INDEX {
            Some(Layout {
                bits: self.bits,
                branch: bits,
            })
        } else {
            None
        }
    }

    /// The branch word, of the word branch_sample_type.
    pub fn branch_bits(self) -> u64
        ensures bits { result ≡ self.branch }
        ensures known { IsBranchWord self.branch }
    {
        self.branch
    }

    // Whether sample_type has a bit.
    fn has_bit(self, bit: u32) -> bool
        requires { bit < 64 }
        ensures { result ≡ has_bit self bit }
    {
        (self.bits >> bit) % 2 == 1
    }

    /// Whether the layout has a field (enum perf_event_sample_format); the number of branches, and
    /// the fields of a branch, are in each layout.
    pub fn has(self, place: Place) -> bool
        ensures { result ≡ has self place }
    {
        fields!(has_field, self place)
    }

    /// The length of a sample without branches, in bytes: 8 for the header, and 8 for each field
    /// between it and the branches.
    pub fn fixed_len(self) -> u16
        ensures len { result ≡ fixed_len self }
        ensures most { result ≤ MAX_FIXED_LEN }
    {
        let mut len = FIELD_SIZE;
        for place in ALL_FIELDS {
            if self.has(place) {
                len += FIELD_SIZE;
            }
        }
        len
    }

    /// Whether a sample may have this size, by how many branches it has.
    pub fn is_size(self, size: u16) -> bool
        ensures { result ≡ is_size self size }
    {
        let fixed = self.fixed_len();
        size >= fixed && size <= fixed + MAX_STACK_SIZE && (size - fixed) % BRANCH_SIZE == 0
    }

    // Whether a field has a value that the layout lets it have: any where it is there, 0 where it
    // is left out.
    fn takes(self, sample: &Sample, place: Place) -> bool
        ensures { IsTrue result ↔ LeftOut self sample.now place }
    {
        self.has(place) || word_of(sample, place).is_zero()
    }

    // The same of all fields between the header and the branches.
    fn takes_all(self, sample: &Sample) -> bool
        ensures { IsTrue result ↔ All (LeftOut self sample.now) all_fields }
    {
        for place in ALL_FIELDS {
            if !self.takes(sample, place) {
                return false;
            }
        }
        true
    }

    /// Whether a sample can be written in this layout: each field that is left out is 0, and no
    /// branch has a reserved flag.
    pub fn fits(self, sample: &Sample) -> bool
        ensures { IsTrue result ↔ Fits self sample.now }
    {
        self.takes_all(sample) && flags_fit(sample.branches.items())
    }
}

// Whether no branch has a reserved flag.
fn flags_fit(branches: &[Branch]) -> bool
    ensures { IsTrue result ↔ FlagsFit branches.now }
{
    branches.iter().all(|branch| branch.flags < FIRST_RESERVED)
}
