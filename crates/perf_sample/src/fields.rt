//! The fields between the header of a sample and its number of branches, one row each.

use crate::faults::Place;

// A row: the field, its bit in sample_type (enum perf_event_sample_format), and what of a sample
// its eight bytes hold: one number (`whole`), two of half the width (`halves`), or one of half the
// width with a reserved half behind it (`lower`). The rows stand in the order of the fields.
//
// The verb says what is made of the rows.
macro_rules! fields {
    ($verb:ident, $($more:ident)*) => {
        $verb! {
            ($($more)*)
            Identifier 16 whole identifier;
            Ip 0 whole ip;
            Tid 1 halves pid tid;
            Time 2 whole time;
            Addr 3 whole addr;
            Id 6 whole id;
            StreamId 9 whole stream_id;
            Cpu 7 lower cpu;
            Period 8 whole period;
        }
    };
}

pub(crate) use fields;

macro_rules! places {
    (() $($field:ident $bit:literal $form:ident $($name:ident)+;)*) => {
        [$(Place::$field),*]
    };
}

macro_rules! bits {
    (() $($field:ident $bit:literal $form:ident $($name:ident)+;)*) => {
        0 $(| 1 << $bit)*
    };
}

/// The fields before the number of branches, in their order.
pub(crate) const BEFORE_NR: [Place; 9] = fields!(places,);

/// Their bits in sample_type.
pub(crate) const FIELD_BITS: u64 = fields!(bits,);
