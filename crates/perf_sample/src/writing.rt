//! A sample as bytes.

ghost use Rattle.std.specs.Prelude.{◌≡◌, ◌+◌, ◌*◌, ◌≤◌, ◌<◌, ◌^◌, [], ◌∷◌, ◌++◌, length, All};
ghost use Rattle.perf_sample.specs.declared.faults.Place.{Place};
ghost use Rattle.std.specs.List.{flat_map};
ghost use Rattle.arrayvec.specs.ArrayVec.{array_vec_len};
ghost use Rattle.perf_sample.specs.Layout.{fields_in};
ghost use Rattle.perf_sample.specs.Fields.{all_fields, before_nr};
ghost use Rattle.perf_sample.specs.Layout.{fixed_len, Fits};
ghost use Rattle.perf_sample.specs.Back.{back_bytes};
ghost use Rattle.perf_sample.specs.Front.{front_bytes};
ghost use Rattle.perf_sample.specs.Word.{InWidth};
ghost use Rattle.perf_sample.specs.Fields.{word_of};
ghost use Rattle.perf_sample.specs.BranchRange.{IsBranch};
ghost use Rattle.perf_sample.specs.Sample.{IsSample};
ghost use Rattle.perf_sample.specs.Spelling.{le, word_bytes, fields_bytes, header_bytes};
ghost use Rattle.perf_sample.specs.Spelling.{branch_bytes, Spells};

use crate::faults::Place;
use crate::fields::BEFORE_NR;
use crate::flags::{BRANCH_SIZE, PERF_RECORD_SAMPLE};
use crate::layout::Layout;
use crate::limits::{BUFFER_SIZE, FIELD_SIZE, MAX_BRANCHES, MAX_FRONT_SIZE, MAX_STACK_SIZE};
use crate::sample::{Branch, Sample};
use crate::word::{Word, word_of};
use arrayvec::ArrayVec;
use byteorder::{ByteOrder, LittleEndian};

/// Room for the bytes of one sample, of at most [`MAX_SAMPLE_SIZE`](crate::MAX_SAMPLE_SIZE) bytes,
/// and for something more within it.
pub type Buffer = ArrayVec<u8, BUFFER_SIZE>;

fn put(out: &mut Buffer, bytes: &[u8])
    requires { array_vec_len out.old + length bytes.now ≤ BUFFER_SIZE }
    ensures items { out.new.items ≡ out.old.items ++ bytes.now }
    ensures len { array_vec_len out.new ≡ array_vec_len out.old + length bytes.now }
{
    out.try_extend_from_slice(bytes).unwrap();
}

#[tactic(auto, unfolding(crate::specs::Spelling::le))]
fn put_u16(out: &mut Buffer, number: u16)
    requires { array_vec_len out.old + 2 ≤ BUFFER_SIZE }
    ensures items { out.new.items ≡ out.old.items ++ le 2 number }
    ensures len { array_vec_len out.new ≡ array_vec_len out.old + 2 }
    ensures range { number < 2 ^ 16 }
{
    let mut bytes = [0; 2];
    LittleEndian::write_u16(&mut bytes, number);
    put(out, &bytes);
}

#[tactic(auto, unfolding(crate::specs::Spelling::le))]
fn put_u32(out: &mut Buffer, number: u32)
    requires { array_vec_len out.old + 4 ≤ BUFFER_SIZE }
    ensures items { out.new.items ≡ out.old.items ++ le 4 number }
    ensures len { array_vec_len out.new ≡ array_vec_len out.old + 4 }
{
    let mut bytes = [0; 4];
    LittleEndian::write_u32(&mut bytes, number);
    put(out, &bytes);
}

/// Writes a number of eight bytes, the lowest first.
#[tactic(auto, unfolding(crate::specs::Spelling::le))]
pub fn put_number(out: &mut Buffer, number: u64)
    requires { array_vec_len out.old + FIELD_SIZE ≤ BUFFER_SIZE }
    ensures items { out.new.items ≡ out.old.items ++ le 8 number }
    ensures len { array_vec_len out.new ≡ array_vec_len out.old + FIELD_SIZE }
{
    let mut bytes = [0; 8];
    LittleEndian::write_u64(&mut bytes, number);
    put(out, &bytes);
}

fn put_word(out: &mut Buffer, word: Word)
    requires { array_vec_len out.old + FIELD_SIZE ≤ BUFFER_SIZE }
    ensures items { out.new.items ≡ out.old.items ++ word_bytes word }
    ensures len { array_vec_len out.new ≡ array_vec_len out.old + FIELD_SIZE }
{
    match word {
        Word::Whole(number) => put_number(out, number),
        Word::Halves(low, high) => {
            put_u32(out, low);
            put_u32(out, high);
        }
    }
}

// A branch, by one put: the room is tested and the length is set once.
#[inline(always)]
#[tactic(auto, unfolding(crate::specs::Spelling::le))]
fn put_branch(out: &mut Buffer, branch: &Branch)
    requires { array_vec_len out.old + BRANCH_SIZE ≤ BUFFER_SIZE }
    ensures items { out.new.items ≡ out.old.items ++ branch_bytes branch.now }
    ensures len { array_vec_len out.new ≡ array_vec_len out.old + BRANCH_SIZE }
{
    let mut bytes = [0; 24];
    LittleEndian::write_u64_into(&[branch.from, branch.to, branch.flags], &mut bytes);
    put(out, &bytes);
}

fn put_branches(out: &mut Buffer, branches: &[Branch])
    requires room { array_vec_len out.old + BRANCH_SIZE * length branches.now ≤ BUFFER_SIZE }
    ensures items { out.new.items ≡ out.old.items ++ flat_map branch_bytes branches.now }
    ensures len { array_vec_len out.new
        ≡ array_vec_len out.old + BRANCH_SIZE * length branches.now }
{
    for branch in branches {
        put_branch(out, branch);
    }
}

/// Writes the header of a sample.
pub fn put_header(out: &mut Buffer, misc: u16, size: u16)
    requires { array_vec_len out.old + FIELD_SIZE ≤ BUFFER_SIZE }
    ensures items { out.new.items ≡ out.old.items ++ header_bytes misc size }
    ensures len { array_vec_len out.new ≡ array_vec_len out.old + FIELD_SIZE }
    ensures range { misc < 2 ^ 16 }
{
    put_u32(out, PERF_RECORD_SAMPLE);
    put_u16(out, misc);
    put_u16(out, size);
}

/// Writes the fields before the number of branches.
pub fn put_front(out: &mut Buffer, layout: Layout, sample: &Sample)
    requires { array_vec_len out.old + MAX_FRONT_SIZE ≤ BUFFER_SIZE }
    ensures items { out.new.items ≡ out.old.items ++ front_bytes layout sample.now }
    ensures most { array_vec_len out.new ≤ array_vec_len out.old + MAX_FRONT_SIZE }
    ensures range { All (λ p. InWidth (word_of p sample.now)) before_nr }
{
    for place in BEFORE_NR {
        let word = word_of(sample, place);
        if layout.has(place) {
            put_word(out, word);
        }
    }
}

// Writes the hardware index, where the layout has it.
fn put_hw_index(out: &mut Buffer, layout: Layout, sample: &Sample)
    requires { array_vec_len out.old + FIELD_SIZE ≤ BUFFER_SIZE }
    ensures items { out.new.items ≡ out.old.items
        ++ fields_bytes sample.now (fields_in layout (Place.HwIndex ∷ [])) }
    ensures most { array_vec_len out.new ≤ array_vec_len out.old + FIELD_SIZE }
    ensures range { InWidth (word_of Place.HwIndex sample.now) }
{
    let word = word_of(sample, Place::HwIndex);
    if layout.has(Place::HwIndex) {
        put_word(out, word);
    }
}

/// Writes the fields from the number of branches on, and the branches.
#[tactic(auto, unfolding(crate::specs::Layout::fields_in))]
pub fn put_back(out: &mut Buffer, layout: Layout, sample: &Sample)
    requires { array_vec_len out.old + 2 * FIELD_SIZE + MAX_STACK_SIZE ≤ BUFFER_SIZE }
    ensures items { out.new.items ≡ out.old.items ++ back_bytes layout sample.now }
    ensures number { InWidth (word_of Place.Nr sample.now) }
    ensures index { InWidth (word_of Place.HwIndex sample.now) }
    ensures branches { All IsBranch sample.now.branches }
    ensures few { length sample.now.branches ≤ MAX_BRANCHES }
{
    let branches = sample.branches.items();
    put_number(out, branches.len() as u64);
    put_hw_index(out, layout, sample);
    put_branches(out, branches);
}

/// Writes a sample: afterwards `out` holds its bytes and nothing else. The layout must fit the
/// sample, which `Layout::fits` tests.
///
/// The bytes are the one spelling of the sample (`perf_event.h`, PERF_RECORD_SAMPLE): a header of
/// type 9 with misc and size, the fields that the layout has, in their order, the number of
/// branches and the hardware index among them, and from, to and flags of each branch. All numbers
/// are little-endian.
#[tactic(auto, unfolding(crate::specs::Spelling::spelling))]
pub fn encode(layout: Layout, sample: &Sample, out: &mut ArrayVec<u8, BUFFER_SIZE>)
    requires { Fits layout sample.now }
    ensures spells { Spells layout sample.now out.new.items }
    // The field size of the header tells the truth.
    ensures size { length out.new.items
        ≡ fixed_len layout + BRANCH_SIZE * length sample.now.branches }
    // The numbers of the sample lie in the widths of their fields, so it is the one sample with
    // these bytes.
    ensures range { IsSample sample.now }
{
    let branches = sample.branches.items().len();
    out.clear();
    put_header(
        out,
        sample.misc,
        layout.fixed_len() + BRANCH_SIZE * branches as u16,
    );
    put_front(out, layout, sample);
    put_back(out, layout, sample);
}
