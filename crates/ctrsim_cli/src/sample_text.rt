//! The text of one sample.

ghost use Rattle.std.specs.Prelude.{◌≡◌, ◌+◌, ◌*◌, ◌≤◌, ◌<◌, ◌^◌, ◌++◌, length, false};
ghost use Rattle.std.specs.List.{flat_map};
ghost use Rattle.std.specs.Fmt.{digit_glyph};
ghost use Rattle.arrayvec.specs.ArrayVec.{array_vec_len};
ghost use Rattle.ctrsim_cli.specs.SampleText.{hex16, type_name, hex_line, dec_line};
ghost use Rattle.ctrsim_cli.specs.SampleText.{thread_line, field_word, shown_fields, shown_branch};
ghost use Rattle.ctrsim_cli.specs.SampleText.{shown_sample};

use crate::bytes::{put, put_decimal};
use arrayvec::ArrayVec;
use perf_sample::{BRANCH_SIZE, Branch, Layout, Place, Sample};

/// Room for the text of one sample: at most 17,740 bytes are written.
pub type Text = ArrayVec<u8, 18432>;

// A hexadecimal digit in lower case.
fn glyph(digit: u8) -> u8
    requires { digit < 16 }
    ensures { result ≡ digit_glyph false digit }
{
    if digit < 10 {
        b'0' + digit
    } else {
        b'a' - 10 + digit
    }
}

// 0x and sixteen digits.
#[tactic(auto, using(crate::proofs::TextDigits::hex_step, crate::proofs::TextDigits::hex_end))]
fn put_hex(out: &mut Text, number: u64)
    requires { array_vec_len out.old + 18 ≤ 18432 }
    ensures items { out.new.items ≡ out.old.items ++ hex16 number }
    ensures len { array_vec_len out.new ≡ array_vec_len out.old + 18 }
{
    put(out, b"0x");
    let mut place = 16u32;
    while place > 0 {
        place -= 1;
        out.push(glyph(((number >> (4 * place)) % 16) as u8));
    }
}

// The name of a branch type.
#[tactic(auto, unfolding(crate::specs::SampleText::type_name))]
fn type_name(kind: u8) -> &'static [u8]
    requires { kind < 16 }
    ensures name { result.now ≡ type_name kind }
    ensures most { length result.now ≤ 10 }
{
    match kind {
        0 => b"unknown",
        1 => b"cond",
        2 => b"uncond",
        3 => b"ind",
        4 => b"call",
        5 => b"ind_call",
        6 => b"ret",
        7 => b"syscall",
        8 => b"sysret",
        9 => b"cond_call",
        10 => b"cond_ret",
        11 => b"eret",
        12 => b"irq",
        13 => b"serror",
        14 => b"no_tx",
        _ => b"extend_abi",
    }
}

// The word that begins the line of a field.
#[tactic(auto, unfolding(crate::specs::SampleText::field_word))]
fn field_word(place: Place) -> &'static [u8]
    ensures word { result.now ≡ field_word place }
    ensures most { length result.now ≤ 11 }
{
    match place {
        Place::Identifier => b"identifier ",
        Place::Ip => b"ip ",
        Place::Time => b"time ",
        Place::Addr => b"addr ",
        Place::Id => b"id ",
        Place::StreamId => b"stream_id ",
        Place::Cpu => b"cpu ",
        Place::Period => b"period ",
        Place::HwIndex => b"hw_index ",
        Place::Tid | Place::Nr | Place::From(_) | Place::To(_) | Place::Flags(_) => b"",
    }
}

#[tactic(auto, unfolding(crate::specs::SampleText::hex_line))]
fn put_hex_line(out: &mut Text, layout: Layout, place: Place, number: u64)
    requires { array_vec_len out.old + 33 ≤ 18432 }
    ensures items { out.new.items ≡ out.old.items ++ hex_line layout place number }
    ensures most { array_vec_len out.new ≤ array_vec_len out.old + 33 }
{
    if layout.has(place) {
        put(out, field_word(place));
        put_hex(out, number);
        out.push(b'\n');
    }
}

#[tactic(auto, unfolding(crate::specs::SampleText::dec_line))]
fn put_dec_line(out: &mut Text, layout: Layout, place: Place, number: u64)
    requires { array_vec_len out.old + 33 ≤ 18432 }
    ensures items { out.new.items ≡ out.old.items ++ dec_line layout place number }
    ensures most { array_vec_len out.new ≤ array_vec_len out.old + 33 }
{
    if layout.has(place) {
        put(out, field_word(place));
        put_decimal(out, number);
        out.push(b'\n');
    }
}

#[tactic(auto, unfolding(crate::specs::SampleText::thread_line))]
fn put_thread(out: &mut Text, layout: Layout, pid: u32, tid: u32)
    requires { array_vec_len out.old + 50 ≤ 18432 }
    ensures items { out.new.items ≡ out.old.items ++ thread_line layout pid tid }
    ensures most { array_vec_len out.new ≤ array_vec_len out.old + 50 }
{
    if layout.has(Place::Tid) {
        put(out, b"pid ");
        put_decimal(out, u64::from(pid));
        put(out, b" tid ");
        put_decimal(out, u64::from(tid));
        out.push(b'\n');
    }
}

// The lines of the fields before the number of branches.
#[tactic(auto, unfolding(crate::specs::SampleText::shown_fields))]
fn put_fields(out: &mut Text, layout: Layout, sample: &Sample)
    requires { array_vec_len out.old ≤ 100 }
    ensures items { out.new.items ≡ out.old.items ++ shown_fields layout sample.now }
    ensures most { array_vec_len out.new ≤ array_vec_len out.old + 320 }
{
    put_hex_line(out, layout, Place::Identifier, sample.identifier);
    put_hex_line(out, layout, Place::Ip, sample.ip);
    put_thread(out, layout, sample.pid, sample.tid);
    put_dec_line(out, layout, Place::Time, sample.time);
    put_hex_line(out, layout, Place::Addr, sample.addr);
    put_hex_line(out, layout, Place::Id, sample.id);
    put_hex_line(out, layout, Place::StreamId, sample.stream_id);
    put_dec_line(out, layout, Place::Cpu, u64::from(sample.cpu));
    put_dec_line(out, layout, Place::Period, sample.period);
}

fn put_branch(out: &mut Text, branch: &Branch)
    requires { array_vec_len out.old + 68 ≤ 18432 }
    ensures items { out.new.items ≡ out.old.items ++ shown_branch branch.now }
    ensures most { array_vec_len out.new ≤ array_vec_len out.old + 68 }
{
    put_hex(out, branch.from);
    put(out, b" ");
    put_hex(out, branch.to);
    put(out, b" ");
    put(out, type_name(((branch.flags >> 20) % 16) as u8));
    put(out, b" ");
    put_hex(out, branch.flags);
    put(out, b"\n");
}

fn put_branches(out: &mut Text, branches: &[Branch])
    requires few { length branches.now ≤ 256 }
    requires room { array_vec_len out.old ≤ 640 }
    ensures items { out.new.items ≡ out.old.items ++ flat_map shown_branch branches.now }
    ensures most { array_vec_len out.new ≤ array_vec_len out.old + 68 * length branches.now }
{
    for branch in branches {
        put_branch(out, branch);
    }
}

/// Writes the lines of a sample that begins at this offset: afterwards `out` holds them and
/// nothing else.
#[tactic(auto, unfolding(crate::specs::SampleText::shown_sample))]
pub fn put_sample(out: &mut Text, layout: Layout, offset: u64, sample: &Sample)
    ensures { out.new.items ≡ shown_sample layout offset sample.now }
{
    let branches = sample.branches.items();
    out.clear();
    put(out, b"sample ");
    put_decimal(out, offset);
    put(out, b" misc ");
    put_decimal(out, u64::from(sample.misc));
    put(out, b" size ");
    put_decimal(
        out,
        u64::from(layout.fixed_len()) + u64::from(BRANCH_SIZE) * branches.len() as u64,
    );
    put(out, b"\n");
    put_fields(out, layout, sample);
    put(out, b"branches ");
    put_decimal(out, branches.len() as u64);
    put(out, b"\n");
    put_hex_line(out, layout, Place::HwIndex, sample.hw_index);
    put_branches(out, branches);
}
