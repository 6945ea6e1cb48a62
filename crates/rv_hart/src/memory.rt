//! The memory of a task.

ghost use Rattle.std.specs.Prelude.{◌≡◌, ◌+◌, ◌*◌, ◌≤◌, ◌^◌, ◌<◌, ◌++◌, length, take, drop, IfOk, IfSome};
ghost use Rattle.rv_decode.specs.declared.operations.Width.TheVariants.{W};
ghost use Rattle.rv_hart.specs.Memory.{memory_of, place_of, bytes_of, number_at, loaded, stored};

use byteorder::{ByteOrder, LittleEndian};
use ctr_bits::sext;
use ctr_port::NoMemory;
use rv_decode::Width;
use std::alloc::Global;
use std::marker::Model;

/// Where memory begins.
pub(crate) const BASE: u64 = 0x8000_0000;

/// The memory of a task, from the address 0x80000000 on: at most 1,048,576 bytes. Contracts see its bytes.
#[derive(Drop)]
pub struct TaskMem {
    bytes: Vec<u8>,
}

impl Model for TaskMem {
    ghost use Rattle.std.specs.Prelude.{ℕ, ◌≤◌, List, length};

    ghost Value = { List ℕ };

    ghost view = { λ m. m.bytes.items };

    ghost invariant = { λ m. length m.bytes.items ≤ 1048576 };
}

impl TaskMem {
    /// `mem` bytes: the image first, and zeros after it. The image is no longer than `mem`, and `mem` is at most
    /// 1,048,576.
    pub fn new(alloc: Global, image: &[u8], mem: u32) -> Result<TaskMem, NoMemory>
        requires fits { length image.now ≤ mem }
        requires small { mem ≤ 1048576 }
        ensures { IfOk result (λ m. m ≡ memory_of image.now mem) }
    {
        let mut bytes = Vec::from_slice(alloc, image)?;
        bytes.resize(mem as usize, 0)?;
        Ok(TaskMem { bytes })
    }

    /// How many bytes it has.
    pub fn len(&self) -> u32
        ensures { result ≡ length self.now }
    {
        self.bytes.len() as u32
    }

    // The place of so many bytes from an address on, where they lie wholly in it.
    #[inline(always)]
    pub(crate) fn place(&self, address: u64, count: u64) -> Option<usize>
        requires { count ≤ 8 }
        ensures place { result ≡ place_of (length self.now) address count }
        ensures within { IfSome result (λ at. at + count ≤ length self.now) }
    {
        let size = self.bytes.len() as u64;
        // An address below the memory is far above it so.
        let at = address.wrapping_sub(BASE);
        if size < count || at > size - count {
            return None;
        }
        Some(at as usize)
    }

    // The word of four bytes at a place.
    pub(crate) fn word(&self, at: usize) -> u32
        requires { at + 4 ≤ length self.now }
        ensures { result ≡ number_at W self.now at }
    {
        let (_, rest) = self.bytes.as_slice().split_at(at);
        LittleEndian::read_u32(rest)
    }

    // The bytes at a place as a number, the lowest first.
    #[inline(always)]
    fn number(&self, width: Width, at: usize) -> u64
        requires { at + bytes_of width ≤ length self.now }
        ensures value { result ≡ number_at width self.now at }
        ensures fits { result < 2 ^ (8 * bytes_of width) }
    {
        let (_, rest) = self.bytes.as_slice().split_at(at);
        match width {
            Width::B => u64::from(rest[0]),
            Width::H => u64::from(LittleEndian::read_u16(rest)),
            Width::W => u64::from(LittleEndian::read_u32(rest)),
            Width::D => LittleEndian::read_u64(rest),
        }
    }

    // The bytes at a place as a register takes them.
    #[inline(always)]
    pub(crate) fn load(&self, width: Width, signed: bool, at: usize) -> u64
        requires { at + bytes_of width ≤ length self.now }
        ensures { result ≡ loaded width signed self.now at }
    {
        let number = self.number(width, at);
        if signed {
            sext(number, bits(width))
        } else {
            number
        }
    }

    // Writes some bytes at a place.
    #[inline(always)]
    fn put(&mut self, at: usize, bytes: &[u8])
        requires { at + length bytes.now ≤ length self.old }
        ensures { self.new
            ≡ take at self.old ++ (bytes.now ++ drop (at + length bytes.now) self.old) }
    {
        self.bytes[at..at + bytes.len()].copy_from_slice(bytes);
    }

    // Writes the lowest bytes of a value at a place, the lowest first.
    #[inline(always)]
    pub(crate) fn store(&mut self, width: Width, value: u64, at: usize)
        requires { at + bytes_of width ≤ length self.old }
        ensures { self.new ≡ stored width value self.old at }
    {
        let bytes = value.to_le_bytes();
        match width {
            Width::B => self.put(at, &bytes[..1]),
            Width::H => self.put(at, &bytes[..2]),
            Width::W => self.put(at, &bytes[..4]),
            Width::D => self.put(at, &bytes[..8]),
        }
    }
}

// The bytes of a load or store.
#[inline(always)]
pub(crate) fn count(width: Width) -> u64
    ensures value { result ≡ bytes_of width }
    ensures few { result ≤ 8 }
    ensures some { 1 ≤ result }
{
    match width {
        Width::B => 1,
        Width::H => 2,
        Width::W => 4,
        Width::D => 8,
    }
}

// Its bits.
#[inline(always)]
fn bits(width: Width) -> u32
    ensures value { result ≡ 8 * bytes_of width }
    ensures few { result ≤ 64 }
    ensures some { 1 ≤ result }
{
    match width {
        Width::B => 8,
        Width::H => 16,
        Width::W => 32,
        Width::D => 64,
    }
}
