//! The fields of an instruction word, and the immediates of the base formats (Unprivileged ISA).

ghost use Rattle.std.specs.Prelude.{◌≡◌, ◌%◌, ◌^◌};
ghost use Rattle.ctr_bits.specs.Field.{field_of};
ghost use Rattle.rv_decode.specs.Formats.{imm_i_of, imm_s_of, imm_b_of, imm_u_of, imm_j_of};

use ctr_bits::{Field, sext};

pub(crate) fn opcode(word: u64) -> u64
    ensures { result ≡ field_of 0 7 word }
{
    Field::<0, 7>::get(word)
}

pub(crate) fn funct3(word: u64) -> u64
    ensures { result ≡ field_of 12 3 word }
{
    Field::<12, 3>::get(word)
}

pub(crate) fn funct6(word: u64) -> u64
    ensures { result ≡ field_of 26 6 word }
{
    Field::<26, 6>::get(word)
}

pub(crate) fn funct7(word: u64) -> u64
    ensures { result ≡ field_of 25 7 word }
{
    Field::<25, 7>::get(word)
}

pub(crate) fn whole(word: u64) -> u64
    ensures { result ≡ field_of 0 32 word }
{
    Field::<0, 32>::get(word)
}

pub(crate) fn rd(word: u64) -> u8
    ensures { result ≡ field_of 7 5 word }
{
    Field::<7, 5>::get(word) as u8
}

pub(crate) fn rs1(word: u64) -> u8
    ensures { result ≡ field_of 15 5 word }
{
    Field::<15, 5>::get(word) as u8
}

pub(crate) fn rs2(word: u64) -> u8
    ensures { result ≡ field_of 20 5 word }
{
    Field::<20, 5>::get(word) as u8
}

pub(crate) fn csr(word: u64) -> u16
    ensures { result ≡ field_of 20 12 word }
{
    Field::<20, 12>::get(word) as u16
}

pub(crate) fn shamt5(word: u64) -> u64
    ensures { result ≡ field_of 20 5 word }
{
    Field::<20, 5>::get(word)
}

pub(crate) fn shamt6(word: u64) -> u64
    ensures { result ≡ field_of 20 6 word }
{
    Field::<20, 6>::get(word)
}

pub(crate) fn imm_i(word: u64) -> u64
    ensures { result ≡ imm_i_of word }
{
    sext(Field::<20, 12>::get(word), 12)
}

pub(crate) fn imm_s(word: u64) -> u64
    ensures { result ≡ imm_s_of word }
{
    let high = Field::<25, 7>::get(word) * 32;
    sext(high + Field::<7, 5>::get(word), 12)
}

pub(crate) fn imm_b(word: u64) -> u64
    ensures { result ≡ imm_b_of word }
{
    let high = Field::<31, 1>::get(word) * 4096 + Field::<7, 1>::get(word) * 2048;
    sext(
        high + Field::<25, 6>::get(word) * 32 + Field::<8, 4>::get(word) * 2,
        13,
    )
}

pub(crate) fn imm_u(word: u64) -> u64
    ensures { result ≡ imm_u_of word }
{
    sext(Field::<12, 20>::get(word) * 4096, 32)
}

pub(crate) fn imm_j(word: u64) -> u64
    ensures { result ≡ imm_j_of word }
{
    let high = Field::<31, 1>::get(word) * 1048576 + Field::<12, 8>::get(word) * 4096;
    sext(
        high + Field::<20, 1>::get(word) * 2048 + Field::<21, 10>::get(word) * 2,
        21,
    )
}
