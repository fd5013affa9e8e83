//! CRC-32, three words a turn.

ghost use Rattle.std.specs.Prelude.{◌≡◌, ◌+◌, ◌*◌, ◌%◌, ◌<◌, ℕ, length, bit_xor};
ghost use Rattle.codec_frame.specs.Division.{IsCrc, crc_of};
ghost use Rattle.codec_frame.specs.Register.{steps, taken_in};

use crate::tables::{LAST, PASSED};
use byteorder::{ByteOrder, LittleEndian};

/// The CRC-32 of the bytes, as zlib computes it: the reflected polynomial edb88320, with ffffffff
/// as the start and as the last exclusive or.
pub fn crc32(bytes: &[u8]) -> u32
    ensures value { result ≡ crc_of bytes.now }

    // It is the inverted remainder of the division, and nothing else is.
    ensures division { IsCrc bytes.now result }
    ensures only { (c : ℕ) → IsCrc bytes.now c → c ≡ result }
{
    let (mut register, mut left) = take_in_triples(0xffff_ffff, bytes);
    'words: while left.len() >= 8 {
        let (word, rest) = left.split_at(8);
        register = take_in_word(register, word);
        left = rest;
    }
    take_in_rest(register, left) ^ 0xffff_ffff
}

// The register after triples of words, and the bytes after them. The words go into three registers in turn, so that none
// waits for the word before it.
fn take_in_triples(register: u32, bytes: &[u8]) -> (u32, &[u8])
    ensures { taken_in result.0 result.1.now ≡ taken_in register bytes.now }
{
    let mut first = register;
    let mut second: u32 = 0;
    let mut third: u32 = 0;
    let mut left = bytes;
    'triples: while left.len() >= 40 {
        let (a, behind) = left.split_at(8);
        let (b, rest) = behind.split_at(8);
        let (c, after) = rest.split_at(8);
        first = take_in_and_pass(first, a);
        second = take_in_and_pass(second, b);
        third = take_in_and_pass(third, c);
        left = after;
    }
    if left.len() < 16 {
        return (first, left);
    }
    let (a, behind) = left.split_at(8);
    let (b, rest) = behind.split_at(8);
    let joined = take_in_word(first, a) ^ second;
    (take_in_word(joined, b) ^ third, rest)
}

// The register after one word, and after the places of two more.
#[inline(always)]
fn take_in_and_pass(register: u32, word: &[u8]) -> u32
    requires { length word.now ≡ 8 }
    ensures { result ≡ steps 128 (taken_in register word.now) }
{
    sixteen_before(LittleEndian::read_u64(word) ^ register as u64)
}

// The register after one word.
#[inline(always)]
fn take_in_word(register: u32, word: &[u8]) -> u32
    requires { length word.now ≡ 8 }
    ensures { result ≡ taken_in register word.now }
{
    eight_last(LittleEndian::read_u64(word) ^ register as u64)
}

// The register after the bytes, one at a time.
fn take_in_rest(register: u32, bytes: &[u8]) -> u32
    ensures { result ≡ taken_in register bytes.now }
{
    let mut after = register;
    for b in bytes {
        after = take_in_byte(after, *b);
    }
    after
}

// The register after one byte.
#[inline(always)]
fn take_in_byte(register: u32, byte: u8) -> u32
    ensures { result ≡ steps 8 (bit_xor register byte) }
{
    entry(0, (register ^ byte as u32) as u64) ^ (register >> 8)
}

// What a word gives that sixteen bytes follow. The low bytes are the last, since the register is in them.
#[inline(always)]
fn sixteen_before(word: u64) -> u32
    ensures { result ≡ steps 192 word }
{
    passed(0, word >> 56)
        ^ passed(1, word >> 48)
        ^ passed(2, word >> 40)
        ^ passed(3, word >> 32)
        ^ passed(4, word >> 24)
        ^ passed(5, word >> 16)
        ^ passed(6, word >> 8)
        ^ passed(7, word)
}

// What a word gives that nothing follows.
#[inline(always)]
fn eight_last(word: u64) -> u32
    ensures { result ≡ steps 64 word }
{
    entry(0, word >> 56)
        ^ entry(1, word >> 48)
        ^ entry(2, word >> 40)
        ^ entry(3, word >> 32)
        ^ entry(4, word >> 24)
        ^ entry(5, word >> 16)
        ^ entry(6, word >> 8)
        ^ entry(7, word)
}

// What the lowest byte of a word gives where k more bytes follow it.
#[inline(always)]
fn entry(k: usize, word: u64) -> u32
    requires { k < 8 }
    ensures { result ≡ steps (8 * (k + 1)) (word % 256) }
{
    LAST[k][(word & 0xff) as usize]
}

// What the lowest byte of a word gives where k more bytes and two words follow it.
#[inline(always)]
fn passed(k: usize, word: u64) -> u32
    requires { k < 8 }
    ensures { result ≡ steps (8 * (k + 17)) (word % 256) }
{
    PASSED[k][(word & 0xff) as usize]
}
