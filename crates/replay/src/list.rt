// Reading the stored list, one byte behind the other. Where it ends too early, or cannot be read, every byte is 0: no list that is cut counts
// as whole, since the mark behind the last request is not 0. Bytes that pass the room for them are read and dropped, so that what stands
// behind them is read from its place.
ghost use Rattle.std.specs.Prelude.{◌^◌, ◌<◌, ◌≤◌, ◌≡◌, ℕ, List, [], ◌∷◌, length, take};
ghost use Rattle.std.specs.Io.KnownBytes.{Consumes};
ghost use Rattle.std.specs.Int.{to_le_bytes, w16, w32};
ghost use Rattle.replay.specs.Reads.{Reads, ReadsLength, ReadsPiece, ReadsPieces};

use std::io::{ErrorKind, Read};

// One read, made again where a signal interrupts it: how many bytes came. None came where the list has ended or cannot be read.
fn read_some<R: Read>(input: &mut R, dst: &mut [u8]) -> usize
    ensures in_bounds { result ≤ length dst.new }
    ensures at_start { Consumes (R.remaining input.old) (R.remaining input.new) (take result dst.new) }
{
    for _ in 0..u64::MAX {
        match input.read(dst) {
            Ok(count) => return count,
            Err(e) if e.kind() == ErrorKind::Interrupted => {}
            Err(_) => return 0,
        }
    }
    0
}

// The list's next bytes, as many as there is room for. A byte that cannot be read is 0, and the next one is asked for all the same.
fn fill<R: Read>(input: &mut R, dst: &mut [u8])
    ensures { Reads (R.remaining input.old) (R.remaining input.new) dst.new }
{
    let mut end = 0;
    while end < dst.len() {
        let count = read_some(input, &mut dst[end..]);
        if count > 0 {
            end += count;
        } else {
            dst[end] = 0;
            end += 1;
        }
    }
}

// Reads so many bytes and drops them.
fn skip<R: Read>(input: &mut R, count: usize)
    ensures { (bs : List ℕ) × (length bs ≡ count) × Reads (R.remaining input.old) (R.remaining input.new) bs }
{
    for _ in 0..count {
        next_u8(input);
    }
}

// So many bytes as they stand in the list.
fn next<const N: usize, R: Read>(input: &mut R) -> [u8; N]
    ensures { Reads (R.remaining input.old) (R.remaining input.new) result }
{
    let mut bytes = [0; N];
    fill(input, &mut bytes);
    bytes
}

pub fn next_u8<R: Read>(input: &mut R) -> u8
    ensures { Reads (R.remaining input.old) (R.remaining input.new) (result ∷ []) }
{
    u8::from_le_bytes(next(input))
}

#[tactic(auto, using(std::proofs::lemmas::Nat::le_bytes_2))]
pub fn next_u16<R: Read>(input: &mut R) -> u16
    ensures { Reads (R.remaining input.old) (R.remaining input.new) (to_le_bytes w16 result) }
{
    u16::from_le_bytes(next(input))
}

// A number of four bytes.
#[tactic(auto, using(std::proofs::lemmas::Nat::le_bytes_4))]
pub fn next_usize<R: Read>(input: &mut R) -> usize
    ensures fits { result < 2 ^ 32 }
    ensures read { Reads (R.remaining input.old) (R.remaining input.new) (to_le_bytes w32 result) }
{
    u32::from_le_bytes(next(input)) as usize
}

// A buffer of the length that comes next in the list, or the whole space where that is less.
pub fn next_room<'a, R: Read>(input: &mut R, space: &'a mut [u8]) -> &'a mut [u8]
    ensures { ReadsLength (R.remaining input.old) (R.remaining input.new) (length space.old) (length result.now) }
{
    let length = next_usize(input).min(space.len());
    &mut space[..length]
}

// The list's next piece, at the start of dst as far as it fits there: how many bytes that are.
fn next_piece<R: Read>(input: &mut R, dst: &mut [u8]) -> usize
    ensures in_bounds { result ≤ length dst.new }
    ensures read { ReadsPiece (R.remaining input.old) (R.remaining input.new) (length dst.old) (take result dst.new) }
{
    let length = usize::from(next_u16(input));
    let literal_end = length.min(dst.len());
    fill(input, &mut dst[..literal_end]);
    skip(input, length - literal_end);
    let often = usize::from(next_u16(input));
    let byte = next_u8(input);
    let end = (literal_end + often).min(dst.len());
    dst[literal_end..end].fill(byte);
    end
}

// The list's next bytes, as many as the space has room for.
pub fn next_bytes<'a, R: Read>(input: &mut R, space: &'a mut [u8]) -> &'a [u8]
    ensures in_bounds { length result.now ≤ length space.old }
    ensures counts { length result.now ≡ length (take (length result.now) space.old) }
    ensures read { ReadsPieces (R.remaining input.old) (R.remaining input.new) (length space.old) result.now }
{
    let mut filled = 0;
    for _ in 0..next_u16(input) {
        filled += next_piece(input, &mut space[filled..]);
    }
    &space[..filled]
}
