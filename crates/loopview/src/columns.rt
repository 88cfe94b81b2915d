//! The readings as three columns of bytes: addresses and values packed at one width each, and ticks by their differences.
ghost use Rattle.std.specs.Prelude.{◌≡◌, ℕ, ◌+◌, ◌*◌, ◌^◌, ◌<◌, ◌≤◌, count_by, map, length, take, pos, ◌+ℤ◌, IfOk, IfErr, vec_len, slice_index};
ghost use Rattle.std.specs.List.{zip};
ghost use Rattle.loopview.specs.Readings.{is_same};
ghost use Rattle.std.specs.Int.{int_wrap, w64};
ghost use Rattle.bit_writer.specs.Sizes.{bytes_for};
ghost use Rattle.bit_writer.specs.Writer.{AllFit, HasRoom, HoldsNone, Wrote, packed_bytes};
ghost use Rattle.loopview.specs.Columns.{Before, Packs, difference_of, packed_of, pattern_of, ticks_of, unpacked_at, unpacked_of, width_of};
ghost use Rattle.loopview.specs.declared.columns.ReadError.TheVariants.{Memory};

use crate::readings::Reading;
use crate::report::HexFront;
use bits::{BitReader, BitWriter, Fault, FaultKind, Layer};
use std::alloc::{AllocError, AllocFailed, Global};
use std::fmt;
use thiserror::Error;

/// The most bytes that the difference of two ticks takes: seven bits of 64 to a byte.
const TICK_BYTES: usize = 10;

/// A column whose values are packed at one width.
// Two methods match on it: a type for each column, with a trait over both, would be longer.
#[derive(Clone, Copy, Debug, PartialEq, Eq)]
enum PackedColumn {
    Address,
    Value,
}

impl PackedColumn {
    /// How many bits a value of the column has.
    fn width(self) -> usize
        ensures { result ≡ width_of self }
    {
        match self {
            PackedColumn::Address => 7,
            PackedColumn::Value => 8,
        }
    }

    /// What the column holds of a reading.
    fn pattern(self, reading: &Reading) -> u64
        ensures value { result ≡ pattern_of self reading.now }
        ensures below { result < 2 ^ width_of self }
    {
        match self {
            PackedColumn::Address => u64::from(reading.address()),
            PackedColumn::Value => u64::from(reading.value()),
        }
    }

    /// The column's values, one for each reading.
    fn patterns(self, heap: Global, readings: &[Reading]) -> Result<Vec<u64>, AllocError>
        ensures values { IfOk result (λ v. v.items ≡ map (pattern_of self) readings.now) }
        ensures fit { IfOk result (λ v. AllFit (width_of self) v.items) }
    {
        // Memory is asked for as the list grows: of one request for all of it there may be too little.
        readings
            .iter()
            .map(|reading| Ok(self.pattern(reading)))
            .try_collect(heap)
    }

    /// The column's bytes.
    fn pack(self, heap: Global, readings: &[Reading]) -> Result<Vec<u8>, AllocError>
        ensures { IfOk result (λ v. v.items ≡ packed_of self readings.now) }
    {
        let patterns = self.patterns(heap, readings)?;
        pack_patterns(heap, patterns.as_slice(), self.width())
    }

    /// The first `count` values of a column that was packed into `bytes`.
    fn unpack(self, heap: Global, bytes: &[u8], count: usize) -> Result<Vec<u8>, ReadError>
        ensures values { IfOk result (λ v. v.items ≡ unpacked_of self count bytes.now) }
        ensures len { IfOk result (λ v. vec_len v ≡ count) }
        ensures below { IfOk result (λ v. (i : ℕ) → i < count → slice_index v.items i < 2 ^ width_of self) }
        ensures fault { IfErr result (Before count) }
    {
        let mut values = vec![in heap; 0u8; count]?;
        let found = unpack_into(values.as_mut_slice(), bytes, self.width());
        if found < count {
            return Err(ReadError::Faulty {
                fault: FaultKind::TooFewValues.at(found),
                good: found,
            });
        }
        Ok(values)
    }
}

/// Unpacks values of `num_bits` bits each into the cells, and answers how many there were.
fn unpack_into(cells: &mut [u8], bytes: &[u8], num_bits: usize) -> usize
    requires { num_bits ≤ 8 }
    ensures bound { result ≤ length cells.old }
    ensures values { result ≡ length cells.old → cells.new ≡ unpacked_at num_bits result bytes.now }
{
    let mut reader = BitReader::new(bytes);
    reader.get_batch(cells, num_bits)
}

/// Packs `patterns` into `out`, which they fill.
// The width is a plain number here and below, as the writer takes it.
fn pack_into(out: &mut [u8], patterns: &[u64], num_bits: usize)
    requires width { num_bits ≤ 64 }
    requires fit { AllFit num_bits patterns.now }
    requires filled { length out.old ≡ bytes_for (length patterns.now * num_bits) }
    ensures { out.new ≡ packed_bytes num_bits patterns.now }
{
    let mut writer = BitWriter::new(out);
    writer.put_packed(patterns, num_bits);
}

/// The bytes of `patterns`, packed at `num_bits` bits each.
fn pack_patterns(heap: Global, patterns: &[u64], num_bits: usize) -> Result<Vec<u8>, AllocError>
    requires width { num_bits ≤ 64 }
    requires fit { AllFit num_bits patterns.now }
    ensures { IfOk result (λ v. v.items ≡ packed_bytes num_bits patterns.now) }
{
    let Some(bits) = patterns.len().checked_mul(num_bits) else {
        return Err(AllocError);
    };
    let mut bytes = vec![in heap; 0u8; bits.div_ceil(8)]?;
    pack_into(bytes.as_mut_slice(), patterns, num_bits);
    Ok(bytes)
}

/// The difference of a tick to the tick before, which wraps in 64 bits.
fn difference(tick: i64, before: i64) -> i64
    ensures { result ≡ difference_of before tick }
{
    tick.wrapping_sub(before)
}

/// Writes each tick as its difference to the tick before, the first as that to 0.
fn put_ticks(writer: &mut BitWriter<'_>, readings: &[Reading])
    requires none { HoldsNone writer.old }
    requires room { HasRoom writer.old (length readings.now * 10) }
    ensures bytes { Wrote writer.old writer.new (ticks_of (pos 0) readings.now) }
    ensures room { HasRoom writer.old (length (ticks_of (pos 0) readings.now)) }
{
    let mut before = 0;
    for reading in readings {
        let tick = reading.tick();
        writer.put_zigzag_vlq_int(difference(tick, before));
        before = tick;
    }
}

/// Writes the ticks to the front of `out`, and answers how many bytes they take.
fn pack_ticks_into(out: &mut [u8], readings: &[Reading]) -> usize
    requires { length readings.now * 10 ≤ length out.old }
    ensures { take result out.new ≡ ticks_of (pos 0) readings.now }
{
    let mut writer = BitWriter::new(out);
    put_ticks(&mut writer, readings);
    writer.bytes_written()
}

/// The bytes of the ticks.
fn pack_ticks(heap: Global, readings: &[Reading]) -> Result<Vec<u8>, AllocError>
    ensures { IfOk result (λ v. v.items ≡ ticks_of (pos 0) readings.now) }
{
    let Some(room) = readings.len().checked_mul(TICK_BYTES) else {
        return Err(AllocError);
    };
    let mut bytes = vec![in heap; 0u8; room]?;
    let used = pack_ticks_into(bytes.as_mut_slice(), readings);
    bytes.truncate(used);
    Ok(bytes)
}

/// The tick that comes `difference` after the tick before, which wraps in 64 bits.
fn tick_after(before: i64, difference: i64) -> i64
    ensures { result ≡ int_wrap w64 (before +ℤ difference) }
{
    before.wrapping_add(difference)
}

/// The first `count` ticks of those that were packed into `bytes`.
fn unpack_ticks(heap: Global, bytes: &[u8], count: usize) -> Result<Vec<i64>, ReadError>
    ensures len { IfOk result (λ v. vec_len v ≡ count) }
    ensures fault { IfErr result (Before count) }
{
    let mut reader = BitReader::new(bytes);
    let mut ticks = Vec::new(heap);
    let mut tick = 0;
    // How many ticks were good is part of a fault's answer, and each read moves the reader.
    for good in 0..count {
        let difference = reader
            .get_zigzag_vlq_int()
            .map_err(|fault| ReadError::Faulty { fault, good })?;
        tick = tick_after(tick, difference);
        ticks.push(tick)?;
    }
    Ok(ticks)
}

/// The readings whose parts stand at the same place of each slice.
fn join(
    heap: Global,
    addresses: &[u8],
    values: &[u8],
    ticks: &[i64],
) -> Result<Vec<Reading>, AllocError>
    requires values { length values.now ≡ length addresses.now }
    requires ticks { length ticks.now ≡ length addresses.now }
    requires on_loop { (i : ℕ) → i < length addresses.now → slice_index addresses.now i < 128 }
    ensures { IfOk result (λ v. vec_len v ≡ length addresses.now) }
{
    let mut readings = Vec::new(heap);
    // As `map` and `collect` it is not proved that the closure may be called at each place.
    for ((address, value), tick) in addresses.iter().zip(values).zip(ticks) {
        readings.push(Reading::new(*address, *value, *tick))?;
    }
    Ok(readings)
}

/// The bytes of the three columns, with the number of readings, so that reading back rests on no column's width.
#[derive(Debug, PartialEq, Eq, Drop)]
pub struct Columns {
    count: usize,
    addresses: Vec<u8>,
    values: Vec<u8>,
    ticks: Vec<u8>,
}

impl Columns {
    /// The columns of `readings`.
    pub fn pack(heap: Global, readings: &[Reading]) -> Result<Columns, AllocError>
        ensures { IfOk result (λ c. Packs c readings.now) }
    {
        Ok(Columns {
            count: readings.len(),
            addresses: PackedColumn::Address.pack(heap, readings)?,
            values: PackedColumn::Value.pack(heap, readings)?,
            ticks: pack_ticks(heap, readings)?,
        })
    }

    /// The readings that the bytes of the columns hold.
    pub fn read_back(&self, heap: Global) -> Result<Vec<Reading>, ReadError>
        ensures len { IfOk result (λ v. vec_len v ≡ self.now.count) }
        ensures fault { IfErr result (Before self.now.count) }
    {
        let addresses = PackedColumn::Address.unpack(heap, self.addresses.as_slice(), self.count)?;
        let values = PackedColumn::Value.unpack(heap, self.values.as_slice(), self.count)?;
        let ticks = unpack_ticks(heap, self.ticks.as_slice(), self.count)?;
        let readings = join(
            heap,
            addresses.as_slice(),
            values.as_slice(),
            ticks.as_slice(),
        )?;
        Ok(readings)
    }
}

impl fmt::Display for Columns {
    fn fmt<W: fmt::Write>(&self, f: &mut fmt::Formatter<W>) -> fmt::Result {
        write_column(f, "addresses", self.addresses.as_slice())?;
        write_column(f, "values", self.values.as_slice())?;
        write_column(f, "ticks", self.ticks.as_slice())
    }
}

/// Writes how many bytes a column takes, and the first of them.
fn write_column<W: fmt::Write>(f: &mut fmt::Formatter<W>, name: &str, bytes: &[u8]) -> fmt::Result {
    let count = bytes.len();
    let front = HexFront(bytes);
    writeln!(f, "{name}: {count} bytes, {front}")
}

/// Why the readings were not read back.
// `From` is written by hand, since the contracts of `unpack` and `read_back` need what it gives.
#[derive(Clone, Copy, Debug, PartialEq, Eq, Error)]
pub enum ReadError {
    /// There was no memory for the readings.
    #[error("no memory to read the columns back")]
    Memory,
    /// The bytes have a fault, after this many good readings.
    #[error("{fault} in the {layer} layer, after {good} good readings", layer = layer_name(.fault))]
    Faulty { fault: Fault, good: usize },
}

impl From<AllocError> for ReadError {
    ghost from_gives = { λ _ r. r ≡ Memory };

    fn from(_e: AllocError) -> Self {
        ReadError::Memory
    }
}

impl<T: Drop> From<AllocFailed<T>> for ReadError {
    ghost from_gives = { λ _ r. r ≡ Memory };

    fn from(_e: AllocFailed<T>) -> Self {
        ReadError::Memory
    }
}

// The name of a layer in a sentence, where `Display` of `Layer` says "bits".
fn layer_name(fault: &Fault) -> &'static str {
    match fault.layer() {
        Layer::Bits => "bit",
        Layer::Column => "column",
        Layer::Count => "count",
    }
}

/// How many readings came back as they were packed.
pub fn count_equal(packed: &[Reading], back: &[Reading]) -> usize
    ensures value { result ≡ count_by (λ p. is_same p.0 p.1) (zip packed.now back.now) }
    ensures bound { result ≤ length packed.now }
{
    packed
        .iter()
        .zip(back)
        .filter(|(before, after)| before == after)
        .count()
}
