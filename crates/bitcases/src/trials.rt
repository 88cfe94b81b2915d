//! The calls of the bit layer that a case asks for. Where one has a `requires`, a test of the case meets it.
ghost use Rattle.std.specs.Prelude.{◌≡◌, ◌+◌, ◌*◌, ◌<◌, ◌≤◌, length, IfOk, Ok, Err, vec_len};
ghost use Rattle.bit_reader.specs.Reader.{page};
ghost use Rattle.bit_writer.specs.Sizes.{bytes_for};
ghost use Rattle.bitcases.specs.declared.answers.Answer.TheVariants.{Read};
ghost use Rattle.bitcases.specs.declared.cases.Refusal.TheVariants.{PlaceBehindData};
ghost use Rattle.packed.specs.Vlq.{read_vlq};

use crate::answers::{Answer, VlqRead};
use crate::cases::{Batch, Case, Cell, Layout, MOST_VALUES, Packing, Refusal};
use bits::{BitReader, BitWriter, Element, fits, from_zigzag, read_vlq, to_zigzag, write_vlq};
use std::alloc::{AllocError, Global};

/// The answer to the case of a line.
pub fn answer(heap: Global, line: &str) -> Result<Answer, Refusal> {
    match Case::parse(heap, line)? {
        Case::Vlq(n) => write_and_read(heap, n),
        Case::ReadVlq { place, page } => read_at(page.as_slice(), place),
        Case::Zigzag(n) => {
            let zigzag = to_zigzag(n);
            let back = from_zigzag(zigzag);
            Ok(Answer::Zigzag { zigzag, back })
        }
        Case::Pack(packing) => pack(heap, &packing),
        Case::Batch(batch) => match batch.cell {
            Cell::U8 => read_batch::<u8>(heap, &batch),
            Cell::U16 => read_batch::<u16>(heap, &batch),
            Cell::U32 => read_batch::<u32>(heap, &batch),
            Cell::U64 => read_batch::<u64>(heap, &batch),
        },
    }
}

// A number takes ten bytes at most, and two of the tail follow it.
fn write_and_read(heap: Global, n: u64) -> Result<Answer, Refusal> {
    let mut page = vec![in heap; 0xFF; 12]?;
    let taken = write_vlq(page.as_mut_slice(), 0, n);
    page.truncate(taken + 2);
    let outcome = read_vlq(page.as_slice(), 0);
    page.truncate(taken);
    Ok(Answer::Vlq {
        bytes: page,
        read: VlqRead { outcome },
    })
}

fn read_at(page: &[u8], place: usize) -> Result<Answer, Refusal>
    ensures read { place ≤ length page.now → result ≡ Ok (Read (record { outcome = read_vlq page.now place })) }
    ensures behind { length page.now < place → result ≡ Err PlaceBehindData }
{
    if place > page.len() {
        return Err(Refusal::PlaceBehindData);
    }
    let outcome = read_vlq(page, place);
    Ok(Answer::Read(VlqRead { outcome }))
}

fn pack(heap: Global, packing: &Packing) -> Result<Answer, Refusal> {
    let layout = packing.layout;
    let values = packing.values.as_slice();
    if values.len() > MOST_VALUES {
        return Err(Refusal::TooManyValues);
    }
    let mut bytes = vec![in heap; 0; 8 * values.len() + 8]?;
    let written = put_values(bytes.as_mut_slice(), layout, values)?;
    bytes.truncate(written);
    let back = take_values::<u64>(
        heap,
        reader_behind(bytes.as_slice(), layout),
        layout,
        values.len(),
    )?;
    Ok(Answer::Packed {
        bytes,
        values: back,
    })
}

// Puts the lead and the values, and answers how many bytes they take.
fn put_values(out: &mut [u8], layout: Layout, values: &[u64]) -> Result<usize, Refusal>
    requires { 8 * length values.now + 8 ≤ length out.old }
    ensures { IfOk result (λ n. n ≡ bytes_for (layout.lead + length values.now * layout.width)) }
{
    let mut writer = BitWriter::new(out);
    writer.put_value(0, layout.lead);
    for v in values {
        if !fits(*v, layout.width) {
            return Err(Refusal::ValueTooLarge);
        }
        writer.put_value(*v, layout.width);
    }
    let written = writer.bytes_written();
    writer.flush();
    Ok(written)
}

// A reader behind the lead, if the page has that many bits.
fn reader_behind<'a>(bytes: &'a [u8], layout: Layout) -> BitReader<'a>
    ensures { page result ≡ bytes.now }
{
    let mut reader = BitReader::new(bytes);
    reader.skip(1, layout.lead);
    reader
}

// Up to `count` values by single reads, each as a cell keeps it.
fn take_values<T: Element + Into<u64>>(
    heap: Global,
    mut reader: BitReader<'_>,
    layout: Layout,
    count: usize,
) -> Result<Vec<u64>, AllocError> {
    let mut values = Vec::new(heap);
    // Each read moves the reader: under `map_while` that closure is not proved without clauses of its own.
    for _ in 0..count {
        let Some(value) = reader.get_value(layout.width) else {
            break;
        };
        values.push(T::from_pattern(value).into())?;
    }
    Ok(values)
}

fn read_batch<T: Element + Clone + Into<u64>>(
    heap: Global,
    batch: &Batch,
) -> Result<Answer, Refusal> {
    let layout = batch.layout;
    if batch.cells > MOST_VALUES {
        return Err(Refusal::TooManyValues);
    }
    let mut cells = vec![in heap; T::from_pattern(9); batch.cells]?;
    let before = reader_behind(batch.page.as_slice(), layout);
    let mut reader = before;
    let count = reader.get_batch(cells.as_mut_slice(), layout.width);
    let next = reader.get_byte_offset();
    let cells = widened(heap, cells.as_slice())?;
    let singles = take_values::<T>(heap, before, layout, count)?;
    let mut skipped = before;
    if skipped.skip(batch.cells, layout.width) != count
        || skipped.get_byte_offset() != next
        || singles.len() != count
        || !cells.as_slice().starts_with(singles.as_slice())
    {
        return Ok(Answer::Differs);
    }
    Ok(Answer::Batch { count, cells, next })
}

fn widened<T: Copy + Into<u64>>(heap: Global, cells: &[T]) -> Result<Vec<u64>, AllocError>
    ensures { IfOk result (λ v. vec_len v ≡ length cells.now) }
{
    cells.iter().map(|cell| (*cell).into()).collect(heap)
}
