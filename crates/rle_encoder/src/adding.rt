//! Adding values to an encoder.
//!
//! What these methods ask (`Takes`, `Fills`, which phase it is) goes by the value that comes: an encoder keeps none of it. That
//! its buffer is still the one that was lent (`lent`) is said by each public call, since it is no part of the state.
ghost use Rattle.std.specs.Prelude.{◌≡◌, ◌+◌, ◌*◌, ◌<◌, ◌≤◌, true, false, [], ◌∷◌, if◌then◌else◌, Err, nat_eq};
ghost use Rattle.arrayvec.specs.ArrayVec.{array_vec_len};
ghost use Rattle.column.specs.Putting.{accepting, answered};
ghost use Rattle.column.specs.declared.Refusal.{Refusal};
ghost use Rattle.rle_encoder.specs.Encoder.{Added, Fills, RoomFor, Takes, accepted, again, more, refusal, repeats, room, run_refusal, width};
ghost use Rattle.rle_encoder.specs.Encoding.{equals, group_with, joins};
ghost use Rattle.rle_encoder.specs.declared.phase.Phase.TheVariants.{Gathering, Packing, Repeating};

use crate::finishing::padded_group;
use crate::{Phase, RleEncoder};
use arrayvec::ArrayVec;
use column::{Element, Refusal};
use rle::{group_bytes, repeated_bytes};

impl<'a> RleEncoder<'a> {
    /// Adds a value's pattern at the list's end. A refused value changes nothing.
    pub fn put<E: Element>(&mut self, v: E) -> Result<(), Refusal>
        ensures answer { result ≡ answered (refusal self.old (E.Element.pattern v)) }
        ensures accepted { accepted self.new
            ≡ accepting (refusal self.old (E.Element.pattern v)) (accepted self.old) (E.Element.pattern v ∷ []) }
        ensures refused { (x : Refusal) → result ≡ Err x → self.new ≡ self.old }
        ensures width { width self.new ≡ width self.old }
        ensures room { room self.new ≡ room self.old }
        ensures lent { self.new.out.ghost_name ≡ self.old.out.ghost_name }
    {
        let pattern = v.to_pattern();
        self.admit(pattern)?;
        self.add(pattern);
        Ok(())
    }

    /// Adds the value that repeats `count` times more, as that many puts would. A refused call changes nothing.
    pub fn extend_run(&mut self, count: usize) -> Result<(), Refusal>
        ensures answer { result ≡ answered (run_refusal self.old count) }
        ensures accepted { accepted self.new
            ≡ accepting (run_refusal self.old count) (accepted self.old) (again self.old count) }
        ensures refused { (x : Refusal) → result ≡ Err x → self.new ≡ self.old }
        ensures width { width self.new ≡ width self.old }
        ensures room { room self.new ≡ room self.old }
        ensures lent { self.new.out.ghost_name ≡ self.old.out.ghost_name }
    {
        self.admit_run(count)?;
        self.extend(count);
        Ok(())
    }

    fn add(&mut self, value: u64)
        requires { Takes self.old value }
        ensures { Added self.old self.new (value ∷ []) }
    {
        match (self.progress.phase, self.progress.is_current(value)) {
            (Phase::Repeating { .. }, true) => self.extend(1),
            (Phase::Repeating { count }, false) => self.close_run(count, value),
            (Phase::Gathering | Phase::Packing { .. }, same) => self.gather(value, same),
        }
    }

    // The value that repeats, `count` times more.
    fn extend(&mut self, count: usize)
        requires run { repeats self.old.progress.phase ≡ true }
        requires room { RoomFor self.old (more self.old count) }
        ensures { Added self.old self.new (more self.old count) }
    {
        if let Phase::Repeating { count: before } = self.progress.phase {
            self.progress.phase = Phase::Repeating {
                count: before + count,
            };
            self.progress.length += count;
        }
    }

    // The run ends, and another value is the first of a new group.
    fn close_run(&mut self, count: usize, value: u64)
        requires run { self.old.progress.phase ≡ Repeating count }
        requires other { equals self.old.progress.same value ≡ false }
        requires takes { Takes self.old value }
        ensures { Added self.old self.new (value ∷ []) }
    {
        let run = repeated_bytes(count, self.progress.current(), self.progress.width);
        self.progress.written = self.store(self.progress.written, run.as_slice());
        self.progress.phase = Phase::Gathering;
        self.progress.collect(value, true);
    }

    // One value more of a group, with a packed run open or none; the eighth settles what becomes of it.
    fn gather(&mut self, value: u64, same: bool)
        requires calm { repeats self.old.progress.phase ≡ false }
        requires same { same ≡ equals self.old.progress.same value }
        requires takes { Takes self.old value }
        ensures { Added self.old self.new (value ∷ []) }
    {
        let alike = self.progress.alike_with(same);
        if !self.progress.gathered.is_full() {
            self.collect(value, alike);
        } else if alike {
            self.begin_run(value);
        } else {
            self.pack(value);
        }
    }

    // One value more of a group that is not full. The buffer stays, and what is kept of it holds on.
    fn collect(&mut self, value: u64, alike: bool)
        requires calm { repeats self.old.progress.phase ≡ false }
        requires few { array_vec_len self.old.progress.gathered < 7 }
        requires alike { alike ≡ joins self.old.progress value }
        requires takes { Takes self.old value }
        ensures { Added self.old self.new (value ∷ []) }
    {
        self.progress.collect(value, alike);
    }

    // The eighth of eight equal values. A packed run that is open ends with the group before.
    fn begin_run(&mut self, value: u64)
        requires { Fills self.old value true }
        ensures { Added self.old self.new (value ∷ []) }
    {
        self.write_header();
        self.progress
            .close_group(Phase::Repeating { count: 8 }, Some(value));
    }

    // The eighth of eight values that are packed.
    fn pack(&mut self, value: u64)
        requires { Fills self.old value false }
        ensures { Added self.old self.new (value ∷ []) }
    {
        if let Phase::Packing { header, groups } = self.progress.phase {
            self.extend_packed(header, groups, value);
        } else {
            self.open_packed(value);
        }
    }

    // They begin a packed run: a byte before them is left for its header. One function for this and the next would take the
    // place, the header and the phase from both, and be no plainer.
    fn open_packed(&mut self, value: u64)
        requires phase { self.old.progress.phase ≡ Gathering }
        requires fills { Fills self.old value false }
        ensures { Added self.old self.new (value ∷ []) }
    {
        let group = self.group_with(value);
        let header = self.progress.written;
        self.progress.written = self.store(header + 1, group.as_slice());
        self.progress
            .close_group(Phase::Packing { header, groups: 1 }, None);
    }

    // They join the open packed run, which closes at 63 groups.
    fn extend_packed(&mut self, header: usize, groups: usize, value: u64)
        requires phase { self.old.progress.phase ≡ Packing header groups }
        requires fills { Fills self.old value false }
        ensures { Added self.old self.new (value ∷ []) }
    {
        let group = self.group_with(value);
        let end = self.store(self.progress.written, group.as_slice());
        self.out[header] = header_of(groups + 1);
        self.progress.written = end;
        self.progress
            .close_group(open_run(header, groups + 1), None);
    }

    // The bytes of the seven collected values and one more as a packed group.
    fn group_with(&self, value: u64) -> ArrayVec<u8, 64>
        requires { Fills self.now value false }
        ensures { result.items ≡ group_with self.now.progress value }
    {
        let mut group = padded_group(self.progress.gathered.as_slice());
        group[7] = value;
        group_bytes(group, self.progress.width)
    }
}

// The header of a packed run of so many groups.
pub(crate) fn header_of(groups: usize) -> u8
    requires { groups ≤ 63 }
    ensures { result ≡ 2 * groups + 1 }
{
    (2 * groups + 1) as u8
}

// A packed run of so many groups is open, unless it is full.
fn open_run(header: usize, groups: usize) -> Phase
    ensures { result ≡ (if nat_eq groups 63 then Gathering else Packing header groups) }
{
    if groups == 63 {
        Phase::Gathering
    } else {
        Phase::Packing { header, groups }
    }
}
