// The checks that several calls share, and the copying of values into a buffer.
ghost use Rattle.std.specs.Prelude.{◌≡◌, ◌<◌, ◌≤◌, false, [], ◌∷◌, ◌++◌, length, drop, OnOk, slice_index_or, slice_set};
ghost use Rattle.stores.specs.Rows.{place_count, store_at};
ghost use Rattle.orders.specs.Lists.{objects_of};
ghost use Rattle.model.specs.Calls.{read as call_read};
ghost use Rattle.model.specs.Checks.{first, not_opened, no_such_machine, is_down, answer};
ghost use Rattle.model.specs.Orders.{picked};
ghost use Rattle.model.specs.World.{machines as machine_count, objects as object_total, is_up};
ghost use Rattle.register.specs.Meaning.{world, with_up, raised_at, no_orders};
ghost use Rattle.register.specs.Refusals.{answer_number};

use crate::opening::value_at;
use crate::refusals::Refusal;
use crate::registers::Register;
use orders::ObjectList;
use stores::Row;

impl<R: Row> Register<R> {
    pub(crate) fn known_machine(&self, machine: u8) -> Result<(), Refusal>
        ensures { answer_number result ≡ first (not_opened (world R.Row.stores self.now) ∷ no_such_machine (world R.Row.stores self.now) machine ∷ []) }
    {
        self.opened?;
        if machine >= self.row.count().min(8) {
            return Err(Refusal::NoSuchMachine);
        }
        Ok(())
    }

    pub(crate) fn running_machine(&self, machine: u8) -> Result<(), Refusal>
        ensures { answer_number result ≡ first (not_opened (world R.Row.stores self.now) ∷ no_such_machine (world R.Row.stores self.now) machine ∷ is_down (world R.Row.stores self.now) machine ∷ []) }
    {
        self.known_machine(machine)?;
        if !self.is_up(machine) {
            return Err(Refusal::MachineDown);
        }
        Ok(())
    }

    pub(crate) fn is_up(&self, machine: u8) -> bool
        ensures { result ≡ is_up (world R.Row.stores self.now) machine }
    {
        self.up.get(machine as usize).copied().unwrap_or(false)
    }

    pub(crate) fn set_up(&mut self, machine: u8, flag: bool)
        ensures { world R.Row.stores self.new ≡ with_up (world R.Row.stores self.old) machine flag }
    {
        let machine = machine as usize;
        if machine < self.up.len() {
            self.up[machine] = flag;
        }
    }

    // The machine is up again; what is pending there would be dropped.
    pub(crate) fn raise(&mut self, machine: u8)
        ensures { world R.Row.stores self.new ≡ raised_at (world R.Row.stores self.old) machine }
    {
        self.set_up(machine, true);
    }

    // The object count, where there is a machine to ask.
    pub(crate) fn object_count(&self) -> usize
        requires { 0 < machine_count (world R.Row.stores self.now) }
        ensures { result ≡ object_total (world R.Row.stores self.now) }
    {
        self.row.object_count(0).unwrap_or(0)
    }

    pub(crate) fn readable(&self, machine: u8, list: &[u8], buffer: usize) -> Result<(), Refusal>
        ensures number { answer_number result ≡ answer no_orders (call_read machine list.now buffer) (world R.Row.stores self.now) }
        ensures fits { OnOk result ((machine < machine_count (world R.Row.stores self.now)) × (length list.now ≤ buffer) × (length list.now ≤ 8)) }
    {
        self.running_machine(machine)?;
        ObjectList::check(list, self.object_count())?;
        if buffer < list.len() {
            return Err(Refusal::ShortBuffer);
        }
        Ok(())
    }
}

pub(crate) fn copy_values<R: Row>(row: &R, machine: u8, list: &[u8], buffer: &mut [u32])
    requires { (machine < place_count (R.Row.stores row.now)) × (length list.now ≤ length buffer.old) }
    ensures { buffer.new ≡ picked (store_at (R.Row.stores row.now) machine).values list.now ++ drop (length list.now) buffer.old }
{
    // By index: after a walk over `iter_mut` with an adapter a proof knows nothing of the values.
    for (i, object) in list.iter().enumerate() {
        buffer[i] = value_at(row, machine, *object as usize);
    }
}
