// The calls that change a register or read from it, and the question for one value.
ghost use Rattle.std.specs.Prelude.{◌≡◌, ◌≤◌, [], ◌++◌, length, drop, is_ok, IfOk, if◌then◌else◌, OnOk, slice_index};
ghost use Rattle.model.specs.Calls.{down as call_down, up as call_up, tidy as call_tidy, read as call_read};
ghost use Rattle.model.specs.Questions.{value_answer};
ghost use Rattle.model.specs.Steps.{Step};
ghost use Rattle.model.specs.Orders.{picked};
ghost use Rattle.model.specs.World.{copy};
ghost use Rattle.register.specs.Meaning.{world, called, no_orders};
ghost use Rattle.register.specs.Refusals.{answer_number};

use crate::opening::value_at;
use crate::reading::copy_values;
use crate::refusals::Refusal;
use crate::registers::Register;
use stores::Row;

impl<R: Row> Register<R> {
    // The machine goes down.
    pub fn down(&mut self, machine: u8) -> Result<(), Refusal>
        ensures { Step no_orders (world R.Row.stores self.old) (called (call_down machine) result []) (world R.Row.stores self.new) }
    {
        self.known_machine(machine)?;
        if !self.is_up(machine) {
            return Err(Refusal::AlreadyDown);
        }
        self.set_up(machine, false);
        Ok(())
    }

    // The machine comes up again.
    pub fn up(&mut self, machine: u8) -> Result<(), Refusal>
        ensures { Step no_orders (world R.Row.stores self.old) (called (call_up machine) result []) (world R.Row.stores self.new) }
    {
        self.known_machine(machine)?;
        if self.is_up(machine) {
            return Err(Refusal::AlreadyUp);
        }
        self.raise(machine);
        Ok(())
    }

    // The machine's store makes room.
    pub fn tidy(&mut self, machine: u8) -> Result<(), Refusal>
        ensures { Step no_orders (world R.Row.stores self.old) (called (call_tidy machine) result []) (world R.Row.stores self.new) }
    {
        self.running_machine(machine)?;
        self.row.tidy(machine);
        Ok(())
    }

    // The copy's values at the listed objects, at the front of the buffer.
    pub fn read(&self, machine: u8, list: &[u8], buffer: &mut [u32]) -> Result<(), Refusal>
        ensures step { Step no_orders (world R.Row.stores self.now) (called (call_read machine list.now (length buffer.old)) result (picked (copy (world R.Row.stores self.now) machine) list.now)) (world R.Row.stores self.now) }
        ensures buffer { buffer.new ≡ (if is_ok result then picked (copy (world R.Row.stores self.now) machine) list.now ++ drop (length list.now) buffer.old else buffer.old) }
        ensures few { OnOk result (length list.now ≤ 8) }
    {
        self.readable(machine, list, buffer.len())?;
        copy_values(&self.row, machine, list, buffer);
        Ok(())
    }

    // The value of an object in the copy of a machine. It changes nothing.
    pub fn value(&self, machine: u8, object: usize) -> Result<u32, Refusal>
        ensures number { answer_number result ≡ value_answer machine object (world R.Row.stores self.now) }
        ensures value { IfOk result (λ v. v ≡ slice_index (copy (world R.Row.stores self.now) machine) object) }
    {
        self.known_machine(machine)?;
        if object >= self.object_count() {
            return Err(Refusal::NoSuchObject);
        }
        Ok(value_at(&self.row, machine, object))
    }
}
