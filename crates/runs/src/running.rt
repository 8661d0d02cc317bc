// Running a whole run file.
ghost use Rattle.std.specs.Prelude.{◌≡◌, ◌+◌, ◌*◌, ◌≤◌, [], length, IfOk, IfErr, Ok, vec_capacity};
ghost use Rattle.register.specs.Meaning.{world};
ghost use Rattle.runs.specs.Fitting.{fitting_header};
ghost use Rattle.runs.specs.Running.{FileRun, Finishes};

use crate::fitting::read_fitting_header;
use crate::sound::SoundFile;
use register::{Outcome, Register};
use runfile::{Header, RunFault};
use std::alloc::{AllocFailed, Global};
use stores::Row;

// What came of a run: the register as it is left, an outcome for each step that was run, and the fault that ended it.
#[derive(Drop)]
pub struct FinishedRun<R> {
    pub register: Register<R>,
    pub outcomes: Vec<Outcome>,
    pub fault: Option<RunFault>,
}

// Loads the file's opening values into the row and makes its calls. A fault of the header loads nothing; a fault of a
// step leaves the steps before it as they are. Where memory is short the row is given back untouched.
pub fn run<R: Row>(heap: Global, file: &[u8], row: R) -> Result<FinishedRun<R>, AllocFailed<R>>
    ensures finished { IfOk result (λ f. Finishes (R.Row.stores row) file.now f.outcomes.items f.fault (world R.Row.stores f.register)) }
    ensures untouched { IfErr result (λ back. back.value ≡ row) }
{
    match read_fitting_header(file, &row) {
        Ok(header) => run_fitting(heap, file, header, row),
        Err(fault) => Ok(FinishedRun {
            register: Register::open(row),
            outcomes: Vec::new(heap),
            fault: Some(RunFault::Header(fault)),
        }),
    }
}

// The memory for the outcomes is had before anything is loaded: no step is shorter than five bytes.
fn run_fitting<R: Row>(
    heap: Global,
    bytes: &[u8],
    header: Header,
    row: R,
) -> Result<FinishedRun<R>, AllocFailed<R>>
    requires { fitting_header (R.Row.stores row) bytes.now ≡ Ok header }
    ensures finished { IfOk result (λ f. FileRun (R.Row.stores row) bytes.now f.outcomes.items f.fault (world R.Row.stores f.register)) }
    ensures untouched { IfErr result (λ back. back.value ≡ row) }
{
    let file = SoundFile { bytes, header };
    // A match: each arm takes the row.
    match Vec::with_capacity(heap, bytes.len() / 5) {
        Ok(outcomes) => Ok(file.run_over(row, outcomes)),
        Err(_) => Err(AllocFailed { value: row }),
    }
}

impl SoundFile<'_> {
    fn run_over<R: Row>(&self, row: R, outcomes: Vec<Outcome>) -> FinishedRun<R>
        requires fits { fitting_header (R.Row.stores row) self.now.bytes.now ≡ Ok self.now.header }
        requires empty { outcomes.items ≡ [] }
        requires reserved { length self.now.bytes.now ≤ 4 + 5 * vec_capacity outcomes }
        ensures { FileRun (R.Row.stores row) self.now.bytes.now result.outcomes.items result.fault (world R.Row.stores result.register) }
    {
        let mut row = row;
        self.load(&mut row);
        let mut register = Register::open(row);
        let mut outcomes = outcomes;
        let ended = self.run_steps(&mut register, &mut outcomes);
        FinishedRun {
            register,
            outcomes,
            fault: ended.err(),
        }
    }
}
