// What can be wrong with a run file, and where. A field's fault is wrapped whole in its step's fault, and that in
// the run's fault. The numbers stand in `number` alone: the format gives them, one for each name.
ghost use Rattle.std.specs.Prelude.{◌≡◌};
ghost use Rattle.runfile.specs.declared.faults.RunFault.TheVariants.{Header, Step};
ghost use Rattle.runfile.specs.Faults.{header_number, field_number, run_number, run_byte, run_step};

// What is wrong with the header.
#[derive(Clone, Copy, PartialEq, Eq, Debug)]
pub enum HeaderFaultKind {
    // the file ends before the header does
    TooShort,
    // the file is too long, or its length is not the total that the header states
    WrongLength,
    // the opening values end past the file
    ValuesPastEnd,
    // the machine count or the object count is out of its range
    CountOutOfRange,
    // the stores that are to run the file are not as many, or not as large, as the header says
    RowDiffers,
}

impl HeaderFaultKind {
    pub fn number(self) -> u8
        ensures { result ≡ header_number self }
    {
        match self {
            HeaderFaultKind::TooShort => 30,
            HeaderFaultKind::WrongLength => 31,
            HeaderFaultKind::ValuesPastEnd => 32,
            HeaderFaultKind::CountOutOfRange => 36,
            HeaderFaultKind::RowDiffers => 37,
        }
    }

    // The fault of this kind at a byte.
    pub fn at(self, byte: usize) -> HeaderFault
        ensures { result ≡ record { kind = self; byte = byte } }
    {
        HeaderFault { kind: self, byte }
    }
}

// A header's fault, with the byte that it is found at.
#[derive(Clone, Copy, PartialEq, Eq, Debug)]
pub struct HeaderFault {
    pub kind: HeaderFaultKind,
    pub byte: usize,
}

// What is wrong with a field of a step.
#[derive(Clone, Copy, PartialEq, Eq, Debug)]
pub enum FieldFaultKind {
    // the file ends before the step does
    CutShort,
    UnknownTag,
    // the call does not name the field, and the field is not 0
    UnusedNotZero,
}

impl FieldFaultKind {
    pub fn number(self) -> u8
        ensures { result ≡ field_number self }
    {
        match self {
            FieldFaultKind::CutShort => 33,
            FieldFaultKind::UnknownTag => 34,
            FieldFaultKind::UnusedNotZero => 35,
        }
    }

    // The fault of this kind at a byte of a step.
    pub(crate) fn at(self, byte: usize, step: u32) -> FieldFault
        ensures { result ≡ record { kind = self; byte = byte; step = step } }
    {
        FieldFault {
            kind: self,
            byte,
            step,
        }
    }
}

// A field's fault, with the byte that it is found at and the step that the field belongs to, counted from 0.
#[derive(Clone, Copy, PartialEq, Eq, Debug)]
pub struct FieldFault {
    pub kind: FieldFaultKind,
    pub byte: usize,
    pub step: u32,
}

// A step is faulty where one of its fields is: the step's own fault, which a field's is not yet.
#[derive(Clone, Copy, PartialEq, Eq, Debug)]
pub struct StepFault {
    pub field: FieldFault,
}

// The three conversions stand written out: what `thiserror` derives from `#[from]` has no contract, and so loses the fault.
impl From<FieldFault> for StepFault {
    ghost from_gives = { λ f r. r.field ≡ f };

    fn from(field: FieldFault) -> StepFault {
        StepFault { field }
    }
}

// Why a run file cannot be run, or not to its end.
#[derive(Clone, Copy, PartialEq, Eq, Debug)]
pub enum RunFault {
    Header(HeaderFault),
    Step(StepFault),
}

impl From<HeaderFault> for RunFault {
    ghost from_gives = { λ f r. r ≡ Header f };

    fn from(header: HeaderFault) -> RunFault {
        RunFault::Header(header)
    }
}

impl From<StepFault> for RunFault {
    ghost from_gives = { λ f r. r ≡ Step f };

    fn from(step: StepFault) -> RunFault {
        RunFault::Step(step)
    }
}

impl RunFault {
    pub fn number(self) -> u8
        ensures { result ≡ run_number self }
    {
        match self {
            RunFault::Header(fault) => fault.kind.number(),
            RunFault::Step(fault) => fault.field.kind.number(),
        }
    }

    // The byte of the file that the fault is found at.
    pub fn byte(self) -> usize
        ensures { result ≡ run_byte self }
    {
        match self {
            RunFault::Header(fault) => fault.byte,
            RunFault::Step(fault) => fault.field.byte,
        }
    }

    // The step that is faulty, counted from 0, where the header is not.
    pub fn step(self) -> Option<u32>
        ensures { result ≡ run_step self }
    {
        match self {
            RunFault::Header(_) => None,
            RunFault::Step(fault) => Some(fault.field.step),
        }
    }
}
