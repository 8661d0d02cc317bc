// The steps of a run file. A step borrows its list from the file.
ghost use Rattle.std.specs.Prelude.{◌≡◌, ◌+◌, ◌<◌, ◌≤◌, length, IfOk, IfErr, MatchOption};
ghost use Rattle.runfile.specs.StepFormat.{Within, call_of, reading_of, step_at};
ghost use Rattle.runfile.specs.Readers.{BodyOf, HeadAt, call_from, unused_of};

use crate::faults::{FieldFaultKind, StepFault};
use crate::tags::{Named, Tag};

// The tag and the fields, one byte each; the list and the order follow.
const HEAD_LENGTH: usize = 5;

// A step of the run: the call that it asks for.
#[derive(Clone, Copy, Debug)]
pub enum Step<'a> {
    Down { machine: u8 },
    Up { machine: u8 },
    Tidy { machine: u8 },
    Read { machine: u8, list: &'a [u8] },
}

// The head of a step, and the bytes of the file after it.
#[derive(Clone, Copy)]
struct Head<'a> {
    tag: u8,
    transaction: u8,
    machine: u8,
    list_length: u8,
    order_length: u8,
    rest: &'a [u8],
}

// What follows the head of a step.
#[derive(Clone, Copy)]
struct Body<'a> {
    list: &'a [u8],
    order: &'a [u8],
}

impl<'a> Head<'a> {
    // The head of the step at a place, where it is whole.
    fn at(file: &'a [u8], place: usize) -> Option<Head<'a>>
        ensures { MatchOption result (length file.now < place + 5) (HeadAt file.now place) }
    {
        let [
            tag,
            transaction,
            machine,
            list_length,
            order_length,
            rest @ ..,
        ] = file.get(place..)?
        else {
            return None;
        };
        Some(Head {
            tag: *tag,
            transaction: *transaction,
            machine: *machine,
            list_length: *list_length,
            order_length: *order_length,
            rest,
        })
    }

    // The first field that the call does not name and that is not 0, counted from the field after the tag.
    fn first_unused(&self, named: Named) -> Option<usize>
        ensures { result ≡ unused_of named self.now }
    {
        [
            (named.transaction, self.transaction),
            (named.machine, self.machine),
            (named.list, self.list_length),
            (named.order, self.order_length),
        ]
        .iter()
        .position(|(named, value)| !*named && *value != 0)
    }

    // The list and the order, where they are whole.
    fn body(&self) -> Option<Body<'a>>
        ensures { MatchOption result (length self.now.rest.now < self.now.list_length + self.now.order_length) (BodyOf self.now) }
    {
        let (list, rest) = self.rest.split_at_checked(self.list_length as usize)?;
        let order = rest.get(..self.order_length as usize)?;
        Some(Body { list, order })
    }

    // The step of a tag, with what the head and the body hold.
    fn step(&self, tag: Tag, body: Body<'a>) -> Step<'a>
        ensures { call_of result ≡ call_from tag self.now body.entry }
    {
        let machine = self.machine;
        match tag {
            Tag::Down => Step::Down { machine },
            Tag::Up => Step::Up { machine },
            Tag::Tidy => Step::Tidy { machine },
            Tag::Read => Step::Read {
                machine,
                list: body.list,
            },
        }
    }
}

// The step at a place, and the place after it. A fault has the number of the step that is passed.
pub fn read_step<'a>(
    file: &'a [u8],
    place: usize,
    step: u32,
) -> Result<(Step<'a>, usize), StepFault>
    ensures reading { reading_of result ≡ step_at file.now place }
    ensures numbered { IfErr result (λ fault. fault.field.step ≡ step) }
    ensures within { IfOk result (λ answer. Within file.now place answer.1) }
{
    let cut_short = FieldFaultKind::CutShort.at(place, step);
    let head = Head::at(file, place).ok_or(cut_short)?;
    let tag = Tag::try_from(head.tag).map_err(|kind| kind.at(place, step))?;
    if let Some(field) = head.first_unused(tag.named()) {
        let byte = place + 1 + field;
        return Err(FieldFaultKind::UnusedNotZero.at(byte, step).into());
    }
    let body = head.body().ok_or(cut_short)?;
    let end = place + HEAD_LENGTH + body.list.len() + body.order.len();
    Ok((head.step(tag, body), end))
}
