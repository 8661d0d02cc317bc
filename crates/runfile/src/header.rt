// The header of a run file, and the opening values that follow it.
ghost use Rattle.std.specs.Prelude.{◌≡◌, ◌≤◌, length, IfOk, slice_index};
ghost use Rattle.runfile.specs.Bytes.{le32};
ghost use Rattle.runfile.specs.HeaderFormat.{Sound, header_of, opening_at, value_place};
ghost use Rattle.runfile.specs.Readers.{Placed, count_at};

use crate::faults::{HeaderFault, HeaderFaultKind};

// The header ends, and the opening values begin, at this byte.
const HEADER_LENGTH: usize = 16;

const LONGEST_FILE: usize = 65_536;

const MOST_MACHINES: u32 = 8;

const MOST_OBJECTS: u32 = 256;

// What a sound header says of the file.
#[derive(Clone, Copy, PartialEq, Eq, Debug)]
pub struct Header {
    pub machines: u8,
    pub objects: u16,
    pub steps: u32,
}

impl Header {
    // The place after the opening values, where the first step stands.
    pub(crate) fn first_step(self) -> usize
        ensures { result ≡ value_place self.objects }
    {
        HEADER_LENGTH + 4 * self.objects as usize
    }
}

// The number of the four bytes from a place on, the lowest first; bytes past the end count as 0.
fn number_at(file: &[u8], place: usize) -> u32
    requires { place ≤ length file.now }
    ensures { result ≡ le32 file.now place }
{
    let rest = &file[place..];
    u32::from_le_bytes([0, 1, 2, 3].map(|i| rest.get(i).copied().unwrap_or(0)))
}

// The number at a place, where it is from 1 to `most`.
fn count_at(file: &[u8], place: usize, most: u32) -> Result<u32, HeaderFault>
    requires { place ≤ length file.now }
    ensures { result ≡ count_at file.now place most }
{
    let count = number_at(file, place);
    (1..=most)
        .contains(&count)
        .then_some(count)
        .ok_or(HeaderFaultKind::CountOutOfRange.at(place))
}

// The header, or the first of its faults.
pub fn read_header(file: &[u8]) -> Result<Header, HeaderFault>
    ensures answer { result ≡ header_of file.now }
    ensures sound { IfOk result (Sound file.now) }
{
    let length = file.len();
    if length < HEADER_LENGTH {
        return Err(HeaderFaultKind::TooShort.at(length));
    }
    let total = number_at(file, 12) as usize;
    if length > LONGEST_FILE || total != length {
        return Err(HeaderFaultKind::WrongLength.at(12));
    }
    // `as` loses nothing of a count in its range, and `try_from` would add an error that never comes.
    let header = Header {
        machines: count_at(file, 0, MOST_MACHINES)? as u8,
        objects: count_at(file, 4, MOST_OBJECTS)? as u16,
        steps: number_at(file, 8),
    };
    if header.first_step() > length {
        return Err(HeaderFaultKind::ValuesPastEnd.at(12));
    }
    Ok(header)
}

// Where an object's opening value begins, unless that is past the file's end.
fn value_place(file: &[u8], object: usize) -> Option<usize>
    ensures { Placed file.now object result }
{
    object
        .checked_mul(4)?
        .checked_add(HEADER_LENGTH)
        .filter(|place| *place <= file.len())
}

// The opening value of an object; bytes past the file's end count as 0.
pub fn opening_value(file: &[u8], object: usize) -> u32
    ensures { result ≡ opening_at file.now object }
{
    value_place(file, object).map_or(0, |place| number_at(file, place))
}
