// The tags of the steps. A new tag is a variant, its byte, and a row that says which fields its call names.
ghost use Rattle.std.specs.Prelude.{◌≡◌};
ghost use Rattle.std.specs.Option.{ok_or};
ghost use Rattle.runfile.specs.declared.faults.FieldFaultKind.TheVariants.{UnknownTag};
ghost use Rattle.runfile.specs.Tags.{tag_of, named_by};

use crate::faults::FieldFaultKind;

#[derive(Clone, Copy)]
pub(crate) enum Tag {
    Down,
    Up,
    Tidy,
    Read,
}

// Which of the four fields of a step its call names. A field that it does not name is 0.
#[derive(Clone, Copy, Default)]
pub(crate) struct Named {
    pub(crate) transaction: bool,
    pub(crate) machine: bool,
    pub(crate) list: bool,
    pub(crate) order: bool,
}

impl TryFrom<u8> for Tag {
    type Error = FieldFaultKind;

    ghost try_from_gives = { λ byte r. r ≡ ok_or (tag_of byte) UnknownTag };

    fn try_from(byte: u8) -> Result<Tag, FieldFaultKind> {
        // A match: the format lists the bytes.
        match byte {
            11 => Ok(Tag::Down),
            12 => Ok(Tag::Up),
            13 => Ok(Tag::Tidy),
            14 => Ok(Tag::Read),
            _ => Err(FieldFaultKind::UnknownTag),
        }
    }
}

impl Tag {
    pub(crate) fn named(self) -> Named
        ensures { result ≡ named_by self }
    {
        match self {
            Tag::Down | Tag::Up | Tag::Tidy => Named {
                machine: true,
                ..Named::default()
            },
            Tag::Read => Named {
                machine: true,
                list: true,
                ..Named::default()
            },
        }
    }
}
