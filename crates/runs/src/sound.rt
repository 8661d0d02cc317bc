// A run file whose header is sound.
ghost use Rattle.runfile.specs.HeaderFormat.{Sound};

use runfile::Header;

// The bytes of the file, and what their header says.
#[derive(Clone, Copy)]
pub(crate) struct SoundFile<'a> {
    pub(crate) bytes: &'a [u8],
    pub(crate) header: Header,
    ghost sound: { Sound bytes.now header },
}
