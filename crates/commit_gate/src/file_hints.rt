//! Where a session found its objects last.

/// How many handles' files are remembered.
const HINTS: usize = 16;

/// The files in which a session found the objects of its handles last. They only tell where to look first: what is found there is compared.
#[derive(Clone, Copy, Debug)]
pub struct FileHints {
    // By the handle's number modulo their count; 0 where none is known.
    files: [u16; 16],
}

impl FileHints {
    /// None is known.
    pub fn new() -> FileHints {
        FileHints { files: [0; HINTS] }
    }

    /// The file that was noted last in the place of that handle.
    pub fn file(&self, handle: u32) -> Option<u16> {
        match self.files[handle as usize % HINTS] {
            0 => None,
            file => Some(file),
        }
    }

    /// Notes the file of that handle's object.
    pub fn note(&mut self, handle: u32, file: u16) {
        self.files[handle as usize % HINTS] = file;
    }
}
