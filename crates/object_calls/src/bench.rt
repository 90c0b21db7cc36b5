//! The devices of a store.

ghost use Rattle.std.specs.Prelude.{◌≡◌, ◌≤◌, vec_len};
ghost use Rattle.std.specs.Vec.{vec_capacity};
ghost use Rattle.tee_types.specs.Limits.{directory_file, file_count, last_file};
ghost use Rattle.object_calls.specs.OpeningFiles.{files_of, numbered_files};

use store_commit::MountFault;
use tee_ports::StoreFile;

/// The devices of a store: `BENCH_FILES` files, and the way to the card. `DIRECTORY_FILE` has the directory, `OLD_DIRECTORY_FILE` that of
/// an old store, and each of the others an object or none.
#[derive(Drop)]
pub struct Bench<F, R> {
    /// The files, by their numbers.
    pub files: Vec<F>,
    /// The port to the card.
    pub card: R,
}

/// A bench on which a call was given up, and why.
#[derive(Drop)]
pub struct Halted<F, R> {
    /// The bench.
    pub bench: Bench<F, R>,
    /// Why.
    pub fault: MountFault,
}

/// A bench, and what the card's block 0 holds.
#[derive(Drop)]
pub struct BlockRead<F, R> {
    /// The bench.
    pub bench: Bench<F, R>,
    /// The bytes of block 0.
    pub block: [u8; 256],
}

// The files of a bench that is taken apart: that of an old directory, those of objects, file 1 first, and the directory's.
pub(crate) struct FileParts<F> {
    pub(crate) spare: F,
    pub(crate) objects: Vec<F>,
    pub(crate) dir: F,
}

// Takes the files of a bench apart; those of objects have room for all still.
pub(crate) fn take_apart<F: StoreFile + Drop>(files: Vec<F>) -> FileParts<F>
    requires { vec_len files ≡ file_count }
    ensures files { files_of F.state files.items ≡ numbered_files F.state result.spare result.dir result.objects.items }
    ensures dir { files_of F.state files.items directory_file ≡ F.state result.dir }
    ensures objects { vec_len result.objects ≡ last_file }
    ensures room { file_count ≤ vec_capacity result.objects }
{
    let mut objects = files;
    let Some(dir) = objects.pop() else {
        unreachable!()
    };
    let spare = objects.remove(0);
    FileParts {
        spare,
        objects,
        dir,
    }
}

// Puts them together again. No memory is taken.
pub(crate) fn put_together<F: StoreFile + Drop>(spare: F, objects: Vec<F>, dir: F) -> Vec<F>
    requires room { file_count ≤ vec_capacity objects }
    requires objects { vec_len objects ≡ last_file }
    ensures files { files_of F.state result.items ≡ numbered_files F.state spare dir objects.items }
    ensures dir { files_of F.state result.items directory_file ≡ F.state dir }
    ensures whole { vec_len result ≡ file_count }
{
    let mut files = objects;
    files.push(dir).unwrap();
    match files.insert(0, spare) {
        Ok(()) => files,
        Err(_) => unreachable!(),
    }
}
