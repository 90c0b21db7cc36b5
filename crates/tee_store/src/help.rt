//! The texts of `--help` and `--version`.

/// The text of `--help`.
pub const HELP: &str = "\
usage: tee_store COMMAND FOLDER [ID [NEW]] [--keys FILE] [--app UUID]

A store of trusted objects in a folder.

  create FOLDER         make an empty store, with new keys
  list FOLDER           write the name and the size of each object
  put FOLDER ID         make or replace an object, from standard input
  get FOLDER ID         write an object to standard output
  info FOLDER ID        write the size of an object
  remove FOLDER ID      remove an object
  rename FOLDER ID NEW  give an object another name
  check FOLDER          certify each object
  dump FOLDER           write what the card and the directory say

  --keys FILE           the file of the keys; else FOLDER/keys.bin
  --app UUID            the application whose objects they are
  --                    no option stands behind this
  -h, --help            write this text
  --version             write the version

A name has 1 to 64 bytes, an object at most 1044480, and a store 256 objects.

Status: 0 done, 1 refused, 2 usage, 3 damaged, or other keys, 4 the system
refused a call, or there was no space or memory, 5 somebody has the store open.

Whoever can write the folder can put an older copy of all of it back: the card
is a file, too. Whoever can read the file of the keys can read every object.
";

/// The text of `--version`.
pub const VERSION: &str = "tee_store 0.1.0\n";
