//! The forms of the command line.

ghost use Rattle.std.specs.Prelude.{◌≡◌, Some, [], ◌∷◌, codes, map, option_map};
ghost use Rattle.std.specs.String.{string_bytes};
ghost use Rattle.seed_words.specs.Numbers.{soak_number_of};
ghost use Rattle.script_runner.specs.Forms.{folder_of, form_of, has_folder, is_path, path_of};

use seed_words::soak_number;

/// A form of the command line.
#[derive(Clone, Copy, Debug, PartialEq, Eq)]
pub enum Form {
    /// `run`: a script is read.
    Run,
    /// `soak N`: the script follows from the number.
    Soak(u32),
    /// `migrate`: the store is moved into files of the current format.
    Migrate,
    /// `export PATH`: a script is read and run, and then the store is copied into a folder.
    Export,
    /// `audit PATH`: a store that was exported into a folder is read, and its objects are certified.
    Audit,
    /// `card`: a script of the objects on the card alone is read and run.
    Card,
}

/// The soak of the number that the word is.
fn soak_of(word: &String) -> Option<Form>
    ensures { result ≡ option_map Form.Soak (soak_number_of (string_bytes word.now)) }
{
    soak_number(word.as_str()).map(Form::Soak)
}

/// Whether a word is the path of a folder: it has a character, and the first is no `-`.
fn is_path(word: &String) -> bool
    ensures { result ≡ is_path (string_bytes word.now) }
{
    match word.as_bytes().first() {
        Some(byte) => *byte != b'-',
        None => false,
    }
}

/// The form that the words behind the program's name have, if they have one.
pub fn form_of(words: &[String]) -> Option<Form>
    ensures { result ≡ form_of (map string_bytes words.now) }
{
    match words {
        [word] if word.as_bytes() == b"run".as_slice() => Some(Form::Run),
        [word] if word.as_bytes() == b"migrate".as_slice() => Some(Form::Migrate),
        [word] if word.as_bytes() == b"card".as_slice() => Some(Form::Card),
        [word, number] if word.as_bytes() == b"soak".as_slice() => soak_of(number),
        [word, path] if word.as_bytes() == b"export".as_slice() && is_path(path) => Some(
            Form::Export,
        ),
        [word, path] if word.as_bytes() == b"audit".as_slice() && is_path(path) => Some(
            Form::Audit,
        ),
        _ => None,
    }
}

/// Whether the form needs a folder.
fn has_folder(form: Option<Form>) -> bool
    ensures { result ≡ has_folder form }
{
    match form {
        Some(Form::Export | Form::Audit) => true,
        Some(Form::Run | Form::Soak(_) | Form::Migrate | Form::Card) | None => false,
    }
}

/// The second of two words.
fn path_of(words: &[String]) -> &str
    ensures { result.now ≡ path_of (map string_bytes words.now) }
{
    match words {
        [_, path] => path.as_str(),
        _ => ".",
    }
}

/// The folder that the words behind the program's name speak of: PATH of `export PATH` and `audit PATH`, and for all other words the
/// folder `.`, which no form then asks.
pub fn folder_of(words: &[String]) -> &str
    ensures { result.now ≡ folder_of (map string_bytes words.now) }
{
    if has_folder(form_of(words)) {
        path_of(words)
    } else {
        "."
    }
}

/// `run` is a form of the command line, and so are `migrate`, `card`, `soak 1`, `export a` and `audit a`.
pub fn words_have_forms()
    ensures run { form_of (codes "run" ∷ []) ≡ Some Form.Run }
    ensures migrate { form_of (codes "migrate" ∷ []) ≡ Some Form.Migrate }
    ensures card { form_of (codes "card" ∷ []) ≡ Some Form.Card }
    ensures soak { form_of (codes "soak" ∷ codes "1" ∷ []) ≡ Some (Form.Soak 1) }
    ensures export { form_of (codes "export" ∷ codes "a" ∷ []) ≡ Some Form.Export }
    ensures audit { form_of (codes "audit" ∷ codes "a" ∷ []) ≡ Some Form.Audit }
{}
