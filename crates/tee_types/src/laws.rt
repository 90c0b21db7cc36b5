//! The constants are the numbers of the definitions. No code.

ghost use Rattle.std.specs.Prelude.{◌≡◌};
ghost use Rattle.tee_types.specs.Limits.{most_identifier_bytes, most_attribute_bytes, most_data_bytes, last_file, directory_file, old_directory_file, file_count, most_objects, most_sessions, most_handles, most_enumerators, greatest_position, most_script_bytes, most_applications};
ghost use Rattle.tee_types.specs.Rights.{read_bit, write_bit, write_meta_bit, share_read_bit, share_write_bit, overwrite_bit};

use crate::flags::{OVERWRITE, READ, SHARE_READ, SHARE_WRITE, WRITE, WRITE_META};
use crate::limits::{
    BENCH_FILES, DIRECTORY_FILE, MAX_APPLICATIONS, MAX_ATTRIBUTES, MAX_DATA, MAX_ENUMERATORS,
    MAX_FILE, MAX_HANDLES, MAX_IDENTIFIER, MAX_OBJECTS, MAX_POSITION, MAX_SCRIPT, MAX_SESSIONS,
    OLD_DIRECTORY_FILE,
};

/// The flags' bits are the standard's.
pub fn flags_have_their_bits()
    ensures read { READ ≡ read_bit }
    ensures write { WRITE ≡ write_bit }
    ensures write_meta { WRITE_META ≡ write_meta_bit }
    ensures share_read { SHARE_READ ≡ share_read_bit }
    ensures share_write { SHARE_WRITE ≡ share_write_bit }
    ensures overwrite { OVERWRITE ≡ overwrite_bit }
{}

/// The limits are those of the definitions.
#[tactic(auto, unfolding(crate::specs::Limits::directory_file))]
pub fn limits_have_their_values()
    ensures identifier { MAX_IDENTIFIER ≡ most_identifier_bytes }
    ensures attributes { MAX_ATTRIBUTES ≡ most_attribute_bytes }
    ensures bytes { MAX_DATA ≡ most_data_bytes }
    ensures file { MAX_FILE ≡ last_file }
    ensures directory { DIRECTORY_FILE ≡ directory_file }
    ensures old_directory { OLD_DIRECTORY_FILE ≡ old_directory_file }
    ensures files { BENCH_FILES ≡ file_count }
    ensures objects { MAX_OBJECTS ≡ most_objects }
    ensures sessions { MAX_SESSIONS ≡ most_sessions }
    ensures handles { MAX_HANDLES ≡ most_handles }
    ensures enumerators { MAX_ENUMERATORS ≡ most_enumerators }
    ensures position { MAX_POSITION ≡ greatest_position }
    ensures script { MAX_SCRIPT ≡ most_script_bytes }
    ensures applications { MAX_APPLICATIONS ≡ most_applications }
{}
