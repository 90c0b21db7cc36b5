ghost use Rattle.aes_block.specs.Laws.{DecipheringUndoes};

/// A law of the cipher, with no code: under every key, deciphering what was enciphered gives each block of 16 bytes back.
pub fn deciphering_undoes_enciphering()
    ensures { DecipheringUndoes }
{}
