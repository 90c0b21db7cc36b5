// The bytes of a file, taken out of it.
ghost use Rattle.std.specs.Prelude.{◌≡◌};

use std::marker::Model;

/// The bytes of a whole file: a list of bytes.
#[derive(Debug, Drop)]
pub struct Image {
    bytes: Vec<u8>,
}

impl Model for Image {
    ghost use Rattle.std.specs.Prelude.{ℕ, List};

    ghost Value = { List ℕ };

    ghost view = { λ image. image.bytes.items };
}

impl Image {
    /// The image of these bytes.
    pub fn from_vec(bytes: Vec<u8>) -> Image
        ensures { result ≡ bytes.items }
    {
        Image { bytes }
    }

    /// The bytes, as they were handed in or saved.
    pub fn into_vec(self) -> Vec<u8>
        ensures { result.items ≡ self }
    {
        self.bytes
    }

    /// The bytes.
    pub fn bytes(&self) -> &[u8]
        ensures { result.now ≡ self.now }
    {
        self.bytes.as_slice()
    }
}
