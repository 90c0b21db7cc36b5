// The questions.

ghost use Rattle.std.specs.Prelude.{◌≡◌, ◌<◌, ◌≤◌, ◌^◌, vec_len};
ghost use Rattle.node_image.specs.Layout.{greatest_of};

use node_image::RootRef;

/// Bytes, at most 2^24 of them.
#[derive(Drop)]
pub struct Argument {
    pub bytes: Vec<u8>,
    ghost bounded: { vec_len bytes ≤ 2 ^ 24 },
}

/// The parts that Galois/Counter Mode works on.
#[derive(Drop)]
pub struct Parts {
    pub key: [u8; 16],
    pub iv: Vec<u8>,
    pub aad: Vec<u8>,
    pub text: Vec<u8>,
    ghost iv_low: { 1 ≤ vec_len iv },
    ghost iv_high: { vec_len iv ≤ 2 ^ 24 },
    ghost aad_high: { vec_len aad ≤ 2 ^ 24 },
    ghost text_high: { vec_len text ≤ 2 ^ 24 },
}

/// The bytes of a file, and the key and the reference that a tree is looked for in it by.
#[derive(Drop)]
pub struct TreeImage {
    pub tsk: [u8; 32],
    pub root: RootRef,
    pub image: Vec<u8>,
    ghost version: { root.version < 2 },
    ghost format: { (1 ≤ root.format) × (root.format ≤ 2) },
}

/// How many bytes a tree is to hold, its pages, the key that wraps its file's, and the file's format.
#[derive(Drop)]
pub struct TreePages {
    pub tsk: [u8; 32],
    pub format: u8,
    pub bytes: u64,
    pub pages: Vec<[u8; 4096]>,
    ghost one_of_two: { (1 ≤ format) × (format ≤ 2) },
    ghost few: { bytes ≤ 1048576 },
    ghost all: { vec_len pages ≡ greatest_of bytes },
}

/// A blank card whose counter was moved on, and the frames that it is sent.
#[derive(Drop)]
pub struct WornCard {
    pub counter: u32,
    pub first: [u8; 512],
    pub rest: Vec<[u8; 512]>,
}

/// The bytes of an object's file, an entry of the directory, and the key of its application.
#[derive(Drop)]
pub struct ObjectImage {
    pub tsk: [u8; 32],
    pub entry: [u8; 128],
    pub image: Vec<u8>,
}

/// A question.
#[derive(Drop)]
pub enum Question {
    Aes {
        key: [u8; 16],
        block: [u8; 16],
    },
    AesInverse {
        key: [u8; 16],
        block: [u8; 16],
    },
    Ghash {
        subkey: [u8; 16],
        blocks: Vec<[u8; 16]>,
    },
    GcmSeal {
        parts: Parts,
    },
    GcmOpen {
        parts: Parts,
        tag: [u8; 16],
    },
    Hmac {
        key: Argument,
        text: Argument,
    },
    Ssk {
        huk: [u8; 16],
        chip: [u8; 32],
    },
    Tsk {
        ssk: [u8; 32],
        app: [u8; 16],
    },
    DirTsk {
        ssk: [u8; 32],
    },
    RpmbKey {
        huk: [u8; 16],
    },
    Wrap {
        tsk: [u8; 32],
        fek: [u8; 16],
    },
    Unwrap {
        tsk: [u8; 32],
        wrapped: [u8; 16],
    },
    FrameMac {
        key: [u8; 32],
        frame: [u8; 512],
    },
    FrameFields {
        frame: [u8; 512],
    },
    Card {
        first: [u8; 512],
        rest: Vec<[u8; 512]>,
    },
    Worn {
        card: WornCard,
    },
    Tree {
        tree: TreeImage,
    },
    TreeMake {
        tree: TreePages,
    },
    Entry {
        bytes: [u8; 128],
    },
    Object {
        object: ObjectImage,
    },
}
