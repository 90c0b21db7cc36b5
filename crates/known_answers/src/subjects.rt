// What a question is about, as the first word of its line says.

ghost use Rattle.std.specs.Prelude.{◌≡◌, IfSome};
ghost use Rattle.known_answers.specs.Subjects.{subject_named, subject_word};

/// What a question is about.
#[derive(Clone, Copy, PartialEq, Eq, Debug)]
pub enum Subject {
    Aes,
    AesInverse,
    Ghash,
    GcmSeal,
    GcmOpen,
    Hmac,
    Ssk,
    Tsk,
    DirTsk,
    RpmbKey,
    Wrap,
    Unwrap,
    FrameMac,
    FrameFields,
    Card,
    WornCard,
    Tree,
    TreeMake,
    Entry,
    Object,
}

/// What a line with this first word is about.
pub fn subject_of(name: &str) -> Option<Subject>
    ensures word { IfSome result (λ subject. name.now ≡ subject_word subject) }
    ensures named { result ≡ subject_named name.now }
{
    match name {
        "aes" => Some(Subject::Aes),
        "aes-inverse" => Some(Subject::AesInverse),
        "ghash" => Some(Subject::Ghash),
        "gcm-seal" => Some(Subject::GcmSeal),
        "gcm-open" => Some(Subject::GcmOpen),
        "hmac" => Some(Subject::Hmac),
        "ssk" => Some(Subject::Ssk),
        "tsk" => Some(Subject::Tsk),
        "dir-tsk" => Some(Subject::DirTsk),
        "rpmb-key" => Some(Subject::RpmbKey),
        "wrap" => Some(Subject::Wrap),
        "unwrap" => Some(Subject::Unwrap),
        "frame-mac" => Some(Subject::FrameMac),
        "frame-fields" => Some(Subject::FrameFields),
        "card" => Some(Subject::Card),
        "worn-card" => Some(Subject::WornCard),
        "tree" => Some(Subject::Tree),
        "tree-make" => Some(Subject::TreeMake),
        "entry" => Some(Subject::Entry),
        "object" => Some(Subject::Object),
        _ => None,
    }
}
