// What a slot holds.
ghost use Rattle.std.specs.Prelude.{◌≡◌};
ghost use Rattle.object_slots.specs.SlotInside.{IsContent, file_in, holding_in};
ghost use Rattle.object_slots.specs.SlotValues.{with_stage, without_stage};

use crate::cached::CachedObject;
use tee_ports::StoreFile;

/// The file of a slot, with the object that is loaded from it or was made in it.
#[derive(Drop)]
pub(crate) enum Content<F: StoreFile + Drop> {
    /// No tree is loaded.
    Free(F),
    /// An object that was made, and is not committed.
    Made(CachedObject<F>),
    /// A committed object without a stage.
    Live(CachedObject<F>),
    /// A committed object with a settled stage.
    Staged(CachedObject<F>),
}

impl<F: StoreFile + Drop> Content<F> {
    /// The file alone.
    pub(crate) fn into_file(self) -> F
        ensures { F.state result ≡ file_in F.state self }
    {
        match self {
            Content::Free(file) => file,
            Content::Made(object) => object.into_file(),
            Content::Live(object) => object.into_file(),
            Content::Staged(object) => object.into_file(),
        }
    }

    /// The stage, if there is one, made the committed object.
    pub(crate) fn into_adopted(self) -> Content<F>
        requires { IsContent self }
        ensures content { IsContent result }
        ensures holds { holding_in result ≡ with_stage (holding_in self) }
        ensures file { file_in F.state result ≡ file_in F.state self }
    {
        match self {
            Content::Free(file) => Content::Free(file),
            Content::Made(object) => Content::Live(object),
            Content::Live(object) => Content::Live(object),
            Content::Staged(mut object) => {
                object.adopt();
                Content::Live(object)
            }
        }
    }

    /// The stage, if there is one, given up.
    pub(crate) fn into_unstaged(self) -> Content<F>
        requires { IsContent self }
        ensures content { IsContent result }
        ensures holds { holding_in result ≡ without_stage (holding_in self) }
        ensures file { file_in F.state result ≡ file_in F.state self }
    {
        match self {
            Content::Free(file) => Content::Free(file),
            Content::Made(object) => Content::Free(object.into_file()),
            Content::Live(object) => Content::Live(object),
            Content::Staged(mut object) => {
                object.drop_stage();
                Content::Live(object)
            }
        }
    }
}
