// The places of a file that changed since they were last known to be on the disk.
ghost use Rattle.std.specs.Prelude.{◌≡◌, ◌↔◌, ℕ, ◌*◌, ◌<◌, ◌^◌, List, [], ◌∷◌, length, IsTrue};
ghost use Rattle.std.specs.Bool.{OnTrue, OnFalse};
ghost use Rattle.disk_model.specs.Images.{IsSpoiled, IsTouched, MayLeave, SameAt, DiffersAt};
ghost use Rattle.disk_model.specs.Sectors.{any_has_place, any_spoils, meets, spoils};

/// The `length` places of a file from `at` on, in bytes.
#[derive(Clone, Copy, Debug, PartialEq, Eq)]
pub struct Span {
    pub at: u64,
    pub length: u64,
}

/// One entry of the trail of a file: a change of a span, or, where the span is empty, a sync that succeeded.
///
/// `base` is the index in the trail at which the spans began that were pending before it.
#[derive(Clone, Copy, Debug, PartialEq, Eq)]
pub struct Change {
    pub span: Span,
    pub base: u64,
}

// The places of a sector.
const SECTOR: u64 = 512;

impl Span {
    /// Whether the span meets the sector of the place. A sector is 512 places, of which the first is a multiple of 512.
    pub fn spoils(&self, place: u64) -> bool
        ensures holds { result ≡ spoils self.now place }
        ensures meets { IsTrue result ↔ IsSpoiled (self.now ∷ []) place }
    {
        self.meets(place / SECTOR)
    }

    fn meets(&self, number: u64) -> bool
        requires { 512 * number < 2 ^ 64 }
        ensures { result ≡ meets self.now number }
    {
        let first = SECTOR * number;
        self.length > 0
            && self.at / SECTOR <= number
            && (first < self.at || first - self.at < self.length)
    }
}

/// Whether a crash may leave another byte at the place `at`, or none, than the settled bytes have there.
///
/// `spans` are those that changed since the last successful sync, and `old_end` is the number of settled bytes. A place is
/// touched where a span meets its sector, and past the settled bytes. Where no span has a place, none is touched.
pub fn touched(spans: &[Span], old_end: u64, at: u64) -> bool
    ensures holds { IsTrue result ↔ IsTouched spans.now old_end at }

    // In each image a place that is not touched looks as in the settled bytes, and in some image a touched one does not.
    ensures untouched { OnFalse result ((settled image : List ℕ) → length settled ≡ old_end →
        MayLeave settled spans.now image → SameAt at image settled) }
    ensures differs { OnTrue result ((settled : List ℕ) → length settled ≡ old_end →
        (image : List ℕ) × MayLeave settled spans.now image × DiffersAt at image settled) }
{
    is_touched(spans, old_end, at)
}

#[tactic(auto, using(crate::proofs::Sectors::any_spoils_iff, crate::proofs::Sectors::any_has_place_iff))]
fn is_touched(spans: &[Span], old_end: u64, at: u64) -> bool
    ensures { IsTrue result ↔ IsTouched spans.now old_end at }
{
    any_has_place(spans) && (old_end <= at || any_spoils(spans, at))
}

// Whether a place lies in one of the spans.
fn any_has_place(spans: &[Span]) -> bool
    ensures { result ≡ any_has_place spans.now }
{
    spans.iter().any(|span| span.length > 0)
}

// Whether one of the spans meets the place's sector.
fn any_spoils(spans: &[Span], place: u64) -> bool
    ensures { result ≡ any_spoils spans.now place }
{
    spans.iter().any(|span| span.spoils(place))
}
