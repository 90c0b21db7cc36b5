//! Look-ups by number.

ghost use Rattle.std.specs.Prelude.{◌≡◌, ◌==◌, None, IfOk, IfSome, IfNone, OnErr};
ghost use Rattle.std.specs.Map.{lookup};
ghost use Rattle.enumerators.specs.Places.{IsPlaceOf, AreRising};

/// The place of the entry of that number, among entries whose numbers rise.
pub fn place_of<X>(entries: &[(u32, X)], number: u32) -> Option<usize>
    requires { AreRising entries.now }
    ensures found { IfSome result (IsPlaceOf number entries.now) }
    ensures none { IfNone result (lookup (λ n. n == number) entries.now ≡ None) }
{
    search(entries, number).ok()
}

// The same, or where an entry of that number would go.
fn search<X>(entries: &[(u32, X)], number: u32) -> Result<usize, usize>
    requires { AreRising entries.now }
    ensures found { IfOk result (IsPlaceOf number entries.now) }
    ensures none { OnErr result (lookup (λ n. n == number) entries.now ≡ None) }
{
    entries.binary_search_by_key(&number, |entry| entry.0)
}
