//! Times that run out, of which the soonest is waited for.

ghost use Rattle.std.specs.Prelude.{◌≡◌, ◌⊎◌, ℕ, Some};
ghost use Rattle.ua_serve.specs.Waits.{IsWithin};

/// The lesser of two numbers of ticks, where none is no limit.
pub(crate) fn sooner(first: Option<u64>, second: Option<u64>) -> Option<u64>
    ensures first { (n : ℕ) → IsWithin first n → IsWithin result n }
    ensures second { (n : ℕ) → second ≡ Some n → IsWithin result n }
    ensures one { (n : ℕ) → result ≡ Some n → (first ≡ Some n) ⊎ (second ≡ Some n) }
{
    match first {
        None => second,
        Some(n) => match second {
            None => Some(n),
            Some(m) => Some(n.min(m)),
        },
    }
}
