//! When a call is answered.

ghost use Rattle.std.specs.Prelude.{◌≡◌};
ghost use Rattle.orc_site.specs.Time.{due_from};

use orc_rules::value::Found;

/// When a call is answered, in logical time.
#[derive(Clone, Copy, Debug, PartialEq, Eq)]
pub enum Due {
    /// At this time.
    At(u64),
    /// At no time.
    Never,
}

/// When a call that was made at `made_at` is answered, where `found` is what the table of sites says of it, an answer with a delay or never: after
/// the delay, and never where that time would be over the greatest one, 2^64 - 1.
pub fn due_after(made_at: u64, found: Found) -> Due
    ensures { result ≡ due_from made_at found }
{
    match found {
        Found::After(_, delay) => match made_at.checked_add(delay) {
            Some(time) => Due::At(time),
            None => Due::Never,
        },
        Found::Never => Due::Never,
    }
}
