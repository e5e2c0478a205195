//! Numbers in decimal digits. In contracts `Gives f result o` says that the result is o, where f turns the code's value into that of the definitions.

ghost use Rattle.std.specs.Prelude.{◌≡◌};
ghost use Rattle.orc_rules.specs.Digits.{Gives, digits_at};

/// The number that the digits at the front spell, 0 if there is none, and the bytes behind them. None if the number has more than 64 bits.
pub fn digits_at(bytes: &[u8]) -> Option<(u64, &[u8])>
    ensures { Gives (λ x. (x.0, x.1.now)) result (digits_at bytes.now) }
{
    let mut number: u64 = 0;
    let mut rest = bytes;
    while let [c, behind @ ..] = rest {
        if !c.is_ascii_digit() {
            return Some((number, rest));
        }
        // Each digit counts ten times the next. None if the number gets too large.
        number = number.checked_mul(10)?.checked_add((*c - b'0') as u64)?;
        rest = behind;
    }
    // All bytes are digits, so none is left.
    Some((number, rest))
}
