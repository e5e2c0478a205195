//! Claims: what a move may have to win from other workers. The move asks for it last, when nothing else can refuse it any more.

ghost use Rattle.std.specs.Prelude.{◌≡◌, true, false};

/// Something that another worker may have taken first, such as a mark that only one worker can win. Once asked, a claim is got or lost, for good.
///
/// A move asks its claim when nothing else can refuse the move any more: its entry is written, and nothing else has changed. If the claim is lost,
/// the entry is removed again.
pub trait Claim {
    // What holds of a claim before and after it was asked: if it was got, and if it was lost.
    ghost got: { Self → Self → Type 0 };

    ghost lost: { Self → Self → Type 0 };

    /// Asks for the claim, once, and says whether it was got.
    fn ask(&mut self) -> bool
        ensures yes { result ≡ true → got self.old self.new }
        ensures no { result ≡ false → lost self.old self.new };
}

/// A claim that is always got: there is nobody to lose it to.
#[derive(Clone, Copy)]
pub struct Always;

impl Claim for Always {
    // What holds of the claim once it was got: nothing is promised. It is never lost (`⊥`).
    ghost got = { λ _ _. Unit {0} };

    ghost lost = { λ _ _. ⊥ };

    // Always got: no other worker asks for it.
    fn ask(&mut self) -> bool {
        true
    }
}
