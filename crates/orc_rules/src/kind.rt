//! The kinds of entries, and the word with which the lines of each begin.

ghost use Rattle.std.specs.Prelude.{◌≡◌};
ghost use Rattle.orc_rules.specs.Kinds.{word_of};

/// The kind of an entry: one for each form of a line. A `return` with a value and one that halts are two forms.
/// The variants are those of `Entry`, whose comments show the lines.
#[derive(Clone, Copy, PartialEq, Eq, Debug)]
pub enum Kind {
    End,
    Fork,
    Seq,
    Other,
    Def,
    Void,
    Open,
    Send,
    Call,
    Return,
    ReturnHalt,
    Bind,
    Lost,
    Right,
    Publish,
    Tick,
    Cancel,
}

impl Kind {
    /// The word with which the lines of this kind begin. Both returns have the same.
    pub fn word(self) -> &'static [u8]
        ensures { result.now ≡ word_of self }
    {
        match self {
            Kind::End => b"end",
            Kind::Fork => b"fork",
            Kind::Seq => b"seq",
            Kind::Other => b"other",
            Kind::Def => b"def",
            Kind::Void => b"void",
            Kind::Open => b"open",
            Kind::Send => b"send",
            Kind::Call => b"call",
            Kind::Return | Kind::ReturnHalt => b"return",
            Kind::Bind => b"bind",
            Kind::Lost => b"lost",
            Kind::Right => b"right",
            Kind::Publish => b"publish",
            Kind::Tick => b"tick",
            Kind::Cancel => b"cancel",
        }
    }
}
