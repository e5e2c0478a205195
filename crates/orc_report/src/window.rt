//! Which columns of a long line are shown.

ghost use Rattle.std.specs.Prelude.{◌≤◌, ◌+◌};

/// The longest line that is shown whole, in columns.
const LONGEST: usize = 76;

/// How many columns are shown of a longer line: with `.. ` before them and ` ..` behind them it is as long as the longest line that is shown whole.
const SHOWN: usize = 70;

/// How many columns are shown at most before what is named, which stands near the middle then.
const BEFORE: usize = 34;

/// The columns of a line that are shown, counted from 0: from `first` on and before `end`.
#[derive(Clone, Copy)]
pub struct Window {
    pub first: usize,
    pub end: usize,
    /// Whether something that isn't shown stands before these columns (`is_front_cut`), and behind them (`is_end_cut`).
    pub is_front_cut: bool,
    pub is_end_cut: bool,
}

impl Window {
    /// Which columns are shown of a line of `len` columns, 76 of them at most: all, or some round the column `named`, from 0, at which what the
    /// reader is to look at begins, or the first ones where it is None. `is_cut` says that the line goes on behind its `len` columns; `is_inner` that
    /// it is a part from the middle of a text, which goes on at both sides.
    pub fn of(len: usize, named: Option<usize>, is_cut: bool, is_inner: bool) -> Window
        ensures { result.end ≤ result.first + 76 }
    {
        // The line is shown whole.
        if len <= LONGEST && !is_cut {
            return Window {
                first: 0,
                end: len,
                is_front_cut: is_inner,
                is_end_cut: is_inner,
            };
        }
        let first = match named {
            Some(column) => column.saturating_sub(BEFORE),
            None => 0,
        };
        // 70 columns, or fewer up to the line's end.
        let end = first.saturating_add(SHOWN).min(len);
        Window {
            first,
            end,
            is_front_cut: first > 0 || is_inner,
            is_end_cut: end < len || is_cut || is_inner,
        }
    }
}
