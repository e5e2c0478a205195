//! The two lines that show a term: the term itself, and below it the carets under what is named and the numbers of the marks. A `Strip` has the term
//! in one line, and the columns of its marks, the numbers of its tokens. A `Window` says which columns are shown.

use crate::strip::Strip;
use orc_report::{Fill, Page, Window};
use std::alloc::{AllocError, Global};

/// How many columns the line below the term may reach over the term's end, for what the carets mean.
const BEHIND: usize = 32;

impl Strip<'_, '_> {
    /// Writes the term, and below it its marks.
    pub(crate) fn show(&self, page: &mut Page, alloc: Global) {
        // If memory was refused to the term, the explanation isn't given out either.
        page.heed(&self.page);
        // The columns that are shown: all, or some round what the entry names.
        let named = match self.named {
            Some(named) => Some(named.start),
            None => None,
        };
        // The line goes on behind its end if the term was cut there (`is_cut`), and on both sides if nodes above the named part aren't shown
        // (`is_inner`).
        let window = Window::of(self.page.len(), named, self.is_cut, self.way.is_inner);
        let text = self.page.as_str().as_bytes();
        let shown = text.get(window.first..window.end).unwrap_or(b"");
        show_line(page, window, ".. ", shown, " ..");
        // The line below the term, without the blanks at its end.
        let Ok(rule) = self.rule(alloc, window) else {
            // Memory was refused, so the page isn't given out.
            page.refuse();
            return;
        };
        let rule = rule.trim_ascii_end();
        if !rule.is_empty() {
            show_line(page, window, "   ", rule, "");
        }
    }

    // The line below the term, in the window's columns: carets under what is named, the numbers of the marks that have room, and behind the carets
    // what they mean. The error is refused memory.
    fn rule(&self, alloc: Global, window: Window) -> Result<Vec<u8>, AllocError> {
        let mut signs = Vec::new(alloc);
        let (start, end) = match self.named {
            Some(named) if named.start >= window.first => (named.start, named.end.min(window.end)),
            // Nothing is named, or it isn't in the window: no carets.
            _ => (0, 0),
        };
        let columns = window.end.saturating_sub(window.first);
        for column in 0..columns.saturating_add(BEHIND) {
            let place = column.saturating_add(window.first);
            let is_named = start <= place && place < end;
            signs.push(if is_named { b'^' } else { b' ' })?;
        }
        for note in &self.notes {
            if note.column >= window.first && note.column < window.end {
                // The number of the mark, with a blank on both sides. If it has no room it is left out.
                let column = note.column.saturating_sub(window.first);
                put(&mut signs, alloc, column, "%", note.mark, false)?;
            }
        }
        match self.way.label {
            Some((words, number)) if start < end => {
                // The words stand right behind the carets, as the last ones of the line.
                let column = end.saturating_sub(window.first);
                put(&mut signs, alloc, column, words, number, true)?;
            }
            // No part is named, or it isn't in the window; or there are no words for it (`label` is None), since the entry's line explains it.
            _ => {}
        }
        Ok(signs)
    }
}

// Writes one of the two lines, five blanks further in than a note: the bytes `shown`, with `front` before them and `end` behind them if the window
// cuts off columns there.
fn show_line(page: &mut Page, window: Window, front: &str, shown: &[u8], end: &str) {
    page.inset();
    page.say("     ");
    if window.is_front_cut {
        page.say(front);
    }
    for byte in shown {
        page.byte(*byte);
    }
    if window.is_end_cut {
        page.say(end);
    }
    page.say("\n");
}

// Puts `words`, in which the number stands for the `%`, into the line `signs` from column `start` on, if they have room there: a blank on both sides,
// or, for the last words of the line (`is_last`), nothing from `start` to the line's end. What has no room is left out. The error is refused memory.
fn put(
    signs: &mut Vec<u8>,
    alloc: Global,
    start: usize,
    words: &str,
    number: u64,
    is_last: bool,
) -> Result<(), AllocError> {
    let mut page = Page::new(alloc);
    page.tell(words, &[Fill::Number(number)]);
    let text = page.finish()?;
    let end = start.saturating_add(text.len());
    // The columns that have to be blank.
    let room = if is_last {
        (start, signs.len())
    } else {
        (start.saturating_sub(1), end.saturating_add(1))
    };
    let mut is_free = true;
    // A range that reaches over the end of the line has no room.
    for sign in signs.get(room.0..room.1).unwrap_or(b"^") {
        is_free = is_free && *sign == b' ';
    }
    if is_free {
        for (place, byte) in text.as_bytes().iter().enumerate() {
            if let Some(sign) = signs.get_mut(start.saturating_add(place)) {
                *sign = *byte;
            }
        }
    }
    Ok(())
}
