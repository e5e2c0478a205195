//! A picture as rows of text. Left of the plot each row has its label and the number of its call; columns of the plot are counted from 0.
//!
//! A row is its label, one blank, its number, two blanks, the plot, and the words on how its span ended. Depth indents a label by two columns for
//! each row that it stands in. Names and texts are ASCII here, so a byte is a column. A span is a call, a pruning or an otherwise (`Kind`) from its
//! beginning to its end (`End`), and a `Moment` is an entry with its time.

use crate::picture::Picture;
use crate::rows::Row;
use crate::scale::{Measure, PARTS, Scale};
use crate::story::{Called, End, Kind, Moment, Span};
use orc_report::{Fill, Page, digits};
use std::alloc::{AllocError, Global};

// The widest label, in columns. A longer one is cut: of 80 columns a plot keeps 28 or so.
const WIDEST: u64 = 30;

// The narrowest column of labels: `publishes` has nine letters.
const NARROWEST: u64 = 9;

// The columns that belong to no label, number or plot: three blanks round the number, two for a bar's last sign and the blank behind it, and 16 for
// the words there, which may be longer.
const APART: u64 = 21;

// How many columns the labels and the numbers of calls take (`label`, `number`), and how the plot is shared among the times.
#[derive(Drop)]
struct Columns<'a> {
    picture: &'a Picture<'a>,
    label: u64,
    number: u64,
    scale: Scale,
}

// What a bar or a line is drawn with: its first sign, what fills it, and its last sign. One of a single column has the last sign alone.
#[derive(Clone, Copy)]
struct Stroke {
    first: char,
    fill: char,
    last: char,
}

/// Writes a picture as text of about so many columns. The error is refused memory.
pub(crate) fn write(alloc: Global, picture: &Picture, width: u64) -> Result<String, AllocError> {
    let mut page = Page::new(alloc);
    let columns = Columns::new(alloc, &*picture, width)?;
    page.tell(
        "%: %\n",
        &[
            Fill::Path(picture.name),
            Fill::Text(picture.summary.as_str()),
        ],
    );
    columns.rows(&mut page);
    if picture.story.small > 0 {
        page.say("(not drawn: ");
        say_small(&mut page, picture.story.small);
        page.say("; --all draws them)\n");
    }
    page.finish()
}

/// Writes the rows of a picture of about so many columns, without its title and what it leaves out. The error is refused memory.
pub(crate) fn write_rows(
    alloc: Global,
    picture: &Picture,
    width: u64,
) -> Result<String, AllocError> {
    let mut page = Page::new(alloc);
    let columns = Columns::new(alloc, picture, width)?;
    columns.rows(&mut page);
    page.finish()
}

// How many whole columns so many parts are. Each share of a width was rounded down, so a thousandth of a column more is added before.
fn columns_of(parts: u64) -> u64 {
    parts.saturating_add(PARTS / 1_000) / PARTS
}

impl<'a> Columns<'a> {
    // Measures the labels and numbers, and gives the plot what they leave of `width` columns, one at least. The error is refused memory.
    fn new(alloc: Global, picture: &'a Picture<'a>, width: u64) -> Result<Columns<'a>, AllocError> {
        let mut label = NARROWEST;
        let mut number = 1;
        for row in &picture.rows.rows {
            let indent = row.depth.saturating_mul(2);
            label = label.max(indent.saturating_add(row.label.len() as u64));
            if let Some(Kind::Call(called)) = picture.span(row).map(|span| span.kind) {
                number = number.max(digits(called.number));
            }
        }
        let label = label.min(WIDEST);
        let taken = label.saturating_add(number).saturating_add(APART);
        let room = width.saturating_sub(taken).max(1).saturating_mul(PARTS);
        // Where there is room a slot is one column wide, and so are the least gap and the margin.
        let measure = Measure {
            width: room,
            slot: PARTS,
            gap: PARTS,
            margin: PARTS,
        };
        let slots = &picture.slots;
        // The plot's width is shared among the times that are shown. `total` is how many slots wide their bands are together.
        let mut scale = Scale::new(alloc, &slots.instants, slots.total(), measure)?;
        // A scale may be wider than it was asked for, but text has no columns to spare.
        scale.squeeze(room);
        Ok(Columns {
            picture,
            label,
            number,
            scale,
        })
    }

    // The column of the plot's right edge.
    fn right(&self) -> u64 {
        columns_of(self.scale.end)
    }

    // The column in which the band of the instant at this place, from 0, begins. An instant is a time that the picture shows.
    fn begin(&self, instant: usize) -> u64 {
        columns_of(self.scale.begin(instant))
    }

    // The column of a moment's slot. A moment is an entry with its time; its slot is the place of that entry within the band of that time.
    fn column(&self, at: Moment) -> u64 {
        let slot = self.picture.slots.slot(at);
        let within = columns_of(self.scale.within(slot));
        self.begin(slot.instant).saturating_add(within)
    }

    // Writes the line of times, that of publications, and the rows of calls, prunings and otherwises.
    fn rows(&self, page: &mut Page) {
        self.times(page);
        self.publications(page);
        for row in &self.picture.rows.rows {
            self.row(page, row);
        }
    }

    // Writes a label, behind `indent` blanks, in the columns of labels; one that is too long ends with `..`, which takes two of them.
    fn head(&self, page: &mut Page, label: &str, indent: u64) {
        let length = indent.saturating_add(label.len() as u64);
        let is_cut = length > self.label;
        let room = self.label.saturating_sub(if is_cut { 2 } else { 0 });
        page.fill(' ', indent.min(room));
        let shown = room.saturating_sub(indent);
        for byte in label.as_bytes().iter().take(shown as usize) {
            page.byte(*byte);
        }
        if is_cut {
            page.say("..")
        } else {
            page.fill(' ', self.label.saturating_sub(length))
        }
    }

    // Writes the number of a call, with its last digit in the last of its columns, or blanks where there is none.
    fn number(&self, page: &mut Page, number: Option<u64>) {
        page.say(" ");
        match number {
            Some(number) => {
                page.fill(' ', self.number.saturating_sub(digits(number)));
                page.number(number);
            }
            None => page.fill(' ', self.number),
        }
        page.say("  ")
    }

    // Writes the line of times. A number that would touch the one before it is left out, and so is one that would touch that of the last time.
    // `written` counts the columns of the plot that are filled so far.
    fn times(&self, page: &mut Page) {
        self.head(page, "time", 0);
        self.number(page, None);
        let instants = &self.picture.slots.instants;
        let last = instants.len().saturating_sub(1);
        let mut written: u64 = 0;
        for (i, instant) in instants.iter().enumerate() {
            let begin = self.begin(i);
            let end = begin.saturating_add(digits(instant.time));
            let is_apart = i == last || self.begin(last) > end.saturating_add(1);
            // The first number is always written.
            if written == 0 || (is_apart && begin > written.saturating_add(1)) {
                page.fill(' ', begin.saturating_sub(written));
                page.number(instant.time);
                written = begin.max(written).saturating_add(digits(instant.time));
            }
        }
        page.say("\n")
    }

    // Writes the line of publications: a `*` for those of each time (`some`), and the values where they have room before the next `*`. `written`
    // counts the columns of the plot that are filled so far.
    fn publications(&self, page: &mut Page) {
        let all = &self.picture.publications;
        if all.is_empty() {
            // Without values the line ends behind its label.
            page.say("publishes\n");
            return;
        }
        self.head(page, "publishes", 0);
        self.number(page, None);
        let mut written: u64 = 0;
        for (i, some) in all.iter().enumerate() {
            let begin = self.column(some.first);
            let next = match all.get(i.saturating_add(1)) {
                Some(next) => self.column(next.first),
                // The last values may go on behind the plot, for 40 columns.
                None => self.right().saturating_add(40),
            };
            let width = some.width();
            // Two columns more are the `*` and the blank behind it, and one stays free before the next `*`.
            let fits = begin.saturating_add(width).saturating_add(2) < next;
            // In a narrow plot two times may share a column: then the first one has the `*`.
            if i == 0 || begin >= written {
                page.fill(' ', begin.saturating_sub(written));
                page.say("*");
                written = begin.saturating_add(1);
                if fits {
                    page.say(" ");
                    some.say(page);
                    written = written.saturating_add(width).saturating_add(1);
                }
            }
        }
        page.say("\n")
    }

    // Writes the row of a span: its label, its number, its bar, and how it ended.
    fn row(&self, page: &mut Page, row: &Row) {
        // Each row of a picture has a span.
        let Some(span) = self.picture.span(row) else {
            return;
        };
        self.head(page, row.label.as_str(), row.depth.saturating_mul(2));
        match span.kind {
            Kind::Call(called) => {
                self.number(page, Some(called.number));
                self.bar(page, &span);
                say_fate(page, &span, called);
            }
            // A pruning or an otherwise: it has no number.
            _ => {
                self.number(page, None);
                self.bar(page, &span);
                say_end(page, &span);
            }
        }
        page.say("\n")
    }

    // Writes a bar, or the line of a pruning or an otherwise, from where the span begins to where it ends, or to the right edge.
    fn bar(&self, page: &mut Page, span: &Span) {
        let stroke = stroke_of(span);
        let begin = self.column(span.began);
        let end = match span.end {
            Some((_, at)) => self.column(at),
            None => self.right(),
        };
        page.fill(' ', begin);
        // The last sign stands in the column of the end, so a bar that ends where it begins has no other.
        if end > begin {
            page.sign(stroke.first);
            page.fill(stroke.fill, end.saturating_sub(begin).saturating_sub(1));
        }
        page.sign(stroke.last);
        page.say(" ")
    }
}

// The stroke of a call's bar, or of the line of a pruning or an otherwise. docs/orc.md, Pictures, lists them.
fn stroke_of(span: &Span) -> Stroke {
    let is_call = matches!(span.kind, Kind::Call(_));
    let (fill, last) = match span.end {
        Some((End::Answered(_), _)) => ('=', '>'),
        Some((End::Halted, _)) => ('=', '|'),
        Some((End::Bound(_, _), _)) => (' ', '#'),
        Some((End::Lost, _)) => (' ', 'o'),
        Some((End::Resumed, _)) => (' ', ';'),
        // Cancelled or dropped. An otherwise whose left side has published has no row.
        Some(_) => (if is_call { '-' } else { ' ' }, 'x'),
        None => (if is_call { '.' } else { ' ' }, '.'),
    };
    Stroke {
        first: if is_call { '[' } else { ':' },
        fill,
        last,
    }
}

/// Writes how many calls aren't drawn, which are of built-in sites and take no time.
pub(crate) fn say_small(page: &mut Page, small: u64) {
    page.tell("% of no time", &[Fill::Count(small, "built-in call")]);
}

/// Writes how a call ended: its value, `halt`, or that it was cancelled and when it was due; of a pending one, when it is due.
pub(crate) fn say_fate(page: &mut Page, span: &Span, called: Called) {
    // The 0 is never written: only the arms with a due time use it.
    let due = Fill::Number(called.due.unwrap_or(0));
    match (span.end, called.due) {
        (Some((End::Answered(value), _)), _) => page.value(value),
        (Some((End::Halted, _)), _) => page.say("halt"),
        (Some(_), Some(_)) => page.tell("cancelled, due %", &[due]),
        (Some(_), None) => page.say("cancelled, never due"),
        (None, Some(_)) => page.tell("due at %", &[due]),
        (None, None) => page.say("never answers"),
    }
}

/// Writes how a pruning or an otherwise with a row ended.
pub(crate) fn say_end(page: &mut Page, span: &Span) {
    match span.end {
        Some((End::Bound(value, _), _)) => page.tell("= %", &[Fill::Value(value)]),
        Some((End::Lost, _)) => page.say("lost"),
        Some((End::Resumed, _)) => page.say("right side"),
        Some(_) => page.say("dropped"),
        // A pruning: an otherwise has a row only once its right side has begun.
        None => page.say("no value yet"),
    }
}
