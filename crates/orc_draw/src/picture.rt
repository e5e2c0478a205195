//! From a journal to its picture. A `Story` has what happened in a run: its spans, which are calls, prunings and otherwises, and its events, which
//! are the entries of which a picture shows something. A `Moment` is an entry with its time, and `Slots` say how far across each entry stands.

use crate::fault::DrawFault;
use crate::labels::Texts;
use crate::rows::{Row, Rows};
use crate::slots::Slots;
use crate::story::{End, Event, Moment, Shown, Span, Story};
use crate::{svg, text};
use orc_journal::Journal;
use orc_report::{Fill, Page, digits};
use orc_rules::answers::Answers;
use orc_rules::entry::State;
use orc_rules::value::Value;
use orc_source_map::Sketch;
use orc_syntax::Ast;
use std::alloc::{AllocError, Global};

/// The colours of a picture.
#[derive(Clone, Copy, Debug, PartialEq, Eq)]
pub enum Theme {
    /// Light ones, and dark ones where the reader's program prefers them.
    Auto,
    Light,
    Dark,
}

/// How a picture is written.
#[derive(Clone, Copy, Debug, PartialEq, Eq)]
pub enum Form {
    /// As SVG, in these colours.
    Svg(Theme),
    /// As rows of text of about so many columns. However few they are, the plot has one column at least, so lines may become longer.
    Text(u64),
}

/// How a journal is drawn.
#[derive(Clone, Copy, Debug, PartialEq, Eq)]
pub struct Options {
    pub form: Form,
    /// Whether calls of built-in sites other than Rwait, which take no time, have rows too.
    pub all: bool,
}

/// What is drawn: a program by its source and its tree, the table that answered its calls, a journal that was checked against both, and the state of
/// the run at its end.
pub struct Subject<'a> {
    /// The title of the picture.
    pub name: &'a str,
    pub source: &'a [u8],
    pub ast: Ast<'a>,
    pub answers: Answers,
    pub journal: Journal,
    pub state: State,
}

// Written out, so that a caller's proof sees one call and not the drop of each field.
impl Drop for Subject<'_> {
    fn drop(self) {
        let Subject {
            name: _,
            source: _,
            ast: _,
            answers: _,
            journal: _,
            state: _,
        } = self;
    }
}

/// A picture before it is written, as far as both forms share it.
pub(crate) struct Picture<'a> {
    pub name: &'a str,
    /// One line on the run: how it ended, and what it published.
    pub summary: String,
    pub story: Story<'a>,
    pub rows: Rows,
    pub slots: Slots,
    /// The publications, those of each time together.
    pub publications: Vec<Publications>,
}

// Written out, so that a caller's proof sees one call and not the drop of each field.
impl Drop for Picture<'_> {
    fn drop(self) {
        let Picture {
            name: _,
            summary: _,
            story: _,
            rows: _,
            slots: _,
            publications: _,
        } = self;
    }
}

/// The picture of a journal: each call from its entry to its answer, its halt or its cancel, each pruning with its winner, each otherwise
/// whose right side began, and the publications, over logical time.
///
/// The journal is one that was checked. A fault is a picture of over `MOST_ROWS` rows, or refused memory.
pub fn draw(alloc: Global, subject: &Subject, options: Options) -> Result<String, DrawFault> {
    let picture = Picture::new(alloc, subject, options.all)?;
    let written = match options.form {
        Form::Text(width) => text::write(alloc, &picture, width)?,
        Form::Svg(theme) => svg::write(alloc, &picture, theme)?,
    };
    Ok(written)
}

/// The rows of the picture of a journal as text of about `width` columns, without the title and without the line on calls that aren't drawn: they are
/// for a place below a text that says what run it is. The faults are those of [`draw`].
pub fn draw_rows(alloc: Global, subject: &Subject, width: u64) -> Result<String, DrawFault> {
    // False: calls of built-in sites other than Rwait, which take no time, have no rows.
    let picture = Picture::new(alloc, subject, false)?;
    let written = text::write_rows(alloc, &picture, width)?;
    Ok(written)
}

impl<'a> Picture<'a> {
    // The picture of a subject, with all calls if `all`, as `Options` has it. The faults are those of [`draw`].
    fn new(alloc: Global, subject: &Subject<'a>, all: bool) -> Result<Picture<'a>, DrawFault> {
        // The sketch is the program's tree with its parts numbered, on which the story follows the journal. `texts` writes the labels of the rows.
        let sketch = Sketch::new(alloc, &subject.ast)?;
        let story = Story::new(alloc, &sketch, &subject.answers, &subject.journal, all)?;
        let texts = Texts { alloc, subject };
        let rows = Rows::new(alloc, &story.spans, &texts)?;
        let slots = Slots::new(alloc, &story.events, &rows, story.now)?;
        let publications = publications_by_time(alloc, &story.events)?;
        let summary = summary(alloc, subject, &story)?;
        Ok(Picture {
            name: subject.name,
            summary,
            story,
            rows,
            slots,
            publications,
        })
    }

    /// The span of a row; never None for a row of this picture.
    pub(crate) fn span(&self, row: &Row) -> Option<Span<'a>> {
        self.story.spans.get(row.span).copied()
    }

    /// The call that won the pruning of a row, that is, whose answer bound it: the place of the call's row, the call's span, and when the pruning was
    /// bound. None for any other row, and if the call has no row.
    pub(crate) fn winner(&self, row: &Row) -> Option<(usize, Span<'a>, Moment)> {
        match self.span(row)?.end? {
            (End::Bound(_, Some(call)), at) => {
                let won = self.rows.row_of(call)?;
                let span = self.story.spans.get(call).copied()?;
                Some((won, span, at))
            }
            _ => None,
        }
    }
}

// How many values the summary shows at most. Of one time all values are shown if they are no more than this, otherwise only how many they are.
const FEW: u64 = 6;

// The summary: how many entries there are, the state of the run and its time, and the first values that were published. The error is refused memory.
fn summary(alloc: Global, subject: &Subject, story: &Story) -> Result<String, AllocError> {
    let mut page = Page::new(alloc);
    page.tell(
        "% entries, % at time %, publishes ",
        &[
            Fill::Number(subject.journal.len() as u64),
            Fill::Text(subject.state.word()),
            Fill::Number(story.now),
        ],
    );
    let mut count: u64 = 0;
    for event in &story.events {
        if let Shown::Publication(value) = event.shown {
            if count < FEW {
                page.say(if count == 0 { "" } else { ", " });
                page.value(value);
            }
            count = count.saturating_add(1);
        }
    }
    if count == 0 {
        page.say("nothing");
    }
    if count > FEW {
        page.tell(" and % more", &[Fill::Number(count.saturating_sub(FEW))]);
    }
    page.finish()
}

/// The publications of one time.
#[derive(Drop)]
pub(crate) struct Publications {
    /// The entry of the first of them: the picture shows them all there.
    pub first: Moment,
    pub count: u64,
    // The first `FEW` values, with commas between them.
    values: Page,
}

impl Publications {
    // Adds a publication of the same time.
    fn add(&mut self, value: Value) {
        if self.count < FEW {
            if self.count > 0 {
                self.values.say(", ");
            }
            self.values.value(value);
        }
        self.count = self.count.saturating_add(1);
    }

    /// How many columns `say` writes.
    pub(crate) fn width(&self) -> u64 {
        if self.count > FEW {
            // ` values` has seven.
            digits(self.count).saturating_add(7)
        } else {
            self.values.len() as u64
        }
    }

    /// Writes the values, or how many they are.
    pub(crate) fn say(&self, page: &mut Page) {
        if self.count > FEW {
            page.number(self.count);
            page.say(" values");
        } else {
            page.say(self.values.as_str());
            // If memory was refused to the values, it is refused to this page, too.
            page.heed(&self.values);
        }
    }
}

// The publications, those of each time together, the earliest time first. The error is refused memory.
fn publications_by_time(alloc: Global, events: &[Event]) -> Result<Vec<Publications>, AllocError> {
    let mut all: Vec<Publications> = Vec::new(alloc);
    for event in events {
        if let Shown::Publication(value) = event.shown {
            // The first publication of a time begins a new entry of the list.
            if all.last().map(|last| last.first.time) != Some(event.at.time) {
                all.push(Publications {
                    first: event.at,
                    count: 0,
                    values: Page::new(alloc),
                })?;
            }
            if let Some(last) = all.last_mut() {
                last.add(value);
            }
        }
    }
    Ok(all)
}
