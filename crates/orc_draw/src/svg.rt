//! A picture as SVG.
//!
//! Places across are in parts (`scale::PARTS` to a pixel), so that the width can be shared among the times; places down are in pixels where their
//! comments don't say parts. In a template, `%` is a length in parts and `@` a number as it stands (`Markup::form`). Letters have about the same
//! width, so the room for a text is its length times a number of parts. The `place` of a row is its number from 0 at the top, and a text's `y` is its
//! base line. A span is a call, a pruning or an otherwise (`Kind`) from its beginning to its end (`End`), and a `Moment` is an entry with its time. A
//! pruning is bound when it gets its value; the call whose answer that is has won it.

use crate::legend::Legend;
use crate::markup::Markup;
use crate::picture::{Picture, Publications, Theme};
use crate::rows::Row;
use crate::scale::{Measure, PARTS, Scale};
use crate::story::{Called, End, Kind, Moment, Shown, Span};
use crate::style::{DARK, FAMILY, LIGHT};
use crate::text::{say_end, say_fate};
use orc_report::{Page, digits};
use std::alloc::{AllocError, Global};

// How far down the plot begins, in pixels: the line of times is above it.
const HEAD: u64 = 52;

// How far down the first row begins, in pixels.
const TOP: u64 = 98;

// How far down the dots of publications are, in pixels.
const PUBLICATIONS: u64 = 68;

// With more times than these there are no bands, but a thin line at each time that has a label.
pub(crate) const MOST_BANDS: usize = 40;

// With more publications than these, they have no lines down through the rows.
const MOST_LINES: u64 = 12;

/// How large rows are, in pixels: the height of a row, of a bar, and of a letter.
#[derive(Clone, Copy)]
struct Size {
    row: u64,
    bar: u64,
    letter: u64,
    // By how much a row is indented for each row that it stands in, in parts.
    indent: u64,
}

/// A picture on its sheet: places across are in parts of a pixel, places down in pixels.
#[derive(Drop)]
struct Sheet<'a> {
    picture: &'a Picture<'a>,
    size: Size,
    // The width of the labels and numbers, behind which the plot's frame begins.
    gutter: u64,
    // Where the first band begins, and the right edge of the plot.
    left: u64,
    right: u64,
    // The width of the whole sheet.
    width: u64,
    // How the plot's width is shared among the times that are shown.
    scale: Scale,
    // For each row: if it is a call whose answer won a pruning, how far across that pruning was bound, in parts; otherwise 0.
    wins: Vec<u64>,
}

/// Writes a picture as SVG. The error is refused memory.
pub(crate) fn write(alloc: Global, picture: &Picture, theme: Theme) -> Result<String, AllocError> {
    let sheet = Sheet::new(alloc, picture)?;
    // The body is written before the head, which says how high the sheet is: only the legend shows that. What is written later covers what is
    // earlier.
    let mut body = Page::new(alloc);
    sheet.times(&mut body);
    sheet.publications(&mut body);
    sheet.boxes(&mut body);
    sheet.rows(&mut body);
    sheet.winners(&mut body);
    // 24 pixels below the last row.
    let mut legend = Legend::new(sheet.bottom().saturating_add(24), sheet.width);
    // Where the scale isn't true, that is, where gaps aren't in proportion to the time between, the legend says so.
    legend.write(alloc, &mut body, picture, sheet.scale.is_true);
    let mut page = Page::new(alloc);
    sheet.head(&mut page, theme, legend.bottom());
    page.say(body.finish()?.as_str());
    page.say("</svg>\n");
    page.finish()
}

// `count` pixels, in parts.
fn pixels(count: u64) -> u64 {
    count.saturating_mul(PARTS)
}

// The size of rows where there are so many (`rows`), the deepest of which stands in `depth` others: over 60 rows, and again over 150, they are lower,
// so that the sheet doesn't grow too high. Deep ones are less indented, so that no row is indented by more than 112 pixels, 8 times 14.
fn size_of_rows(rows: u64, depth: u64) -> Size {
    let (row, bar, letter) = if rows <= 60 {
        (24, 13, 12)
    } else if rows <= 150 {
        (16, 10, 10)
    } else {
        (12, 8, 9)
    };
    let indent = if depth <= 8 {
        pixels(14)
    } else {
        pixels(112) / depth
    };
    Size {
        row,
        bar,
        letter,
        indent,
    }
}

// The width of the labels, each with its call's number, in parts: what the longest one needs, but 120 to 340 pixels, and 14 more to the plot's frame.
// A letter is 0.602 of its height wide.
fn gutter_of(picture: &Picture, size: &Size) -> u64 {
    let mut widest = pixels(120);
    for row in &picture.rows.rows {
        let kind = picture.span(row).map(|span| span.kind);
        // A call's number takes the room of six letters.
        let number = if matches!(kind, Some(Kind::Call(_))) {
            6
        } else {
            0
        };
        let letters = (row.label.len() as u64).saturating_add(number);
        // 16 pixels: the 12 before a label that isn't indented (`indent`), and 4 between label and number.
        let label = pixels(16)
            .saturating_add(row.depth.saturating_mul(size.indent))
            .saturating_add(letters.saturating_mul(size.letter).saturating_mul(602_000));
        widest = widest.max(label);
    }
    widest.min(pixels(340)).saturating_add(pixels(14))
}

impl<'a> Sheet<'a> {
    // Measures the sheet of a picture: over 60 rows, where they are lower, the plot is wider. The error is refused memory.
    fn new(alloc: Global, picture: &'a Picture<'a>) -> Result<Sheet<'a>, AllocError> {
        let rows = &picture.rows.rows;
        let count = rows.len() as u64;
        let mut deepest: u64 = 0;
        for row in rows {
            deepest = deepest.max(row.depth);
        }
        let size = size_of_rows(count, deepest);
        // In pixels: 760, and 4 more for each row over 60, up to 1,400.
        let plot = count
            .saturating_sub(60)
            .saturating_mul(4)
            .saturating_add(760);
        // A slot has room for the sign at an end, which reaches 6 pixels to either side (`reach`). The gap between two bands is 16 pixels wide or
        // more, where there is room.
        let measure = Measure {
            width: pixels(plot.min(1400)),
            slot: pixels(13),
            gap: pixels(16),
            margin: 0,
        };
        let slots = &picture.slots;
        // The plot's width is shared among the times that are shown. `total` is how many slots wide their bands are together.
        let scale = Scale::new(alloc, &slots.instants, slots.total(), measure)?;
        // 10 pixels stay free before the first band, and 6 behind the last one.
        let gutter = gutter_of(picture, &size);
        let left = gutter.saturating_add(pixels(10));
        let right = left.saturating_add(scale.end).saturating_add(pixels(6));
        // The line of letters at the top: those of the title are 8.6 pixels wide, those of the summary 6.7. Of the 40 pixels more, 26 are before the
        // summary (`head`), and 14 behind it.
        let name = (picture.name.len() as u64).saturating_mul(8_600_000);
        let summary = (picture.summary.len() as u64).saturating_mul(6_700_000);
        let title = pixels(40).saturating_add(name).saturating_add(summary);
        let mut sheet = Sheet {
            picture,
            size,
            gutter,
            left,
            right,
            // 168 pixels behind the plot are for the words at the ends of bars.
            width: right.saturating_add(pixels(168)).max(title),
            scale,
            wins: Vec::new(alloc),
        };
        // `wins` gets a place for each row here, so that `find_wins`, which only writes into them, needs no memory.
        for _row in rows {
            sheet.wins.push(0)?;
        }
        sheet.find_wins();
        Ok(sheet)
    }

    // Fills `wins`: for each pruning with a row that a call with a row has won. `won` is the place of the call's row, and `at` is when the pruning
    // was bound.
    fn find_wins(&mut self) {
        for row in &self.picture.rows.rows {
            if let Some((won, _call, at)) = self.picture.winner(row) {
                let place = self.across(at);
                if let Some(win) = self.wins.get_mut(won) {
                    *win = place;
                }
            }
        }
    }

    // ---- places

    // The lower edge of the last row, in pixels: a row behind it would begin there.
    fn bottom(&self) -> u64 {
        self.down(self.picture.rows.rows.len())
    }

    // The upper edge of the row at this place, from 0 at the top, in pixels.
    fn down(&self, row: usize) -> u64 {
        TOP.saturating_add((row as u64).saturating_mul(self.size.row))
    }

    // The middle of the row at this place, from 0 at the top, in parts from the sheet's upper edge.
    fn middle(&self, row: usize) -> u64 {
        pixels(self.down(row)).saturating_add(pixels(self.size.row) / 2)
    }

    // The left edge of the band of the instant at this place, from 0, in parts. An instant is a time that the picture shows.
    fn band(&self, instant: usize) -> u64 {
        self.left.saturating_add(self.scale.begin(instant))
    }

    // The middle of a moment's slot, in parts from the sheet's left edge. A moment is an entry with its time; its slot is the place of that entry
    // within the band of that time.
    fn across(&self, at: Moment) -> u64 {
        let slot = self.picture.slots.slot(at);
        self.band(slot.instant)
            .saturating_add(self.scale.within(slot))
            .saturating_add(self.scale.slot / 2)
    }

    // Where a span (a call, a pruning or an otherwise) begins, in parts from the sheet's left edge: the middle of the slot of the entry that began
    // it.
    fn begin(&self, span: &Span) -> u64 {
        self.across(span.began)
    }

    // Where a span ends, in parts from the sheet's left edge: the middle of the slot of the entry that ended it, or the plot's right edge where it
    // hasn't ended.
    fn end(&self, span: &Span) -> u64 {
        match span.end {
            Some((_, at)) => self.across(at),
            None => self.right,
        }
    }

    // ---- the frame

    // Writes the beginning of the SVG: its size, its title, its style sheet, its background, and the line of letters at the top. `bottom` is the
    // sheet's lower edge, in pixels, and so its height.
    fn head(&self, page: &mut Page, theme: Theme, bottom: u64) {
        // Rounded to whole pixels.
        let width = self.width.saturating_add(PARTS / 2) / PARTS;
        page.form(
            "<svg xmlns=\"http://www.w3.org/2000/svg\" width=\"@\" height=\"@\" viewBox=\"0 0 @ @\" role=\"img\"><title>",
            &[width, bottom, width, bottom],
        );
        page.escaped(self.picture.name);
        page.say(": ");
        page.escaped(self.picture.summary.as_str());
        let letter = self.size.letter;
        page.form("</title><style>text{font:@", &[letter]);
        page.say(FAMILY);
        // `FAMILY` ends where the size of a call's number is to follow: 0.85 of that of a label.
        page.form("%px}", &[letter.saturating_mul(850_000)]);
        page.say(if theme == Theme::Dark { DARK } else { LIGHT });
        if theme == Theme::Auto {
            page.say("@media(prefers-color-scheme:dark){");
            page.say(DARK);
            page.say("}");
        }
        page.say(
            "</style><rect class=\"bg\" width=\"100%\" height=\"100%\"/><text class=\"title\" x=\"12\" y=\"20\">",
        );
        page.escaped(self.picture.name);
        // The summary stands behind the title, whose letters are 8.6 pixels wide: 12 pixels are before the title, and 14 between the two.
        let tenths = (self.picture.name.len() as u64).saturating_mul(86);
        let behind = tenths.saturating_add(5) / 10;
        page.form(
            "</text><text class=\"axis\" x=\"@\" y=\"20\">",
            &[behind.saturating_add(26)],
        );
        page.escaped(self.picture.summary.as_str());
        page.say("</text>");
    }

    // Writes the band of each time, and the line of times, 6 pixels above. Where there are too many times, each that has a label has a line in place
    // of a band.
    fn times(&self, page: &mut Page) {
        // In the templates here `%` is a length in parts and `@` a number as it stands.
        let instants = &self.picture.slots.instants;
        let are_bands = instants.len() <= MOST_BANDS;
        let height = self.bottom().saturating_sub(HEAD);
        // Where the last label ends, 0 before the first. A label that would come near to it is left out.
        let mut last: u64 = 0;
        for (i, instant) in instants.iter().enumerate() {
            // Where the band begins, and how wide it is: as wide as its slots.
            let begin = self.band(i);
            let width = self.scale.slot.saturating_mul(instant.width());
            if are_bands {
                page.form(
                    "<rect class=\"instant\" x=\"%\" y=\"@\" width=\"%\" height=\"@\"/>\n",
                    &[begin, HEAD, width, height],
                );
            }
            // A label is centred on its band. A digit is taken as 7 pixels wide, and 12 pixels or more stay free between two labels.
            let middle = begin.saturating_add(width / 2);
            let letters = digits(instant.time);
            if last == 0
                || middle
                    > last.saturating_add(pixels(letters.saturating_mul(7).saturating_add(12)))
            {
                page.form(
                    "<text class=\"axis\" x=\"%\" y=\"@\" text-anchor=\"middle\">@</text>\n",
                    &[middle, HEAD - 6, instant.time],
                );
                // Half of the label stands right of its middle: 3.5 pixels for each digit.
                last = middle.saturating_add(letters.saturating_mul(3_500_000));
                if !are_bands {
                    page.form(
                        "<line class=\"rule\" x1=\"%\" x2=\"%\" y1=\"@\" y2=\"@\" stroke-opacity=\".4\"/>\n",
                        &[begin, begin, HEAD, self.bottom()],
                    );
                }
            }
        }
        // The word `time` left of the plot, and the line between the times and their bands.
        page.form(
            "<text class=\"axis\" x=\"%\" y=\"@\" text-anchor=\"end\">time</text>\n<line class=\"rule\" x1=\"%\" x2=\"%\" y1=\"@\" y2=\"@\"/>\n",
            &[
                self.gutter,
                HEAD - 6,
                self.gutter.saturating_add(pixels(4)),
                self.right,
                HEAD,
                HEAD,
            ],
        );
    }

    // ---- publications

    // Writes the dot of each publication, with a line down through the rows where there are few, and the values below the dots. The word at the left
    // is 4 pixels lower than the dots' middle, so that it stands beside them.
    fn publications(&self, page: &mut Page) {
        // In the templates here `%` is a length in parts and `@` a number as it stands.
        page.form(
            "<text class=\"lab\" x=\"12\" y=\"@\">publishes</text>\n",
            &[PUBLICATIONS + 4],
        );
        // The publications, those of each time together; `count` becomes how many they are in all.
        let all = &self.picture.publications;
        let mut count: u64 = 0;
        for some in all {
            count = count.saturating_add(some.count);
        }
        // A dot is up to 2 pixels wider than its slot at either side, where slots are narrow.
        let radius = (self.scale.slot / 2)
            .saturating_add(pixels(2))
            .min(pixels(5));
        for event in &self.picture.story.events {
            if let Shown::Publication(value) = event.shown {
                // How far across the middle of the dot is, in parts.
                let place = self.across(event.at);
                if count <= MOST_LINES {
                    page.form(
                        "<line class=\"publine\" x1=\"%\" x2=\"%\" y1=\"@\" y2=\"@\"/>\n",
                        &[place, place, PUBLICATIONS, self.bottom()],
                    );
                }
                page.form(
                    "<circle class=\"pub\" cx=\"%\" cy=\"@\" r=\"%\"><title>entry @: publish ",
                    &[place, PUBLICATIONS, radius, event.at.entry],
                );
                page.value(value);
                page.form(" at time @</title></circle>\n", &[event.at.time]);
            }
        }
        for (i, some) in all.iter().enumerate() {
            // 10 pixels stay free before the next values, or at the right edge of the sheet.
            let next = match all.get(i.saturating_add(1)) {
                Some(next) => self.across(next.first),
                None => self.width,
            };
            self.values(page, some, next.saturating_sub(pixels(10)));
        }
    }

    // Writes the values of the publications of one time (`some`) if they end before `limit`, in parts across; or else how many there are, if more
    // than one and 60 pixels are free; or nothing. They begin 4 pixels left of the first dot's middle, and stand 20 pixels below it.
    fn values(&self, page: &mut Page, some: &Publications, limit: u64) {
        let place = self.across(some.first);
        // These letters are 7.3 pixels wide.
        let end = place.saturating_add(some.width().saturating_mul(7_300_000));
        let is_short = end > limit;
        // How many there are is counted as 60 pixels wide.
        if is_short && (some.count < 2 || place.saturating_add(pixels(60)) >= limit) {
            return;
        }
        page.form(
            "<text class=\"pubv\" x=\"%\" y=\"@\">",
            &[place.saturating_sub(pixels(4)), PUBLICATIONS + 20],
        );
        if is_short {
            page.form("@ values", &[some.count]);
        } else {
            some.say(page);
        }
        page.say("</text>\n");
    }

    // ---- rows

    // Writes for each pruning the tinted box round its row and the rows of what stands in it, 2 pixels within their edges. A pruning in which no row
    // stands has none. A box is 2 pixels wide at least, so that it is seen. `count` is how many rows the box encloses, the pruning's own among them.
    fn boxes(&self, page: &mut Page) {
        let rows = &self.picture.rows.rows;
        for (i, row) in rows.iter().enumerate() {
            if let Some(span) = self.picture.span(row) {
                let count = inner_rows(rows, i, row.depth).saturating_add(1);
                if matches!(span.kind, Kind::Pruning(_)) && count > 1 {
                    let begin = self.begin(&span);
                    let width = self.end(&span).saturating_sub(begin).max(pixels(2));
                    let height = count.saturating_mul(self.size.row).saturating_sub(4);
                    page.form(
                        "<rect class=\"group\" x=\"%\" y=\"@\" width=\"%\" height=\"@\" rx=\"4\">",
                        &[begin, self.down(i).saturating_add(2), width, height],
                    );
                    // The box's title: from when to when the pruning was open.
                    say_stay(page, &span);
                    page.say("</rect>\n");
                }
            }
        }
    }

    // Writes all rows, from top to bottom: `call` writes the row of a call, and `side` that of a pruning or an otherwise.
    fn rows(&self, page: &mut Page) {
        for (i, row) in self.picture.rows.rows.iter().enumerate() {
            if let Some(span) = self.picture.span(row) {
                match span.kind {
                    Kind::Call(called) => self.call(page, i, row, &span, called),
                    _ => self.side(page, i, row, &span),
                }
            }
        }
    }

    // The base line of the letters in the row at this place, from 0 at the top, in parts: 0.35 of their height below the row's middle, so that the
    // letters stand in the middle.
    fn line(&self, row: usize) -> u64 {
        self.middle(row)
            .saturating_add(self.size.letter.saturating_mul(350_000))
    }

    // Where the label of a row begins, in parts: 12 pixels from the left, and its indent.
    fn indent(&self, row: &Row) -> u64 {
        pixels(12).saturating_add(row.depth.saturating_mul(self.size.indent))
    }

    // Writes the row of a call, at this place: its label, its number, its bar, and how it ended. The number ends 6 pixels before the frame. The bar
    // is 3 pixels wide at least, and that of an Rwait half as high as others.
    fn call(&self, page: &mut Page, place: usize, row: &Row, span: &Span, called: Called) {
        // In the templates here `%` is a length in parts and `@` a number as it stands. The title says what a viewer shows of the call.
        let class = class_of(span);
        page.say("<g><title>");
        say_tip(page, row, span, called);
        page.say("</title><text class=\"lab");
        // The label of a cancelled call is dim. A cancelled call has the class `cut` (`class_of`).
        page.say(if class == "cut" { " dim" } else { "" });
        page.form("\" x=\"%\" y=\"%\">", &[self.indent(row), self.line(place)]);
        page.escaped(row.label.as_str());
        page.form(
            "</text><text class=\"num\" x=\"%\" y=\"%\" text-anchor=\"end\">@</text><rect class=\"bar ",
            &[
                self.gutter.saturating_sub(pixels(6)),
                self.line(place),
                called.number,
            ],
        );
        let begin = self.begin(span);
        let end = self.end(span);
        let height = pixels(self.size.bar) / if called.is_pause { 2 } else { 1 };
        page.say(class);
        page.form(
            "\" x=\"%\" y=\"%\" width=\"%\" height=\"%\" rx=\"2\"/>",
            &[
                begin,
                self.middle(place).saturating_sub(height / 2),
                end.saturating_sub(begin).max(pixels(3)),
                height,
            ],
        );
        self.call_end(page, place, row, span, called);
        page.say("</text></g>\n");
    }

    // Writes the sign at a call's end, and the words behind it, whose tag the caller closes. A call that halted has an upright mark, at either end a
    // pixel longer than bars are high; one that was cancelled has a cross, and any other none. The mark is 3 pixels wide, and one of
    // them is behind the end. The words stand 6 pixels behind the end, or 8 where there is a cross.
    fn call_end(&self, page: &mut Page, place: usize, row: &Row, span: &Span, called: Called) {
        let end = self.end(span);
        let class = class_of(span);
        let mut behind = end.saturating_add(pixels(6));
        match span.end {
            Some((End::Answered(_), _)) => {
                // Behind the line that leads to the pruning, if the answer has won one.
                let won = self.wins.get(place).copied().unwrap_or(0);
                behind = end.max(won).saturating_add(pixels(6));
            }
            Some((End::Halted, _)) => page.form(
                "<rect class=\"stopmark\" x=\"%\" y=\"%\" width=\"3\" height=\"@\"/>",
                &[
                    end.saturating_sub(pixels(2)),
                    self.middle(place)
                        .saturating_sub(pixels(self.size.bar) / 2)
                        .saturating_sub(pixels(1)),
                    self.size.bar.saturating_add(2),
                ],
            ),
            // Cancelled. The cross reaches over 0.42 of a bar's height each way.
            Some(_) => {
                self.cross(
                    page,
                    end,
                    self.middle(place),
                    self.size.bar.saturating_mul(420_000),
                );
                behind = end.saturating_add(pixels(8));
            }
            // Still pending: no sign.
            None => {}
        }
        // The class of the words is that of the bar with one more `t`.
        page.say("<text class=\"end ");
        page.say(class);
        page.form("t\" x=\"%\" y=\"%\">", &[behind, self.line(place)]);
        // In a picture of many rows, which is wide, the label of a bar that begins far to the right is written behind the bar too.
        let is_crowded = self.picture.rows.rows.len() > 60;
        if is_crowded && self.begin(span) > self.gutter.saturating_add(pixels(400)) {
            page.escaped(row.label.as_str());
            page.say(" ");
        }
        // `say_fate` writes how the call ended, of a cancelled one also when it was due. In a picture of many rows only the call's title says that
        // (`say_tip`).
        if is_crowded && class == "cut" {
            page.say("cancelled");
        } else {
            say_fate(page, span, called);
        }
    }

    // Writes a cross round a point, which goes so far to each side (`reach`), all in parts.
    fn cross(&self, page: &mut Page, x: u64, y: u64, reach: u64) {
        let (left, right) = (x.saturating_sub(reach), x.saturating_add(reach));
        let (up, down) = (y.saturating_sub(reach), y.saturating_add(reach));
        page.form(
            "<path class=\"x\" d=\"M% %L% %M% %L% %\"/>",
            &[left, up, right, down, left, down, right, up],
        );
    }

    // How far the sign at the end of a pruning or an otherwise reaches from its middle, in parts: half a bar, but 6 pixels at most.
    fn reach(&self) -> u64 {
        (pixels(self.size.bar) / 2).min(pixels(6))
    }

    // Writes the row of a pruning or an otherwise, at this place: its label, its line, and how it ended. `indent` and `line` say where the letters of
    // the label begin.
    fn side(&self, page: &mut Page, place: usize, row: &Row, span: &Span) {
        let (begin, end, middle) = (self.begin(span), self.end(span), self.middle(place));
        page.form(
            "<text class=\"lab scope\" x=\"%\" y=\"%\">",
            &[self.indent(row), self.line(place)],
        );
        page.escaped(row.label.as_str());
        page.say("</text><g>");
        // The line's title: from when to when the pruning or the otherwise was open.
        say_stay(page, span);
        page.say(match span.kind {
            Kind::Pruning(_) => "<line class=\"span\"",
            _ => "<line class=\"ospan\"",
        });
        // The line from beginning to end, and an upright one at the beginning, 4 pixels up and down.
        page.form(
            " x1=\"%\" x2=\"%\" y1=\"%\" y2=\"%\"/><line class=\"span\" x1=\"%\" x2=\"%\" y1=\"%\" y2=\"%\"/></g>\n",
            &[
                begin,
                end,
                middle,
                middle,
                begin,
                begin,
                middle.saturating_sub(pixels(4)),
                middle.saturating_add(pixels(4)),
            ],
        );
        // The sign at the end with the opened tag of the words behind it, and then the words.
        self.side_end(page, place, span, end, middle);
        say_end(page, span);
        page.say("</text>\n");
    }

    // Writes the sign at the end of a pruning or an otherwise, in parts at x and y, and opens the tag of the words behind it, whose class it finds. A
    // value is a diamond, `lost` a ring a pixel smaller, the right side of an otherwise a triangle, and a drop a cross of four fifths.
    fn side_end(&self, page: &mut Page, place: usize, span: &Span, x: u64, y: u64) {
        // In the templates here `%` is a length in parts and `@` a number as it stands.
        let reach = self.reach();
        let (left, right) = (x.saturating_sub(reach), x.saturating_add(reach));
        let (up, down) = (y.saturating_sub(reach), y.saturating_add(reach));
        let class = match span.end {
            Some((End::Bound(value, _), at)) => {
                page.form(
                    "<path class=\"bind\" d=\"M% %L% %L% %L% %Z\"><title>entry @: bind ",
                    &[x, up, right, y, x, down, left, y, at.entry],
                );
                page.value(value);
                page.form(" at time @</title></path>", &[at.time]);
                "bindt"
            }
            Some((End::Lost, at)) => {
                page.form(
                    "<circle class=\"lost\" cx=\"%\" cy=\"%\" r=\"%\"><title>entry @: lost at time @</title></circle>",
                    &[x, y, reach.saturating_sub(pixels(1)), at.entry, at.time],
                );
                "haltt"
            }
            Some((End::Resumed, at)) => {
                page.form(
                    "<path class=\"right\" d=\"M% %L% %L% %Z\"><title>entry @: right at time @</title></path>",
                    &[left, up, right, y, left, down, at.entry, at.time],
                );
                "rightt"
            }
            // Dropped: an otherwise whose left side has published has no row, and the other ends are of calls.
            Some((_, at)) => {
                page.form(
                    "<g><title>entry @: dropped at time @</title>",
                    &[at.entry, at.time],
                );
                self.cross(page, x, y, reach / 5 * 4);
                page.say("</g>");
                "cutt"
            }
            // Still open: no sign.
            None => "nevt",
        };
        // How many pixels behind the end the words begin: behind the sign.
        let gap = match class {
            "nevt" => 6,
            "cutt" => 8,
            _ => 9,
        };
        page.say("<text class=\"end ");
        page.say(class);
        page.form(
            "\" x=\"%\" y=\"%\">",
            &[x.saturating_add(pixels(gap)), self.line(place)],
        );
    }

    // Writes the green line from each answer that won to the pruning whose value it became: across in the call's row to the time of the bind, then up
    // to the lower tip of the diamond in the pruning's row, which is above it. `i` is the place of the pruning's row, and `won` that of the call's.
    // `call` is the call's span, and `at` is when the pruning was bound.
    fn winners(&self, page: &mut Page) {
        for (i, row) in self.picture.rows.rows.iter().enumerate() {
            if let Some((won, call, at)) = self.picture.winner(row) {
                let (from, to) = (self.end(&call), self.across(at));
                let (low, high) = (
                    self.middle(won),
                    self.middle(i).saturating_add(self.reach()),
                );
                page.form(
                    "<path class=\"win\" d=\"M% %L% %L% %\"><title>entry @: the first value, at time @</title></path>\n",
                    &[from, low, to, low, to, high, at.entry, at.time],
                );
            }
        }
    }
}

// How many rows stand in the row at the place `at`, from 0, which has this depth: those behind it up to the next one that is no deeper.
fn inner_rows(rows: &[Row], at: usize, depth: u64) -> u64 {
    let mut count: u64 = 0;
    for row in rows.iter().skip(at.saturating_add(1)) {
        if row.depth <= depth {
            return count;
        }
        count = count.saturating_add(1);
    }
    count
}

// The class in the style sheet of a call's bar: answered, halted, cancelled, or still pending. The class of the words behind the bar has one more
// `t`.
fn class_of(span: &Span) -> &'static str {
    match span.end {
        Some((End::Answered(_), _)) => "ok",
        Some((End::Halted, _)) => "halt",
        Some(_) => "cut",
        None => "nev",
    }
}

// Writes the title of a pruning or an otherwise, which a viewer shows where the reader points at it: from when to when it was open.
fn say_stay(page: &mut Page, span: &Span) {
    let name = match span.kind {
        Kind::Pruning(_) => "pruning",
        _ => "otherwise",
    };
    page.say("<title>");
    page.say(name);
    page.form(
        ", opened at time @ (entry @), ",
        &[span.began.time, span.began.entry],
    );
    match span.end {
        Some((_, at)) => page.form("ended at time @ (entry @)", &[at.time, at.entry]),
        None => page.say("still open"),
    }
    page.say("</title>");
}

// Writes what a viewer shows of a call where the reader points at it. In the templates `@` is a number.
fn say_tip(page: &mut Page, row: &Row, span: &Span, called: Called) {
    page.form("call @: ", &[called.number]);
    page.escaped(row.label.as_str());
    page.form(
        ", made at time @ (entry @); ",
        &[span.began.time, span.began.entry],
    );
    match span.end {
        Some((End::Answered(value), at)) => {
            page.say("answered ");
            page.value(value);
            page.form(" at time @ (entry @)", &[at.time, at.entry]);
        }
        Some((End::Halted, at)) => page.form("halted at time @ (entry @)", &[at.time, at.entry]),
        // Cancelled: with the call's due time, if it had one.
        Some((_, at)) => {
            page.form("cancelled at time @ (entry @), ", &[at.time, at.entry]);
            match called.due {
                Some(time) => page.form("was due at @", &[time]),
                None => page.say("never due"),
            }
        }
        // Still pending: when it is due, or that it never answers.
        None => say_fate(page, span, called),
    }
}
