//! The legend of an SVG picture: what its signs mean, of most of them only where they occur. A span is a call, a pruning or an otherwise (`Kind`)
//! from its beginning to its end (`End`), and most spans have a row. A part is a millionth of a pixel (`PARTS`). A cell is what a pruning puts for
//! its variable. A call is cancelled if it is dropped with the side in which it stands. An instant is a time that the picture shows, and its band is
//! the strip down the picture where it stands.

use crate::markup::Markup;
use crate::picture::Picture;
use crate::scale::PARTS;
use crate::story::{End, Kind};
use crate::svg::MOST_BANDS;
use crate::text::say_small;
use orc_report::Page;
use std::alloc::Global;

/// Where the next sign is written: across in parts, down in pixels, and how wide the sheet is, in parts.
#[derive(Clone, Copy)]
pub(crate) struct Legend {
    across: u64,
    down: u64,
    width: u64,
}

/// What a sign stands for.
#[derive(Clone, Copy)]
enum Sign {
    /// The bar of a call that was answered with a value.
    Answered,
    /// The bar of a call that halted.
    Halted,
    /// The bar of a call that was cancelled.
    Cancelled,
    /// The lower bar of a call of `Rwait`, however it ended.
    Pause,
    /// The bar of a call that is still pending when the journal ends.
    Out,
    /// The end of a pruning whose cell was bound to a value.
    Bound,
    /// The end of a pruning whose right side halted without a value.
    Lost,
    /// The end of an otherwise's left side, where the right side begins.
    Resumed,
}

/// The signs that are explained only where they occur, in this order, with the SVG of each, and what they mean. The SVG has pixels, from the middle
/// of the sign's left edge on.
const SIGNS: [(Sign, &str, &str); 8] = [
    (
        Sign::Answered,
        "<rect class=\"bar ok\" y=\"-5\" width=\"22\" height=\"10\" rx=\"2\"/>",
        "answered",
    ),
    (
        Sign::Halted,
        "<rect class=\"bar halt\" y=\"-5\" width=\"22\" height=\"10\" rx=\"2\"/>",
        "halted",
    ),
    (
        Sign::Cancelled,
        "<rect class=\"bar cut\" y=\"-5\" width=\"22\" height=\"10\" rx=\"2\"/>",
        "cancelled",
    ),
    (
        Sign::Pause,
        "<rect class=\"bar ok\" y=\"-3\" width=\"22\" height=\"6\" rx=\"2\"/>",
        "Rwait",
    ),
    (
        Sign::Out,
        "<rect class=\"bar nev\" y=\"-5\" width=\"22\" height=\"10\" rx=\"2\"/>",
        "not answered yet",
    ),
    (
        Sign::Bound,
        "<path class=\"bind\" d=\"M11 -6l6 6l-6 6l-6 -6Z\"/>",
        "bound: the first value, the rest is dropped",
    ),
    (
        Sign::Lost,
        "<circle class=\"lost\" cx=\"11\" r=\"5\"/>",
        "lost: ended without a value",
    ),
    (
        Sign::Resumed,
        "<path class=\"right\" d=\"M6 -6l11 6l-11 6Z\"/>",
        "the right side of ; begins",
    ),
];

// Whether a sign occurs in a picture: whether a row's span is of the sign's kind and ended in the sign's way. The first arm that fits decides.
fn occurs(picture: &Picture, sign: Sign) -> bool {
    for row in &picture.rows.rows {
        if let Some(span) = picture.span(row) {
            let end = span.end.map(|(end, _at)| end);
            let is_of = match (sign, span.kind, end) {
                (Sign::Pause, Kind::Call(called), _) => called.is_pause,
                (Sign::Answered, Kind::Call(_), Some(End::Answered(_))) => true,
                (Sign::Halted, Kind::Call(_), Some(End::Halted)) => true,
                // No sign but those above is of a call that was answered or halted.
                (_, Kind::Call(_), Some(End::Answered(_) | End::Halted)) => false,
                // The only end of a call that is left.
                (Sign::Cancelled, Kind::Call(_), Some(_)) => true,
                (Sign::Out, Kind::Call(_), None) => true,
                // The other signs are of prunings and otherwises, or of another end.
                (_, Kind::Call(_), _) => false,
                (Sign::Bound, _, Some(End::Bound(_, _))) => true,
                (Sign::Lost, _, Some(End::Lost)) => true,
                (Sign::Resumed, _, Some(End::Resumed)) => true,
                // The sign is one of calls, or of another end.
                _ => false,
            };
            if is_of {
                return true;
            }
        }
    }
    false
}

impl Legend {
    /// A legend that begins at the left margin, 12 pixels across. Its first line of letters is this far down, in pixels, on a sheet of this width, in
    /// parts.
    pub(crate) fn new(down: u64, width: u64) -> Legend {
        Legend {
            across: 12 * PARTS,
            down,
            width,
        }
    }

    /// The lower edge of the sheet, in pixels: 14 below the legend's last line.
    pub(crate) fn bottom(&self) -> u64 {
        self.down.saturating_add(14)
    }

    // Adds a sign by its SVG (`template`), which may be empty, and what it means (`text`), in a new line where the sheet has no room for it in this
    // one. A letter is taken to be 6.65 pixels wide. The left margin is 12 pixels, the right one 8, and a line is 18 high.
    fn add(&mut self, page: &mut Page, template: &str, text: &str) {
        // 48 pixels are for the sign and the gap behind the text.
        let room = (text.len() as u64)
            .saturating_mul(6_650_000)
            .saturating_add(48 * PARTS);
        if self.across.saturating_add(room) > self.width.saturating_sub(8 * PARTS) {
            self.across = 12 * PARTS;
            self.down = self.down.saturating_add(18);
        }
        // The middle of a sign is 4 pixels above the letters' base line. A sign takes 28 pixels, with the gap behind it.
        let middle = self.down.saturating_mul(PARTS).saturating_sub(4 * PARTS);
        let sign = if template.is_empty() { 0 } else { 28 };
        if !template.is_empty() {
            page.form("<g transform=\"translate(% %)\">", &[self.across, middle]);
            page.say(template);
            page.say("</g>");
        }
        page.form(
            "<text class=\"leg\" x=\"%\" y=\"@\">",
            &[self.across.saturating_add(sign * PARTS), self.down],
        );
        page.escaped(text);
        page.say("</text>\n");
        self.across = self.across.saturating_add(room);
    }

    /// Writes what the signs of a picture mean, how many calls aren't drawn, and, unless `is_true`, that its times aren't to scale.
    pub(crate) fn write(
        &mut self,
        alloc: Global,
        page: &mut Page,
        picture: &Picture,
        is_true: bool,
    ) {
        for (sign, template, text) in SIGNS.iter() {
            if occurs(picture, *sign) {
                self.add(page, template, text);
            }
        }
        // The dot of a publication is explained in every picture.
        self.add(
            page,
            "<circle class=\"pub\" cx=\"11\" r=\"5\"/>",
            "published",
        );
        // With more instants there are no bands to explain.
        if picture.slots.instants.len() <= MOST_BANDS {
            let sign = "<rect class=\"instant\" y=\"-7\" width=\"22\" height=\"14\"/>";
            self.add(page, sign, "one time, entries in order");
        }
        if picture.story.small > 0 {
            let mut text = Page::new(alloc);
            text.say("not drawn: ");
            say_small(&mut text, picture.story.small);
            text.say(" (--all)");
            self.add(page, "", text.as_str());
            // If memory was refused to the text, it is refused to this page, too.
            page.heed(&text);
        }
        if !is_true {
            self.add(page, "", "the time between is not to scale");
        }
    }
}
