//! What the text of an SVG needs beyond what a page writes: templates with numbers in them, and escaped letters. A part is a millionth of a pixel
//! (`PARTS`).

use crate::scale::PARTS;
use orc_report::Page;

/// A text to which pieces of SVG are written.
pub(crate) trait Markup {
    /// Writes a text that stands between tags: `<`, `>` and `&` are escaped.
    fn escaped(&mut self, text: &str);

    /// Writes a template in ASCII. Each `%` in it is the next of `numbers`, a length in parts, as pixels with one decimal; each `@` is the next one
    /// as it stands. Behind the last number a sign is 0.
    fn form(&mut self, template: &str, numbers: &[u64]);
}

impl Markup for Page {
    fn escaped(&mut self, text: &str) {
        for byte in text.as_bytes() {
            match *byte {
                b'<' => self.say("&lt;"),
                b'>' => self.say("&gt;"),
                b'&' => self.say("&amp;"),
                byte => self.byte(byte),
            }
        }
    }

    fn form(&mut self, template: &str, numbers: &[u64]) {
        // The place in `numbers` of the next one.
        let mut next: usize = 0;
        for byte in template.as_bytes() {
            let number = numbers.get(next).copied().unwrap_or(0);
            match *byte {
                b'%' => {
                    // Rounded to the nearest tenth of a pixel.
                    let tenths = number.saturating_add(PARTS / 20) / (PARTS / 10);
                    self.number(tenths / 10);
                    self.say(".");
                    self.number(tenths % 10);
                    next = next.saturating_add(1);
                }
                b'@' => {
                    self.number(number);
                    next = next.saturating_add(1);
                }
                byte => self.sign(byte as char),
            }
        }
    }
}
