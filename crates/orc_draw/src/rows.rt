//! The rows of a picture, from top to bottom: the spans that are shown, each below the one that it stands in. A span is a call, a pruning or an
//! otherwise (`Kind`) from its beginning to its end (`End`). `texts` writes the labels.
//!
//! The `place` of a span is its number among the story's spans, from 0. A look-up by such a place always finds one: its other branch only spares a
//! proof.

ghost use Rattle.std.specs.Prelude.{◌≤◌, length, IfOk};
ghost use Rattle.orc_rules.specs.declared.limits.TheConstants.{MOST_ROWS};

use crate::fault::DrawFault;
use crate::labels::Texts;
use crate::story::{End, Kind, Span};
use orc_rules::limits::MOST_ROWS;
use std::alloc::{AllocError, Global};

/// A row: the place of its span among the story's spans, from 0; how many rows it stands in (`depth`, by which it is indented); and its label.
#[derive(Drop)]
pub(crate) struct Row {
    pub span: usize,
    pub depth: u64,
    pub label: String,
}

/// The rows in their order, and for each span the place of its row, if it has one.
#[derive(Drop)]
pub(crate) struct Rows {
    pub rows: Vec<Row>,
    of_span: Vec<Option<usize>>,
}

// The spans as a tree: for each span the first of those directly in it (`inner`), and its next sibling (`next`); and the first span that is in no
// other (`first`).
#[derive(Drop)]
struct Tree {
    inner: Vec<Option<usize>>,
    next: Vec<Option<usize>>,
    first: Option<usize>,
}

// The place of a span to which the walk over the tree is still to come, and how many rows the span stands in.
#[derive(Clone, Copy)]
struct Ahead {
    span: usize,
    depth: u64,
}

// For each span whether it is worth a row. A call is, and a pruning that ended at a later time than that at which it was opened; so is each span in
// which another one is worth a row. The error is refused memory.
fn kept_spans(alloc: Global, spans: &[Span]) -> Result<Vec<bool>, AllocError> {
    let mut kept = Vec::new(alloc);
    for span in spans {
        kept.push(match span.kind {
            Kind::Call(_) => true,
            Kind::Pruning(_) => ends_later(span),
            Kind::Otherwise(_) => false,
        })?;
    }
    // From the last span to the first: a span comes behind the one that it stands in, so all that is in a span was seen before it.
    for place in (0..spans.len()).rev() {
        if kept.get(place).copied().unwrap_or(false) {
            if let Some(outer) = spans.get(place).and_then(|span| span.outer) {
                if let Some(round) = kept.get_mut(outer) {
                    *round = true;
                }
            }
        }
    }
    Ok(kept)
}

// Whether a span ended at a later time than it began. False if it hasn't ended.
fn ends_later(span: &Span) -> bool {
    match span.end {
        Some((_, at)) => at.time != span.began.time,
        None => false,
    }
}

// Whether a span that is worth a row has one: an otherwise only if its right side began, and any other span.
fn is_row(span: &Span) -> bool {
    match (span.kind, span.end) {
        (Kind::Otherwise(_), Some((End::Resumed, _))) => true,
        (Kind::Otherwise(_), _) => false,
        _ => true,
    }
}

impl Tree {
    // The spans are put in from the last to the first, so that those in one span are in their order. The error is refused memory.
    fn new(alloc: Global, spans: &[Span]) -> Result<Tree, AllocError> {
        let mut tree = Tree {
            inner: Vec::new(alloc),
            next: Vec::new(alloc),
            first: None,
        };
        for _span in spans {
            tree.inner.push(None)?;
            tree.next.push(None)?;
        }
        for place in (0..spans.len()).rev() {
            let outer = spans.get(place).and_then(|span| span.outer);
            // The span that stood first in the same outer span until now comes next behind this one.
            let beside = tree.put_first(outer, place);
            if let Some(next) = tree.next.get_mut(place) {
                *next = beside;
            }
        }
        Ok(tree)
    }

    // Puts a span before all others in its outer span, or before all that are in no other. Gives the one that was the first there, None if it was
    // alone.
    fn put_first(&mut self, outer: Option<usize>, span: usize) -> Option<usize> {
        match outer {
            None => self.first.replace(span),
            Some(outer) => match self.inner.get_mut(outer) {
                Some(inner) => inner.replace(span),
                None => None,
            },
        }
    }

    // The first span directly in this one. None where there is none.
    fn inner(&self, span: usize) -> Option<usize> {
        self.inner.get(span).copied().flatten()
    }

    // The next span directly in the same one, or in none as this one. None behind the last.
    fn next(&self, span: usize) -> Option<usize> {
        self.next.get(span).copied().flatten()
    }
}

impl Rows {
    /// The rows of a story's spans, `MOST_ROWS` at most. A fault is refused memory, or that there are more.
    pub(crate) fn new(alloc: Global, spans: &[Span], texts: &Texts) -> Result<Rows, DrawFault>
        ensures few { IfOk result (λ r. length r.rows.items ≤ MOST_ROWS) }
    {
        let kept = kept_spans(alloc, spans)?;
        let tree = Tree::new(alloc, spans)?;
        let mut rows = Rows {
            rows: Vec::new(alloc),
            of_span: Vec::new(alloc),
        };
        for _span in spans {
            rows.of_span.push(None)?;
        }
        // The spans to which the walk is still to come, the next one on top.
        let mut ahead = Vec::new(alloc);
        if let Some(span) = tree.first {
            ahead.push(Ahead { span, depth: 0 })?;
        }
        rows.walk(&mut ahead, spans, &kept, &tree, texts)?;
        Ok(rows)
    }

    // Adds the rows of the spans that are ahead, of those in them and of those behind them. The next one is on top of `ahead`: what is in a span
    // comes before what is behind it. Each span is ahead once, so there are no more turns than spans. The faults are those of `new`. There are
    // `MOST_ROWS` rows at most, before and afterwards.
    fn walk(
        &mut self,
        ahead: &mut Vec<Ahead>,
        spans: &[Span],
        kept: &[bool],
        tree: &Tree,
        texts: &Texts,
    ) -> Result<(), DrawFault>
        requires few { length self.old.rows.items ≤ MOST_ROWS }
        ensures few { length self.new.rows.items ≤ MOST_ROWS }
    {
        for _span in spans {
            let Some(Ahead { span, depth }) = ahead.pop() else {
                return Ok(());
            };
            if let Some(next) = tree.next(span) {
                ahead.push(Ahead { span: next, depth })?;
            }
            let is_kept = kept.get(span).copied().unwrap_or(false);
            // A span without a row indents nothing: what is in it has the depth that its row would have had.
            let is_shown = is_kept && self.add(spans, span, depth, texts)?;
            if let Some(inner) = tree.inner(span) {
                ahead.push(Ahead {
                    span: inner,
                    depth: depth.saturating_add(is_shown as u64),
                })?;
            }
        }
        Ok(())
    }

    // Adds the row, with this depth, of the span at `place`, which is worth a row, and says whether the span has one (`is_row`). The faults are those
    // of `new`. There are `MOST_ROWS` rows at most, before and afterwards.
    fn add(
        &mut self,
        spans: &[Span],
        place: usize,
        depth: u64,
        texts: &Texts,
    ) -> Result<bool, DrawFault>
        requires few { length self.old.rows.items ≤ MOST_ROWS }
        ensures few { length self.new.rows.items ≤ MOST_ROWS }
    {
        let Some(span) = spans.get(place) else {
            return Ok(false);
        };
        if !is_row(span) {
            return Ok(false);
        }
        if self.rows.len() as u64 >= MOST_ROWS {
            return Err(DrawFault::Rows);
        }
        // The new row comes last, so its place is how many there are before it.
        if let Some(row) = self.of_span.get_mut(place) {
            *row = Some(self.rows.len());
        }
        let label = texts.label(span.kind)?;
        self.rows.push(Row {
            span: place,
            depth,
            label,
        })?;
        Ok(true)
    }

    /// The number of a span's row, from 0 at the top. None if it has no row.
    pub(crate) fn row_of(&self, span: usize) -> Option<usize> {
        self.of_span.get(span).copied().flatten()
    }
}
