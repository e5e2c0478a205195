//! Where each entry stands from left to right: its time, and its slot among the entries of that time. A `Moment` is an entry with its time, and an
//! `Event` is an entry of which a picture shows something: that a call begins, that a span (a call, a pruning or an otherwise) ends, a publication or
//! a cancel (a call is dropped).
//!
//! There is an instant for time 0, for each time with an entry that is drawn, and for the last time of the run.

use crate::rows::Rows;
use crate::slot::{Instant, Slot};
use crate::story::{Event, Moment, Shown};
use std::alloc::{AllocError, Global};

/// The instants (the times that the picture shows) in order, and the slots in the order of their entries.
#[derive(Drop)]
pub(crate) struct Slots {
    pub instants: Vec<Instant>,
    pub slots: Vec<Slot>,
}

impl Slots {
    /// The instants and slots of a story's events, from time 0 to its last time, `now`. Events of spans without a row have none. The error is refused
    /// memory.
    pub(crate) fn new(
        alloc: Global,
        events: &[Event],
        rows: &Rows,
        now: u64,
    ) -> Result<Slots, AllocError> {
        let mut slots = Slots {
            instants: Vec::new(alloc),
            slots: Vec::new(alloc),
        };
        slots.reach(0)?;
        for event in events {
            let is_shown = match event.shown {
                Shown::Span(span) => rows.row_of(span).is_some(),
                // A publication or a cancel.
                _ => true,
            };
            if is_shown {
                slots.reach(event.at.time)?;
                slots.add(event)?;
            }
        }
        slots.reach(now)?;
        Ok(slots)
    }

    // Makes an instant of this time the last one, unless it is that already. Times come in ascending order.
    fn reach(&mut self, time: u64) -> Result<(), AllocError> {
        if self.instants.last().map(|last| last.time) != Some(time) {
            self.instants.push(Instant { time, slots: 0 })?;
        }
        Ok(())
    }

    // Adds the slot of an event to the last instant. A cancel shares the slot of the entry that was drawn before it at its time, mostly of its bind;
    // it has a new one only where nothing was.
    fn add(&mut self, event: &Event) -> Result<(), AllocError> {
        let is_cancel = matches!(event.shown, Shown::Cancel);
        // The place of the last instant, from 0.
        let instant = self.instants.len().saturating_sub(1);
        let Some(last) = self.instants.last_mut() else {
            return Ok(());
        };
        if !is_cancel || last.slots == 0 {
            last.slots = last.slots.saturating_add(1);
        }
        let place = last.slots.saturating_sub(1);
        self.slots.push(Slot {
            entry: event.at.entry,
            instant,
            place,
        })?;
        Ok(())
    }

    /// The slot of a moment's entry; if that isn't drawn, of the last one before it at its time; if there is none, the first slot of that time.
    pub(crate) fn slot(&self, at: Moment) -> Slot {
        // How many slots are of this entry or of an earlier one.
        let behind = self.slots.partition_point(|slot| slot.entry <= at.entry);
        if let Some(slot) = behind.checked_sub(1).and_then(|last| self.slots.get(last)) {
            let time = self
                .instants
                .get(slot.instant)
                .map_or(0, |instant| instant.time);
            if time == at.time {
                return *slot;
            }
        }
        // No entry up to this one is drawn at its time: the instant of the time, or the last one before it if the time has none.
        let later = self
            .instants
            .partition_point(|instant| instant.time <= at.time);
        Slot {
            entry: at.entry,
            instant: later.saturating_sub(1),
            place: 0,
        }
    }

    /// How many slots wide all bands are together: an instant without slots counts as one.
    pub(crate) fn total(&self) -> u64 {
        let mut total: u64 = 0;
        for instant in &self.instants {
            total = total.saturating_add(instant.width());
        }
        total
    }
}
