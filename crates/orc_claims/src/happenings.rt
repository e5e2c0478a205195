//! The happenings of a journal: what those outside see of it. An entry of a journal is a step of the run, or lets time pass (`tick`). A `Phase` is
//! what became of a call.

ghost use Rattle.std.specs.Prelude.{◌≡◌, OnOk, OnErr};
ghost use Rattle.orc_claims.specs.Happenings.{Told, becomes, begin, calls, made_as, publishes, told};

use crate::happening::{Happening, Occurrence, Phase};
use orc_rules::entry::Entry;
use orc_rules::value::{Args, Value};
use std::alloc::{AllocError, Global};
use std::marker::Model;

/// A call that was made.
#[derive(Drop)]
pub struct Made {
    /// The number that the journal's entries have for its site.
    pub site: u32,
    pub args: Args,
}

/// The happenings of a journal, read entry by entry. An entry takes the same time however long the journal is. A call takes some 900 bytes: its
/// arguments are kept with the call and with each of its happenings.
#[derive(Drop)]
pub struct Happenings {
    // The time now.
    time: u64,
    // All calls so far. The journal numbers them from 1 on, so call k is at the place k - 1.
    made: Vec<Made>,
    // What happened so far, in the order of the entries.
    happened: Vec<Happening>,
}

// In contracts a `Happenings` is the record of its fields.
impl Model for Happenings {
    ghost Value = { Told };

    ghost view = { λ h. record { time = h.time; made = h.made.items; happened = h.happened.items } };
}

impl Happenings {
    /// The happenings before any entry was read: none, at time 0.
    pub fn new(alloc: Global) -> Happenings
        ensures { result ≡ begin }
    {
        Happenings {
            time: 0,
            made: Vec::new(alloc),
            happened: Vec::new(alloc),
        }
    }

    /// What happened so far, in the order of the journal's entries.
    pub fn as_slice(&self) -> &[Happening]
        ensures { result.now ≡ self.now.happened }
    {
        self.happened.as_slice()
    }

    /// The time to which the entries that were read have come, in units of logical time.
    pub fn time(&self) -> u64
        ensures { result ≡ self.now.time }
    {
        self.time
    }

    // Adds a happening: what became of the call of number `call`, from 1. Nothing is added if there is no such call; no accepted journal names one.
    // The error is refused memory, and then nothing changes.
    fn become_of(&mut self, call: u64, phase: Phase) -> Result<(), AllocError>
        ensures told { OnOk result (self.new ≡ becomes self.old (made_as call self.old.made) phase) }
        ensures refused { OnErr result (self.new ≡ self.old) }
    {
        // Call k is at the place k - 1.
        let Some(place) = call.checked_sub(1) else {
            return Ok(());
        };
        // The call's site and arguments, which the happening has, too.
        let Some(made) = self.made.get(place as usize) else {
            return Ok(());
        };
        self.happened.push(Happening {
            time: self.time,
            what: Occurrence::Call(made.site, made.args.copied(), phase),
        })?;
        Ok(())
    }

    // Adds the happening that a call of the site of number `site` is made. The call gets the next number. The error is refused memory, and then
    // nothing changes.
    fn make(&mut self, site: u32, args: &Args) -> Result<(), AllocError>
        ensures told { OnOk result (self.new ≡ calls self.old site args.now) }
        ensures refused { OnErr result (self.new ≡ self.old) }
    {
        // Room for the call comes first: once the happening is added nothing fails.
        self.made.try_reserve(1)?;
        self.happened.push(Happening {
            time: self.time,
            what: Occurrence::Call(site, args.copied(), Phase::Called),
        })?;
        self.made.push_reserved(Made {
            site,
            args: args.copied(),
        });
        Ok(())
    }

    // Adds the happening that a value is published. The error is refused memory, and then nothing changes.
    fn publish(&mut self, value: Value) -> Result<(), AllocError>
        ensures told { OnOk result (self.new ≡ publishes self.old value) }
        ensures refused { OnErr result (self.new ≡ self.old) }
    {
        self.happened.push(Happening {
            time: self.time,
            what: Occurrence::Published(value),
        })?;
        Ok(())
    }

    /// Reads the journal's next entry. The error is refused memory, and then nothing changes.
    pub fn read(&mut self, entry: &Entry) -> Result<(), AllocError>
        ensures told { OnOk result (self.new ≡ told self.old entry.now) }
        ensures refused { OnErr result (self.new ≡ self.old) }
    {
        match entry {
            Entry::Call(_, _, site, args) => self.make(*site, args),
            Entry::Return(call, _, value) => self.become_of(*call, Phase::Answered(*value)),
            Entry::ReturnHalt(call) => self.become_of(*call, Phase::Halted),
            Entry::Cancel(call) => self.become_of(*call, Phase::Cancelled),
            Entry::Publish(_, value) => self.publish(*value),
            Entry::Tick(time) => {
                self.time = *time;
                Ok(())
            }
            // All other entries only move the tokens of the run or settle the cells of its prunings, which nobody outside sees.
            _ => Ok(()),
        }
    }
}
