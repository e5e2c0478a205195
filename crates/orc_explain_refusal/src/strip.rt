//! A term in one line, with what stands under it.
//!
//! A strip is written from left to right, by tasks on a stack (`task.rt`), so that a deep term needs no recursion and a long one stops early. Off the
//! way to what the entry names, a part that takes too many columns is taken back and becomes `..`. A mark is the number of a token in the term.

use crate::names::Names;
use crate::replay::Replay;
use crate::sign::Sign;
use crate::spent::Spent;
use crate::task::Task;
use crate::way::Way;
use orc_journal::Journal;
use orc_report::Page;
use orc_rules::program::Program;
use std::alloc::Global;

/// A part off the way to what is named becomes `..` if it takes more columns than this, so that what is named stays in sight.
const LONGEST_PART: usize = 28;

/// How many columns are written behind the beginning of what is named, or from the beginning of the term where nothing is: more than the 76 that are
/// ever shown (`Window`).
pub(crate) const AHEAD: usize = 300;

/// A mark's number, and the column, from 0, of the term below which it is written.
#[derive(Clone, Copy)]
pub(crate) struct Note {
    pub column: usize,
    pub mark: u64,
}

/// A part that is being written, and that becomes `..` if it is long: its first column, from 0, how many nodes of the program were visited in it
/// (`seen`), and whether it is in a part that is long already.
#[derive(Clone, Copy)]
struct Part {
    start: usize,
    seen: usize,
    is_long: bool,
}

/// Where what is named stands in the line: from column `start`, from 0, on and before column `end`.
#[derive(Clone, Copy)]
pub(crate) struct Stretch {
    pub start: usize,
    pub end: usize,
}

/// A term that is written from its left to its right, as far as it is shown.
pub(crate) struct Strip<'r, 's> {
    /// The program that was run.
    pub program: &'r Program,
    /// The run up to the refused entry, with the term before that entry.
    pub replay: &'r Replay,
    /// The refused journal, from which the entries of calls are read.
    pub journal: &'r Journal,
    /// The names of variables, definitions, sites and cells.
    pub names: &'r Names<'r, 's>,
    /// The way from what the refused entry names up to the whole.
    pub way: &'r Way,
    /// Which parts are written as `stop`, or left out beside a `|`.
    pub spent: &'r Spent,
    /// The term, as far as it is written.
    pub page: Page,
    /// The marks in it, from left to right.
    pub notes: Vec<Note>,
    /// Where what the refused entry names is. None until that is written.
    pub named: Option<Stretch>,
    /// Whether the term goes on behind what was written.
    pub is_cut: bool,
    /// The numbers of the variables that signs of the term bind in the part that is being written.
    pub bound: Vec<u32>,
    /// How many columns are written at most. The writing stops once there are more.
    pub most: usize,
    // What is still to be written, the next task last.
    tasks: Vec<Task>,
    // The parts that have begun, the innermost last.
    parts: Vec<Part>,
}

// Written out, so that a caller's proof sees one call and not the drop of each field.
impl Drop for Strip<'_, '_> {
    fn drop(self) {
        let Strip {
            program: _,
            replay: _,
            journal: _,
            names: _,
            way: _,
            spent: _,
            page: _,
            notes: _,
            named: _,
            is_cut: _,
            bound: _,
            tasks: _,
            parts: _,
            most: _,
        } = self;
    }
}

impl<'r, 's> Strip<'r, 's> {
    /// Writes the term to which `replay` was brought, the one before the refused entry. `way` leads up from what that entry names. Where memory is
    /// refused, the strip's page says so.
    pub(crate) fn new(
        alloc: Global,
        program: &'r Program,
        replay: &'r Replay,
        journal: &'r Journal,
        names: &'r Names<'r, 's>,
        way: &'r Way,
        spent: &'r Spent,
    ) -> Strip<'r, 's> {
        let mut strip = Strip {
            program,
            replay,
            journal,
            names,
            way,
            spent,
            page: Page::new(alloc),
            notes: Vec::new(alloc),
            named: None,
            is_cut: false,
            bound: Vec::new(alloc),
            tasks: Vec::new(alloc),
            parts: Vec::new(alloc),
            most: AHEAD,
        };
        match way.top() {
            Some(top) => {
                // Before the named part there is no limit, since the parts there are cut short; `way_node` sets the limit once the named part begins.
                strip.most = usize::MAX;
                strip.push(Task::Way(top, 0));
            }
            // Nothing is named, so the term is written from its top, node 0, on. At level 0 a part needs no brackets.
            None => strip.push(Task::Node(0, 0)),
        }
        strip.write();
        strip
    }

    // Does the tasks until none is left, enough columns (`most`) are written or memory is refused. The loop has more turns than there are tasks.
    fn write(&mut self) {
        for _task in 0..u64::MAX {
            if self.page.len() > self.most {
                self.is_cut = true;
                return;
            }
            match self.tasks.pop() {
                Some(task) if !self.page.is_refused() => self.act(task),
                _ => return,
            }
        }
    }

    // Does one task: writes a part and puts tasks for its own parts on the stack. Of a part that is long nothing more is written; but its ends and
    // the names that it binds are followed, so that the stacks stay in step.
    fn act(&mut self, task: Task) {
        let is_long = self.is_long();
        match task {
            Task::Open => {
                let part = Part {
                    start: self.page.len(),
                    seen: 0,
                    is_long,
                };
                if self.parts.push(part).is_err() {
                    // Memory was refused, so the page isn't given out.
                    self.page.refuse();
                }
            }
            Task::Close => self.close(is_long),
            Task::Bind(name) => {
                // From here on this name is written as a variable.
                if self.bound.push(name).is_err() {
                    self.page.refuse();
                }
            }
            Task::Unbind => {
                let _name = self.bound.pop();
            }
            // Nothing more is written of a long part.
            _ if is_long => {}
            Task::Node(at, level) => self.node(at, level),
            Task::Way(at, level) => self.way_node(at, level),
            Task::Source(node, scope, level) => {
                // The node counts in the innermost part, since it takes a column at least.
                if let Some(part) = self.parts.last_mut() {
                    part.seen = part.seen.saturating_add(1);
                }
                self.source(node, scope, level);
            }
            Task::Operand(operand, scope) => self.operand(operand, scope),
            Task::Sign(sign) => self.names.say_sign(&mut self.page, sign),
            Task::Say(text) => self.page.say(text),
            Task::Underline(start) => {
                let end = self.page.len();
                self.named = Some(Stretch { start, end });
            }
        }
    }

    /// Puts a task on the stack: it is done next, unless others are put on it. Where memory is refused, the page isn't given out.
    pub(crate) fn push(&mut self, task: Task) {
        if self.tasks.push(task).is_err() {
            self.page.refuse();
        }
    }

    // Ends the innermost part. If it has become long (`is_long`), what was written of it is taken back, with the notes in it, and `..` is written.
    fn close(&mut self, is_long: bool) {
        // Each `Close` has its `Open`, so a part is there.
        let Some(part) = self.parts.pop() else {
            return;
        };
        if !is_long {
            return;
        }
        self.page.truncate(part.start);
        // Notes stand from left to right, so those in the part are the last ones.
        for _note in 0..self.notes.len() {
            match self.notes.last() {
                Some(note) if note.column >= part.start => {
                    let _note = self.notes.pop();
                }
                _ => break,
            }
        }
        self.page.say("..");
    }

    // Whether the part that is being written is long. Each node of the program takes a column at least, so enough of them make it long before they
    // are written.
    fn is_long(&self) -> bool {
        match self.parts.last() {
            Some(part) => {
                part.is_long
                    || part.seen > LONGEST_PART
                    || self.page.len().saturating_sub(part.start) > LONGEST_PART
            }
            None => false,
        }
    }

    /// Puts the tasks of an operation on the stack, what is written last first. Brackets stand around it if its sign binds less tightly than
    /// `wanted`, the level that is needed at its place.
    pub(crate) fn push_joined(&mut self, sign: Sign, wanted: usize, left: Side, right: Side) {
        let levels = sign.levels();
        // Whether the operation needs brackets.
        let is_inner = levels.own < wanted;
        if is_inner {
            self.push(Task::Say(")"));
        }
        self.push_side(right, levels.bound_right);
        self.push(Task::Sign(sign));
        self.push_side(left, levels.bound_left);
        if is_inner {
            self.push(Task::Say("("));
        }
    }

    // Puts the tasks of a side on the stack, what is written last first. If a name is given, the operation's sign binds this variable in this side.
    fn push_side(&mut self, side: Side, name: Option<u32>) {
        if side.may_shorten {
            self.push(Task::Close);
        }
        match name {
            Some(name) => {
                self.push(Task::Unbind);
                self.push(side.task);
                self.push(Task::Bind(name));
            }
            None => self.push(side.task),
        }
        if side.may_shorten {
            self.push(Task::Open);
        }
    }
}

/// A side of an operation: what writes it, and whether it becomes `..` where it is long (`may_shorten`).
#[derive(Clone, Copy)]
pub(crate) struct Side {
    pub task: Task,
    pub may_shorten: bool,
}
