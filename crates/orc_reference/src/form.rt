//! The form of a marked term as one number: terms that differ in marks and in the numbers of calls and cells alone have the same one. A *marked term*
//! is what is left of the program's term after the first entries of a journal; a mark is the number of a token, and a cell the variable of an opened
//! `<x<`.
//!
//! It is a sum over the parts of the term, each a hash of what the part is and of its place. A *place* is a hash of the way from the root to the
//! part. Each kind of thing mixes in a small number of its own, 0 to 26: what they are doesn't matter as long as no two kinds have one where they
//! could be mixed up. Nothing is promised of a form. Two terms may have the same number by chance, and then a search takes one for the other. `node`
//! is a node of the program, `scope` the number of the scope in which its names mean something (`orc_term::arena`).

use orc_checker::Marked;
use orc_rules::param::{Operand, Param};
use orc_rules::program::{Program, TermNode};
use orc_rules::value::{Answer, Found, Value};
use orc_term::arena::{Double, Kind, Single, Tip};
use std::alloc::{AllocError, Global};
use std::collections::HashMap;

/// The hash `seed` with a word mixed in: words that are mixed in one after another give numbers that differ for nearly all lists of words.
pub(crate) fn mix(seed: u64, word: u64) -> u64 {
    // The odd constant is 2^64 over the golden ratio, which spreads its factor over all bits. It is added first, so that 0 doesn't become 0.
    (seed ^ word)
        .wrapping_add(0x9E37_79B9_7F4A_7C15)
        .wrapping_mul(0x9E37_79B9_7F4A_7C15)
        .rotate_left(29)
}

// Spreads each bit over all others, so that sums of such numbers are seldom equal. Only 0 becomes 0. The odd constant is one that is known to mix
// well.
fn spread(word: u64) -> u64 {
    let once = (word ^ (word >> 32)).wrapping_mul(0xD6E8_FEB8_6659_FD93);
    let twice = (once ^ (once >> 32)).wrapping_mul(0xD6E8_FEB8_6659_FD93);
    twice ^ (twice >> 32)
}

/// A hash with a value mixed in.
pub(crate) fn mix_value(seed: u64, value: Value) -> u64 {
    match value {
        Value::Number(number) => mix(
            mix(seed, if number < 0 { 1 } else { 0 }),
            number.unsigned_abs(),
        ),
        Value::Truth(truth) => mix(seed, if truth { 2 } else { 3 }),
        Value::Signal => mix(seed, 4),
    }
}

// A hash with what a call is answered mixed in, and the time that is left until then, of a call that was made at the time `at`. When it was made
// doesn't matter beyond that.
fn mix_found(seed: u64, found: Found, at: u64, now: u64) -> u64 {
    match found {
        Found::Never => mix(seed, 5),
        Found::After(answer, delay) => {
            let left = at.saturating_add(delay).saturating_sub(now);
            match answer {
                Answer::Halt => mix(mix(seed, 6), left),
                Answer::Value(value) => mix(mix_value(mix(seed, 7), value), left),
            }
        }
    }
}

/// A walk through a marked term that takes its form.
pub(crate) struct Forms<'p> {
    pub alloc: Global,
    pub program: &'p Program,
    /// For each cell whose opened pruning the walk has reached, the place of that pruning. A form names a cell by this place, and not by its number.
    cells: HashMap<u64, u64>,
}

// Written out, so that a caller's proof sees one call and not the drop of each field.
impl Drop for Forms<'_> {
    fn drop(self) {
        let Forms {
            alloc: _,
            program: _,
            cells: _,
        } = self;
    }
}

impl Forms<'_> {
    /// A walk through one marked term of this program that hasn't begun. Each form is taken with a new one, since it keeps the cells that it came to.
    pub(crate) fn new(alloc: Global, program: &Program) -> Forms<'_> {
        Forms {
            alloc,
            program,
            cells: HashMap::new(alloc),
        }
    }

    // A hash with an operand mixed in, as the scope of this number has it: a value, void (a cell that is lost), a name that isn't bound yet, or a
    // cell by its place.
    fn mix_operand(&self, seed: u64, marked: &Marked, operand: Operand, scope: u32) -> u64 {
        match marked.param(operand, scope as usize) {
            Param::Is(value) => mix_value(mix(seed, 8), value),
            Param::Void => mix(seed, 9),
            Param::Name(name) => mix(mix(seed, 10), name as u64),
            Param::Cell(cell) => {
                // The walk has come to its pruning, which encloses the place where it is named, so a place is found.
                let place = self.cells.get(&cell).copied().unwrap_or(0);
                mix(mix(seed, 11), place)
            }
        }
    }

    // A hash with the operands of a call mixed in, by the number of their list in the program. `scope` is the number of the scope in which their
    // names mean something.
    fn mix_call(&self, seed: u64, marked: &Marked, list: usize, scope: u32) -> u64 {
        let mut mixed = seed;
        for operand in self.program.operands(list) {
            mixed = self.mix_operand(mixed, marked, *operand, scope);
        }
        mixed
    }

    // A hash with a node of the program mixed in, and all nodes below it, whose names mean what they do in the scope of this number. The error is
    // refused memory.
    fn mix_node(
        &self,
        seed: u64,
        marked: &Marked,
        node: u32,
        scope: u32,
    ) -> Result<u64, AllocError> {
        // A stack of the nodes that are still to come, in place of a recursion; the bound only shows that the loop ends. The left node is put in
        // last, so it comes first.
        let mut mixed = seed;
        let mut todo = Vec::new(self.alloc);
        todo.push(node as usize)?;
        for _ in 0..u64::MAX {
            let Some(node) = todo.pop() else {
                break;
            };
            match self.program.node(node) {
                TermNode::Stop => mixed = mix(mixed, 12),
                TermNode::Operand(operand) => {
                    mixed = self.mix_operand(mixed, marked, operand, scope);
                }
                TermNode::Site(site, list) => {
                    mixed = self.mix_call(mix(mix(mixed, 13), site as u64), marked, list, scope);
                }
                TermNode::Call(definition, list) => {
                    mixed = self.mix_call(
                        mix(mix(mixed, 14), definition as u64),
                        marked,
                        list,
                        scope,
                    );
                }
                TermNode::Par(left, right) => {
                    mixed = mix(mixed, 15);
                    todo.push(right)?;
                    todo.push(left)?;
                }
                TermNode::Seq(left, name, right) => {
                    mixed = mix(mix(mixed, 16), name as u64);
                    todo.push(right)?;
                    todo.push(left)?;
                }
                TermNode::Prune(left, name, right) => {
                    mixed = mix(mix(mixed, 17), name as u64);
                    todo.push(right)?;
                    todo.push(left)?;
                }
                TermNode::Other(left, right) => {
                    mixed = mix(mixed, 18);
                    todo.push(right)?;
                    todo.push(left)?;
                }
            }
        }
        Ok(mixed)
    }

    // The hash of a part without parts, 0 for one that has ended. `place` is a hash of the way from the root of the term to the part. `calls` has a
    // hash of what was called for each call, call 1 first. The error is refused memory.
    fn tip(&self, place: u64, marked: &Marked, calls: &[u64], tip: Tip) -> Result<u64, AllocError> {
        match tip {
            // A part that has ended leaves the sum as it is.
            Tip::Gone | Tip::Ended => Ok(0),
            Tip::Token(_, node, scope) => self.mix_node(place, marked, node, scope),
            // As a token on a node with this value (`mix_operand`): both publish it next.
            Tip::Bears(_, value) => Ok(mix_value(mix(place, 8), value)),
            Tip::Waits(call) => {
                let number = call.saturating_sub(1) as usize;
                let made = calls.get(number).copied().unwrap_or(0);
                let seed = mix(mix(place, 19), made);
                match marked.calls().get(number) {
                    Some(kept) => {
                        let called = kept.called();
                        Ok(mix_found(seed, called.found, called.at, marked.now()))
                    }
                    // A call that waits was made, so there is one.
                    None => Ok(seed),
                }
            }
        }
    }

    /// The form of a marked term. `calls` has a hash of the site and the arguments of each call that was made, in the order of the calls. The error
    /// is refused memory.
    pub(crate) fn of(&mut self, marked: &Marked, calls: &[u64]) -> Result<u64, AllocError> {
        let mut form = 0_u64;
        let mut todo = Vec::new(self.alloc);
        todo.push((0_u32, 1_u64))?;
        // A stack of the term's nodes that are still to come, each with its place; node 0 is above
        // them all, and its place is 1. The bound only shows that the loop ends.
        for _ in 0..u64::MAX {
            let Some((at, place)) = todo.pop() else {
                break;
            };
            // Never None: each part of the term is a node, so none is left out.
            let Some(slot) = marked.nodes().get(at as usize) else {
                continue;
            };
            match slot.node().kind {
                Kind::Leaf(tip) => {
                    let tip = self.tip(place, marked, calls, tip)?;
                    form = form.wrapping_add(spread(tip));
                }
                // A node that means just its part has the part's form: an otherwise that has published, or a pruning whose cell is settled.
                Kind::One(Single::Passed, part) => todo.push((part, place))?,
                // The left side of a `>x>` runs. Its right side, a node of the program, is mixed into the left side's place.
                Kind::One(Single::Feeds(name, node, scope), part) => {
                    let seed = mix(mix(place, 20), name as u64);
                    todo.push((part, self.mix_node(seed, marked, node, scope)?))?;
                }
                Kind::One(Single::Entered(_, node, scope), part) => {
                    // The left side of an otherwise runs. The otherwise counts itself, and not only its left side, which may have ended.
                    let seed = self.mix_node(mix(place, 21), marked, node, scope)?;
                    form = form.wrapping_add(spread(seed));
                    todo.push((part, seed))?;
                }
                // The sides of a `|`, each with a place of its own.
                Kind::Two(Double::Both, left, right) => {
                    todo.push((left, mix(place, 22)))?;
                    todo.push((right, mix(place, 23)))?;
                }
                Kind::Two(Double::Side(cell), left, right) => {
                    // An opened pruning. Its cell is noted before the left side is walked through, which alone names the cell. The pruning counts
                    // itself, since its parts may have ended.
                    self.cells.insert(cell, place)?;
                    form = form.wrapping_add(spread(mix(place, 26)));
                    todo.push((left, mix(place, 24)))?;
                    todo.push((right, mix(place, 25)))?;
                }
            }
        }
        Ok(form)
    }
}
