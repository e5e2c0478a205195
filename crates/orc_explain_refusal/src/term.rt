//! What is written of each node of a marked term, and of each node of the program that isn't begun yet.
//!
//! A node of the marked term has begun; what a token still has to do, and the right sides of `>x>` and of `;`, are nodes of the program, in a scope
//! that says what their names mean. `wanted` is how tightly a part has to bind to need no brackets. The *way* (`way.rt`) leads from the node that the
//! refused entry names, at place 0, up to the whole. A `Tip` is a node of the marked term without parts; a `Single` has one, and a `Double` two. That
//! term is the one that is running, with its tokens, each by its number, its mark.

use crate::sign::Sign;
use crate::strip::{AHEAD, Note, Side, Strip};
use crate::task::Task;
use orc_report::Fill;
use orc_rules::entry::Entry;
use orc_rules::limits::MOST_ARGUMENTS;
use orc_rules::param::{Operand, Param};
use orc_rules::program::TermNode;
use orc_term::arena::{Double, Kind, Single, Tip};

/// A call, with the nodes of the expressions that the source has as its arguments, by their places from 0; None where it has a literal or a name.
#[derive(Clone, Copy)]
struct Called {
    node: TermNode,
    given: [Option<usize>; MOST_ARGUMENTS],
}

impl<'r, 's> Strip<'r, 's> {
    /// Writes the node at place `at` of the way, from the named node, at 0, upwards. `wanted` is how tightly it has to bind to need no brackets.
    pub(crate) fn way_node(&mut self, at: usize, wanted: usize) {
        if let Some(node) = self.way.node(at) {
            if at == 0 {
                // From here on so many columns are written that all that can be shown is among them.
                let start = self.page.len();
                self.most = start.saturating_add(AHEAD);
                self.push(Task::Underline(start));
            }
            // The part of this node that is on the way is one place lower. The named node has no such part.
            self.parts_of(node, wanted, at.checked_sub(1));
        }
    }

    /// Writes the node with number `at`, which is off the way. A part that has halted, and in which no token stands, is `stop`. `wanted` is how
    /// tightly the node has to bind to need no brackets.
    pub(crate) fn node(&mut self, at: usize, wanted: usize) {
        if self.spent.is_spent(&self.replay.marked, at) {
            self.page.say("stop");
        } else {
            self.parts_of(at, wanted, None);
        }
    }

    // Whether this part of a node is the node at place `below` of the way; false where `below` is None.
    fn is_on_way(&self, part: u32, below: Option<usize>) -> bool {
        match below {
            Some(place) => self.way.node(place) == Some(part as usize),
            None => false,
        }
    }

    // The task for a part of a node, to be written at this level (how tightly it has to bind to need no brackets), and whether the part becomes `..`
    // where it is long: none does where nothing is named (`is_short` is false), nor one on the way. `below` is the place on the way of that node's
    // own part; None for a node off the way, and for the named one, whose parts are off the way.
    fn part(&self, part: u32, level: usize, below: Option<usize>) -> Side {
        match below {
            Some(place) if self.is_on_way(part, below) => Side {
                task: Task::Way(place, level),
                may_shorten: false,
            },
            _ => Side {
                task: Task::Node(part as usize, level),
                may_shorten: self.way.is_short(),
            },
        }
    }

    // Puts the tasks for the parts of the node with number `at` on the stack, or writes the node if it has none. `wanted` is how tightly the node has
    // to bind to need no brackets. `below` is the place on the way of that node's own part; None for a node off the way, and for the named one.
    fn parts_of(&mut self, at: usize, wanted: usize, below: Option<usize>) {
        let kind = match self.replay.marked.nodes().get(at) {
            Some(slot) => slot.node().kind,
            None => Kind::Leaf(Tip::Gone),
        };
        // The sign between the parts, the parts' numbers, and the scope of a right part that hasn't begun: that one is a node of the program.
        let (sign, left, right, scope) = match kind {
            Kind::Leaf(tip) => return self.tip(tip, wanted),
            // Such a node is written as its part alone.
            Kind::One(Single::Passed, part) => return self.push(
                self.part(part, wanted, below).task,
            ),
            // A side of a `|` that is spent isn't written, and neither is the `|`.
            Kind::Two(Double::Both, left, right) if self.is_left_out(left, below) => {
                return self.push(self.part(right, wanted, below).task);
            }
            Kind::Two(Double::Both, left, right) if self.is_left_out(right, below) => {
                return self.push(self.part(left, wanted, below).task);
            }
            Kind::Two(Double::Both, left, right) => (Sign::Par, left, right, None),
            Kind::Two(Double::Side(cell), left, right) => (Sign::Opened(cell), left, right, None),
            Kind::One(Single::Feeds(name, right, scope), left) => {
                (Sign::Seq(name), left, right, Some(scope))
            }
            Kind::One(Single::Entered(_, right, scope), left) => {
                (Sign::Other, left, right, Some(scope))
            }
        };
        let levels = sign.levels();
        let left = self.part(left, levels.left, below);
        let right = match scope {
            Some(scope) => Side {
                task: Task::Source(right as usize, scope as usize, levels.right),
                may_shorten: self.way.is_short(),
            },
            None => self.part(right, levels.right, below),
        };
        self.push_joined(sign, wanted, left, right);
    }

    // Whether `part`, a side of a `|`, is left out: it has halted, no token stands in it, and it isn't on the way.
    fn is_left_out(&self, part: u32, below: Option<usize>) -> bool {
        !self.is_on_way(part, below) && self.spent.is_spent(&self.replay.marked, part as usize)
    }

    // Writes a node of the marked term without parts, or puts the task for it on the stack. The number of a token's mark is noted for the line below.
    // `wanted` is how tightly the node has to bind to need no brackets.
    fn tip(&mut self, tip: Tip, wanted: usize) {
        if let Tip::Token(mark, _, _) | Tip::Bears(mark, _) = tip {
            let column = self.page.len();
            if self.notes.push(Note { column, mark }).is_err() {
                // Memory was refused, so the page isn't given out.
                self.page.refuse();
            }
        }
        match tip {
            Tip::Gone | Tip::Ended => self.page.say("stop"),
            // What the token still has to do: the node of the program on which it stands.
            Tip::Token(_, node, scope) => {
                self.push(Task::Source(node as usize, scope as usize, wanted));
            }
            Tip::Bears(_, value) => self.page.value(value),
            // A pending call, as `?1:Fast(7)`.
            Tip::Waits(call) => {
                self.page.tell("?%:", &[Fill::Number(call)]);
                if let Some(Entry::Call(_, _, site, args)) = self.replay.call(self.journal, call) {
                    self.page.word(self.names.site(site));
                    self.page.values(args.as_slice());
                }
            }
        }
    }

    /// Writes a node of the program in a scope, or puts the tasks for its parts on the stack. `wanted` is how tightly the node has to bind to need no
    /// brackets.
    pub(crate) fn source(&mut self, node: usize, scope: usize, wanted: usize) {
        if let Some(called) = self.called(node) {
            self.call(called, scope);
            return;
        }
        let (sign, left, right) = match self.program.node(node) {
            TermNode::Par(left, right) => (Sign::Par, left, right),
            TermNode::Seq(left, name, right) => (Sign::Seq(name), left, right),
            TermNode::Prune(left, name, right) => (Sign::Prune(name), left, right),
            TermNode::Other(left, right) => (Sign::Other, left, right),
            TermNode::Operand(operand) => return self.operand(operand, scope),
            // `called` took the calls.
            TermNode::Stop | TermNode::Site(_, _) | TermNode::Call(_, _) => {
                return self.page.say("stop");
            }
        };
        let levels = sign.levels();
        let left = Side {
            task: Task::Source(left, scope, levels.left),
            may_shorten: false,
        };
        let right = Side {
            task: Task::Source(right, scope, levels.right),
            may_shorten: false,
        };
        self.push_joined(sign, wanted, left, right);
    }

    // The call that a node was in the source. The scope check writes a call with expressions as arguments, as `f(g, h)`, as `f(x, y) <x< g <y< h`,
    // where x and y are variables that the check has made. The first argument's pruning is the innermost, so the places fall from the outside in, and
    // `room` is the last one that was found. None where the node is no call, with or without such prunings.
    fn called(&self, node: usize) -> Option<Called> {
        let mut given = [None; MOST_ARGUMENTS];
        let mut at = node;
        let mut room = MOST_ARGUMENTS;
        // One turn for each pruning, and one for the call.
        for _pruning in 0..=MOST_ARGUMENTS {
            match self.program.node(at) {
                TermNode::Prune(inner, name, value) => {
                    let place = self.names.argument(name)?;
                    if place >= room {
                        return None;
                    }
                    *given.get_mut(place)? = Some(value);
                    room = place;
                    at = inner;
                }
                call @ (TermNode::Site(_, list) | TermNode::Call(_, list)) => {
                    let operands = self.program.operands(list);
                    for (place, value) in given.iter().enumerate() {
                        // The place of the argument whose variable stands here: where an expression was given it has to be this place.
                        let own = match operands.get(place) {
                            Some(Operand::Name(name)) => self.names.argument(*name),
                            _ => None,
                        };
                        if value.is_some() && own != Some(place) {
                            return None;
                        }
                    }
                    return Some(Called { node: call, given });
                }
                _ => return None,
            }
        }
        None
    }

    // Writes the name of a call and its `(`, and puts the tasks for its arguments and the `)` on the stack, what is written last first. `scope` says
    // what names mean in the arguments.
    fn call(&mut self, called: Called, scope: usize) {
        let (name, list) = match called.node {
            TermNode::Site(site, list) => (self.names.site(site), list),
            TermNode::Call(definition, list) => (self.names.definition(definition), list),
            // `called` gives no other node.
            _ => return,
        };
        self.page.word(name);
        self.page.say("(");
        self.push(Task::Say(")"));
        let operands = self.program.operands(list);
        for (place, operand) in operands.iter().enumerate().rev() {
            // An expression that the source has as this argument, which needs no brackets (level 0), or else the literal or name that the call has.
            self.push(match called.given.get(place).copied().flatten() {
                Some(node) => Task::Source(node, scope, 0),
                None => Task::Operand(*operand, scope),
            });
            if place > 0 {
                self.push(Task::Say(", "));
            }
        }
    }

    /// Writes what an argument means in a scope: a value, a cell, or void (a variable that will never get a value); or a variable, where the term
    /// itself binds it.
    pub(crate) fn operand(&mut self, operand: Operand, scope: usize) {
        match operand {
            Operand::Name(name) if self.bound.contains(&name) => {
                self.names.say_variable(&mut self.page, name);
            }
            // A literal, or a name of which the scope says what it means.
            _ => match self.replay.marked.param(operand, scope) {
                Param::Is(value) => self.page.value(value),
                Param::Cell(cell) => self.names.say_cell(&mut self.page, cell),
                Param::Void => self.page.say("void"),
                Param::Name(name) => self.names.say_variable(&mut self.page, name),
            },
        }
    }
}
