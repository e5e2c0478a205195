//! Worked terms of a search through every schedule (`orc_search`). A term is a number there, and equal terms have equal numbers; so a test makes two
//! terms that have to be the same, and compares numbers. Names are numbers, too: 5 and 6 here. A *cell* is the variable of an opened `<x<`; it is
//! void once nothing can bind it any more. Errors are refused memory, or a mistake in a row, such as a place that no term is at.

use orc_rules::answers::Answers;
use orc_rules::param::{Operand, Operands, Param};
use orc_rules::program::{Program, TermNode, Terms as Nodes};
use orc_rules::value::{Answer, Found, Value};
use orc_search::change::{Change, changed};
use orc_search::moves::{Source, successors};
use orc_search::node::{Joint, Node, Tip, Waiting};
use orc_search::source::numbered;
use orc_search::successor::{Frame, Happening, Successor, lifted};
use orc_search::terms::Terms;
use std::alloc::{AllocError, Global};
use std::test::Fail;

// The only value of these tests: calls give it, it is published, and it is put for names.
const ONE: Value = Value::Number(1);

// How to make a term, perhaps from terms that were made before it, which are named by their places in the row. Site 7 is the first that isn't built
// in.
#[derive(Clone, Copy)]
enum Make {
    // `stop`.
    Nothing,
    // A parameter, which is published.
    Gives(Param),
    // A call of site 7 with these two parameters.
    Asks(Param, Param),
    // A pending call of site 7 without arguments, which gives 1 after this time.
    Awaits(u64),
    // The two terms at these places, the left and the right one, joined so.
    Pair(Joint, usize, usize),
    // What the term at this place becomes by this change.
    Changed(Change, usize),
    // What `f >5> g` becomes if f publishes 1: the places of g and of what f becomes.
    Fed(usize, usize),
}

// The number of a call of site 7 with these two parameters, that isn't made yet.
fn call(terms: &mut Terms, alloc: Global, p: Param, q: Param) -> Result<usize, AllocError> {
    let params = vec![in alloc; p, q]?;
    terms.number_of(Node::Tip(Tip::Asks(7, params)))
}

// The number of the term that joins the terms with the numbers f and g so.
fn pair(terms: &mut Terms, joint: Joint, f: usize, g: usize) -> Result<usize, AllocError> {
    if f >= terms.len() || g >= terms.len() {
        return Err(AllocError);
    }
    terms.number_of(Node::Pair(joint, f, g))
}

// The number of what the whole term becomes if the part in this frame (the left side of a `>x>` or a `;`) publishes 1 and becomes the term with the
// number `to`. None if the whole publishes the 1, too.
fn taken(
    terms: &mut Terms,
    alloc: Global,
    frame: Frame,
    to: usize,
) -> Result<Option<usize>, AllocError> {
    let (Frame::Feeds(_, other) | Frame::First(other)) = frame else {
        return Err(AllocError);
    };
    if to >= terms.len() || other >= terms.len() {
        return Err(AllocError);
    }
    let happening = Happening::Published(ONE);
    let successor = lifted(terms, alloc, frame, Successor { happening, to })?;
    match successor.happening {
        Happening::Unseen => Ok(Some(successor.to)),
        _ => Ok(None),
    }
}

// The number of the term that was made at this place of a row, from 0.
fn at(made: &[usize], place: usize) -> Result<usize, AllocError> {
    match made.get(place) {
        Some(number) => Ok(*number),
        None => Err(AllocError),
    }
}

// The number of a term that is made so. `made` has the numbers of those before it in the row.
fn number_of(
    terms: &mut Terms,
    alloc: Global,
    made: &[usize],
    it: Make,
) -> Result<usize, AllocError> {
    match it {
        Make::Nothing => terms.number_of(Node::Tip(Tip::Nothing)),
        Make::Gives(param) => terms.number_of(Node::Tip(Tip::Gives(param))),
        Make::Asks(p, q) => call(terms, alloc, p, q),
        Make::Awaits(left) => terms.number_of(Node::Tip(Tip::Awaits(Waiting {
            site: 7,
            args: Vec::new(alloc),
            rest: Found::After(Answer::Value(ONE), left),
        }))),
        Make::Pair(joint, f, g) => pair(terms, joint, at(made, f)?, at(made, g)?),
        Make::Changed(change, place) => {
            let root = at(made, place)?;
            if root >= terms.len() {
                return Err(AllocError);
            }
            changed(terms, alloc, change, root)
        }
        Make::Fed(right, left) => {
            // None doesn't come: a `>x>` takes what its left side publishes.
            match taken(
                terms,
                alloc,
                Frame::Feeds(5, at(made, right)?),
                at(made, left)?,
            )? {
                Some(whole) => Ok(whole),
                None => Err(AllocError),
            }
        }
    }
}

// The numbers of the terms of a row.
fn numbers_of(terms: &mut Terms, alloc: Global, makes: &[Make]) -> Result<Vec<usize>, AllocError> {
    let mut made = Vec::new(alloc);
    for it in makes {
        let number = number_of(terms, alloc, made.as_slice(), *it)?;
        made.push(number)?;
    }
    Ok(made)
}

// A call with the names 5 and 6.
const NAMES: Make = Make::Asks(Param::Name(5), Param::Name(6));

// The same call with 1 put for the name 5.
const FILLED: Make = Make::Asks(Param::Is(ONE), Param::Name(6));

// What a row shows, and terms of which the last two are the same: one that the search makes by a change or a step, and what it has to be, written
// out. A term names those before it by their places in the row, from 0.
const SAME: [(&str, &[Make]); 4] = [
    (
        "what is put for a name",
        &[
            NAMES,
            // On the right of a `>5>` the name is another one: each side of the `>6>` gets the 1 only on the left of its `>5>`.
            Make::Pair(Joint::Feeds(5), 0, 0),
            Make::Pair(Joint::Feeds(6), 1, 1),
            FILLED,
            Make::Pair(Joint::Feeds(5), 3, 0),
            Make::Changed(Change::Put(Param::Is(ONE), 5), 2),
            Make::Pair(Joint::Feeds(6), 4, 4),
        ],
    ),
    (
        "cells behind a settled one move up",
        // Inside the left side whose cell is 0, the pruning `f <c< stop` has the cell 1. Once 0 is void, f names void and 0.
        &[
            Make::Nothing,
            Make::Asks(Param::Cell(0), Param::Cell(1)),
            Make::Pair(Joint::Needs, 1, 0),
            Make::Asks(Param::Void, Param::Cell(0)),
            Make::Changed(Change::Settle(Param::Void, 0), 2),
            Make::Pair(Joint::Needs, 3, 0),
        ],
    ),
    (
        "time passes for both calls",
        &[
            // After 3 units the first call is due, and the second has 2 left.
            Make::Awaits(3),
            Make::Awaits(5),
            Make::Pair(Joint::Both, 0, 1),
            Make::Awaits(0),
            Make::Awaits(2),
            Make::Changed(Change::Pass(3), 2),
            Make::Pair(Joint::Both, 3, 4),
        ],
    ),
    (
        "a right side takes what is published",
        // `f >5> g` becomes `(stop >5> g) | g` with 1 put for 5 in the second g.
        &[
            Make::Nothing,
            NAMES,
            Make::Pair(Joint::Feeds(5), 0, 1),
            FILLED,
            Make::Fed(1, 0),
            Make::Pair(Joint::Both, 2, 3),
        ],
    ),
];

// In each row the last two terms have one number.
#[test]
fn terms_become_what_the_rules_say(rt: HostRuntime) -> Result<(), Fail> {
    for (name, makes) in SAME.iter() {
        let mut terms = Terms::new(rt.alloc());
        let made = numbers_of(&mut terms, rt.alloc(), makes)?;
        assert!(rt;
            matches!(made.as_slice(), [_, _, .., one, other] if *one == *other),
            "{name}"
        );
    }
    Ok(())
}

// Of two calls that are due after 3 and 5 units the first leaves 3, and nothing has halted.
#[test]
fn the_call_that_is_due_first_says_when_time_stops(rt: HostRuntime) -> Result<(), Fail> {
    let mut terms = Terms::new(rt.alloc());
    let makes = [
        Make::Awaits(3),
        Make::Awaits(5),
        Make::Pair(Joint::Both, 0, 1),
    ];
    let made = numbers_of(&mut terms, rt.alloc(), makes.as_slice())?;
    let summary = terms.summary(at(made.as_slice(), 2)?);
    assert!(rt; summary.left == Some(3) && !summary.over);
    Ok(())
}

// The whole term publishes what the left side of a `;` publishes.
#[test]
fn the_first_side_of_an_otherwise_publishes_on(rt: HostRuntime) -> Result<(), Fail> {
    let mut terms = Terms::new(rt.alloc());
    // Place 0 is `stop`, which the left side of the `;` becomes, and place 1 its right side.
    let made = numbers_of(&mut terms, rt.alloc(), [Make::Nothing, NAMES].as_slice())?;
    let frame = Frame::First(at(made.as_slice(), 1)?);
    let whole = taken(&mut terms, rt.alloc(), frame, at(made.as_slice(), 0)?)?;
    assert!(rt; whole.is_none());
    Ok(())
}

// The program `M(x, x) <x< 1`, whose site M is 7 and whose name x is 5.
fn program(alloc: Global) -> Result<Program, AllocError> {
    let mut nodes = Nodes::new(alloc);
    let mut operands = Operands::new();
    operands.push(Operand::Name(5));
    operands.push(Operand::Name(5));
    let list = nodes.push_list(operands)?;
    let right = nodes.push(TermNode::Operand(Operand::Is(ONE)))?;
    let left = nodes.push(TermNode::Site(7, list))?;
    let main = nodes.push(TermNode::Prune(left, 5, right))?;
    Ok(Program::new(nodes, Vec::new(alloc), main))
}

// The number of a program's main term is that of the same term, written out.
#[test]
fn a_program_has_its_terms(rt: HostRuntime) -> Result<(), Fail> {
    let alloc = rt.alloc();
    let program = program(alloc)?;
    let mut terms = Terms::new(alloc);
    let numbers = numbered(&mut terms, alloc, &program)?;
    // The call `M(x, x)`, the value 1, and at place 2 the pruning that joins the two.
    let makes = [
        Make::Asks(Param::Name(5), Param::Name(5)),
        Make::Gives(Param::Is(ONE)),
        Make::Pair(Joint::Prunes(5), 0, 1),
    ];
    let made = numbers_of(&mut terms, alloc, makes.as_slice())?;
    assert_eq!(rt;
        at(numbers.as_slice(), program.source())?,
        at(made.as_slice(), 2)?
    );
    Ok(())
}

// All that the term with the number `root` may do before any call was made.
fn coming(
    terms: &mut Terms,
    alloc: Global,
    program: &Program,
    answers: &Answers,
    root: usize,
) -> Result<Vec<Successor>, AllocError> {
    let numbers = numbered(terms, alloc, program)?;
    let source = Source {
        program,
        answers,
        numbers,
    };
    if root >= terms.len() {
        return Err(AllocError);
    }
    // The empty list: no call was made.
    successors(terms, alloc, &source, &[], root)
}

// The number of the term after the only move of the term `root`, of which nothing is seen. The error is also that there is another move, or none.
fn after_silence(
    terms: &mut Terms,
    alloc: Global,
    program: &Program,
    answers: &Answers,
    root: usize,
) -> Result<usize, AllocError> {
    let moves = coming(terms, alloc, program, answers, root)?;
    match moves.as_slice() {
        [
            Successor {
                happening: Happening::Unseen,
                to,
            },
        ] => Ok(*to),
        _ => Err(AllocError),
    }
}

// The pruning of `M(x, x) <x< 1` is opened, its cell is bound to 1, and only then M can be called, with 1 and 1.
#[test]
fn a_call_is_made_once_its_cell_is_bound(rt: HostRuntime) -> Result<(), Fail> {
    let alloc = rt.alloc();
    let program = program(alloc)?;
    let answers = Answers::builtin(alloc)?;
    let mut terms = Terms::new(alloc);
    let numbers = numbered(&mut terms, alloc, &program)?;
    // None doesn't come: `numbers` has a number for each node of the program.
    let Some(main) = numbers.get(program.source()) else {
        return Err(Fail::from(AllocError));
    };
    let opened = after_silence(&mut terms, alloc, &program, &answers, *main)?;
    let bound = after_silence(&mut terms, alloc, &program, &answers, opened)?;
    let calls = coming(&mut terms, alloc, &program, &answers, bound)?;
    assert_eq!(rt; calls.len(), 1);
    for call in &calls {
        match &call.happening {
            Happening::Called(7, args) => assert_eq!(rt; args.as_slice(), [ONE, ONE].as_slice()),
            _ => assert!(rt; false),
        }
    }
    Ok(())
}
