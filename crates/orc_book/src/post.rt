//! A *post* is what a book has of one group: its passes, and how many of its tokens are kept and are out. The functions below the type do to the post
//! of the group with this number what the type's methods do. A group without a post has no passes and no tokens. If a contract asks that the post is
//! there, the arm for none never runs. A *book* has the records of a run: tokens, pending calls and groups. A *group* is what runs in one right side
//! of a `<x<`, one left side of a `;`, or the whole program; its *members* are the tokens, calls and groups right inside it. A *pass* stands for one
//! member, and the group's *word*, an atomic counter, counts the passes; an *idle* pass names no group. A token is *out* while a worker has it, with
//! its pass, and *kept* while it waits in the book. `J` names the table of words, for contracts alone. `leave` gets passes that the caller is to
//! *leave*, so that no word counts them.

ghost use Rattle.std.specs.Prelude.{◌≡◌, ◌+◌, ◌-◌, ◌<◌, ◌≤◌, ◌^◌, ◌∷◌, ◌++◌, [], Some, None, true, false, length, vec_len, vec_capacity, All, IfOk, OnOk, MatchOption, MatchResult};
ghost use Rattle.orc_indexes.specs.Same.{weight};
ghost use Rattle.orc_word.specs.Views.{group_of};
ghost use Rattle.orc_rules.specs.declared.limits.TheConstants.{MOST_GROUPS};
ghost use Rattle.orc_book.specs.Passes.{GivesUp};
ghost use Rattle.orc_book.specs.Held.{Hold, AreFirst, HaveGrown, Becomes, Changes, KeepsTokens, Same, OneMore, TakesOne, held_at, kept_at, out_at, word_at, room_at};

use orc_rules::limits::MOST_GROUPS;
use orc_word::{Groups, Naming, Pass};
use std::alloc::{AllocError, Global};
use std::marker::Model;

/// A *post*: what a book has of one group.
#[derive(Drop)]
pub(crate) struct Post<J: Naming> {
    // The number of its word, which is the atomic counter of its passes.
    word: u32,
    // The ledger's number of the group that encloses it.
    parent: u32,
    // The passes to it that the book holds: each names this group's word.
    passes: Vec<Pass<J>>,
    // How many of its tokens the book keeps while they wait.
    kept: usize,
    // How many of its tokens are out with workers.
    out: usize,
}

impl<J: Naming> Model for Post<J> {
    ghost use Rattle.std.specs.Prelude.{◌≡◌, ◌-◌, Some, All, vec_len, vec_capacity};
    ghost use Rattle.orc_word.specs.Views.{group_of};
    ghost use Rattle.orc_book.specs.Held.{Hold};

    // Contracts see a post as `Hold`; its `room` is for how many passes more the list has memory.
    ghost Value = { Hold };

    ghost view = { λ p. record { word = p.word; passes = p.passes.items; room = vec_capacity p.passes - vec_len p.passes; kept = p.kept; out = p.out } };

    // Each pass names the group's word.
    ghost invariant = { λ p. All (λ v. group_of v ≡ Some p.word) p.passes.items };
}

impl<J: Naming> Post<J> {
    /// The post of a group whose word has this number, with no passes and no tokens. `parent` is the ledger's number of the group that encloses it.
    pub(crate) fn new(alloc: Global, word: u32, parent: u32) -> Post<J>
        ensures { (result.word ≡ word) × (result.passes ≡ []) × (result.kept ≡ 0) × (result.out ≡ 0) }
    {
        Post {
            word,
            parent,
            passes: Vec::new(alloc),
            kept: 0,
            out: 0,
        }
    }

    /// The number of the group's word.
    pub(crate) fn word(&self) -> u32
        ensures { result ≡ self.now.word }
    {
        self.word
    }

    /// The ledger's number of the group that encloses it, as `new` or `begin` was told last. No contract says that it is right.
    pub(crate) fn parent(&self) -> u32 {
        self.parent
    }

    /// Makes this post, which has to have no passes, that of a new group: sets its word and its parent's number, and notes that one token of the
    /// group is out.
    pub(crate) fn begin(&mut self, word: u32, parent: u32)
        requires { length self.old.passes ≡ 0 }
        ensures { (self.new.word ≡ word) × (self.new.passes ≡ self.old.passes) × (self.new.kept ≡ self.old.kept) × (self.new.out ≡ 1) }
    {
        self.word = word;
        self.parent = parent;
        self.out = 1;
    }

    /// A law, for the prover alone: each pass names the group's word.
    pub(crate) fn names(&self)
        ensures { All (λ v. group_of v ≡ Some self.now.word) self.now.passes }
    {
        // A field that is read shows the prover the type's invariant, which is this clause.
        let _passes = &self.passes;
    }

    /// How many passes to the group the book holds.
    pub(crate) fn held(&self) -> usize
        ensures { result ≡ length self.now.passes }
    {
        self.passes.len()
    }

    /// How many of the group's tokens the book keeps while they wait.
    pub(crate) fn kept(&self) -> usize
        ensures { result ≡ self.now.kept }
    {
        self.kept
    }

    /// How many of the group's tokens are out with workers.
    pub(crate) fn out(&self) -> usize
        ensures { result ≡ self.now.out }
    {
        self.out
    }

    /// Sets how many of the group's tokens are out with workers.
    pub(crate) fn set_out(&mut self, out: usize)
        ensures { self.new ≡ record self.old { out = out } }
    {
        self.out = out;
    }

    /// Sets how many of the group's tokens the book keeps while they wait.
    pub(crate) fn set_kept(&mut self, kept: usize)
        ensures { self.new ≡ record self.old { kept = kept } }
    {
        self.kept = kept;
    }

    /// Takes out the last pass; None if no pass is held.
    pub(crate) fn take(&mut self) -> Option<Pass<J>>
        ensures rest { (self.new.word ≡ self.old.word) × (self.new.kept ≡ self.old.kept) × (self.new.out ≡ self.old.out) }
        ensures pass { MatchOption result ((length self.old.passes ≡ 0) × (length self.new.passes ≡ 0)) (λ pass. (group_of pass ≡ Some self.old.word) × (length self.old.passes ≡ length self.new.passes + 1) × (self.old.passes ≡ self.new.passes ++ pass ∷ [])) }
    {
        self.passes.pop()
    }

    /// Lets an idle pass name the group too, beside one that is held. Where none is held the idle pass comes back.
    pub(crate) fn enter(&self, groups: &Groups<J>, idle: Pass<J>) -> Result<Pass<J>, Pass<J>>
        requires { group_of idle ≡ None }
        ensures { MatchResult result (λ pass. group_of pass ≡ Some self.now.word) (λ back. (back ≡ idle) × (length self.now.passes ≡ 0)) }
    {
        match self.passes.last() {
            Some(with) => Ok(groups.enter(with, idle)),
            None => Err(idle),
        }
    }

    /// Fits the post to its group, which has `members` left: moves passes to `leave` until those that stay and the tokens that are out are as many.
    /// By `requires` they are that many at least. Of a group without members no token is kept or out.
    pub(crate) fn settle(&mut self, members: usize, leave: &mut Vec<Pass<J>>)
        requires enough { members ≤ length self.old.passes + self.old.out }
        requires out { 1 ≤ members → self.old.out ≤ members }
        requires room { vec_len leave.old + length self.old.passes ≤ vec_capacity leave.old }
        ensures word { self.new.word ≡ self.old.word }
        ensures tokens { KeepsTokens members self.old self.new }
        ensures held { length self.new.passes + self.new.out ≡ members }
        ensures left { vec_len leave.new + length self.new.passes ≡ vec_len leave.old + length self.old.passes }
        ensures given { GivesUp leave.old.items leave.new.items (λ f. weight f self.old.passes) (λ f. weight f self.new.passes) }
        ensures capacity { vec_capacity leave.new ≡ vec_capacity leave.old }
    {
        // A bind may have dropped the group's last records while workers have their tokens: without records these aren't out any more.
        if members == 0 {
            self.kept = 0;
            self.out = 0;
        }
        // By the clause *out* no more tokens are out than there are members. Each other member has its pass here.
        let wanted = members - self.out;
        self.give_up(wanted, leave);
    }

    // Moves passes to `leave`, which has room for them, until `wanted` are held.
    fn give_up(&mut self, wanted: usize, leave: &mut Vec<Pass<J>>)
        requires enough { wanted ≤ length self.old.passes }
        requires room { vec_len leave.old + length self.old.passes ≤ vec_capacity leave.old }
        ensures rest { (self.new.word ≡ self.old.word) × (self.new.kept ≡ self.old.kept) × (self.new.out ≡ self.old.out) }
        ensures held { length self.new.passes ≡ wanted }
        ensures left { vec_len leave.new + length self.new.passes ≡ vec_len leave.old + length self.old.passes }
        ensures given { GivesUp leave.old.items leave.new.items (λ f. weight f self.old.passes) (λ f. weight f self.new.passes) }
        ensures capacity { vec_capacity leave.new ≡ vec_capacity leave.old }
    {
        // Each round takes out a pass, so the loop ends. There is one, since more than `wanted` are held.
        while self.passes.len() > wanted {
            let Some(pass) = self.passes.pop() else {
                unreachable!()
            };
            leave.push_reserved(pass);
        }
    }

    /// Makes room for one pass more. The error is refused memory.
    pub(crate) fn reserve(&mut self) -> Result<(), AllocError>
        ensures rest { (self.new.word ≡ self.old.word) × (self.new.passes ≡ self.old.passes) × (self.new.kept ≡ self.old.kept) × (self.new.out ≡ self.old.out) }
        ensures room { OnOk result (1 ≤ self.new.room) }
    {
        self.passes.try_reserve(1)
    }

    /// Adds a pass, for which there is room (`reserve`).
    pub(crate) fn put(&mut self, pass: Pass<J>)
        requires room { 1 ≤ self.old.room }
        requires names { group_of pass ≡ Some self.old.word }
        ensures rest { (self.new.word ≡ self.old.word) × (self.new.kept ≡ self.old.kept) × (self.new.out ≡ self.old.out) }
        ensures held { length self.new.passes ≡ length self.old.passes + 1 }
    {
        self.passes.push_reserved(pass);
    }
}

/// Sets how many tokens of the group with this `number` are out. Its post is there, by `requires`. No other post changes (`Becomes`).
pub(crate) fn set_out<J: Naming>(posts: &mut Vec<Post<J>>, number: u32, out: usize)
    requires there { number < length posts.old.items }
    ensures { (p : Hold) × Becomes posts.old.items number p (record p { out = out }) posts.new.items }
{
    if let Some(post) = posts.get_mut(number as usize) {
        post.set_out(out);
    }
}

/// Fits the post of the group with this `number` to so many members, as `Post::settle` does: the passes that are too many for them go to `leave`. No
/// other post changes (`Becomes`).
pub(crate) fn settle_at<J: Naming>(
    posts: &mut Vec<Post<J>>,
    number: u32,
    members: usize,
    leave: &mut Vec<Pass<J>>,
)
    requires there { number < length posts.old.items }
    requires enough { members ≤ held_at posts.old.items number + out_at posts.old.items number }
    requires out { 1 ≤ members → out_at posts.old.items number ≤ members }
    requires room { vec_len leave.old + held_at posts.old.items number ≤ vec_capacity leave.old }
    ensures post { (p : Hold) × (q : Hold) × Becomes posts.old.items number p q posts.new.items × (q.word ≡ p.word) × KeepsTokens members p q × (length q.passes + q.out ≡ members) × (vec_len leave.new + length q.passes ≡ vec_len leave.old + length p.passes) × GivesUp leave.old.items leave.new.items (λ f. weight f p.passes) (λ f. weight f q.passes) }
    ensures capacity { vec_capacity leave.new ≡ vec_capacity leave.old }
{
    if let Some(post) = posts.get_mut(number as usize) {
        post.settle(members, leave);
    }
}

/// Whether the group with this `number` has members, and the passes held and the tokens out are together as many: `settle_at` would change nothing
/// then. False if there is no post.
#[inline(always)]
pub(crate) fn is_settled_at<J: Naming>(posts: &Vec<Post<J>>, number: u32, members: usize) -> bool
    ensures { result ≡ true → (1 ≤ members) × (held_at posts.now.items number + out_at posts.now.items number ≡ members) }
{
    match posts.get(number as usize) {
        Some(post) => {
            members > 0 && post.out() <= members && post.held() == members - post.out()
        }
        None => false,
    }
}

/// Makes room for one pass more in the post of the group with this `number`. The error is refused memory. No other post changes (`Changes`).
pub(crate) fn reserve_at<J: Naming>(posts: &mut Vec<Post<J>>, number: u32) -> Result<(), AllocError>
    requires there { number < length posts.old.items }
    ensures same { Changes posts.old.items number posts.new.items Same }
    ensures room { OnOk result (1 ≤ room_at posts.new.items number) }
{
    match posts.get_mut(number as usize) {
        Some(post) => post.reserve(),
        // Never: by `requires` the post is there.
        None => Ok(()),
    }
}

/// Puts a pass into the post of the group with this `number`, which is there and has room for it. No other post changes (`Changes`).
pub(crate) fn put_at<J: Naming>(posts: &mut Vec<Post<J>>, number: u32, pass: Pass<J>)
    requires there { number < length posts.old.items }
    requires room { 1 ≤ room_at posts.old.items number }
    requires names { group_of pass ≡ Some (word_at posts.old.items number) }
    ensures more { Changes posts.old.items number posts.new.items OneMore }
{
    if let Some(post) = posts.get_mut(number as usize) {
        post.put(pass);
    }
}

/// Takes a pass out of the post of the group with this `number`. None if there is no post or it holds none. No other post changes (`Changes`).
pub(crate) fn take_at<J: Naming>(posts: &mut Vec<Post<J>>, number: u32) -> Option<Pass<J>>
    ensures fewer { MatchOption result (held_at posts.old.items number ≡ 0) (λ pass. (group_of pass ≡ Some (word_at posts.old.items number)) × Changes posts.old.items number posts.new.items (TakesOne pass)) }
{
    match posts.get_mut(number as usize) {
        Some(post) => post.take(),
        None => None,
    }
}

/// For a token that was out and becomes a pending call or a group: puts its pass into the post of the group with this `number`, and sets how many of
/// the group's tokens are out. No other post changes (`Changes`).
pub(crate) fn put_back_at<J: Naming>(
    posts: &mut Vec<Post<J>>,
    number: u32,
    out: usize,
    pass: Pass<J>,
)
    requires there { number < length posts.old.items }
    requires room { 1 ≤ room_at posts.old.items number }
    requires names { group_of pass ≡ Some (word_at posts.old.items number) }
    ensures more { Changes posts.old.items number posts.new.items (λ p q. (length q.passes ≡ length p.passes + 1) × (q.kept ≡ p.kept) × (q.out ≡ out)) }
{
    if let Some(post) = posts.get_mut(number as usize) {
        post.put(pass);
        post.set_out(out);
    }
}

/// For a token that was out and is kept from here on: puts its pass into the post of the group with this `number`, and sets how many of the group's
/// tokens are out and how many are kept. No other post changes (`Changes`).
pub(crate) fn keep_at<J: Naming>(
    posts: &mut Vec<Post<J>>,
    number: u32,
    out: usize,
    kept: usize,
    pass: Pass<J>,
)
    requires there { number < length posts.old.items }
    requires room { 1 ≤ room_at posts.old.items number }
    requires names { group_of pass ≡ Some (word_at posts.old.items number) }
    ensures more { Changes posts.old.items number posts.new.items (λ p q. (length q.passes ≡ length p.passes + 1) × (q.kept ≡ kept) × (q.out ≡ out)) }
{
    if let Some(post) = posts.get_mut(number as usize) {
        post.put(pass);
        post.set_out(out);
        post.set_kept(kept);
    }
}

/// For a token that comes in the place of a call or a group: takes the record's pass out of the post of the group with this `number`, and sets how
/// many of the group's tokens are out. None, and nothing changes, if no pass is held. No other post changes (`Changes`).
pub(crate) fn hand_out_at<J: Naming>(
    posts: &mut Vec<Post<J>>,
    number: u32,
    out: usize,
) -> Option<Pass<J>>
    ensures fewer { MatchOption result (held_at posts.old.items number ≡ 0) (λ pass. (group_of pass ≡ Some (word_at posts.old.items number)) × Changes posts.old.items number posts.new.items (λ p q. (length q.passes + 1 ≡ length p.passes) × (q.kept ≡ p.kept) × (q.out ≡ out) × (p.passes ≡ q.passes ++ pass ∷ []))) }
{
    match posts.get_mut(number as usize) {
        Some(post) => {
            let pass = post.take()?;
            post.set_out(out);
            Some(pass)
        }
        None => None,
    }
}

/// For a token that comes into the group with this `number` without a pass to it: lets the idle pass enter the group, beside one that the post holds,
/// and sets how many of the group's tokens are out. If the post holds no pass, nothing changes, and the idle one comes back. No other post changes
/// (`Changes`).
pub(crate) fn enter_at<J: Naming>(
    groups: &Groups<J>,
    posts: &mut Vec<Post<J>>,
    number: u32,
    out: usize,
    idle: Pass<J>,
) -> Result<Pass<J>, Pass<J>>
    requires { group_of idle ≡ None }
    ensures { MatchResult result (λ pass. (group_of pass ≡ Some (word_at posts.old.items number)) × Changes posts.old.items number posts.new.items (λ p q. (q.passes ≡ p.passes) × (q.kept ≡ p.kept) × (q.out ≡ out))) (λ back. (back ≡ idle) × (held_at posts.old.items number ≡ 0)) }
{
    // Without a post no pass is held.
    let Some(post) = posts.get_mut(number as usize) else {
        return Err(idle);
    };
    match post.enter(groups, idle) {
        Ok(pass) => {
            post.set_out(out);
            Ok(pass)
        }
        Err(back) => Err(back),
    }
}

/// For a token that was kept and goes out: takes a pass out of the post of the group with this `number`, and sets how many of the group's tokens are
/// out and kept. None, and nothing changes, if no pass is held. No other post changes (`Changes`).
pub(crate) fn wake_at<J: Naming>(
    posts: &mut Vec<Post<J>>,
    number: u32,
    out: usize,
    kept: usize,
) -> Option<Pass<J>>
    ensures { MatchOption result (posts.new.items ≡ posts.old.items) (λ pass. (group_of pass ≡ Some (word_at posts.old.items number)) × Changes posts.old.items number posts.new.items (λ p q. (length q.passes + 1 ≡ length p.passes) × (q.kept ≡ kept) × (q.out ≡ out) × (p.passes ≡ q.passes ++ pass ∷ []))) }
{
    // With a pass held, the post and the pass below are there, so that the arms for none never run.
    if held_in(posts, number) < 1 {
        return None;
    }
    let Some(post) = posts.get_mut(number as usize) else {
        unreachable!()
    };
    // Where none is held this function has returned.
    let Some(pass) = post.take() else {
        unreachable!()
    };
    post.set_out(out);
    post.set_kept(kept);
    Some(pass)
}

/// How many tokens of the group with this `number` the book keeps; 0 if the group has no post.
pub(crate) fn kept_in<J: Naming>(posts: &Vec<Post<J>>, number: u32) -> usize
    ensures { result ≡ kept_at posts.now.items number }
{
    match posts.get(number as usize) {
        Some(post) => post.kept(),
        None => 0,
    }
}

/// How many tokens of the group with this `number` are out with workers; 0 if the group has no post.
pub(crate) fn out_in<J: Naming>(posts: &Vec<Post<J>>, number: u32) -> usize
    ensures out { result ≡ out_at posts.now.items number }
    ensures there { 1 ≤ result → number < length posts.now.items }
{
    match posts.get(number as usize) {
        Some(post) => post.out(),
        None => 0,
    }
}

/// Takes a pass that no member needs out of the post of the group with this `number`; None, and nothing changes, if there is none. Each of the
/// group's `members` (a token, a pending call or a group right inside it) needs one pass, and workers hold those of the tokens that are out. So a
/// pass is spare if the passes in the post and the tokens that are out are together more than `members`. No other post changes (`Changes`).
pub(crate) fn spare_at<J: Naming>(
    posts: &mut Vec<Post<J>>,
    number: u32,
    members: usize,
) -> Option<Pass<J>>
    ensures { MatchOption result (posts.new.items ≡ posts.old.items) (λ pass. (group_of pass ≡ Some (word_at posts.old.items number)) × (members + 1 ≤ held_at posts.old.items number + out_at posts.old.items number) × Changes posts.old.items number posts.new.items (TakesOne pass)) }
{
    let held = held_in(posts, number);
    let out = out_in(posts, number);
    // Tokens that are out come first; passes are held for the other members alone.
    if members.saturating_sub(out) < held {
        take_at(posts, number)
    } else {
        None
    }
}

/// How many passes to the group with this `number` the book holds; 0 if the group has no post.
pub(crate) fn held_in<J: Naming>(posts: &Vec<Post<J>>, number: u32) -> usize
    ensures { result ≡ held_at posts.now.items number }
{
    match posts.get(number as usize) {
        Some(post) => post.held(),
        None => 0,
    }
}

/// The number of the group that encloses the one with this `number`, as its post was told last; 0, which is the program's own, if it has no post.
pub(crate) fn parent_in<J: Naming>(posts: &Vec<Post<J>>, number: u32) -> u32 {
    match posts.get(number as usize) {
        Some(post) => post.parent(),
        None => 0,
    }
}

/// The number of the word of the group with this `number`; 0, which is that of the program's own group, if it has no post.
pub(crate) fn word_in<J: Naming>(posts: &Vec<Post<J>>, number: u32) -> u32
    ensures { result ≡ word_at posts.now.items number }
{
    match posts.get(number as usize) {
        Some(post) => post.word(),
        None => 0,
    }
}

/// The post of the program's own group, with no passes. Its word has the number 0; it has no parent, and the number in its place means nothing. The
/// error is refused memory.
pub(crate) fn first_posts<J: Naming>(alloc: Global) -> Result<Vec<Post<J>>, AllocError>
    ensures { IfOk result (λ posts. AreFirst posts.items) }
{
    let mut posts = Vec::new(alloc);
    posts.push(Post::new(alloc, 0, 0))?;
    Ok(posts)
}

/// Makes room for one pass more of the group with this `number`, and for the posts of as many groups as there may be. So `grow_to` never asks for
/// memory. The error is refused memory.
pub(crate) fn reserve_opening<J: Naming>(
    posts: &mut Vec<Post<J>>,
    number: u32,
) -> Result<(), AllocError>
    requires there { number < length posts.old.items }
    requires few { length posts.old.items ≤ MOST_GROUPS }
    ensures same { Changes posts.old.items number posts.new.items Same }
    ensures room { OnOk result (1 ≤ room_at posts.new.items number) }
    ensures posts { OnOk result (MOST_GROUPS ≤ vec_capacity posts.new) }
{
    reserve_at(posts, number)?;
    // By `requires` there are at most `MOST_GROUPS` posts.
    let more = MOST_GROUPS - posts.len();
    posts.try_reserve(more)
}

/// Adds posts without passes up to the group with this number, in the room that `reserve_opening` made; none if its post is there. What they have as
/// word and parent means nothing until `begin_at` sets it.
pub(crate) fn grow_to<J: Naming>(alloc: Global, posts: &mut Vec<Post<J>>, number: u32)
    requires few { length posts.old.items ≤ MOST_GROUPS }
    requires number { number < MOST_GROUPS }
    requires room { MOST_GROUPS ≤ vec_capacity posts.old }
    ensures grown { HaveGrown posts.old.items posts.new.items }
    ensures there { number < length posts.new.items }
    ensures few { length posts.new.items ≤ MOST_GROUPS }
{
    for _number in posts.len()..number as usize + 1 {
        posts.push_reserved(Post::new(alloc, 0, 0));
    }
}

/// Makes the post with this number that of a new group: sets its word and its parent's number, and notes that one token of the group is out. No other
/// post changes (`Becomes`).
pub(crate) fn begin_at<J: Naming>(posts: &mut Vec<Post<J>>, number: u32, word: u32, parent: u32)
    requires there { number < length posts.old.items }
    requires empty { held_at posts.old.items number ≡ 0 }
    ensures { (p : Hold) × (q : Hold) × Becomes posts.old.items number p q posts.new.items × (q.word ≡ word) × (q.passes ≡ p.passes) × (q.kept ≡ p.kept) × (q.out ≡ 1) }
{
    if let Some(post) = posts.get_mut(number as usize) {
        post.begin(word, parent);
    }
}
