//! What the threads of a pool share.
ghost use Rattle.std.specs.Prelude.{◌≡◌, ◌-◌, ◌<◌, ◌++◌, ◌∷◌, [], List, IfSome, IfNone};
ghost use Rattle.crossbeam_queue.specs.Passes.{view, IsPassOf};
ghost use Rattle.ht_pool.specs.PassLogs.{pass_log, joined, AddsUp};
ghost use Rattle.ht_pool.specs.Members.{queue_of, IsOnQueue};

use crate::pass_log::PassLog;
use crate::rule::{CountingRule, Cut, Push, Take, Whole};
use crossbeam_queue::{Pass, RuledArrayQueue};
use crossbeam_utils::sync::{EventCount, Key};
use crossbeam_utils::{Backoff, CachePadded};
use std::marker::Model;
use std::sync::Wait;
use std::sync::atomic::{AtomicBool, Ordering};

/// The queue of answers, with a bound on how many it holds.
pub type AnswerQueue<A> = RuledArrayQueue<A, PassLog<A>, CountingRule>;

/// A pass on the queue of answers.
pub type AnswerPass<A> = Pass<A, PassLog<A>>;

/// The queue of answers, a flag that tells the workers that no task comes any more, and what idle workers sleep on.
/// Contracts see which queue it is; none rests on the other two.
#[derive(Drop)]
pub struct Common<A: Drop> {
    pub(crate) answers: AnswerQueue<A>,
    done: CachePadded<AtomicBool>,
    news: CachePadded<EventCount>,
}

impl<A: Drop> Model for Common<A> {
    ghost use Rattle.atomic_table.specs.Seated.{TableId};
    ghost use Rattle.ht_pool.specs.Members.{queue_of};

    ghost Value = { TableId };

    ghost view = { λ s. queue_of s.answers };
}

impl<A: Drop> Common<A> {
    /// What threads share that have yet to begin.
    pub(crate) fn new(answers: AnswerQueue<A>) -> Common<A>
        ensures { result ≡ queue_of answers }
    {
        Common {
            answers,
            done: CachePadded::new(AtomicBool::new(false)),
            news: CachePadded::new(EventCount::new()),
        }
    }

    /// Wakes one worker, if any sleeps or is about to. The caller has given a task before.
    pub(crate) fn wake_one(&self) {
        self.news.notify_one();
    }

    /// Announces that a worker is about to sleep. Before it waits on the key it looks once more at the flag and for a task,
    /// and where it finds one of them it drops the key.
    pub(crate) fn prepare_sleep(&self) -> Key<'_> {
        self.news.prepare_wait()
    }

    /// Tells the workers that no task comes any more, and wakes all that sleep.
    pub(crate) fn finish(&self) {
        self.done.store(true, Ordering::SeqCst);
        self.news.notify_all();
    }

    /// Whether they were told so.
    pub(crate) fn is_finished(&self) -> bool {
        self.done.load(Ordering::SeqCst)
    }

    /// Puts an answer on the queue, and waits while it is full.
    pub(crate) fn deliver<R: Wait>(&self, rt: &R, pass: AnswerPass<A>, answer: A) -> AnswerPass<A>
        requires queue { IsOnQueue self.now pass }
        requires part { 0 < (view pass).parts }
        ensures queue { IsOnQueue self.now result }
        ensures pushed { view result ≡ pass_log (view pass).parts ((view pass).pushed ++ answer ∷ []) (view pass).taken }
    {
        deliver(rt, &self.answers, pass, answer)
    }

    /// A new pass on the queue, with one part of another.
    pub(crate) fn another(&self, pass: &mut AnswerPass<A>) -> AnswerPass<A>
        requires queue { IsOnQueue self.now pass.old }
        requires some { 1 < (view pass.old).parts }
        ensures queue { IsOnQueue self.now pass.new }
        ensures rest { view pass.new ≡ pass_log ((view pass.old).parts - 1) (view pass.old).pushed (view pass.old).taken }
        ensures new_queue { IsOnQueue self.now result }
        ensures one { view result ≡ pass_log 1 [] [] }
    {
        self.answers.another::<Cut>(pass)
    }

    /// Joins a pass on the queue into another.
    pub(crate) fn absorb(&self, pass: &mut AnswerPass<A>, other: AnswerPass<A>)
        requires queue { IsOnQueue self.now pass.old }
        requires other { IsOnQueue self.now other }
        requires some { 0 < (view pass.old).parts }
        ensures queue { IsOnQueue self.now pass.new }
        ensures joined { view pass.new ≡ joined (view pass.old) (view other) }
    {
        self.answers.absorb::<Cut>(pass, other);
    }

    /// Learns what the queue holds, with a pass that has every part.
    pub(crate) fn learn(&self, pass: &mut AnswerPass<A>)
        requires queue { IsOnQueue self.now pass.old }
        requires all { (view pass.old).parts ≡ 1024 }
        ensures queue { IsOnQueue self.now pass.new }
        ensures same { view pass.new ≡ view pass.old }
        ensures whole { (held : List A) × AddsUp (view pass.old) held }
    {
        self.answers.learn_as::<Whole>(pass);
    }

    /// Takes the first answer of the queue, if there is one.
    pub(crate) fn receive(&self, pass: &mut AnswerPass<A>) -> Option<A>
        requires queue { IsOnQueue self.now pass.old }
        requires part { 0 < (view pass.old).parts }
        ensures queue { IsOnQueue self.now pass.new }
        ensures taken { IfSome result (λ answer.
            view pass.new ≡ pass_log (view pass.old).parts (view pass.old).pushed ((view pass.old).taken ++ answer ∷ [])) }
        ensures none { IfNone result (view pass.new ≡ view pass.old) }
    {
        self.answers.try_pop_as::<Take>(pass)
    }
}

// Puts an answer on the queue, and waits while it is full.
fn deliver<A: Drop, R: Wait>(
    rt: &R,
    answers: &AnswerQueue<A>,
    mut pass: AnswerPass<A>,
    answer: A,
) -> AnswerPass<A>
    requires queue { IsPassOf answers.now pass }
    requires part { 0 < (view pass).parts }
    ensures queue { IsPassOf answers.now result }
    ensures pushed { view result ≡ pass_log (view pass).parts ((view pass).pushed ++ answer ∷ []) (view pass).taken }
{
    let mut answer = answer;
    let backoff = Backoff::new();
    for _ in rt.forever() {
        match answers.try_push_as::<Push>(&mut pass, answer) {
            Ok(()) => return pass,
            Err(back) => answer = back,
        }
        backoff.snooze();
    }
    unreachable!()
}
