//! Entering: a pass becomes a unit.
ghost use Rattle.std.specs.Prelude.{◌≡◌, ◌≢◌, ◌<◌, MatchResult, true, false};
ghost use Rattle.crawl_gate.specs.Word.{Word, open_at};
ghost use Rattle.crawl_gate.specs.View.{knows_closed};
ghost use Rattle.crawl_gate.specs.Seat.{IsSeatOf, after_entering, after_losing};
ghost use Rattle.crawl_gate.specs.Enter.{TriesToEnter, TriesToEnterHolding, EntersAtLast, EntersAtLastHolding, GivesSeatOf, IsClosed, IsLost};

use super::Gate;
use crate::pass::Pass;
use crate::rule::TakeUnit;
use crate::unit::Unit;
use std::sync::Wait;

/// How an entering call ended. If it took no unit, it returns the pass.
#[derive(Drop)]
pub enum Enter {
    /// The pass is now a unit.
    Entered(Unit),
    /// The gate was closed, and stays closed.
    Closed(Pass),
    /// The count of units was the maximum.
    Full(Pass),
    /// Another step came between the load and the exchange. Only the calls that try once return it.
    Lost(Pass),
}

impl Gate {
    /// Tries once to take a unit: a load, and if the gate is open and has room, a compare-and-exchange.
    ///
    /// It never waits. The result may be `Lost`, if another thread changed the word in between: try again.
    pub fn try_enter(&self, mut pass: Pass) -> Enter
        requires { IsSeatOf self.now pass }
        ensures words { TriesToEnter pass result }
        ensures gate { GivesSeatOf self.now result }
        ensures for_good { knows_closed pass.view ≡ true → IsClosed result }
    {
        let state = self.load(&mut pass);
        if state.closed {
            return Enter::Closed(pass);
        }
        if state.count == self.max_pending {
            return Enter::Full(pass);
        }
        match self.take_unit(pass, state.count) {
            Ok(unit) => Enter::Entered(unit),
            Err(pass) => Enter::Lost(pass),
        }
    }

    /// Like [`Gate::try_enter`], by a caller that holds a unit. The gate is then open, so the result is never
    /// `Closed`.
    pub fn try_enter_beside(&self, held: &mut Unit, pass: Pass) -> Enter
        requires held { IsSeatOf self.now held.old }
        requires pass { IsSeatOf self.now pass }
        ensures words { TriesToEnterHolding held.old held.new pass result }
        ensures gate { IsSeatOf self.now held.new × GivesSeatOf self.now result }
        ensures never_closed { ¬ IsClosed result }
    {
        let count = self.load_held(held);
        if count == self.max_pending {
            return Enter::Full(pass);
        }
        match self.take_unit(pass, count) {
            Ok(unit) => Enter::Entered(unit),
            Err(pass) => Enter::Lost(pass),
        }
    }

    /// Like [`Gate::try_enter`], but tries again while the result is `Lost`.
    ///
    /// So the result is `Entered`, `Closed` or `Full`. While other threads keep changing the word, the call
    /// may try any number of times.
    pub fn enter<R: Wait>(&self, rt: &R, mut pass: Pass) -> Enter
        requires { IsSeatOf self.now pass }
        ensures words { EntersAtLast pass result }
        ensures gate { GivesSeatOf self.now result }
        ensures never_lost { ¬ IsLost result }
        ensures for_good { knows_closed pass.view ≡ true → IsClosed result }
    {
        for _ in rt.forever() {
            match self.try_enter(pass) {
                Enter::Lost(lost) => pass = lost,
                outcome => return outcome,
            }
        }
        unreachable!()
    }

    /// Like [`Gate::enter`], by a caller that holds a unit. The result is `Entered` or `Full`.
    ///
    /// Work that creates more work enters this way, so it never finds the gate closed.
    pub fn enter_beside<R: Wait>(&self, rt: &R, held: &mut Unit, mut pass: Pass) -> Enter
        requires held { IsSeatOf self.now held.old }
        requires pass { IsSeatOf self.now pass }
        ensures words { EntersAtLastHolding held.old held.new pass result }
        ensures gate { IsSeatOf self.now held.new × GivesSeatOf self.now result }
        ensures never_closed { ¬ IsClosed result }
        ensures never_lost { ¬ IsLost result }
    {
        for _ in rt.forever() {
            match self.try_enter_beside(held, pass) {
                Enter::Lost(lost) => pass = lost,
                outcome => return outcome,
            }
        }
        unreachable!()
    }

    // The exchange of a try, after its load found the gate open with this count.
    fn take_unit(&self, pass: Pass, count: u64) -> Result<Unit, Pass>
        requires gate { IsSeatOf self.now pass }
        requires room { count < self.now.max_pending }
        ensures { MatchResult result
            (λ unit. (knows_closed pass.view ≡ false) × (unit ≡ after_entering pass (open_at count)))
            (λ back. (x : Word) × (x ≢ open_at count) × (back ≡ after_losing pass x)) }
    {
        let Pass { mut seat } = pass;
        let found = self
            .table
            .shared
            .compare_exchange::<TakeUnit>(&mut seat, 0, count, count + 1);
        if found == count {
            Ok(Unit { seat })
        } else {
            Err(Pass { seat })
        }
    }
}
