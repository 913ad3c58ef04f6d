// A study is branched, an order is given to the new variant, and a variant is retired.
ghost use Rattle.std.specs.Prelude.{◌≡◌, ◌<◌, false, is_ok, IfErr};
ghost use Rattle.std.specs.Result.{result_err};
ghost use Rattle.account.specs.Account.{branch, decide, waive, retire};
ghost use Rattle.account.specs.Answers.{variant, done};
ghost use Rattle.follows.specs.View.{branched, decided, retired, waived};
ghost use Rattle.study.specs.Branches.{branch_fault, permit_fault, decide_fault, retire_fault, why};
ghost use Rattle.study.specs.Promises.{Answers, Keeps, SameParts, Tells, view_of};

use crate::Study;
use crate::fault::StudyFault;
use crate::permit::{Denied, Permit};
use calendar::Calendar;
use group::{Group, VARIANTS};
use model::Model;

impl<C: Calendar, M: Model> Study<C, M> {
    fn check_branch(&self, v: u8) -> Result<(), StudyFault>
        ensures { result_err result ≡ branch_fault (view_of C.meaning self.now) v }
    {
        self.register.check_decided(v)?;
        if self.register.made >= VARIANTS {
            return Err(StudyFault::Made);
        }
        Ok(())
    }

    // The next variant joins every group of v, and has its copies.
    fn add_child(&mut self, v: u8) -> Permit
        requires parent { v < 16 }
        requires child { self.old.register.made < 16 }
        ensures permit { result ≡ self.old.register.made }
        ensures held { view_of C.meaning self.new ≡ branched (view_of C.meaning self.old) v }
        ensures same { SameParts C.meaning self.old self.new }
    {
        let child = self.register.made;
        self.calendar.spread(v, child);
        self.copies.branch(v, child);
        self.journal.spread(v, child);
        self.register.made = child + 1;
        self.register.live = self.register.live.with(child);
        self.register.undecided = self.register.undecided.with(child);
        Permit { variant: child }
    }

    // Gives v a child with the next number, and a permit for it. The child is undecided until the permit is spent, and shares every copy with v until then.
    pub fn branch(&mut self, v: u8) -> Result<Permit, StudyFault>
        ensures told { Tells C.meaning M.meaning self.old (branch v) variant result }
        ensures unchanged { is_ok result ≡ false → self.new ≡ self.old }
        ensures same { SameParts C.meaning self.old self.new }
        ensures answer { Answers C.meaning M.meaning self.old (branch v) variant result }
        ensures keeps { Keeps C.meaning M.meaning self.old (branch v) self.new }
    {
        self.check_branch(v)?;
        Ok(self.add_child(v))
    }

    // v is an undecided variant of a loaded study.
    fn check_permit(&self, v: u8) -> Result<(), StudyFault>
        ensures { result_err result ≡ permit_fault (view_of C.meaning self.now) v }
    {
        self.register.check_loaded()?;
        if !self.register.undecided.has(v) {
            return Err(StudyFault::Permit);
        }
        Ok(())
    }

    fn check_order(&self, v: u8, place: u8) -> Result<(), StudyFault>
        ensures { result_err result ≡ decide_fault (M.meaning self.now.model) (view_of C.meaning self.now) v place }
    {
        self.check_permit(v)?;
        self.check_place(place)?;
        if !self.fits_decided(v, place) {
            return Err(StudyFault::Copies);
        }
        Ok(())
    }

    // An order stands from now on at a place of v, on a copy of its own.
    fn give_order(&mut self, v: u8, place: u8, order: u32)
        requires { place < 32 }
        ensures held { view_of C.meaning self.new ≡ decided (M.meaning self.old.model).places (view_of C.meaning self.old) v place order }
        ensures same { SameParts C.meaning self.old self.new }
    {
        let alone = Group::single(v);
        let cell = self
            .copies
            .target(self.register.live, alone, self.model.places(), place, v);
        let mut held = self.copies.place(v, place);
        held.order = order;
        self.copies.put(alone, place, cell, held);
        self.register.decide(v);
    }

    // Spends the permit on an order for one place of its variant. A denied call hands it back.
    pub fn decide(&mut self, permit: Permit, place: u8, order: u32) -> Result<(), Denied>
        ensures told { Tells C.meaning M.meaning self.old (decide permit place order) (λ _. done) (why result) }
        ensures back { IfErr result (λ denied. denied.permit ≡ permit) }
        ensures unchanged { is_ok result ≡ false → self.new ≡ self.old }
        ensures same { SameParts C.meaning self.old self.new }
        ensures answer { Answers C.meaning M.meaning self.old (decide permit place order) (λ _. done) (why result) }
        ensures keeps { Keeps C.meaning M.meaning self.old (decide permit place order) self.new }
    {
        if let Err(fault) = self.check_order(permit.variant, place) {
            return Err(Denied { permit, fault });
        }
        let Permit { variant } = permit;
        self.give_order(variant, place, order);
        Ok(())
    }

    // v is undecided no more.
    fn set_decided(&mut self, v: u8)
        ensures held { view_of C.meaning self.new ≡ waived (view_of C.meaning self.old) v }
        ensures same { SameParts C.meaning self.old self.new }
    {
        self.register.decide(v);
    }

    // Spends the permit on no order. It is taken, denied or not.
    pub fn waive(&mut self, permit: Permit) -> Result<(), StudyFault>
        ensures told { Tells C.meaning M.meaning self.old (waive permit) (λ _. done) result }
        ensures unchanged { is_ok result ≡ false → self.new ≡ self.old }
        ensures same { SameParts C.meaning self.old self.new }
        ensures answer { Answers C.meaning M.meaning self.old (waive permit) (λ _. done) result }
        ensures keeps { Keeps C.meaning M.meaning self.old (waive permit) self.new }
    {
        let Permit { variant } = permit;
        self.check_permit(variant)?;
        self.set_decided(variant);
        Ok(())
    }

    fn check_retire(&self, v: u8) -> Result<(), StudyFault>
        ensures { result_err result ≡ retire_fault (view_of C.meaning self.now) v }
    {
        self.register.check_decided(v)?;
        if self.register.live.size() <= 1 {
            return Err(StudyFault::Last);
        }
        Ok(())
    }

    // v leaves every group, and what no variant has left is dropped.
    fn remove(&mut self, v: u8)
        ensures held { view_of C.meaning self.new ≡ retired (view_of C.meaning self.old) v }
        ensures same { SameParts C.meaning self.old self.new }
    {
        self.calendar.erase(v);
        self.journal.erase(v);
        self.register.live = self.register.live.without(v);
    }

    // Ends a variant. Copies and entries that no live one has are free for use.
    pub fn retire(&mut self, v: u8) -> Result<(), StudyFault>
        ensures told { Tells C.meaning M.meaning self.old (retire v) (λ _. done) result }
        ensures unchanged { is_ok result ≡ false → self.new ≡ self.old }
        ensures same { SameParts C.meaning self.old self.new }
        ensures answer { Answers C.meaning M.meaning self.old (retire v) (λ _. done) result }
        ensures keeps { Keeps C.meaning M.meaning self.old (retire v) self.new }
    {
        self.check_retire(v)?;
        self.remove(v);
        Ok(())
    }
}
