//! The sets of a model.

ghost use Rattle.std.specs.Prelude.{◌≡◌, ◌+◌, ◌<◌, ◌≤◌, ◌++◌, [], ◌∷◌, None, Some, length, slice_index_or, IfOk, IfErr, OnOk, OnErr, IfSome};
ghost use Rattle.model_sets.specs.Names.{IsSet, year};
ghost use Rattle.model_sets.specs.Members.{no_members, members, with_member, index_of, first_refusal, first_empty, empty_set, years, first_year, last_year, AreSets};
ghost use Rattle.model_sets.specs.Years.{IsYear, IsLeast, IsGreatest};
ghost use Rattle.model_sets.specs.Refusals.{IsDueTo};

use crate::fault::{BAD_YEAR, EMPTY_SET, SetFail, SetFault, TOO_MANY, TWICE_IN_SET};
use crate::limits::limit_of;
use crate::member_list::MemberList;
use crate::set_numbers::{FUEL, MODE_OF_OPERATION, REGION, SET_COUNT, TECHNOLOGY, TIMESLICE, YEAR};
use crate::years::year_of;
use std::alloc::{AllocError, Global};
use std::marker::Model;

/// The sets that must have a member, in the order in which they are asked: REGION, TECHNOLOGY, FUEL,
/// MODE_OF_OPERATION, TIMESLICE, YEAR.
const REQUIRED_SETS: [u8; 6] = [REGION, TECHNOLOGY, FUEL, MODE_OF_OPERATION, TIMESLICE, YEAR];

/// The members of the eleven sets, each set's in the order in which they were added. No name stands twice
/// in a set, no set passes its limit, and each member of YEAR is a whole number from 1 to 9999, written
/// without sign and without leading zeros.
///
/// A call that takes the number of a set needs a number from 1 to 11.
#[derive(Drop)]
pub struct Sets {
    alloc: Global,
    lists: Vec<MemberList>,
}

impl Model for Sets {
    ghost use Rattle.model_sets.specs.Members.{SetLists, AreSets};

    ghost Value = { SetLists };

    ghost view = { λ sets. sets.lists.items };

    ghost invariant = { λ sets. AreSets sets.lists.items };
}

impl Sets {
    /// Sets without members. Refuses only where memory runs out.
    pub fn new(alloc: Global) -> Result<Sets, AllocError>
        ensures { IfOk result (λ sets. sets ≡ no_members) }
    {
        let mut lists = Vec::with_capacity(alloc, SET_COUNT)?;
        for _ in 0..SET_COUNT {
            lists.push(MemberList::new(alloc))?;
        }
        Ok(Sets { alloc, lists })
    }

    /// The members of the set.
    fn list(&self, set: u8) -> &MemberList
        requires { IsSet set }
        ensures list { result.now ≡ members self.now set }
        ensures rules { AreSets self.now }
    {
        &self.lists[usize::from(set - 1)]
    }

    /// Why the name can't become a member of the set: the number of the first rule that refuses it.
    fn refusal(&self, set: u8, name: &[u8]) -> Option<u8>
        requires { IsSet set }
        ensures { result ≡ first_refusal self.now set name.now }
    {
        if set == YEAR && year_of(name).is_none() {
            return Some(BAD_YEAR);
        }
        let list = self.list(set);
        if list.contains(name) {
            return Some(TWICE_IN_SET);
        }
        if list.len() >= usize::from(limit_of(set)) {
            return Some(TOO_MANY);
        }
        None
    }

    /// Adds a member to the set, and answers its position. Refuses, in this order, a member of YEAR that
    /// isn't a whole number from 1 to 9999 written without sign and without leading zeros (3), a name
    /// that stands in the set already (1), and a member past the set's limit (4), and last when memory
    /// runs out. A refusal changes nothing.
    pub fn add(&mut self, set: u8, name: &[u8]) -> Result<u16, SetFail>
        requires { IsSet set }
        ensures appended { OnOk result (self.new ≡ with_member self.old set name.now) }
        ensures position { IfOk result (λ i. i ≡ length (members self.old set)) }
        ensures taken { OnOk result (first_refusal self.old set name.now ≡ None) }
        ensures refused { IfErr result (λ fail. IsDueTo (first_refusal self.old set name.now) set fail) }
        ensures unchanged { OnErr result (self.new ≡ self.old) }
    {
        if let Some(no) = self.refusal(set, name) {
            return Err(SetFail::Fault(SetFault { no, set }));
        }
        let alloc = self.alloc;
        let list = &mut self.lists[usize::from(set - 1)];
        let index = list.len() as u16;
        list.append(alloc, name)?;
        Ok(index)
    }

    /// Whether each set that must have a member has one. Refuses the first without members of REGION,
    /// TECHNOLOGY, FUEL, MODE_OF_OPERATION, TIMESLICE and YEAR (2).
    pub fn finish(&self) -> Result<(), SetFault>
        ensures whole { OnOk result (first_empty self.now ≡ None) }
        ensures empty { IfErr result (λ fault. (fault.no ≡ empty_set) × (first_empty self.now ≡ Some fault.set)) }
    {
        for set in REQUIRED_SETS.iter() {
            if self.count(*set) == 0 {
                return Err(SetFault {
                    no: EMPTY_SET,
                    set: *set,
                });
            }
        }
        Ok(())
    }

    /// The position of the member of this name, or `None` where the set has no such member.
    pub fn index_of(&self, set: u8, name: &[u8]) -> Option<u16>
        requires { IsSet set }
        ensures index { result ≡ index_of (members self.now set) name.now }
        ensures within { IfSome result (λ i. i < length (members self.now set)) }
    {
        let index = self.list(set).index_of(name)?;
        Some(index as u16)
    }

    /// The name of the member at the position.
    pub fn name_of(&self, set: u8, i: u16) -> &[u8]
        requires set { IsSet set }
        requires within { i < length (members self.now set) }
        ensures { result.now ≡ slice_index_or (members self.now set) i [] }
    {
        self.list(set).name_at(usize::from(i))
    }

    /// How many members the set has.
    pub fn count(&self, set: u8) -> u16
        requires { IsSet set }
        ensures count { result ≡ length (members self.now set) }
        ensures rules { AreSets self.now }
    {
        self.list(set).len() as u16
    }

    /// The year at the position in the set YEAR.
    pub fn year(&self, i: u16) -> u16
        requires { i < length (members self.now year) }
        ensures number { result ≡ slice_index_or (years self.now) i 0 }
        ensures spelled { IsYear (slice_index_or (members self.now year) i []) result }
    {
        let list = self.list(YEAR);
        year_of(list.name_at(usize::from(i))).unwrap()
    }

    /// The least year.
    pub fn first_year(&self) -> u16
        requires { 0 < length (members self.now year) }
        ensures number { result ≡ first_year self.now }
        ensures least { IsLeast (years self.now) result }
    {
        let mut first = self.year(0);
        for i in 1..self.count(YEAR) {
            first = first.min(self.year(i));
        }
        first
    }

    /// The greatest year.
    pub fn last_year(&self) -> u16
        requires { 0 < length (members self.now year) }
        ensures number { result ≡ last_year self.now }
        ensures greatest { IsGreatest (years self.now) result }
    {
        let mut last = 0;
        for i in 0..self.count(YEAR) {
            last = last.max(self.year(i));
        }
        last
    }
}
