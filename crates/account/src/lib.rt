//! Accounts of units.

#![tactic(auto)]

ghost use Rattle.std.specs.Prelude.{◌≡◌, ◌+◌, ◌-◌, ◌≤◌, false, is_ok, MatchResult, nat_le};
ghost use Rattle.account.specs.Accounts.{grant_limit, grant_refused, holding, held_after, held_settled, spent_settled};

use fault::{Cause, Fault, Layer};

/// The most units that can be granted.
pub const GRANT_LIMIT: u32 = 1_000_000;

/// Units granted, spent and held. Spent and held together never exceed the grant.
#[derive(Drop)]
pub struct Account {
    grant: u32,
    spent: u32,
    held: u32,
    ghost covered: { spent + held ≤ grant },
    ghost limited: { grant ≤ grant_limit },
}

impl Account {
    /// An account with nothing spent or held; refused where the grant is above 1,000,000.
    pub fn new(grant: u32) -> Result<Account, Fault>
        ensures made { MatchResult result (λ a. (a.grant ≡ grant) × (a.spent ≡ 0) × (a.held ≡ 0)) (λ f. f ≡ grant_refused grant) }
        ensures lawful { is_ok result ≡ nat_le grant grant_limit }
    {
        if grant > GRANT_LIMIT {
            Err(Cause::OutOfRange(grant).by(Layer::Account))
        } else {
            Ok(Account {
                grant,
                spent: 0,
                held: 0,
            })
        }
    }

    /// The units granted.
    pub fn grant(&self) -> u32
        ensures { result ≡ self.now.grant }
    {
        self.grant
    }

    /// The units spent.
    pub fn spent(&self) -> u32
        ensures { result ≡ self.now.spent }
    {
        self.spent
    }

    /// The units held.
    pub fn held(&self) -> u32
        ensures { result ≡ self.now.held }
    {
        self.held
    }

    /// The units that are neither spent nor held.
    pub fn free(&self) -> u32
        ensures { result ≡ self.now.grant - self.now.spent - self.now.held }
    {
        self.grant - self.spent - self.held
    }

    /// Holds units; refused, with nothing changed, where fewer are free.
    pub fn hold(&mut self, units: u32) -> Result<(), Fault>
        ensures answer { result ≡ holding (self.old.grant - self.old.spent - self.old.held) units }
        ensures kept { (self.new.grant ≡ self.old.grant) × (self.new.spent ≡ self.old.spent) }
        ensures held { self.new.held ≡ held_after (self.old.grant - self.old.spent - self.old.held) self.old.held units }
        ensures refused { is_ok result ≡ false → self.new ≡ self.old }
    {
        if units > self.free() {
            return Err(Cause::OverBudget(units).by(Layer::Account));
        }
        self.held += units;
        Ok(())
    }

    /// Ends a hold of units, of which `spent` are spent and the others free again.
    pub fn settle(&mut self, units: u32, spent: u32)
        ensures granted { self.new.grant ≡ self.old.grant }
        ensures held { self.new.held ≡ held_settled self.old.held units }
        ensures spent { self.new.spent ≡ spent_settled self.old.spent self.old.held units spent }
    {
        let ended = units.min(self.held);
        self.held -= ended;
        self.spent += spent.min(ended);
    }
}
