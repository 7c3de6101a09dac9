// One meter of tries serves the whole run, docs/RULES.md, "Budget". A try is charged to a meter that is lent; the meter behind it
// is computed by value.
ghost use Rattle.std.specs.Prelude.{◌≡◌};
ghost use Rattle.search.specs.Meters.{asked_of, after_try};

// The budget, and how many tries are spent.
#[derive(Clone, Copy)]
pub struct Meter {
    pub budget: u32,
    pub spent: u32,
}

impl Meter {
    // The meter behind a try: one more is spent, unless the budget is.
    // Rules out: a try over the budget; the budget counted down.
    pub fn after_try(self) -> Meter
        ensures { result ≡ after_try self }
    {
        if self.spent < self.budget {
            Meter {
                spent: self.spent + 1,
                ..self
            }
        } else {
            self
        }
    }

    // Charges the meter, which is lent, with a try.
    // Rules out: a copy that is charged; two tries for one; a meter spent over the budget.
    pub fn charge(&mut self)
        ensures { self.new ≡ after_try self.old }
    {
        let after = self.after_try();
        *self = after;
    }

    // A try, which is given unless the budget is spent: the meter behind it, which is a copy that has been charged.
    // Rules out: a try at the budget; a try that is not counted; the budget counted down.
    pub fn ask_try(self) -> Option<Meter>
        ensures { result ≡ asked_of self }
    {
        let mut after = self;
        after.charge();
        if self.spent < after.spent {
            Some(after)
        } else {
            None
        }
    }
}
