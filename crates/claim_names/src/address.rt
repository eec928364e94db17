// The addresses of the parts of a claim tree.
ghost use Rattle.std.specs.Prelude.{◌≡◌, IfOk, OnOk, OnErr, [], ◌∷◌, ◌++◌, ◌<◌, ◌-◌, length, take};

use crate::error::NoMemory;
use crate::name::Name;
use std::alloc::Global;
use std::cmp::Ordering;
use std::marker::Model;

/// One step from a list or a record to a part of it: the name of a member, or the place of an element,
/// counted from 0.
///
/// Names are ordered by their bytes and places by number. Every name is less than every place.
#[derive(Drop, PartialEq, Eq, PartialOrd, Ord)]
pub enum Step {
    Name(Name),
    Place(u64),
}

impl Step {
    /// A copy of the step.
    pub fn copy(&self, alloc: Global) -> Result<Step, NoMemory>
        ensures { IfOk result (λ s. s ≡ self.now) }
    {
        match self {
            Step::Name(name) => Ok(Step::Name(name.copy(alloc)?)),
            Step::Place(place) => Ok(Step::Place(*place)),
        }
    }
}

/// The steps from the root of a claim tree to one of its parts. The root itself has no steps.
///
/// Addresses are ordered step by step. An address is less than every longer one that begins with it.
#[derive(Drop)]
pub struct Address {
    steps: Vec<Step>,
}

impl Model for Address {
    ghost use Rattle.std.specs.Prelude.{List};
    ghost use Rattle.claim_names.specs.declared.address.Step.{Step};

    ghost Value = { List Step };

    ghost view = { λ a. a.steps.items };
}

impl Address {
    /// The address of the root. This takes no memory.
    pub fn root(alloc: Global) -> Address
        ensures { result ≡ [] }
    {
        Address {
            steps: Vec::new(alloc),
        }
    }

    /// The steps, the one from the root first.
    pub fn steps(&self) -> &[Step]
        ensures { result.now ≡ self.now }
    {
        self.steps.as_slice()
    }

    /// Adds a step at the end.
    pub fn push(&mut self, step: Step) -> Result<(), NoMemory>
        ensures ok { OnOk result (self.new ≡ self.old ++ step ∷ []) }
        ensures err { OnErr result (self.new ≡ self.old) }
    {
        self.steps.push(step)?;
        Ok(())
    }

    /// Takes off the last step.
    pub fn pop(&mut self)
        requires { 0 < length self.old }
        ensures { self.new ≡ take (length self.old - 1) self.old }
    {
        let _last = self.steps.pop();
    }

    /// A copy of the address.
    pub fn copy(&self, alloc: Global) -> Result<Address, NoMemory>
        ensures { IfOk result (λ a. a ≡ self.now) }
    {
        Ok(Address {
            steps: copy_steps(alloc, &self.steps)?,
        })
    }
}

fn copy_steps(alloc: Global, steps: &[Step]) -> Result<Vec<Step>, NoMemory>
    ensures { IfOk result (λ v. v.items ≡ steps.now) }
{
    let mut copies = Vec::with_capacity(alloc, steps.len())?;
    for step in steps {
        copies.push(step.copy(alloc)?)?;
    }
    Ok(copies)
}

impl PartialEq for Address {
    ghost use Rattle.std.specs.Cmp.{partial_equiv_from_equiv, eq_by_cmp_equiv};
    ghost use Rattle.std.specs.Ordering.{eq_by_cmp};
    ghost use Rattle.claim_names.specs.Order.{address_cmp, address_cmp_total};

    ghost eq = { eq_by_cmp address_cmp };

    ghost laws = { partial_equiv_from_equiv (eq_by_cmp_equiv address_cmp_total) };

    fn eq(&self, other: &Address) -> bool {
        self.cmp(other).is_eq()
    }
}

impl Eq for Address {
    ghost use Rattle.std.specs.Cmp.{eq_by_cmp_equiv};
    ghost use Rattle.claim_names.specs.Order.{address_cmp_total};

    ghost laws = { eq_by_cmp_equiv address_cmp_total };
}

impl PartialOrd for Address {
    ghost use Rattle.std.specs.Prelude.{Some, refl};
    ghost use Rattle.std.specs.Cmp.{partial_order_from_agreeing_total};
    ghost use Rattle.claim_names.specs.Order.{address_cmp, address_cmp_total};

    ghost partial_cmp = { λ a b. Some (address_cmp a b) };

    ghost laws = { partial_order_from_agreeing_total address_cmp address_cmp_total (λ a b. refl) (λ a b.
        refl) };

    fn partial_cmp(&self, other: &Address) -> Option<Ordering> {
        Some(self.cmp(other))
    }
}

impl Ord for Address {
    ghost use Rattle.std.specs.Prelude.{refl};
    ghost use Rattle.claim_names.specs.Order.{address_cmp, address_cmp_total};

    ghost cmp = { address_cmp };

    ghost total = { address_cmp_total };

    ghost matches_partial_cmp = { λ a b. refl };

    ghost matches_eq = { λ a b. refl };

    fn cmp(&self, other: &Address) -> Ordering {
        self.steps().cmp(other.steps())
    }
}
