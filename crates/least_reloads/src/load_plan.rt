//! Plans by which pages come into frames.

use sgx_types::names::Page;
use std::marker::Model;

/// What happens before an access: the pages of `out` leave their frames, and then the pages of `load` are loaded. Any two
/// lists of pages can be a step; `check` tells whether a plan's can be done.
#[derive(Drop)]
pub struct Step {
    pub out: Vec<Page>,
    pub load: Vec<Page>,
}

impl Model for Step {
    ghost use Rattle.least_reloads.specs.Plans.{StepView};

    ghost Value = { StepView };

    ghost view = { λ s. record { out = s.out.items; load = s.load.items } };
}

/// Steps, one for each access, and how many loads they make in all.
#[derive(Drop)]
pub struct LoadPlan {
    pub steps: Vec<Step>,
    pub loads: u64,
}

impl Model for LoadPlan {
    ghost use Rattle.least_reloads.specs.Plans.{PlanView};

    ghost Value = { PlanView };

    ghost view = { λ p. record { steps = p.steps.items; loads = p.loads } };
}
