//! What a run begins with. A law is the contract of a function without arguments.

ghost use Rattle.driver_laws.specs.inner.Three.{TcsAreApart};
ghost use Rattle.job_grammar.specs.Jobs.{JobView};
ghost use Rattle.job_grammar.specs.inner.Valid.{IsValid};

/// No two scripts of a valid job name one TCS page.
pub fn valid_jobs_have_their_tcs_apart()
    ensures { (j : JobView) → IsValid j → TcsAreApart j }
{}
