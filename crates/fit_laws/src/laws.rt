// A law over the definitions of `queue_rows`, a function without a body.
ghost use Rattle.fit_laws.specs.FitLaws.{FitIsLocal};

/// After a commit of local changes, what it names tells whether the tables are valid.
pub fn fit_is_local()
    ensures { FitIsLocal }
{}
