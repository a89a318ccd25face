// The law of a history that many workers made.
ghost use Rattle.merged_runs.specs.Merge.{MadeHistoriesRun};

/// A history that the workers of all vCPUs made is that of the plain run along its order.
pub fn merge()
    ensures law { MadeHistoriesRun }
{}
