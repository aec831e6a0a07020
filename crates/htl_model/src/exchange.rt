//! The laws of tables whose functions are exchanged. Each is a statement that the check has proved; there is nothing to run.
ghost use Rattle.htl_model.specs.Exchanged.{FunctionsDecideRuns, FunctionsDecideNoRule};

/// Functions that mean the same give the same values, modes, lines and texts.
pub fn functions_decide_runs()
    ensures { FunctionsDecideRuns }
{}

/// Tables break the same form rules, at the same sites and with the same numbers, whatever their functions are.
pub fn functions_decide_no_rule()
    ensures { FunctionsDecideNoRule }
{}
