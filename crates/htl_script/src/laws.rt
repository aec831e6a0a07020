// What scripts say, for callers to rest on. Each law is a statement that the check has proved; there is nothing to run.
ghost use Rattle.htl_script.specs.Laws.{FunctionsDecideNoScript, WholeScriptsEnd};

/// A script says the same of tables, whatever functions they have.
pub fn functions_decide_no_script()
    ensures { FunctionsDecideNoScript }
{}

/// The events of a whole script are well formed, and the last one ends the run at the script's end.
pub fn whole_scripts_end()
    ensures { WholeScriptsEnd }
{}
