//! A law of a machine. It is a statement that the check has proved; there is nothing to run.
ghost use Rattle.htl_machine.specs.Quiet.{QuietInstantsPass};

/// Over instants at which nothing is due, whatever their number, what a machine follows carries over unchanged, and at none of them is
/// there an E instruction, a record or a line.
pub fn quiet_instants_pass()
    ensures { QuietInstantsPass }
{}
