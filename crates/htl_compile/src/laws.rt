//! The laws of compiling, which crates above build on. Each is a statement that the check has proved; there is nothing to run.
ghost use Rattle.htl_compile.specs.Laws.{BuiltIsAccepted, CodedRunsTheSame, OneTables, SourceTablesFit, NoneForOverloaded, FrontOnlyMemory, BackOnlyMemory, CompileOnlyMemory, BulkHasTables, OneFrontFault, OneBackFault, OneCompileFault};

/// The object of tables in range that keep the limits and the form rules, whose functions are typed, and of whose
/// paths none is overloaded, is accepted, for whatever platform it is named.
pub fn built_is_accepted()
    ensures { BuiltIsAccepted }
{}

/// With code in the place of functions, tables have the same states, values, modes and lines.
pub fn coded_runs_the_same()
    ensures { CodedRunsTheSame }
{}

/// A source has one list of tables at most.
pub fn one_tables()
    ensures { OneTables }
{}

/// The tables of a source of at most 1,048,576 bytes are in range and keep the limits on root selections and positions, and each of
/// their functions is an expression of at most 512 nodes over at most 256 arguments that are there.
pub fn source_tables_fit()
    ensures { SourceTablesFit }
{}

/// Where a path of tables that keep the form rules is overloaded, no lists whatever are accepted for it.
pub fn none_for_overloaded()
    ensures { NoneForOverloaded }
{}

/// A source with tables whose functions are typed has no fault, but that memory may run out.
pub fn front_only_memory()
    ensures { FrontOnlyMemory }
{}

/// Tables that break no form rule and have no overloaded path have no fault, but that memory may run out.
pub fn back_only_memory()
    ensures { BackOnlyMemory }
{}

/// A source has no fault, but that memory may run out, where it has tables whose functions are typed, that break no form rule and
/// have no overloaded path.
pub fn compile_only_memory()
    ensures { CompileOnlyMemory }
{}

/// The source of the generated program, of 1 to 64 modules, has no fault: it has tables, whose functions are typed, that break no
/// form rule and have no overloaded path.
pub fn bulk_has_tables()
    ensures { BulkHasTables }
{}

/// A source has one fault at most beside want of memory.
pub fn one_front_fault()
    ensures { OneFrontFault }
{}

/// Tables in range have one fault at most beside want of memory.
pub fn one_back_fault()
    ensures { OneBackFault }
{}

/// Compiling a source has one fault at most beside want of memory.
pub fn one_compile_fault()
    ensures { OneCompileFault }
{}
