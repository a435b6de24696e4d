//! Laws of the definitions. Each one is the contract of a function with an empty body.
ghost use Rattle.bcs_registry_model.specs.Laws.{GrowthKeepsAdmitting};
ghost use Rattle.bcs_registry.specs.TextLaws.{OneFault, OneFormat, OneFormatFault, OneRegistry, SomeFormat, SomeRegistry, FormatOrFault, RegistryOrFault};

/// A JSON value represents at most one format.
pub fn one_format()
    ensures { OneFormat }
{}

/// A JSON value represents at most one registry.
pub fn one_registry()
    ensures { OneRegistry }
{}

/// A JSON document with the shape of a format and its numbers in range represents a format.
pub fn some_format()
    ensures { SomeFormat }
{}

/// A JSON document with the shape of a registry and its numbers in range represents a registry.
pub fn some_registry()
    ensures { SomeRegistry }
{}

/// A document has at most one least fault as a registry, and none if it represents a well-formed one.
pub fn one_fault()
    ensures { OneFault }
{}

/// A document has at most one least fault as a format of a registry, and none if it represents one that is admitted.
pub fn one_format_fault()
    ensures { OneFormatFault }
{}

/// Each document represents a well-formed registry or has a least fault.
pub fn registry_or_fault()
    ensures { RegistryOrFault }
{}

/// Each document represents a format that is admitted or has a least fault.
pub fn format_or_fault()
    ensures { FormatOrFault }
{}

/// If a registry grows, it still admits all formats that it admitted before.
pub fn growth_keeps_admitting()
    ensures { GrowthKeepsAdmitting }
{}
