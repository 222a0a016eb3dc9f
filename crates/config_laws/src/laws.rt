// Which tables and which configurations are accepted.
ghost use Rattle.config_laws.specs.Document.{ConfigurationsAreAccepted, FilesAreAccepted};
ghost use Rattle.config_laws.specs.Refusals.{DetailsAreRefused, DocumentsAreRefused, LayoutsAreRefused};
ghost use Rattle.config_laws.specs.Walk.{TablesAreAccepted, TablesAreRefused};

/// Law: whatever the rules of a table are, its reading gives entries exactly where there are at
/// most as many as the rules allow, each has only listed keys and good values, and none repeats an
/// earlier one. And it gives an error exactly where there are too many and the error says so at the
/// first one over the limit, or where the error is what the first entry that is refused is refused
/// for, after earlier ones that are accepted.
pub fn tables_are_accepted<X>()
    ensures accepted { TablesAreAccepted X }
    ensures refused { TablesAreRefused X }
{}

/// Law: a document is read as a configuration exactly where it says it, and so is a file exactly
/// where it is UTF-8 and such a document.
pub fn configurations_are_accepted()
    ensures documents { ConfigurationsAreAccepted }
    ensures files { FilesAreAccepted }
{}

/// Law: the tables are read one after another, and the first one that is refused decides, each
/// whole before the next: of what the intersection has, and of what is said of that. So it is of a
/// whole document whose keys and single values are good.
pub fn first_table_decides()
    ensures layouts { LayoutsAreRefused }
    ensures details { DetailsAreRefused }
    ensures documents { DocumentsAreRefused }
{}
