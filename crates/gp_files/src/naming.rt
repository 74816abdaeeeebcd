ghost use Rattle.gp_files.specs.Naming.{NamesTellApart};

/// Files of different names have different paths in every directory.
pub fn names_tell_apart()
    ensures { NamesTellApart }
{}
