ghost use Rattle.gp_json.specs.Reading.{StringsReadBack};

/// A string is read as its bytes, whatever stands behind it.
pub fn strings_read_back()
    ensures { StringsReadBack }
{}
