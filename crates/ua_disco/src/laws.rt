//! Laws of the definitions of settings and answers.

ghost use Rattle.ua_disco.specs.OneApplication.{OneApplication};
ghost use Rattle.ua_disco.specs.ReadingLaws.{LeastUnknown};

/// The unknown key that a fault of the settings names is the least of its table's unknown keys, by their bytes, in
/// whatever order the keys stand.
pub fn least_unknown()
    ensures { LeastUnknown }
{}

/// Settings of one application answer as that application does: FindServers has it where its URI is asked for, and is
/// empty otherwise, and it is the server of each endpoint. So version 1 of the settings answers what it answered before
/// there was a list.
pub fn one_application()
    ensures { OneApplication }
{}
