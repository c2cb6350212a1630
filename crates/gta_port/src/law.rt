//! The limit of a read as a number, which other clauses name by its constant.
ghost use Rattle.std.specs.Prelude.{◌≡◌};
ghost use Rattle.gta_port.specs.declared.reading.TheConstants.{LARGEST_LIMIT};

/// How many bytes a read may be limited to. It does nothing: the number is its contract.
pub fn port_limits()
    ensures read { LARGEST_LIMIT ≡ 67108864 }
{}
