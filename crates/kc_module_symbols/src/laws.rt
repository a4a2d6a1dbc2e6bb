// What the definitions say.
ghost use Rattle.kc_module_symbols.specs.Laws.{NearestStands, NoneNames};

/// Does nothing. A symbol that is told is one of the table's that may name the address, none of them stands nearer, and none before it as
/// near; and where none is told, none may.
pub fn know_module_symbols()
    ensures stand { NearestStands }
    ensures none { NoneNames }
{}
