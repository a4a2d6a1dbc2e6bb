// What the files that are made of a dump say of it, for a reader to believe and a caller to learn.
ghost use Rattle.kc_files.specs.Laws.{LinkedRuns, MapSpellsSymbols, ModuleTypesLie, TypesLieBetween};
ghost use Rattle.kc_files.specs.Ring.{ModulesAreTheRing};

/// Does nothing. Each line of the map spells the row of its symbol, and there is no other line. The types are the bytes between the two
/// symbols, and each of them is that of a word which stands in the dump. So is each byte of a module's types, which lie where the `struct btf` of
/// a module with the name says. The list of modules has a line for each module of the kernel's ring, in the ring's order, none twice and none left
/// out, and each line has what the module's struct has in the dump. An address of the kernel's image that a map lists as linked is that address again at run time.
pub fn know_files()
    ensures map { MapSpellsSymbols }
    ensures types { TypesLieBetween }
    ensures module_types { ModuleTypesLie }
    ensures modules { ModulesAreTheRing }
    ensures linked { LinkedRuns }
{}
