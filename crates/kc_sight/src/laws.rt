// What the definitions say.
ghost use Rattle.kc_sight.specs.Laws.{HoldersAreRows, SightsStand, SymbolsAreNearest, SymbolsAreRows, SymbolsFromAreRows};

use kc_memory::know_places;

/// Does nothing. Each word that is seen of an address stands in the dump at the place where it is seen; and the symbols
/// of a map that is read are those of its rows, of which none that isn't above the address is higher than the nearest; and so are those
/// whose words hold a value.
pub fn know_sights()
    ensures stand { SightsStand }
    ensures symbols { SymbolsAreRows }
    ensures from { SymbolsFromAreRows }
    ensures nearest { SymbolsAreNearest }
    ensures holders { HoldersAreRows }
{
    know_places();
}
